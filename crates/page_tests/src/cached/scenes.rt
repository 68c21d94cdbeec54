//! The caches of these tests, over new files and over those on a device.
use crate::cached::steps::{Answer, Steps, play};
use block_device::BlockDevice;
use page_cache::PageCache;
use page_file::{Fault, PageFile, Version, create_pages, open_pages};
use std::alloc::{Allocator, Global};

/// A cache of so many pages over a new file on a device without blocks.
pub fn new_cache<D: BlockDevice + Drop, A: Allocator + Copy>(
    device: D,
    alloc: A,
    capacity: u32,
) -> Result<PageCache<D, A>, Fault> {
    if device.blocks() != 0 {
        return Err(Fault::NotAStore);
    }
    match create_pages(device) {
        Ok(file) => cache_over(file, alloc, capacity),
        Err((fault, _)) => Err(fault),
    }
}

/// A cache of so many pages over the file on a device.
pub fn open_cache<D: BlockDevice + Drop, A: Allocator + Copy>(
    device: D,
    alloc: A,
    capacity: u32,
) -> Result<PageCache<D, A>, Fault> {
    match open_pages(device, Version::Three) {
        Ok(file) => cache_over(file, alloc, capacity),
        Err((fault, _)) => Err(fault),
    }
}

// A cache of so many pages over a file.
fn cache_over<D: BlockDevice + Drop, A: Allocator + Copy>(
    file: PageFile<D>,
    alloc: A,
    capacity: u32,
) -> Result<PageCache<D, A>, Fault> {
    match PageCache::over(alloc, file, capacity.clamp(8, 4096)) {
        Ok(cache) => Ok(cache),
        Err((fault, _)) => Err(fault),
    }
}

/// Closes a cache, and answers its device.
pub fn closed<D: BlockDevice + Drop, A: Allocator + Copy>(
    cache: PageCache<D, A>,
) -> Result<D, Fault> {
    match cache.close() {
        Ok(device) => Ok(device),
        Err((fault, _)) => Err(fault),
    }
}

/// Takes the steps on a cache over the file on a device, and closes it. Answers the device, and the first
/// other answer.
pub fn played<D: BlockDevice + Drop>(
    device: D,
    alloc: Global,
    steps: Steps,
) -> Result<(D, Option<(usize, Answer)>), Fault> {
    let mut cache = open_cache(device, alloc, 8)?;
    let other = play(&mut cache, alloc, steps);
    Ok((closed(cache)?, other))
}
