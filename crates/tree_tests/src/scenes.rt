//! Caches over files in memory that have one tree.

use crate::boxes::point;
use crate::calls::{FOUR, insert_tree};
use block_device::{BlockDevice, MemoryDevice};
use node_page::Entry;
use page_cache::PageCache;
use page_file::{Fault, PageFile, Version, open_pages};
use std::alloc::{Allocator, Global};
use test_caches::bare;

/// Points as numbers: the reference and the place of each.
pub type Points = &'static [(u64, i32, i32)];

/// Five points on a line, of which all ties are equal: four to a node they stand in leaves {1, 2} and {3, 4,
/// 5}.
pub const LINE: Points = &[(1, 0, 0), (2, 1, 0), (3, 2, 0), (4, 3, 0), (5, 10, 0)];

/// The points as objects with the tag 0.
pub fn objects_of(alloc: Global, points: &[(u64, i32, i32)]) -> Result<Vec<Entry<2>>, Fault> {
    let mut objects = Vec::new(alloc);
    for &(reference, x, y) in points {
        objects.push(point(reference, x, y))?;
    }
    Ok(objects)
}

/// The device of a file whose one tree was made by inserting these points, four to a node.
pub fn file_with(alloc: Global, points: &[(u64, i32, i32)]) -> Result<MemoryDevice, Fault> {
    let objects = objects_of(alloc, points)?;
    let mut cache = bare(alloc)?;
    let made = insert_tree(&mut cache, alloc, objects.as_slice(), FOUR);
    match cache.close() {
        Ok(device) => match made {
            Ok(_) => Ok(device),
            Err(fault) => Err(fault),
        },
        Err((fault, _)) => Err(fault),
    }
}

/// A cache of eight pages over the file on a device.
pub fn open_cache<B: BlockDevice + Drop, A: Allocator + Copy>(
    alloc: A,
    device: B,
) -> Result<PageCache<B, A>, Fault> {
    match open_pages(device, Version::Three) {
        Ok(file) => cache_over(alloc, file),
        Err((fault, _)) => Err(fault),
    }
}

// A cache of eight pages over a file.
fn cache_over<B: BlockDevice + Drop, A: Allocator + Copy>(
    alloc: A,
    file: PageFile<B>,
) -> Result<PageCache<B, A>, Fault> {
    match PageCache::over(alloc, file, 8) {
        Ok(cache) => Ok(cache),
        Err((fault, _)) => Err(fault),
    }
}
