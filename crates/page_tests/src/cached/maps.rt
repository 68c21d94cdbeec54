//! A plain map of pages, which says what a cache is to answer.
use crate::cached::scenes::open_cache;
use crate::cached::steps::{Answer, Step, take};
use block_device::BlockDevice;
use page_cache::PageCache;
use page_file::Fault;
use std::alloc::Allocator;

/// The byte that fills each page, `None` for a page that is not live.
pub type Map = [Option<u8>; 64];

/// Whether a plain map gives this answer to the step; it is changed as the step says.
pub fn follow(map: &mut Map, step: Step, answer: u64) -> bool {
    match step {
        Step::Allocate => {
            if answer >= 64 || map[answer as usize].is_some() {
                return false;
            }
            map[answer as usize] = Some(0);
        }
        Step::Put(n, byte) if n < 64 => map[n as usize] = Some(byte),
        Step::Free(n) if n < 64 => map[n as usize] = None,
        Step::Page(n) if n < 64 => {
            return map[n as usize].is_some_and(|byte| answer == u64::from(byte));
        }
        _ => {}
    }
    true
}

/// The number of the first page that a cache does not lend as a plain map has it, 64 if there is none.
pub fn first_other<D: BlockDevice, A: Allocator + Copy>(
    cache: &mut PageCache<D, A>,
    alloc: A,
    map: &Map,
) -> Answer {
    for n in 3..64 {
        let Some(byte) = map[n as usize] else {
            continue;
        };
        if take(cache, alloc, Step::Page(n))? != u64::from(byte) {
            return Ok(u64::from(n));
        }
    }
    Ok(64)
}

/// Whether a cache of so many pages over the file on a device lends all pages of a plain map.
pub fn is_lent<D: BlockDevice + Drop, A: Allocator + Copy>(
    device: D,
    alloc: A,
    capacity: u32,
    map: &Map,
) -> Result<bool, Fault> {
    let mut cache = open_cache(device, alloc, capacity)?;
    let other = first_other(&mut cache, alloc, map);
    Ok(other == Ok(64))
}
