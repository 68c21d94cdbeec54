//! Tests of each growth refused in turn: of each call that may take memory, and of a new cache.
use crate::cached::maps::{Map, first_other, is_lent};
use crate::cached::scenes::{closed, new_cache};
use crate::cached::steps::Step::{Allocate, Edit, Flush, Free, FreePages, Page, Put, Settle};
use crate::cached::steps::{Answer, Step, repeat, take};
use block_device::{BlockDevice, MemoryDevice};
use page_cache::PageCache;
use page_file::{Fault, Version, open_pages};
use refusing::Refusing;
use std::alloc::{Allocator, Global};
use std::test::Fail;

// Pages 3 to 11 are given out and filled with their number, and pages 12 and 13 are free.
const FILLED: [Step; 22] = [
    Allocate,
    Allocate,
    Allocate,
    Allocate,
    Allocate,
    Allocate,
    Allocate,
    Allocate,
    Allocate,
    Allocate,
    Allocate,
    Free(12),
    Free(13),
    Put(3, 3),
    Put(4, 4),
    Put(5, 5),
    Put(6, 6),
    Put(7, 7),
    Put(8, 8),
    Put(9, 9),
    Put(10, 10),
    Put(11, 11),
];

// Those pages from this number on.
fn pages_from(n: u8) -> Map {
    let mut map = [None; 64];
    for k in n..12 {
        map[k as usize] = Some(k);
    }
    map
}

// Fills the pages, and writes them unless they are to be held alone.
fn fill<D: BlockDevice, A: Allocator + Copy>(
    cache: &mut PageCache<D, A>,
    alloc: A,
    held: bool,
) -> Answer {
    repeat(cache, alloc, &FILLED, 1)?;
    repeat(cache, alloc, &[Flush], if held { 0 } else { 1 })
}

// The calls that may take memory, and the first page that is as it was where the call is refused: page 3 may
// hold any bytes where it was put or freed.
const CALLS: [(Step, u8); 8] = [
    (Page(3), 3),
    (Put(3, 9), 4),
    (Edit(3, 9), 3),
    (Allocate, 3),
    (Free(3), 4),
    (Flush, 3),
    (Settle, 3),
    (FreePages(&[13, 12]), 3),
];

// Whether growth number k of the call is made; it is refused, the pages are then as the call promises, and
// the call is made again.
fn is_refused(alloc: Global, call: (Step, u8), held: bool, k: u32) -> Result<bool, Fault> {
    let heap = Refusing::new(alloc);
    let mut cache = new_cache(MemoryDevice::new(&heap), &heap, 8)?;
    is_call_refused(&mut cache, &heap, call, held, k)
}

// The same of a cache, which is filled first.
fn is_call_refused<'a, D: BlockDevice>(
    cache: &mut PageCache<D, &'a Refusing<Global>>,
    heap: &'a Refusing<Global>,
    (step, from): (Step, u8),
    held: bool,
    k: u32,
) -> Result<bool, Fault> {
    fill(cache, heap, held)?;
    heap.refuse_from(k);
    let done = take(cache, heap, step);
    if !heap.relent() {
        return match done {
            Ok(_) => Ok(false),
            Err(fault) => Err(fault),
        };
    }
    let other = first_other(cache, heap, &pages_from(from))?;
    let again = take(cache, heap, step);
    if done == Err(Fault::Memory) && other == 64 && again.is_ok() {
        Ok(true)
    } else {
        Err(Fault::Damaged(k))
    }
}

#[test]
fn each_growth_of_a_call_is_refused(rt: HostRuntime) -> Result<(), Fail> {
    let mut refused = 0u32;
    for call in CALLS {
        for held in [false, true] {
            for k in 0..20 {
                if !is_refused(rt.alloc(), call, held, k)? {
                    break;
                }
                refused = refused.saturating_add(1);
            }
        }
    }
    // Some calls take memory, with pages held and with none.
    assert!(rt; refused > 4);
    Ok(())
}

// The device of such a cache.
fn device_of_pages(alloc: Global) -> Result<MemoryDevice, Fault> {
    let mut cache = new_cache(MemoryDevice::new(alloc), alloc, 8)?;
    let filled = fill(&mut cache, alloc, false);
    let device = closed(cache)?;
    match filled {
        Ok(_) => Ok(device),
        Err(fault) => Err(fault),
    }
}

// Whether growth number k of a new cache of so many pages is made; it is refused, and the device comes back
// with all pages, and is that of a cache again.
fn is_refused_at_once(alloc: Global, capacity: u32, k: u32) -> Result<bool, Fault> {
    let heap = Refusing::new(alloc);
    let Ok(file) = open_pages(device_of_pages(alloc)?, Version::Three) else {
        return Err(Fault::NotAStore);
    };
    heap.refuse_from(k);
    let over = PageCache::over(&heap, file, capacity.clamp(8, 4096));
    let refused = heap.relent();
    match over {
        Ok(_) => {
            if refused {
                Err(Fault::Damaged(k))
            } else {
                Ok(false)
            }
        }
        Err((fault, device)) => {
            let lent = is_lent(device, &heap, capacity, &pages_from(3))?;
            if refused && fault == Fault::Memory && lent {
                Ok(true)
            } else {
                Err(Fault::Damaged(k))
            }
        }
    }
}

#[test]
fn each_growth_of_a_new_cache_is_refused(rt: HostRuntime) -> Result<(), Fail> {
    for capacity in [9, 4096] {
        // The first growth that there is not, so that a cache is made.
        let mut made = 0;
        for k in 0..20 {
            if !is_refused_at_once(rt.alloc(), capacity, k)? {
                made = k;
                break;
            }
        }
        assert!(rt; made > 0, "{capacity}");
    }
    Ok(())
}
