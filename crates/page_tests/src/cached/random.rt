//! Tests of many calls: which blocks are written and when, how many pages are held, and that caches lose no
//! page where a call of the device or a growth is refused within random calls, which a plain map follows.
use crate::cached::maps::{Map, first_other, follow};
use crate::cached::scenes::new_cache;
use crate::cached::steps::Step::{Allocate, Flush, Free, Page, Put, Settle};
use crate::cached::steps::{Answer, DONE, Step, repeat, take};
use block_device::{BlockDevice, FuseDevice, FuseMode, MemoryDevice};
use page_cache::PageCache;
use page_file::Fault;
use refusing::Refusing;
use std::alloc::{Allocator, Global};
use std::test::Fail;

// The device under a cache of 8 pages over a new file, once the first steps were taken, the next ones so
// many times, and the last ones.
fn device_after(
    alloc: Global,
    first: &'static [Step],
    next: &'static [Step],
    times: u32,
    last: &'static [Step],
) -> Result<MemoryDevice, Fault> {
    let mut cache = new_cache(MemoryDevice::new(alloc), alloc, 8)?;
    let done = play_rounds(&mut cache, alloc, [(first, 1), (next, times), (last, 1)]);
    let device = cache.abandon();
    match done {
        Ok(_) => Ok(device),
        Err(fault) => Err(fault),
    }
}

// Takes steps, each list so many times.
fn play_rounds<D: BlockDevice>(
    cache: &mut PageCache<D, Global>,
    alloc: Global,
    rounds: [(&'static [Step], u32); 3],
) -> Answer {
    for (steps, times) in rounds {
        repeat(cache, alloc, steps, times)?;
    }
    DONE
}

const FOUR: &'static [Step] = &[Allocate, Allocate, Allocate, Allocate];

// Each page has another byte in turn.
const PUTS: &'static [Step] = &[
    Put(3, 1),
    Put(4, 1),
    Put(5, 1),
    Put(6, 1),
    Put(3, 2),
    Put(4, 2),
    Put(5, 2),
    Put(6, 2),
];

#[test]
fn a_page_that_is_put_often_is_written_once(rt: HostRuntime) -> Result<(), Fail> {
    let often = device_after(rt.alloc(), FOUR, PUTS, 50, &[Settle])?;
    let once = device_after(rt.alloc(), FOUR, PUTS, 1, &[Settle])?;
    assert_eq!(rt; often.writes(), once.writes());
    Ok(())
}

const NINE: &'static [Step] = &[
    Allocate, Allocate, Allocate, Allocate, Allocate, Allocate, Allocate, Allocate, Allocate, Flush,
];

const NINE_PUTS: &'static [Step] = &[
    Put(3, 1),
    Put(4, 1),
    Put(5, 1),
    Put(6, 1),
    Put(7, 1),
    Put(8, 1),
    Put(9, 1),
    Put(10, 1),
    Put(11, 1),
];

#[test]
fn one_page_of_nine_is_written_at_the_ninth(rt: HostRuntime) -> Result<(), Fail> {
    let puts = device_after(rt.alloc(), NINE, NINE_PUTS, 1, &[])?;
    let none = device_after(rt.alloc(), NINE, NINE_PUTS, 0, &[])?;
    assert_eq!(rt; puts.writes(), none.writes().saturating_add(1));
    Ok(())
}

// A number that looks random.
fn scrambled(x: u64) -> u64 {
    let a = x.wrapping_mul(0x9e37_79b9_7f4a_7c15);
    let b = a ^ (a >> 29);
    b.wrapping_mul(0xbf58_476d_1ce4_e5b9) ^ (b >> 32)
}

// The least significant byte of a number.
fn low_byte(x: u64) -> u8 {
    (x & 255) as u8
}

// A call at random to pages 3 to 22, all of which stay live.
fn call_to_live(x: u64) -> Step {
    let n = 3 + (x % 20) as u32;
    if x & 0xfff00 == 0 {
        Flush
    } else if x & 64 == 0 {
        Put(n, low_byte(x >> 8))
    } else {
        Page(n)
    }
}

// A call at random: pages 3 to 42 come and go.
fn call_to_any(map: &Map, x: u64) -> Step {
    let n = 3 + ((x >> 8) % 40) as u32;
    // No more than 40 pages are live at a time, so no greater number is given out.
    if map[n as usize].is_none() {
        Allocate
    } else if x % 8 == 0 {
        Free(n)
    } else if x % 8 < 4 {
        Put(n, low_byte(x >> 16))
    } else if x % 128 == 4 {
        Settle
    } else if x % 128 == 5 {
        Flush
    } else {
        Page(n)
    }
}

// After how many random calls one has another answer than a plain map gives, at most this count. A refusal
// ends them.
fn turns<D: BlockDevice, A: Allocator + Copy>(
    cache: &mut PageCache<D, A>,
    alloc: A,
    map: &mut Map,
    all_live: bool,
    count: u64,
) -> Answer {
    for turn in 0..count {
        let x = scrambled(turn);
        let step = if all_live {
            call_to_live(x)
        } else {
            call_to_any(map, x)
        };
        let answer = take(cache, alloc, step)?;
        if !follow(map, step, answer) {
            return Ok(turn);
        }
    }
    Ok(count)
}

// The map of pages 3 to 22 with zeros, or of none.
fn map_of(all_live: bool) -> Map {
    let mut map = [None; 64];
    if all_live {
        for n in 3..23 {
            map[n] = Some(0);
        }
    }
    map
}

// Whether random calls are ended by a refusal of the device, and lose no page, also where the cache is then
// settled.
fn keeps_pages<D: BlockDevice>(
    cache: &mut PageCache<D, Global>,
    alloc: Global,
) -> Result<bool, Fault> {
    let mut map = map_of(true);
    repeat(cache, alloc, &[Allocate], 20)?;
    if turns(cache, alloc, &mut map, true, 400) != Err(Fault::Device) {
        return Ok(false);
    }
    let other = first_other(cache, alloc, &map)?;
    take(cache, alloc, Settle)?;
    Ok(other == 64 && first_other(cache, alloc, &map)? == 64)
}

// The same of a cache over a new file on a device.
fn loses_no_page<D: BlockDevice + Drop>(device: D, alloc: Global) -> Result<bool, Fault> {
    let mut cache = new_cache(device, alloc, 8)?;
    keeps_pages(&mut cache, alloc)
}

#[test]
fn a_fault_loses_no_page(rt: HostRuntime) -> Result<(), Fail> {
    for passes in 60..160 {
        let device = MemoryDevice::new(rt.alloc());
        let kept = loses_no_page(FuseDevice::new(device, passes, FuseMode::Once), rt.alloc())?;
        assert!(rt; kept, "after {passes} calls");
    }
    Ok(())
}

// Whether growth number k is refused within random calls, and loses no page.
fn is_refused(alloc: Global, k: u32) -> Result<bool, Fault> {
    let heap = Refusing::new(alloc);
    let mut cache = new_cache(MemoryDevice::new(alloc), &heap, 9)?;
    is_refused_once(&mut cache, &heap, k)
}

// The same of a cache.
fn is_refused_once<'a, D: BlockDevice>(
    cache: &mut PageCache<D, &'a Refusing<Global>>,
    heap: &'a Refusing<Global>,
    k: u32,
) -> Result<bool, Fault> {
    let mut map = map_of(false);
    heap.refuse_once(k);
    let done = turns(cache, heap, &mut map, false, 200);
    let refused = heap.relent();
    let want = if refused { Err(Fault::Memory) } else { Ok(200) };
    let other = first_other(cache, heap, &map)?;
    if done == want && other == 64 {
        Ok(refused)
    } else {
        Err(Fault::Damaged(k))
    }
}

#[test]
fn refused_memory_loses_no_page(rt: HostRuntime) -> Result<(), Fail> {
    let mut refused = 0;
    for k in 0..60 {
        if is_refused(rt.alloc(), k)? {
            refused = k;
        }
    }
    assert!(rt; refused > 2);
    Ok(())
}
