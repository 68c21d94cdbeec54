//! Growths and calls of the device refused in turn: an insertion, a removal and the freeing of a tree say why
//! they broke off, and leave the tree as it was where the cache says that no page was touched.

use crate::scenes::{LINE, Points, file_with, open_cache};
use crate::steps::Step::{FreeTree, Insert, Leaves, Remove};
use crate::steps::{Step, take};
use block_device::{FuseDevice, FuseMode, MemoryDevice};
use node_page::Root;
use page_cache::PageCache;
use page_file::Fault;
use refusing::Refusing;
use std::alloc::Global;

// The root of each tree below.
const ROOT: Root = Root { page: 5, level: 1 };

// More growths, and calls of the device, than there are.
const NEVER: u32 = u32::MAX;

// A cache whose growths and whose device's calls may be refused.
type Frail<'a> = PageCache<FuseDevice<MemoryDevice>, &'a Refusing<Global>>;

// A call on a tree of these points, the two leaves of the tree, and whether some refusals touch a page.
#[derive(Clone, Copy)]
struct Call {
    about: &'static str,
    step: Step,
    points: Points,
    leaves: &'static [&'static [u64]],
    touches: bool,
}

const CALLS: [Call; 3] = [
    Call {
        about: "a freeing",
        step: FreeTree,
        points: LINE,
        leaves: &[&[1, 2], &[3, 4, 5]],
        touches: false,
    },
    // A leaf is left with one entry, which comes back into the other.
    Call {
        about: "a removal",
        step: Remove(1, 0, 0),
        points: LINE,
        leaves: &[&[1, 2], &[3, 4, 5]],
        touches: false,
    },
    // A leaf overflows a second time, and is split.
    Call {
        about: "an insertion",
        step: Insert(8, 5, 0),
        points: &[
            (1, 0, 0),
            (2, 1, 0),
            (3, 2, 0),
            (4, 3, 0),
            (5, 10, 0),
            (6, 11, 0),
            (7, 4, 0),
        ],
        leaves: &[&[1, 2, 6, 7], &[3, 4, 5]],
        touches: true,
    },
];

// What came of a call.
enum Outcome {
    // The cache was not opened.
    NotOpened,
    // It was refused, touched no page, and left the tree as it was.
    Untouched,
    // It was refused, and touched a page.
    Touched,
    // It was made.
    Made,
    // It was refused, and that is not as it must be.
    Wrong,
}

// What came of a call that was refused for a cause.
fn refused<'a>(cache: &mut Frail<'a>, heap: &'a Refusing<Global>, call: Call) -> Outcome {
    if cache.is_touched() {
        return Outcome::Touched;
    }
    let mut root = ROOT;
    if take(cache, heap, &mut root, Leaves(call.leaves)) == Ok(2) {
        Outcome::Untouched
    } else {
        Outcome::Wrong
    }
}

// Makes a call in a cache, all of whose growths from a number on are refused, and what came of it, where it
// is refused for that cause if at all.
fn made<'a>(
    cache: &mut Frail<'a>,
    heap: &'a Refusing<Global>,
    call: Call,
    growths: u32,
    cause: Fault,
) -> Outcome {
    if cache.begin_change().is_err() {
        return Outcome::NotOpened;
    }
    let mut root = ROOT;
    heap.refuse_from(growths);
    let answer = take(cache, heap, &mut root, call.step);
    let is_refused = heap.relent();
    match answer {
        Ok(_) => Outcome::Made,
        Err(fault) if fault == cause && is_refused == (growths != NEVER) => {
            refused(cache, heap, call)
        }
        Err(_) => Outcome::Wrong,
    }
}

// The same in a new cache, of whose device the call after so many fails.
fn attempt(
    alloc: Global,
    call: Call,
    growths: u32,
    passes: u32,
    cause: Fault,
) -> Result<Outcome, Fault> {
    let device = file_with(alloc, call.points)?;
    let fuse = FuseDevice::new(device, u64::from(passes), FuseMode::Once);
    let heap = Refusing::new(alloc);
    match open_cache(&heap, fuse) {
        Ok(cache) => {
            let mut cache = cache;
            Ok(made(&mut cache, &heap, call, growths, cause))
        }
        Err(_) => Ok(Outcome::NotOpened),
    }
}

// The same of growth number k and of all behind it, or of number k of the device's calls.
fn attempted(alloc: Global, call: Call, cause: Fault, k: u32) -> Result<Outcome, Fault> {
    if cause == Fault::Memory {
        attempt(alloc, call, k, NEVER, cause)
    } else {
        attempt(alloc, call, NEVER, k, cause)
    }
}

// Whether refusals for a cause are told until the call is made, first of number 0, then of number 1, and so
// on: some touch no page, and some touch one where that is to be.
fn are_told(alloc: Global, call: Call, cause: Fault) -> Result<bool, Fault> {
    let mut untouched: u32 = 0;
    let mut touched: u32 = 0;
    for k in 0..100 {
        match attempted(alloc, call, cause, k)? {
            Outcome::NotOpened => {}
            Outcome::Untouched => untouched = untouched.saturating_add(1),
            Outcome::Touched => touched = touched.saturating_add(1),
            Outcome::Made => return Ok(untouched > 0 && (touched > 0 || !call.touches)),
            Outcome::Wrong => break,
        }
    }
    Ok(false)
}

#[test]
fn refusals_are_told(rt: HostRuntime) {
    for call in CALLS {
        for cause in [Fault::Memory, Fault::Device] {
            let told = are_told(rt.alloc(), call, cause);
            assert!(rt; told == Ok(true), "{}, {cause:?}: {told:?}", call.about);
        }
    }
}
