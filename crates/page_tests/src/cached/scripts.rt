//! Tests of a few calls each, as tables of steps with their answers, over a file in which page 3 is filled
//! with threes and page 4 with fours.
use crate::cached::scenes::{closed, new_cache, open_cache, played};
use crate::cached::steps::Step::{
    Allocate, CheckAgain, Edit, First, Flush, Free, FreePages, Looks, Next, Page, Put, Raise,
    Settle, Version,
};
use crate::cached::steps::{Answer, DONE, Steps, play, repeat, take};
use block_device::{FuseDevice, FuseMode, MemoryDevice};
use page_file::Fault;
use std::alloc::Global;
use std::test::Fail;

// The file, on a device of which a call fails.
fn two_pages(
    alloc: Global,
    passes: u32,
    mode: FuseMode,
) -> Result<FuseDevice<MemoryDevice>, Fault> {
    let mut cache = new_cache(MemoryDevice::new(alloc), alloc, 8)?;
    let steps = [Allocate, Allocate, Put(3, 3), Put(4, 4)];
    let filled = repeat(&mut cache, alloc, &steps, 1);
    let device = closed(cache)?;
    match filled {
        Ok(_) => Ok(FuseDevice::new(device, u64::from(passes), mode)),
        Err(fault) => Err(fault),
    }
}

// The first other answer over the file as it is opened first, how many calls of the device there were then,
// and the first other answer over the file as it is closed and opened again.
type Played = (Option<(usize, Answer)>, u64, Option<(usize, Answer)>);

// Takes steps over the file on a device of which a call fails, and others over the file on the device below.
fn played_twice(
    alloc: Global,
    (passes, mode): (u32, FuseMode),
    steps: Steps,
    again: Steps,
) -> Result<Played, Fault> {
    let fuse = two_pages(alloc, passes, mode)?;
    let (fuse, other) = played(fuse, alloc, steps)?;
    let calls = fuse.calls();
    let (_, after) = played(fuse.into_inner(), alloc, again)?;
    Ok((other, calls, after))
}

// A test: what it is of, how many calls of the device pass before one fails, the steps over the file as it is
// opened, and those over the file as it is closed and opened again.
type Script = (&'static str, (u32, FuseMode), Steps, Steps);

// No call fails.
const NEVER: (u32, FuseMode) = (u32::MAX, FuseMode::Once);

const SCRIPTS: [Script; 14] = [
    (
        "pages are put and lent",
        NEVER,
        &[
            (Page(3), Ok(3)),
            (Put(3, 1), DONE),
            (Page(3), Ok(1)),
            (Put(3, 2), DONE),
            (Page(4), Ok(4)),
            (Page(3), Ok(2)),
            // A page is put while another is held, and then that one.
            (Put(4, 9), DONE),
            (Page(3), Ok(2)),
            (Page(4), Ok(9)),
            (Looks, Ok(6)),
        ],
        &[(Page(3), Ok(2)), (Page(4), Ok(9))],
    ),
    (
        "a version is raised behind what is put",
        NEVER,
        &[
            (Version, Ok(2)),
            (Put(3, 1), DONE),
            (Raise, DONE),
            (Page(3), Ok(1)),
            (Put(4, 2), DONE),
        ],
        &[(Version, Ok(3)), (Page(3), Ok(1)), (Page(4), Ok(2))],
    ),
    (
        "pages are changed where they lie",
        NEVER,
        &[
            (Put(3, 1), DONE),
            // A page that is held, and one that is not.
            (Edit(3, 2), Ok(1)),
            (Edit(4, 9), Ok(4)),
            (Edit(5, 9), Err(Fault::Damaged(5))),
            (Page(3), Ok(2)),
            (Looks, Ok(1)),
        ],
        &[(Page(3), Ok(2)), (Page(4), Ok(9))],
    ),
    (
        "a page given out has zeros",
        NEVER,
        &[
            (Next, Ok(5)),
            (Allocate, Ok(5)),
            (Page(5), Ok(0)),
            (Flush, DONE),
            (Page(5), Ok(0)),
            (Looks, Ok(2)),
        ],
        &[(Next, Ok(6)), (Page(5), Ok(0))],
    ),
    (
        "a freed page is read anew",
        NEVER,
        &[
            (Page(4), Ok(4)),
            (Free(4), DONE),
            // The page was given out, so it is lent: its kind is that of free pages.
            (First(4), Ok(5)),
            (Looks, Ok(2)),
        ],
        &[(FreePages(&[4]), Ok(1))],
    ),
    (
        "a page lives and is freed",
        NEVER,
        &[
            (Allocate, Ok(5)),
            (Put(5, 7), DONE),
            (Page(5), Ok(7)),
            (Flush, DONE),
            (Page(5), Ok(7)),
            (Looks, Ok(2)),
            (Free(5), DONE),
            (FreePages(&[5]), Ok(1)),
            (Looks, Ok(2)),
            (Settle, DONE),
        ],
        &[(FreePages(&[5]), Ok(1))],
    ),
    (
        "free pages that are no chain are damaged",
        NEVER,
        &[
            (Allocate, Ok(5)),
            (Allocate, Ok(6)),
            (Free(5), DONE),
            (Free(6), DONE),
            (FreePages(&[6, 5]), Ok(1)),
            // The first free page is no longer one: its kind is 0.
            (Put(6, 0), DONE),
            (Allocate, Err(Fault::Damaged(6))),
            (FreePages(&[]), Err(Fault::Damaged(6))),
            (Page(3), Ok(3)),
            (Page(4), Ok(4)),
        ],
        &[(Page(3), Ok(3)), (Page(4), Ok(4))],
    ),
    (
        // A sync and two reads open the file, and then page 3 is read.
        "numbers outside are damaged without a call",
        (4, FuseMode::Onward),
        &[
            (Page(3), Ok(3)),
            (Page(0), Err(Fault::Damaged(0))),
            (Page(1), Err(Fault::Damaged(1))),
            (Page(5), Err(Fault::Damaged(5))),
            (Page(u32::MAX), Err(Fault::Damaged(u32::MAX))),
            (Page(4), Err(Fault::Device)),
            (Looks, Ok(1)),
        ],
        &[],
    ),
    (
        "a page whose write is refused stays held",
        // Behind the opening, a read and the gate written and synced, the write fails.
        (6, FuseMode::Once),
        &[
            (Page(3), Ok(3)),
            (Put(3, 1), DONE),
            (Flush, Err(Fault::Device)),
            (Page(3), Ok(1)),
            (Settle, DONE),
            (Page(3), Ok(1)),
        ],
        &[(Page(3), Ok(1)), (Page(4), Ok(4))],
    ),
    // A sync and a read of gate and header each open the file, then page 3 is read, and so they check it
    // again. Then the page is read anew.
    (
        "a cache is checked again by a sync",
        (4, FuseMode::Onward),
        CHECK_REFUSED,
        &[],
    ),
    (
        "and a read of the gate",
        (5, FuseMode::Onward),
        CHECK_REFUSED,
        &[],
    ),
    (
        "and a read of the header",
        (6, FuseMode::Onward),
        CHECK_REFUSED,
        &[],
    ),
    (
        "and by no more than that",
        (7, FuseMode::Onward),
        &[
            (Page(3), Ok(3)),
            (CheckAgain, DONE),
            (Page(3), Err(Fault::Device)),
        ],
        &[],
    ),
    (
        "a cache checked again lends as before",
        (8, FuseMode::Onward),
        &[(Page(3), Ok(3)), (CheckAgain, DONE), (Page(3), Ok(3))],
        &[],
    ),
];

const CHECK_REFUSED: Steps = &[
    (Page(3), Ok(3)),
    (CheckAgain, Err(Fault::Device)),
    (Page(3), Err(Fault::Device)),
];

#[test]
fn calls_of_a_cache_have_their_answers(rt: HostRuntime) -> Result<(), Fail> {
    for (about, fails, steps, again) in SCRIPTS {
        let (other, _, after) = played_twice(rt.alloc(), fails, steps, again)?;
        assert_eq!(rt; (other, after), (None, None), "{about}");
    }
    Ok(())
}

const HELD: Steps = &[
    (Page(3), Ok(3)),
    (Page(3), Ok(3)),
    (Page(3), Ok(3)),
    (Looks, Ok(3)),
];

#[test]
fn a_held_page_needs_no_call(rt: HostRuntime) -> Result<(), Fail> {
    // A sync and two reads open the file, and then the page is read once.
    let fails = (4, FuseMode::Onward);
    let done = played_twice(rt.alloc(), fails, HELD, STILL_THERE)?;
    assert_eq!(rt; done, (None, 4, None));
    Ok(())
}

// One change, after which the cache is settled.
const CHANGE: Steps = &[
    (Page(3), Ok(3)),
    (Allocate, Ok(5)),
    (Put(5, 9), DONE),
    (Free(4), DONE),
    (Page(5), Ok(9)),
    (Flush, DONE),
    (Settle, DONE),
    (Page(5), Ok(9)),
];

// Page 3 is as it was, also where the file is checked again.
const STILL_THERE: Steps = &[
    (Page(3), Ok(3)),
    (CheckAgain, DONE),
    (Page(3), Ok(3)),
    (Looks, Ok(2)),
];

// Whether a call of the device is refused within the change; page 3 is as it was then, also where the cache
// is closed and opened again.
fn is_refused(alloc: Global, passes: u32) -> Result<bool, Fault> {
    let fuse = two_pages(alloc, passes, FuseMode::Once)?;
    let mut cache = open_cache(fuse, alloc, 8)?;
    let other = play(&mut cache, alloc, CHANGE);
    let lent = take(&mut cache, alloc, Page(3));
    let fuse = closed(cache)?;
    let Some((_, answer)) = other else {
        return Ok(false);
    };
    let (_, again) = played(fuse.into_inner(), alloc, STILL_THERE)?;
    if answer == Err(Fault::Device) && lent == Ok(3) && again.is_none() {
        Ok(true)
    } else {
        Err(Fault::Damaged(passes))
    }
}

#[test]
fn each_call_of_the_device_fails_in_turn(rt: HostRuntime) -> Result<(), Fail> {
    let mut refused = 0;
    for passes in 3..40 {
        if !is_refused(rt.alloc(), passes)? {
            break;
        }
        refused = passes;
    }
    // Most of the calls of the device are made, whatever is held.
    assert!(rt; refused > 12);
    Ok(())
}
