//! Tests of a few calls each, as tables of steps with their answers, and of the blocks that they leave; and
//! of stops and failed calls of the device.
use crate::files::scenes::{End, FREED, begins, created, freed, reopened};
use crate::files::steps::Step::{
    Allocate, Catalog, CheckAgain, Flush, Free, FreePages, Next, Page, Raise, Settle, Version,
    Write,
};
use crate::files::steps::{Answer, DONE, Steps};
use block_device::{BlockDevice, FuseDevice, FuseMode, Left, MemoryDevice};
use page_file::Fault;
use std::alloc::Global;
use std::test::Fail;

// What a file is to be before its steps are taken.
#[derive(Clone, Copy, Debug, PartialEq, Eq)]
enum Start {
    New,
    /// That on the device as the part above leaves it.
    Reopened,
}

// The first of these blocks that does not begin so.
fn other_block<D: BlockDevice>(device: &mut D, blocks: &[(u32, &[u8])]) -> Option<u32> {
    for &(i, bytes) in blocks {
        if !begins(device, i, bytes) {
            return Some(i);
        }
    }
    None
}

// A part of a test: steps on a file, how many blocks there are then, and how some of them begin.
struct Part {
    about: &'static str,
    start: Start,
    steps: Steps,
    end: End,
    count: u32,
    blocks: &'static [(u32, &'static [u8])],
}

const PARTS: [Part; 10] = [
    Part {
        about: "a new file has an empty catalog",
        start: Start::New,
        steps: &[(Catalog, Ok(1)), (Next, Ok(3))],
        end: End::Closed,
        count: 3,
        blocks: &[],
    },
    Part {
        about: "a page is given out and filled",
        start: Start::New,
        steps: &[
            (Allocate, Ok(3)),
            (Page(3), Ok(0)),
            (Allocate, Ok(4)),
            (Write(4, 7), DONE),
            (Page(4), Ok(7)),
            (Page(1), Err(Fault::Damaged(1))),
            (Page(5), Err(Fault::Damaged(5))),
        ],
        end: End::Closed,
        count: 5,
        blocks: &[],
    },
    Part {
        about: "a freed page is given out first",
        start: Start::New,
        steps: &[
            (Allocate, Ok(3)),
            (Write(3, 7), DONE),
            (Free(3), DONE),
            (FreePages(&[3]), Ok(1)),
            // It has zeros, and comes before a new number.
            (Allocate, Ok(3)),
            (Page(3), Ok(0)),
            (Allocate, Ok(4)),
        ],
        end: End::Closed,
        count: 5,
        blocks: &[],
    },
    Part {
        about: "a settled file is checked again and closed",
        start: Start::New,
        steps: &[
            (Allocate, Ok(3)),
            (Write(3, 7), DONE),
            (Flush, DONE),
            (Settle, DONE),
            (Settle, DONE),
            (CheckAgain, DONE),
        ],
        end: End::Closed,
        count: 4,
        blocks: &[],
    },
    Part {
        about: "and opened again",
        start: Start::Reopened,
        steps: &[(Next, Ok(4)), (Page(3), Ok(7))],
        end: End::Abandoned,
        count: 4,
        blocks: &[],
    },
    Part {
        about: "the blocks of a closed file are those of the format",
        start: Start::New,
        steps: FREED,
        end: End::Closed,
        count: 5,
        blocks: &[
            (0, b"RSTARGAT\x01\x00\x00"),
            (
                1,
                b"RSTARHDR\x00\x02\x00\x00\x00\x00\x00\x05\x00\x00\x00\x04\x00\x00\x00\x01\x00\x00",
            ),
            (4, b"\x05\x00\x00\x00\x00\x00\x00\x00\x00\x00"),
        ],
    },
    Part {
        about: "and those of a file within a change",
        start: Start::Reopened,
        steps: &[(Free(3), DONE)],
        end: End::Abandoned,
        count: 5,
        blocks: &[
            (0, b"RSTARGAT\x00\x00\x00"),
            (3, b"\x05\x00\x00\x00\x00\x00\x00\x04\x00\x00"),
        ],
    },
    Part {
        about: "a raised version is written",
        start: Start::New,
        steps: &[
            (Version, Ok(2)),
            (Raise, DONE),
            (Version, Ok(3)),
            (Allocate, Ok(3)),
            (Write(3, 7), DONE),
            (Settle, DONE),
        ],
        end: End::Closed,
        count: 4,
        blocks: &[(1, b"RSTARHDR\x00\x03\x00\x00\x00\x00\x00\x04")],
    },
    Part {
        about: "a later change leaves it",
        start: Start::Reopened,
        steps: CHANGE,
        end: End::Closed,
        count: 5,
        blocks: &[(1, b"RSTARHDR\x00\x03\x00\x00\x00\x00\x00\x05")],
    },
    Part {
        about: "and it is read again",
        start: Start::Reopened,
        steps: &[(Version, Ok(3)), (Page(3), Ok(7)), (Page(4), Ok(7))],
        end: End::Closed,
        count: 5,
        blocks: &[],
    },
];

// Page 4 is given out and filled with sevens.
const CHANGE: Steps = &[(Allocate, Ok(4)), (Write(4, 7), DONE)];

#[test]
fn calls_of_a_file_have_their_answers(rt: HostRuntime) -> Result<(), Fail> {
    let mut device = MemoryDevice::new(rt.alloc());
    for part in &PARTS {
        let (left, other) = match part.start {
            Start::New => created(rt.alloc(), part.steps, part.end),
            Start::Reopened => reopened(device, rt.alloc(), part.steps, part.end),
        };
        device = left;
        let about = part.about;
        assert_eq!(rt; other, None, "{about}");
        assert_eq!(rt; device.blocks(), part.count, "{about}");
        assert_eq!(rt; other_block(&mut device, part.blocks), None, "{about}");
    }
    assert_eq!(rt; Fault::NoPages.number(), 25);
    Ok(())
}

const CHECK_AGAIN: Steps = &[(Next, Ok(5)), (CheckAgain, DONE)];

// How many calls of the device pass, and whether they are enough: a sync and a read of gate and header each
// open the file, and so they check it again.
const CALLS: [(u64, bool); 4] = [(3, false), (4, false), (5, false), (6, true)];

#[test]
fn a_file_is_checked_again_by_three_calls(rt: HostRuntime) -> Result<(), Fail> {
    for (passes, enough) in CALLS {
        let fuse = FuseDevice::new(freed(rt.alloc())?, passes, FuseMode::Onward);
        let (_, other) = reopened(fuse, rt.alloc(), CHECK_AGAIN, End::Abandoned);
        let want = if enough {
            None
        } else {
            Some((1, Err(Fault::Device)))
        };
        assert_eq!(rt; other, want, "after {passes} calls");
    }
    Ok(())
}

const NEXT_IS_FIVE: Steps = &[(Next, Ok(5))];

// What opening answers once the change was stopped after so many calls of the device, if it refuses.
fn answer_after(alloc: Global, passes: u32, left: Left) -> Result<Option<Answer>, Fault> {
    let fuse = FuseDevice::new(freed(alloc)?, u64::from(passes), FuseMode::Onward);
    let (fuse, _) = reopened(fuse, alloc, CHANGE, End::Closed);
    let device = fuse.into_inner().after_stop(left);
    let (_, other) = reopened(device, alloc, NEXT_IS_FIVE, End::Abandoned);
    Ok(other.map(|(_, answer)| answer))
}

#[test]
fn a_stopped_file_is_refused_or_whole(rt: HostRuntime) -> Result<(), Fail> {
    for passes in 0..14 {
        for left in [Left::Written, Left::Synced, Left::Filled(1)] {
            let answer = answer_after(rt.alloc(), passes, left)?;
            assert!(rt;
                answer == None
                    || answer == Some(Err(Fault::NotClosed))
                    || answer == Some(Err(Fault::NotAStore)),
                "{answer:?}"
            );
        }
    }
    Ok(())
}
