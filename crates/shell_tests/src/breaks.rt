//! Runs whose output breaks off: at each byte of replies of each kind.

use crate::fakes::{Part, Room};
use crate::player::{End, QUIET, Script, play};
use command_shell::RunEnd;
use std::alloc::Global;
use std::test::Fail;

// Lines with replies of each kind. The last one has no newline.
const TEXT: &[u8] = b"create a 2 4\ninsert a 1 0 0 10 10\ninsert a 2 20 20 30 30 tag 7\n\
    window a 5 5 25 25\nnearest a 2 0 0\njoin a a\nlayers\ncount a\ndump\nget a 3\n\n# a comment\n\xff";

const REPLIES: &[u8] = b"ok\nok\nok\nok 2\n1 0 0 10 10\n2 20 20 30 30 tag 7\nok 2\n1 0\n2 800\n\
    ok 2\n1 1\n2 2\nok 1\na 2 4 2\nok 1\n2\n\
    ok 3\ncreate a 2 4\ninsert a 1 0 0 10 10\ninsert a 2 20 20 30 30 tag 7\n\
    fail 10 NoObject\nfail 24 BadLine\n";

const WHOLE: &[Part<'static>] = &[Part::Bytes(TEXT)];

// Whether a run of the text, read so many bytes a call, ends so, with these replies.
fn ends(alloc: Global, pace: usize, room: Room, end: RunEnd, replies: &'static [u8]) -> bool {
    let script = Script {
        parts: WHOLE,
        pace,
        room,
        end: End::Ran(end),
        replies,
        ..QUIET
    };
    match play(alloc, &script) {
        Some(seen) => seen.end == script.end && seen.is_answered,
        None => false,
    }
}

// Whether a run ends with the last of these replies, where there is no more room: the writer takes nothing
// more, or fails.
fn breaks_off(alloc: Global, replies: &'static [u8]) -> bool {
    let len = replies.len();
    for room in [Room::Full(len), Room::Stuck(len)] {
        if !ends(alloc, usize::MAX, room, RunEnd::WriteFault, replies) {
            return false;
        }
    }
    true
}

// How much room there is for these replies, those to the text, where a run first ends otherwise, or writes more
// or less. The last that is tried is room for all of them, where the reader gives a byte a call.
fn first_other_room(alloc: Global, replies: &'static [u8]) -> Option<usize> {
    for room in 0..replies.len() {
        if !breaks_off(alloc, &replies[..room]) {
            return Some(room);
        }
    }
    if ends(alloc, 1, Room::All, RunEnd::Finished, replies) {
        None
    } else {
        Some(replies.len())
    }
}

#[test]
fn a_run_ends_where_a_write_fails(rt: HostRuntime) -> Result<(), Fail> {
    assert_eq!(rt; first_other_room(rt.alloc(), REPLIES), None);
    Ok(())
}
