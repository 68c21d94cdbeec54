//! Lines whose growths are refused.

use crate::stores::{Heap, NEVER, new_store, replies_to};
use refusing::Refusing;
use std::alloc::Global;
use std::test::Fail;

// A line, and what a window over the layer answers before it.
type Row = (&'static [u8], &'static [u8]);

// What a window over the layer answers where it has one object.
const ONE: &[u8] = b"ok 1\n1 0 0 9 9\n";

// And where it has two.
const TWO_BOXES: &[u8] = b"ok 2\n1 0 0 9 9\n2 0 0 9 9\n";

// Lines, and what a window over the layer answers before each. After a reopening no page is held, so that a
// move wants memory.
const LINES: [Row; 14] = [
    (b"create a 2 4", b"fail 3 NoLayer\n"),
    (b"load a 2\n5 9 0 9 0\n1 0 0 9 9", b"ok 0\n"),
    (b"delete a 5", b"ok 2\n1 0 0 9 9\n5 9 0 9 0\n"),
    (b"insert a 2 0 0 9 9", ONE),
    (b"reopen", TWO_BOXES),
    (b"move a 2 20 20 30 30", TWO_BOXES),
    (b"window a 0 0 9 9", ONE),
    (b"point a 9 9", ONE),
    (b"nearest a 1 9 9", ONE),
    (b"join a a", ONE),
    (b"dump", ONE),
    (b"check", ONE),
    (b"reopen", ONE),
    (b"drop a", ONE),
];

// How a line ends that is refused memory from a growth on.
#[derive(Clone, Copy, PartialEq, Eq)]
enum LineEnd {
    Answered,
    Refused,
    Wrong,
}

// How a line ends, by whether it was refused memory, its reply, and what a window shows then and showed
// before: it is answered, or the table is as it was, or the store has failed.
fn end_of(is_refused: bool, reply: &[u8], shown: &[u8], before: &[u8]) -> LineEnd {
    if !is_refused && reply.starts_with(b"ok") {
        LineEnd::Answered
    } else if is_given_up(reply, shown, before) || is_failed(reply, shown) {
        LineEnd::Refused
    } else {
        LineEnd::Wrong
    }
}

fn is_given_up(reply: &[u8], shown: &[u8], before: &[u8]) -> bool {
    reply == b"fail 16 Memory\n".as_slice() && shown == before
}

fn is_failed(reply: &[u8], shown: &[u8]) -> bool {
    reply == b"fail 19 StoreFailed 16\n".as_slice()
        && shown == b"fail 19 StoreFailed 19\n".as_slice()
}

// How a line ends whose growths are refused from the kth on, after those before it.
fn refuse_from(alloc: Global, heap: &Heap, line: Row, before: &[Row], k: u32) -> LineEnd {
    let Some(mut store) = new_store(heap, NEVER) else {
        return LineEnd::Wrong;
    };
    for row in before {
        replies_to(alloc, &mut store, row.0);
    }
    heap.refuse_from(k);
    let reply = replies_to(alloc, &mut store, line.0);
    let is_refused = heap.relent();
    let shown = replies_to(alloc, &mut store, b"window a 0 0 9 9");
    end_of(is_refused, &reply, &shown, line.1)
}

// Whether a line ends so, whichever growth is refused, and is answered in the end.
fn gives_up(alloc: Global, heap: &Heap, line: Row, before: &[Row]) -> bool {
    for k in 0..100 {
        match refuse_from(alloc, heap, line, before, k) {
            LineEnd::Answered => return k > 0,
            LineEnd::Wrong => return false,
            LineEnd::Refused => {}
        }
    }
    false
}

// The first line that does not.
fn first_other(alloc: Global) -> Option<&'static [u8]> {
    let heap = Refusing::new(alloc);
    for at in 0..LINES.len() {
        let line = LINES[at];
        if !gives_up(alloc, &heap, line, &LINES[..at]) {
            return Some(line.0);
        }
    }
    None
}

#[test]
fn a_line_gives_up_where_memory_is_refused(rt: HostRuntime) -> Result<(), Fail> {
    assert_eq!(rt; first_other(rt.alloc()), None);
    Ok(())
}
