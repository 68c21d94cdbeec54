//! Runs over readers, writers and devices that are slow or fail: how they end, what they say of it, and
//! whether the store is closed then.

use crate::fakes::Part::{Bytes, Fails};
use crate::fakes::{Room, Sink};
use crate::player::{By, End, QUIET, Script, first_other};
use crate::stores::Kept;
use command_shell::{Outcome, RunEnd, answers_to};
use layer_store::Refusal;
use reply_texts::tell_refusal;
use std::alloc::Global;
use std::cell::Cell;
use std::io::ErrorKind;
use std::test::Fail;

const BAD: &[u8] = b"fail 24 BadLine\n";

// The first and the last of these lines have replies.
const TEXT: &[u8] = b"drop\n\n# a comment\n\xff";

const REPLIES: &[u8] = b"fail 24 BadLine\nfail 24 BadLine\n";

// Gives a byte a call.
const SLOW: Script = Script { pace: 1, ..QUIET };

const UNREAD: Script = Script {
    what: "a read fails",
    end: End::Ran(RunEnd::ReadFault),
    ..SLOW
};

const UNWRITTEN: Script = Script {
    parts: &[Bytes(TEXT)],
    end: End::Ran(RunEnd::WriteFault),
    ..QUIET
};

const RUNS: [Script; 16] = [
    // The reply to a last line without a newline is not flushed.
    Script {
        what: "a line without a newline",
        parts: &[Bytes(b"drop")],
        replies: BAD,
        unflushed: 16,
        ..SLOW
    },
    Script {
        what: "a line that is no text",
        parts: &[Bytes(TEXT)],
        replies: REPLIES,
        unflushed: 16,
        ..SLOW
    },
    Script {
        parts: &[Fails(ErrorKind::Other)],
        ..UNREAD
    },
    Script {
        parts: &[Bytes(b"drop\nd"), Fails(ErrorKind::Other)],
        replies: BAD,
        ..UNREAD
    },
    Script {
        parts: &[Bytes(b"drop\ndrop\n"), Fails(ErrorKind::Other)],
        replies: REPLIES,
        ..UNREAD
    },
    Script {
        parts: &[Bytes(TEXT), Fails(ErrorKind::Other)],
        replies: BAD,
        ..UNREAD
    },
    Script {
        parts: &[Fails(ErrorKind::Interrupted)],
        ..UNREAD
    },
    Script {
        parts: &[Bytes(b"drop\nd"), Fails(ErrorKind::Interrupted)],
        replies: BAD,
        ..UNREAD
    },
    Script {
        parts: &[Bytes(b"drop\ndrop\n"), Fails(ErrorKind::Interrupted)],
        replies: REPLIES,
        ..UNREAD
    },
    Script {
        parts: &[Bytes(TEXT), Fails(ErrorKind::Interrupted)],
        replies: BAD,
        ..UNREAD
    },
    // An interrupted read is not tried again: the line after it is not read, and the lines before it are
    // answered first.
    Script {
        what: "a read is interrupted once",
        parts: &[
            Bytes(b"drop\ndrop\nd"),
            Fails(ErrorKind::Interrupted),
            Bytes(b"rop\n"),
        ],
        end: End::Ran(RunEnd::ReadFault),
        replies: REPLIES,
        unread: 1,
        ..QUIET
    },
    // Nor is an interrupted write.
    Script {
        what: "the first write is interrupted",
        room: Room::Interrupted(0),
        ..UNWRITTEN
    },
    Script {
        what: "the second write is interrupted",
        room: Room::Interrupted(1),
        replies: BAD,
        ..UNWRITTEN
    },
    // It comes before the first read.
    Script {
        what: "a flush fails",
        room: Room::Flushes(0),
        unread: 1,
        ..UNWRITTEN
    },
    // Who sends a line once the one before is answered is not kept waiting, however the lines are cut.
    Script {
        what: "replies are flushed before a read",
        parts: &[
            Bytes(b"drop\n"),
            Bytes(b"drop\ndrop\ndr"),
            Bytes(b"op\n"),
            Bytes(b"# end"),
        ],
        replies: b"fail 24 BadLine\nfail 24 BadLine\nfail 24 BadLine\nfail 24 BadLine\n",
        ..QUIET
    },
    // A reopening of a store that is closed already reads it all the same. The device fails after the making
    // of the store.
    Script {
        what: "a reopening reads what is closed",
        parts: &[Bytes(b"reopen\nwindow a 0 0 1 1\n")],
        passes: 8,
        replies: b"fail 19 StoreFailed 17\nfail 19 StoreFailed 19\n",
        ..QUIET
    },
];

const CHANGES: &[u8] = b"create a 2 4\ninsert a 1 0 0 1 1\n";

const FAULT: &[u8] = b"rstore: input or output failed\n";

const UNCLOSED: &[u8] = b"rstore: fail 17 Device\n";

// A page is given out for gate, header and catalog, root and directory of the layer, and the object's bucket.
const NOT_CLOSED: Kept = Kept::Refused(Refusal::NotClosed, 6);

const ONLY_CREATED: Kept = Kept::Refused(Refusal::NotClosed, 5);

// The device fails after the making of the store, in 8 calls, and the changes of the text: two for the gate,
// and one for each page that is given out.
const TO_THE_CLOSING: u32 = 13;

const WELL: Script = Script {
    by: By::RunAndClose,
    parts: &[Bytes(CHANGES)],
    end: End::WentWell(true),
    replies: b"ok\nok\n",
    kept: Kept::Objects(1),
    ..QUIET
};

const CLOSINGS: [Script; 6] = [
    Script {
        what: "a run whose input fails is closed",
        parts: &[Bytes(CHANGES), Fails(ErrorKind::Interrupted)],
        end: End::WentWell(false),
        said: FAULT,
        ..WELL
    },
    Script {
        what: "a run whose output fails is closed",
        room: Room::Full(3),
        end: End::WentWell(false),
        replies: b"ok\n",
        said: FAULT,
        ..WELL
    },
    // One flush comes before the only line is read, and one after its reply.
    Script {
        what: "a run whose last flush fails did not go well",
        parts: &[Bytes(b"drop")],
        room: Room::Flushes(1),
        end: End::WentWell(false),
        replies: BAD,
        said: FAULT,
        kept: Kept::NoLayer,
        unflushed: 16,
        ..WELL
    },
    Script {
        what: "a run is flushed at its end",
        parts: &[Bytes(b"drop")],
        room: Room::Flushes(2),
        replies: BAD,
        kept: Kept::NoLayer,
        ..WELL
    },
    Script {
        what: "a refused closing is told",
        passes: TO_THE_CLOSING,
        end: End::WentWell(false),
        said: UNCLOSED,
        kept: NOT_CLOSED,
        ..WELL
    },
    Script {
        what: "a refused closing is told before a failed output",
        room: Room::Full(3),
        passes: TO_THE_CLOSING,
        end: End::WentWell(false),
        replies: b"ok\n",
        said: UNCLOSED,
        kept: NOT_CLOSED,
        ..WELL
    },
];

const STRICT: Script = Script {
    by: By::RunStrictlyAndClose,
    end: End::Settled(Outcome::WentWell),
    ..WELL
};

const STRICTLY_FAILED: Script = Script {
    what: "nothing is closed where input or output fails",
    parts: &[Bytes(b"create a 2 4\nx\n")],
    end: End::Settled(Outcome::Failed),
    said: FAULT,
    kept: ONLY_CREATED,
    ..STRICT
};

const STRICT_RUNS: [Script; 5] = [
    Script {
        parts: &[Bytes(CHANGES), Fails(ErrorKind::Interrupted)],
        kept: NOT_CLOSED,
        ..STRICTLY_FAILED
    },
    Script {
        room: Room::Full(0),
        replies: b"",
        ..STRICTLY_FAILED
    },
    Script {
        room: Room::Full(3),
        replies: b"ok\n",
        ..STRICTLY_FAILED
    },
    Script {
        room: Room::Full(8),
        replies: b"ok\nfail ",
        ..STRICTLY_FAILED
    },
    Script {
        what: "a refused closing is told",
        passes: TO_THE_CLOSING,
        end: End::Settled(Outcome::Unclosed),
        said: UNCLOSED,
        kept: NOT_CLOSED,
        ..STRICT
    },
];

#[test]
fn a_run_goes_on_while_reader_and_writer_do(rt: HostRuntime) -> Result<(), Fail> {
    assert_eq!(rt; first_other(rt.alloc(), &RUNS), None);
    Ok(())
}

#[test]
fn a_run_is_closed_however_it_ended(rt: HostRuntime) -> Result<(), Fail> {
    assert_eq!(rt; first_other(rt.alloc(), &CLOSINGS), None);
    Ok(())
}

#[test]
fn a_strict_run_is_closed_only_where_all_went_well(rt: HostRuntime) -> Result<(), Fail> {
    assert_eq!(rt; first_other(rt.alloc(), &STRICT_RUNS), None);
    Ok(())
}

// A refusal, what there is room for, whether it is told, and what is written of it.
const TOLD: [(Refusal, Room, bool, &[u8]); 3] = [
    (
        Refusal::Damaged(7),
        Room::All,
        true,
        b"rstore: fail 18 Damaged 7\n",
    ),
    (Refusal::Memory, Room::Full(3), false, b"rst"),
    (Refusal::Memory, Room::Interrupted(0), false, b""),
];

// Whether a refusal is told so.
fn is_told(alloc: Global, refusal: Refusal, room: Room, whole: bool, text: &[u8]) -> bool {
    let unflushed = Cell::new(0);
    let mut errors = Sink {
        written: Vec::new(alloc),
        room,
        unflushed: &unflushed,
    };
    let told = tell_refusal(refusal, &mut errors);
    told.is_ok() == whole && errors.written.as_slice() == text
}

fn first_untold(alloc: Global) -> Option<Refusal> {
    for (refusal, room, whole, text) in TOLD {
        if !is_told(alloc, refusal, room, whole, text) {
            return Some(refusal);
        }
    }
    None
}

#[test]
fn a_refusal_is_told_in_a_line(rt: HostRuntime) -> Result<(), Fail> {
    assert_eq!(rt; first_untold(rt.alloc()), None);
    Ok(())
}

// Whether a text is answered so in memory.
fn is_answered(alloc: Global, text: &[u8], replies: &[u8]) -> bool {
    match answers_to(alloc, text) {
        Some(given) => given.as_slice() == replies,
        None => false,
    }
}

#[test]
fn a_text_is_answered_in_memory(rt: HostRuntime) -> Result<(), Fail> {
    assert!(rt;
        is_answered(
            rt.alloc(),
            b"create a 2 4\ninsert a 7 0 0 1 1\nwindow a 1 1 2 2\nwindow b 0 0 1 1\nx\nreopen",
            b"ok\nok\nok 1\n7 0 0 1 1\nfail 3 NoLayer\nfail 24 BadLine\nok\n",
        )
    );
    Ok(())
}
