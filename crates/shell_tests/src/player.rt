//! Runs as data: what is given and what comes of it, and what plays them.

use crate::fakes::{Part, Room, Sink, Source};
use crate::stores::{FrailStore, Heap, Kept, NEVER, kept_on, new_store};
use command_language::CountedReader;
use command_shell::{Outcome, RunEnd, run, run_and_close, run_strictly_and_close};
use refusing::Refusing;
use std::alloc::Global;
use std::cell::Cell;

/// The call that makes a run.
#[derive(Clone, Copy)]
pub enum By {
    Run,
    RunAndClose,
    RunStrictlyAndClose,
}

/// How a run ended, by the call that made it.
#[derive(Clone, Copy, PartialEq, Eq, Debug)]
pub enum End {
    Ran(RunEnd),
    WentWell(bool),
    Settled(Outcome),
}

/// A run over a store without layers, and what it comes to.
#[derive(Clone, Copy)]
pub struct Script<'a> {
    pub what: &'static str,
    pub by: By,
    /// What the reader gives, and how many bytes a call at most.
    pub parts: &'a [Part<'a>],
    pub pace: usize,
    /// What the writer takes.
    pub room: Room,
    /// How many calls of the device pass before all later ones fail.
    pub passes: u32,
    pub end: End,
    pub replies: &'a [u8],
    /// What is said of the end.
    pub said: &'a [u8],
    pub kept: Kept,
    /// How many bytes of the replies were not flushed.
    pub unflushed: usize,
    /// How many parts were not read.
    pub unread: usize,
}

/// Nothing is given, and nothing fails.
pub const QUIET: Script<'static> = Script {
    what: "",
    by: By::Run,
    parts: &[],
    pace: usize::MAX,
    room: Room::All,
    passes: NEVER,
    end: End::Ran(RunEnd::Finished),
    replies: b"",
    said: b"",
    kept: Kept::Held,
    unflushed: 0,
    unread: 0,
};

/// What came of a run.
#[derive(Clone, Copy, PartialEq, Eq, Debug)]
pub struct Seen {
    pub end: End,
    /// Whether the replies are those of the script, and what is said of the end.
    pub is_answered: bool,
    pub is_said: bool,
    pub kept: Kept,
    pub unflushed: usize,
    pub unread: usize,
}

/// The first script that comes to something else, and to what, if a store could be made.
pub fn first_other(alloc: Global, scripts: &[Script<'_>]) -> Option<(&'static str, Option<Seen>)> {
    for script in scripts {
        let wanted = Seen {
            end: script.end,
            is_answered: true,
            is_said: true,
            kept: script.kept,
            unflushed: script.unflushed,
            unread: script.unread,
        };
        let seen = play(alloc, script);
        if seen != Some(wanted) {
            return Some((script.what, seen));
        }
    }
    None
}

/// What comes of a script, if a store can be made.
pub fn play(alloc: Global, script: &Script<'_>) -> Option<Seen> {
    let heap = Refusing::new(alloc);
    match new_store(&heap, script.passes) {
        Some(store) => Some(play_over(alloc, &heap, store, script)),
        None => None,
    }
}

// What comes of a script over a store.
fn play_over<'a>(
    alloc: Global,
    heap: &'a Heap,
    store: FrailStore<'a>,
    script: &Script<'_>,
) -> Seen {
    let unflushed = Cell::new(0);
    let mut input = Source {
        parts: script.parts,
        place: 0,
        given: 0,
        pace: script.pace,
        unflushed: &unflushed,
    };
    let mut output = Sink {
        written: Vec::new(alloc),
        room: script.room,
        unflushed: &unflushed,
    };
    let mut errors = Vec::new(alloc);
    let (end, kept) = make_run(heap, store, script.by, &mut input, &mut output, &mut errors);
    Seen {
        end,
        is_answered: output.written.as_slice() == script.replies,
        is_said: errors.as_slice() == script.said,
        kept,
        unflushed: unflushed.get(),
        unread: input.parts.len().saturating_sub(input.place),
    }
}

// Makes a run by a call: how it ends, and what is left of the store.
fn make_run<'a>(
    heap: &'a Heap,
    store: FrailStore<'a>,
    by: By,
    input: &mut Source<'_>,
    output: &mut Sink<'_>,
    errors: &mut Vec<u8>,
) -> (End, Kept) {
    match by {
        By::Run => run_it(store, input, output),
        By::RunAndClose => close_it(heap, store, input, output, errors),
        By::RunStrictlyAndClose => settle_it(heap, store, input, output, errors),
    }
}

fn run_it(store: FrailStore<'_>, input: &mut Source<'_>, output: &mut Sink<'_>) -> (End, Kept) {
    let mut store = store;
    let end = run(&mut store, &mut CountedReader::over(input), output);
    (End::Ran(end), Kept::Held)
}

fn close_it<'a>(
    heap: &'a Heap,
    store: FrailStore<'a>,
    input: &mut Source<'_>,
    output: &mut Sink<'_>,
    errors: &mut Vec<u8>,
) -> (End, Kept) {
    let ended = run_and_close(store, &mut CountedReader::over(input), output, errors);
    (End::WentWell(ended.went_well), kept_on(heap, ended.device))
}

fn settle_it<'a>(
    heap: &'a Heap,
    store: FrailStore<'a>,
    input: &mut Source<'_>,
    output: &mut Sink<'_>,
    errors: &mut Vec<u8>,
) -> (End, Kept) {
    let settled = run_strictly_and_close(store, &mut CountedReader::over(input), output, errors);
    (End::Settled(settled.outcome), kept_on(heap, settled.device))
}
