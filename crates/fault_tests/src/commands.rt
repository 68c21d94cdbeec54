//! Commands put to a store to which something is refused, beside one in memory to which nothing is: the
//! reference. What that one answers is tested by the program (tests/worked_rows.py, tests/random_sessions.py).

use crate::scripts::SCRIPTS;
use block_device::{BlockDevice, MemoryDevice};
use layer_store::{Refusal, Store};
use refusing::Refusing;
use std::alloc::Global;
use store_commands::{Answer, Command, answer, closed, opened, represents};

const NAMES: [&[u8]; 6] = [b"a", b"c", b"l", b"r", b"t", b"u"];

// Identifiers are below this.
const IDS: u64 = 9;

/// What takes memory, and can be told to refuse it.
pub type Heap = Refusing<Global>;

/// What became of a command, or of a run of commands.
#[derive(Clone, Copy, PartialEq, Eq)]
pub enum Ending {
    /// It was answered as the reference does.
    Answered,
    /// It was refused for the cause, the store went on, and then it was answered.
    Refused,
    /// The store failed for the cause.
    Failed,
    /// None of these.
    Wrong,
}

fn is_refused(given: &Answer, refusal: Refusal) -> bool {
    match given {
        Ok(_) => false,
        Err(given) => *given == refusal,
    }
}

/// Puts a command to a store to which something is refused, and nothing more once the cause is answered.
pub fn put<D: BlockDevice>(
    alloc: Global,
    store: &mut Store<D, &Heap>,
    reference: &mut Store<MemoryDevice>,
    heap: &Heap,
    command: Command<'_>,
    cause: Refusal,
) -> Ending {
    let given = answer(alloc, store, command);
    if is_refused(&given, Refusal::StoreFailed(cause.number())) {
        return fail(heap, command);
    }
    if is_refused(&given, cause) {
        return go_on(alloc, store, reference, heap, command, cause);
    }
    if given == answer(alloc, reference, command) {
        Ending::Answered
    } else {
        Ending::Wrong
    }
}

// What became of a command in which the store failed.
fn fail(heap: &Heap, command: Command<'_>) -> Ending {
    heap.relent();
    if command.is_change() || command.is_closing() {
        Ending::Failed
    } else {
        Ending::Wrong
    }
}

// Puts a command again that was refused for the cause.
fn go_on<D: BlockDevice>(
    alloc: Global,
    store: &mut Store<D, &Heap>,
    reference: &mut Store<MemoryDevice>,
    heap: &Heap,
    command: Command<'_>,
    cause: Refusal,
) -> Ending {
    let was_refused = heap.relent() || cause == Refusal::Device;
    let stays = is_whole(alloc, store, reference);
    let again = answer(alloc, store, command) == answer(alloc, reference, command);
    if was_refused && stays && again {
        Ending::Refused
    } else {
        Ending::Wrong
    }
}

/// Whether a store has the table of the reference.
pub fn is_whole<D: BlockDevice>(
    alloc: Global,
    store: &mut Store<D, &Heap>,
    reference: &mut Store<MemoryDevice>,
) -> bool {
    represents(alloc, store, reference, &NAMES, IDS)
}

/// What is left of a store.
#[derive(Clone, Copy, PartialEq, Eq)]
pub enum Left {
    /// A store with the table of the reference.
    Table,
    /// One with another table.
    OtherTable,
    /// No store that can be opened.
    Refused(Refusal),
}

/// What there is on a device.
pub fn left_on<'a, D: BlockDevice + Drop>(
    alloc: Global,
    device: D,
    reference: &mut Store<MemoryDevice>,
    heap: &'a Heap,
) -> Left {
    match opened(heap, device, 8) {
        Ok(store) => left_in(alloc, store, reference),
        Err(refusal) => Left::Refused(refusal),
    }
}

fn left_in<D: BlockDevice + Drop>(
    alloc: Global,
    store: Store<D, &Heap>,
    reference: &mut Store<MemoryDevice>,
) -> Left {
    let mut store = store;
    if is_whole(alloc, &mut store, reference) {
        Left::Table
    } else {
        Left::OtherTable
    }
}

// Whether each command of the scripts says that the store has failed.
fn say_so<D: BlockDevice>(alloc: Global, store: &mut Store<D, &Heap>) -> bool {
    for script in SCRIPTS {
        for &later in script {
            if !is_refused(&answer(alloc, store, later), Refusal::StoreFailed(19)) {
                return false;
            }
        }
    }
    true
}

/// The store failed in this command: whether each command of the scripts says so, and its device, which comes
/// back with a closing, is that of a store that was not closed, or, after a reopening, has the table.
pub fn has_failed<'a, D: BlockDevice + Drop>(
    alloc: Global,
    store: Store<D, &'a Heap>,
    reference: &mut Store<MemoryDevice>,
    heap: &'a Heap,
    command: Command<'_>,
) -> bool {
    let mut store = store;
    let says_so = say_so(alloc, &mut store);
    let (refusal, device) = closed(store);
    let left = left_on(alloc, device, reference, heap);
    let is_kept = match left {
        Left::Table => command.is_closing(),
        Left::Refused(Refusal::NotClosed) => command.is_change(),
        _ => false,
    };
    says_so && is_kept && refusal == Some(Refusal::StoreFailed(19))
}
