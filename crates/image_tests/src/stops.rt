//! A stop at each call of the device: what is left is opened as the table that was closed last, or whose
//! closing was in progress, or is refused; and it is not refused where nothing was changed since a closing.

use block_device::{BlockDevice, FuseDevice, FuseMode, Left, MemoryDevice};
use layer_store::{RawBox, Refusal, Store, Version, create_store};
use std::alloc::{AllocError, Global};
use std::process::Abort;
use std::test::Fail;
use store_commands::{Command, answer, closed, device_of, new_store, opened, represents};

// More calls of the device than the script makes.
const MOST: u32 = 1000;

// What a stop leaves of blocks that were written and not synced.
const LEFTS: [Left; 5] = [
    Left::Written,
    Left::Synced,
    Left::Filled(0),
    Left::Filled(1),
    Left::Filled(82),
];

const NAMES: [&[u8]; 2] = [b"l", b"m"];

// Identifiers are below this.
const IDS: u64 = 9;

// Changes and questions with a closing between. Another one follows.
const SCRIPT: [Command; 12] = [
    Command::Create(b"l", 2, 4),
    Command::Insert(b"l", 1, RawBox::Two([0, 0], [0, 0])),
    Command::Insert(b"l", 2, RawBox::Two([1, 0], [1, 0])),
    Command::Insert(b"l", 3, RawBox::Two([2, 0], [2, 0])),
    Command::Insert(b"l", 4, RawBox::Two([3, 0], [3, 0])),
    Command::Insert(b"l", 5, RawBox::Two([10, 0], [10, 0])),
    Command::Reopen,
    Command::Window(b"l", RawBox::Two([0, 0], [10, 0])),
    Command::Insert(b"l", 5, RawBox::Two([1, 0], [1, 0])),
    Command::Insert(b"l", 6, RawBox::Two([11, 0], [11, 0])),
    Command::Insert(b"l", 7, RawBox::Two([4, 0], [4, 0])),
    Command::Insert(b"l", 8, RawBox::Two([5, 0], [5, 0])),
];

// The same of changes that take away, or bring much at once.
const REMOVALS: [Command; 15] = [
    Command::Create(b"l", 2, 4),
    Command::Load(
        b"l",
        &[
            (1, RawBox::Two([0, 0], [0, 0]), 0),
            (2, RawBox::Two([1, 0], [1, 0]), 0),
            (3, RawBox::Two([2, 0], [2, 0]), 0),
            (4, RawBox::Two([3, 0], [3, 0]), 0),
            (5, RawBox::Two([10, 0], [10, 0]), 0),
        ],
    ),
    Command::Create(b"m", 3, 4),
    Command::Insert(b"m", 1, RawBox::Three([0; 3], [1; 3])),
    Command::Reopen,
    Command::Join(b"l", b"l", 0),
    Command::Move(b"l", 3, RawBox::Two([2, 0], [2, 0])),
    Command::Check,
    Command::Reopen,
    Command::Move(b"l", 3, RawBox::Two([9, 0], [9, 0])),
    Command::Delete(b"l", 4),
    Command::Drop(b"m"),
    Command::Reopen,
    Command::Dump,
    Command::Delete(b"l", 1),
];

// A removal that leaves its leaf with too few objects, and so gives up the root.
const DELETION: [Command; 8] = [
    Command::Create(b"l", 2, 4),
    Command::Insert(b"l", 1, RawBox::Two([0, 0], [0, 0])),
    Command::Insert(b"l", 2, RawBox::Two([1, 0], [1, 0])),
    Command::Insert(b"l", 3, RawBox::Two([2, 0], [2, 0])),
    Command::Insert(b"l", 4, RawBox::Two([3, 0], [3, 0])),
    Command::Insert(b"l", 5, RawBox::Two([10, 0], [10, 0])),
    Command::Reopen,
    Command::Delete(b"l", 1),
];

const SCRIPTS: [&[Command]; 3] = [&SCRIPT, &REMOVALS, &DELETION];

// What a run left on its device, and what may be found there.
#[derive(Drop)]
struct Remains {
    device: MemoryDevice,
    // whether a call of the device failed
    is_stopped: bool,
    // how many commands had made the table that was closed last
    closed: usize,
    // how many had made the table whose closing was not finished, where there is one
    closing: Option<usize>,
    // whether opening may refuse it
    is_changed: bool,
}

impl Remains {
    // What the creation of a store leaves that is not finished.
    fn nothing(alloc: Global) -> Self {
        Remains {
            device: MemoryDevice::new(alloc),
            is_stopped: true,
            closed: 0,
            closing: Some(0),
            is_changed: true,
        }
    }

    // Notes whether the closing of the table of so many commands was finished.
    fn note_closing(&mut self, made: usize, is_finished: bool) {
        if is_finished {
            self.closed = made;
            self.closing = None;
            self.is_changed = false;
        } else {
            self.closing = Some(made);
        }
    }
}

// Runs the script until a call of the device fails, and answers how many commands made the table.
fn run_commands<D: BlockDevice>(
    alloc: Global,
    script: &[Command<'_>],
    store: &mut Store<D>,
    remains: &mut Remains,
) -> usize {
    let Ok(mut reference) = new_store(alloc, 64) else {
        return 0;
    };
    for (k, &command) in script.iter().enumerate() {
        let given = answer(alloc, store, command);
        let before = answer(alloc, &mut reference, Command::Dump);
        answer(alloc, &mut reference, command).is_ok();
        if answer(alloc, &mut reference, Command::Dump) != before {
            remains.is_changed = true;
        }
        // a reopening that fails has finished its closing
        if command.is_closing() {
            remains.note_closing(k, given != Err(Refusal::Device));
        }
        if given == Err(Refusal::Device) || given == Err(Refusal::StoreFailed(17)) {
            return k;
        }
    }
    script.len()
}

// Runs the script, and closes the store, on a device all of whose calls fail after so many.
fn run(alloc: Global, script: &[Command<'_>], passes: u32) -> Remains {
    let device = FuseDevice::new(
        MemoryDevice::new(alloc),
        u64::from(passes),
        FuseMode::Onward,
    );
    let mut remains = Remains::nothing(alloc);
    let mut store = match create_store(alloc, device, 8, Version::Three) {
        Ok(store) => store,
        Err((_, device)) => {
            remains.device = device.into_inner();
            return remains;
        }
    };
    remains.note_closing(0, true);
    let made = run_commands(alloc, script, &mut store, &mut remains);
    let (refusal, device) = closed(store);
    // a store that failed is not closed
    if refusal != Some(Refusal::StoreFailed(19)) {
        remains.note_closing(made, refusal.is_none());
    }
    remains.is_stopped = device.calls() > u64::from(passes);
    remains.device = device.into_inner();
    remains
}

// A store to which so many commands were put, and on whose device nothing failed.
fn reference_after(
    alloc: Global,
    script: &[Command<'_>],
    count: usize,
) -> Result<Store<MemoryDevice>, Refusal> {
    let mut reference = new_store(alloc, 64)?;
    for &command in script.iter().take(count) {
        answer(alloc, &mut reference, command).is_ok();
    }
    Ok(reference)
}

// What is found where a run was stopped.
#[derive(Clone, Copy, Debug, PartialEq, Eq)]
enum Found {
    // The table that so many commands made, which may be there.
    Table(usize),
    // Blocks that opening refuses, which may be there.
    Refused,
    // What may not be there.
    Wrong,
}

// Whether the store has the table of so many commands.
fn is_after(
    alloc: Global,
    script: &[Command<'_>],
    store: &mut Store<MemoryDevice>,
    count: usize,
) -> bool {
    match reference_after(alloc, script, count) {
        Ok(mut reference) => represents(alloc, store, &mut reference, &NAMES, IDS),
        Err(_) => false,
    }
}

// What is found in what is left of the device.
fn find(alloc: Global, script: &[Command<'_>], remains: Remains, left: Left) -> Found {
    let mut store = match opened(alloc, remains.device.after_stop(left), 8) {
        Ok(store) => store,
        Err(refusal) => {
            let is_due = match refusal {
                Refusal::NotAStore | Refusal::NotClosed | Refusal::WrongVersion => true,
                Refusal::Damaged(page) => page < 3,
                _ => false,
            };
            return if remains.is_changed && is_due {
                Found::Refused
            } else {
                Found::Wrong
            };
        }
    };
    if is_after(alloc, script, &mut store, remains.closed) {
        return Found::Table(remains.closed);
    }
    match remains.closing {
        Some(count) if is_after(alloc, script, &mut store, count) => Found::Table(count),
        _ => Found::Wrong,
    }
}

// Stops the script at each call, of which there are fewer than `MOST`, and answers what is found.
fn stop_at_each_call(
    rt: &impl Abort,
    alloc: Global,
    script: &[Command<'_>],
    left: Left,
) -> Result<Vec<Found>, AllocError> {
    let mut all = Vec::new(alloc);
    for passes in 0..MOST {
        let remains = run(alloc, script, passes);
        let is_stopped = remains.is_stopped;
        let found = find(alloc, script, remains, left);
        assert!(rt; found != Found::Wrong, "{left:?} after {passes} calls");
        all.push(found)?;
        if !is_stopped {
            return Ok(all);
        }
    }
    assert!(rt; false, "more calls");
    Ok(all)
}

// Each table that was closed is found after some stop, and so are blocks that opening refuses.
fn see_each(rt: &impl Abort, script: &[Command<'_>], all: &[Found]) {
    for (k, command) in script.iter().enumerate() {
        assert!(rt;
            !command.is_closing() || all.contains(&Found::Table(k)),
            "{k}"
        );
    }
    for found in [Found::Refused, Found::Table(0), Found::Table(script.len())] {
        assert!(rt; all.contains(&found), "{found:?}");
    }
}

#[test]
fn a_stop_at_each_call_leaves_no_wrong_table(rt: HostRuntime) -> Result<(), Fail> {
    for script in SCRIPTS {
        for left in LEFTS {
            let all = stop_at_each_call(&rt, rt.alloc(), script, left)?;
            see_each(&rt, script, &all);
        }
    }
    Ok(())
}

// Runs the script on a device of whose calls the one after so many fails, to the end of it.
fn run_to_the_end(
    alloc: Global,
    passes: u32,
) -> Result<(Option<Refusal>, FuseDevice<MemoryDevice>), Refusal> {
    let device = FuseDevice::new(MemoryDevice::new(alloc), u64::from(passes), FuseMode::Once);
    let mut store = match create_store(alloc, device, 8, Version::Three) {
        Ok(store) => store,
        Err((refusal, _)) => return Err(refusal),
    };
    for &command in SCRIPT.iter() {
        answer(alloc, &mut store, command).is_ok();
    }
    Ok(closed(store))
}

// The closing's last call is the sync of the shut gate. Where it fails the gate may be lost in a stop, and so
// the opening that follows syncs it.
#[test]
fn an_opening_syncs_what_was_read(rt: HostRuntime) -> Result<(), Fail> {
    let (refusal, device) = run_to_the_end(rt.alloc(), u32::MAX)?;
    assert_eq!(rt; refusal, None);
    let calls = u32::try_from(device.calls()).unwrap_or(0);
    let (refusal, device) = run_to_the_end(rt.alloc(), calls.saturating_sub(1))?;
    assert_eq!(rt; refusal, Some(Refusal::Device));
    let device = device_of(opened(rt.alloc(), device, 8)?)?;
    let mut store = opened(rt.alloc(), device.into_inner().after_stop(Left::Synced), 8)?;
    let mut reference = reference_after(rt.alloc(), &SCRIPT, SCRIPT.len())?;
    assert!(rt; represents(rt.alloc(), &mut store, &mut reference, &NAMES, IDS));
    Ok(())
}

// Whether a store has the table of another, and no longer once that has an object more.
fn misses_an_object(
    alloc: Global,
    store: &mut Store<MemoryDevice>,
    reference: &mut Store<MemoryDevice>,
) -> bool {
    let create = Command::Create(b"l", 2, 4);
    let are_made = answer(alloc, store, create).is_ok() && answer(alloc, reference, create).is_ok();
    let was_whole = represents(alloc, store, reference, &NAMES, IDS);
    let insert = Command::Insert(b"l", 1, RawBox::Two([0, 0], [0, 0]));
    let is_inserted = answer(alloc, reference, insert).is_ok();
    are_made && was_whole && is_inserted && !represents(alloc, store, reference, &NAMES, IDS)
}

#[test]
fn a_missing_object_is_seen(rt: HostRuntime) -> Result<(), Fail> {
    let mut store = new_store(rt.alloc(), 8)?;
    let mut reference = new_store(rt.alloc(), 8)?;
    assert!(rt; misses_an_object(rt.alloc(), &mut store, &mut reference));
    Ok(())
}
