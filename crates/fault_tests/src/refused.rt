//! Each growth and each call of the device refused in turn. A command says so and the table stays, or in a
//! change the store fails; and what is left is opened as the table that was closed last, or refused.

use crate::commands::{Ending, Heap, Left, has_failed, is_whole, left_on, put};
use crate::scripts::{ROWS, SCRIPTS, row_script};
use block_device::{BlockDevice, FuseDevice, FuseMode, MemoryDevice};
use layer_store::{Refusal, Store, Version, create_store, open_store};
use refusing::Refusing;
use std::alloc::{AllocError, Global};
use std::test::Fail;
use store_commands::{Command, closed, new_store, opened};

// More growths, and more calls of the device, than a script makes.
const MOST: u32 = 10000;

/// What is refused.
#[derive(Clone, Copy)]
pub enum Refused {
    /// All growths from one on.
    Growths,
    /// One call of the device.
    Call,
}

// Closes a store with a change and opens it again, while something is refused.
fn close_and_open<'a, D: BlockDevice + Drop>(
    alloc: Global,
    store: Store<D, &'a Heap>,
    reference: &mut Store<MemoryDevice>,
    heap: &'a Heap,
    cause: Refusal,
) -> Ending {
    let (refusal, device) = closed(store);
    match refusal {
        None => open_again(alloc, device, reference, heap, cause),
        Some(refusal) => leave(alloc, device, reference, heap, refusal == cause),
    }
}

// The device of a store with a change whose closing was refused: it was not closed, or it has the table.
fn leave<'a, D: BlockDevice + Drop>(
    alloc: Global,
    device: D,
    reference: &mut Store<MemoryDevice>,
    heap: &'a Heap,
    is_told: bool,
) -> Ending {
    heap.relent();
    match left_on(alloc, device, reference, heap) {
        Left::Table | Left::Refused(Refusal::NotClosed) if is_told => Ending::Refused,
        _ => Ending::Wrong,
    }
}

// Opens a store that was closed, while something is refused.
fn open_again<'a, D: BlockDevice + Drop>(
    alloc: Global,
    device: D,
    reference: &mut Store<MemoryDevice>,
    heap: &'a Heap,
    cause: Refusal,
) -> Ending {
    match open_store(heap, device, 8, Version::Three) {
        Ok(store) => hold(alloc, store, reference, heap),
        Err((refusal, device)) => {
            heap.relent();
            open_after(alloc, device, reference, heap, refusal == cause)
        }
    }
}

// A store that was opened: a call of the device that is still to fail fails in the first questions.
fn hold<'a, D: BlockDevice + Drop>(
    alloc: Global,
    store: Store<D, &'a Heap>,
    reference: &mut Store<MemoryDevice>,
    heap: &'a Heap,
) -> Ending {
    let mut store = store;
    let was_refused = heap.relent();
    let holds = is_whole(alloc, &mut store, reference) || is_whole(alloc, &mut store, reference);
    match (holds, was_refused) {
        (true, true) => Ending::Refused,
        (true, false) => Ending::Answered,
        (false, _) => Ending::Wrong,
    }
}

// A store that can be opened only now.
fn open_after<'a, D: BlockDevice + Drop>(
    alloc: Global,
    device: D,
    reference: &mut Store<MemoryDevice>,
    heap: &'a Heap,
    is_told: bool,
) -> Ending {
    match opened(heap, device, 8) {
        Ok(store) => {
            let held = hold(alloc, store, reference, heap);
            if is_told && held == Ending::Answered {
                Ending::Refused
            } else {
                Ending::Wrong
            }
        }
        Err(_) => Ending::Wrong,
    }
}

// Puts commands to a store while something is refused, up to one that does not go on, which is told.
fn put_all<D: BlockDevice>(
    alloc: Global,
    store: &mut Store<D, &Heap>,
    reference: &mut Store<MemoryDevice>,
    script: &[Command<'static>],
    heap: &Heap,
    cause: Refusal,
) -> (Ending, Command<'static>) {
    let mut seen = Ending::Answered;
    for &command in script {
        match put(alloc, store, reference, heap, command, cause) {
            Ending::Answered => {}
            Ending::Refused => seen = Ending::Refused,
            ending => return (ending, command),
        }
    }
    (seen, Command::Check)
}

// Puts the script to a new store while something is refused.
fn run<'a, D: BlockDevice + Drop>(
    alloc: Global,
    store: Store<D, &'a Heap>,
    script: &[Command<'static>],
    heap: &'a Heap,
    cause: Refusal,
) -> Ending {
    let mut store = store;
    let Ok(mut reference) = new_store(alloc, 64) else {
        return Ending::Wrong;
    };
    let (seen, last) = put_all(alloc, &mut store, &mut reference, script, heap, cause);
    if seen == Ending::Failed {
        return end_failed(alloc, store, &mut reference, heap, last);
    }
    let ending = close_and_open(alloc, store, &mut reference, heap, cause);
    match (seen, ending) {
        (Ending::Answered, ending) => ending,
        (Ending::Refused, Ending::Answered | Ending::Refused) => Ending::Refused,
        _ => Ending::Wrong,
    }
}

// What a store comes to that failed in this command.
fn end_failed<'a, D: BlockDevice + Drop>(
    alloc: Global,
    store: Store<D, &'a Heap>,
    reference: &mut Store<MemoryDevice>,
    heap: &'a Heap,
    command: Command<'_>,
) -> Ending {
    if has_failed(alloc, store, reference, heap, command) {
        Ending::Failed
    } else {
        Ending::Wrong
    }
}

// Makes a store on a device without blocks and puts the script to it, while something is refused.
fn make_and_run<'a, D: BlockDevice + Drop>(
    alloc: Global,
    device: D,
    script: &[Command<'static>],
    heap: &'a Heap,
    cause: Refusal,
) -> Ending {
    if device.blocks() != 0 {
        return Ending::Wrong;
    }
    match create_store(heap, device, 8, Version::Three) {
        Ok(store) => run(alloc, store, script, heap, cause),
        Err((refusal, device)) => leave_unmade(alloc, device, heap, refusal == cause),
    }
}

// The device of a store that could not be made.
fn leave_unmade<'a, D: BlockDevice + Drop>(
    alloc: Global,
    device: D,
    heap: &'a Heap,
    is_told: bool,
) -> Ending {
    heap.relent();
    let Ok(mut reference) = new_store(alloc, 64) else {
        return Ending::Wrong;
    };
    match left_on(alloc, device, &mut reference, heap) {
        Left::Table | Left::Refused(Refusal::NotClosed | Refusal::NotAStore) if is_told => {
            Ending::Refused
        }
        _ => Ending::Wrong,
    }
}

// Puts the script to a new store, while the growth or the call of that number is refused.
fn attempt(alloc: Global, script: &[Command<'static>], refused: Refused, number: u32) -> Ending {
    let heap = Refusing::new(alloc);
    match refused {
        Refused::Growths => {
            heap.refuse_from(number);
            let device = MemoryDevice::new(&heap);
            make_and_run(alloc, device, script, &heap, Refusal::Memory)
        }
        Refused::Call => {
            let device = MemoryDevice::new(alloc);
            let fuse = FuseDevice::new(device, u64::from(number), FuseMode::Once);
            make_and_run(alloc, fuse, script, &heap, Refusal::Device)
        }
    }
}

// The number of the first growth, or call of the device, that is refused otherwise than it should. Some runs
// have to go on after a refusal, some to fail, and the last to be answered throughout.
fn first_other(alloc: Global, script: &[Command<'static>], refused: Refused) -> Option<u32> {
    let mut goes_on = false;
    let mut fails = false;
    for number in 0..MOST {
        match attempt(alloc, script, refused, number) {
            Ending::Answered if goes_on && fails => return None,
            Ending::Answered | Ending::Wrong => return Some(number),
            Ending::Refused => goes_on = true,
            Ending::Failed => fails = true,
        }
    }
    Some(MOST)
}

// The first script whose runs do not end as they should, and the number of what is refused then.
fn first_other_script(alloc: Global, refused: Refused) -> Option<(usize, u32)> {
    for (place, script) in SCRIPTS.iter().enumerate() {
        if let Some(number) = first_other(alloc, script, refused) {
            return Some((place, number));
        }
    }
    None
}

// The same of the worked rows.
fn first_other_row(alloc: Global, refused: Refused) -> Result<Option<(usize, u32)>, AllocError> {
    for (place, (before, row)) in ROWS.iter().enumerate() {
        let script = row_script(alloc, before, *row)?;
        if let Some(number) = first_other(alloc, &script, refused) {
            return Ok(Some((place, number)));
        }
    }
    Ok(None)
}

#[test]
fn each_growth_is_refused_in_turn(rt: HostRuntime) -> Result<(), Fail> {
    assert_eq!(rt; first_other_script(rt.alloc(), Refused::Growths), None);
    Ok(())
}

#[test]
fn each_call_of_the_device_fails_in_turn(rt: HostRuntime) -> Result<(), Fail> {
    assert_eq!(rt; first_other_script(rt.alloc(), Refused::Call), None);
    Ok(())
}

#[test]
fn each_growth_of_worked_rows_is_refused_in_turn(rt: HostRuntime) -> Result<(), Fail> {
    assert_eq!(rt; first_other_row(rt.alloc(), Refused::Growths)?, None);
    Ok(())
}

#[test]
fn each_call_of_the_device_in_worked_rows_fails_in_turn(rt: HostRuntime) -> Result<(), Fail> {
    assert_eq!(rt; first_other_row(rt.alloc(), Refused::Call)?, None);
    Ok(())
}
