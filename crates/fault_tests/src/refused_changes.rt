//! Changes of a store that was opened, in which each growth, or each call of the device, is refused in turn.
//! One that is refused before it wrote a page leaves a store that goes on.

use crate::commands::{Ending, Heap, has_failed, put};
use crate::refused::Refused;
use block_device::{BlockDevice, FuseDevice, FuseMode, MemoryDevice};
use layer_store::{RawBox, Refusal, Store, Version, create_store};
use refusing::Refusing;
use std::alloc::Global;
use std::test::Fail;
use store_commands::{Command, FIVE, TWO, answer, closed, new_store, opened};

// More growths, and more calls of the device, than a change makes.
const MOST: u32 = 1000;

// More growths, and more calls of the device, than there are.
const NEVER: u32 = u32::MAX;

// An opening makes four calls of the device: a sync, and the reads of gate, header and catalog.
const OPENING: u32 = 4;

// A layer without objects.
const EMPTY: [Command; 1] = [Command::Create(b"u", 2, 4)];

// What is made before.
const MADE: [&[Command]; 3] = [&TWO, &FIVE, &EMPTY];

// A change of each kind.
const CHANGES: [Command; 6] = [
    Command::Create(b"r", 2, 4),
    Command::Insert(b"l", 6, RawBox::Two([11, 0], [11, 0])),
    Command::Load(b"u", &[(1, RawBox::Two([0, 0], [1, 1]), 0)]),
    Command::Move(b"l", 3, RawBox::Two([9, 0], [9, 0])),
    Command::Delete(b"l", 1),
    Command::Drop(b"l"),
];

// Puts commands to a store and the reference, and answers whether both took them.
fn make<D: BlockDevice>(
    alloc: Global,
    store: &mut Store<D, &Heap>,
    reference: &mut Store<MemoryDevice>,
) -> bool {
    for commands in MADE {
        for &command in commands {
            let is_made = answer(alloc, store, command).is_ok();
            if !is_made || answer(alloc, reference, command).is_err() {
                return false;
            }
        }
    }
    true
}

// The device of a new store with layers, closed; the reference gets them too.
fn made<'a>(
    alloc: Global,
    heap: &'a Heap,
    reference: &mut Store<MemoryDevice>,
) -> Option<MemoryDevice<&'a Heap>> {
    match create_store(heap, MemoryDevice::new(heap), 8, Version::Two) {
        Ok(store) => filled(alloc, store, reference),
        Err(_) => None,
    }
}

// The device of the store once the layers are made, closed.
fn filled<'a>(
    alloc: Global,
    store: Store<MemoryDevice<&'a Heap>, &'a Heap>,
    reference: &mut Store<MemoryDevice>,
) -> Option<MemoryDevice<&'a Heap>> {
    let mut store = store;
    let is_made = make(alloc, &mut store, reference);
    let (refusal, device) = closed(store);
    if is_made && refusal.is_none() {
        Some(device)
    } else {
        None
    }
}

// What becomes of a change.
fn change<'a, D: BlockDevice + Drop>(
    alloc: Global,
    store: Store<D, &'a Heap>,
    reference: &mut Store<MemoryDevice>,
    heap: &'a Heap,
    command: Command<'_>,
    cause: Refusal,
) -> Ending {
    let mut store = store;
    let ending = put(alloc, &mut store, reference, heap, command, cause);
    if ending != Ending::Failed {
        return ending;
    }
    if has_failed(alloc, store, reference, heap, command) {
        Ending::Failed
    } else {
        Ending::Wrong
    }
}

// How many growths are granted, and how many calls of the device, and why the change is refused then.
fn granted(refused: Refused, number: u32) -> (u32, u32, Refusal) {
    match refused {
        Refused::Growths => (number, NEVER, Refusal::Memory),
        Refused::Call => (NEVER, number, Refusal::Device),
    }
}

// What becomes of a change of a store that was opened, while its growth of that number is refused, or the
// call of the device, counted from the opening on; or why the opening is refused.
fn attempt(
    alloc: Global,
    command: Command<'_>,
    refused: Refused,
    number: u32,
) -> Result<Ending, Refusal> {
    let heap = Refusing::new(alloc);
    let Ok(mut reference) = new_store(alloc, 64) else {
        return Ok(Ending::Wrong);
    };
    let Some(device) = made(alloc, &heap, &mut reference) else {
        return Ok(Ending::Wrong);
    };
    let (growths, calls, cause) = granted(refused, number);
    let fuse = FuseDevice::new(device, u64::from(calls), FuseMode::Once);
    match opened(&heap, fuse, 8) {
        Ok(store) => {
            heap.refuse_from(growths);
            Ok(change(alloc, store, &mut reference, &heap, command, cause))
        }
        Err(refusal) => Err(refusal),
    }
}

// Whether a change goes on whose first growth, or first call of the device, is refused; goes on or fails
// where a later one is; and is answered in the end. Some calls have to let it fail, and those of the opening
// are answered by that.
fn goes_on(alloc: Global, command: Command<'_>, refused: Refused) -> bool {
    let first = match refused {
        Refused::Growths => 0,
        Refused::Call => OPENING,
    };
    let mut fails = first == 0;
    for number in 0..MOST {
        match attempt(alloc, command, refused, number) {
            Err(Refusal::Device) if number < first => {}
            Ok(Ending::Refused) if number >= first => {}
            Ok(Ending::Failed) if number > first => fails = true,
            Ok(Ending::Answered) => return fails && number > first,
            _ => return false,
        }
    }
    false
}

// The place of the first change that does not.
fn first_other(alloc: Global, changes: &[Command<'_>], refused: Refused) -> Option<usize> {
    for (place, &command) in changes.iter().enumerate() {
        if !goes_on(alloc, command, refused) {
            return Some(place);
        }
    }
    None
}

// All but the creation of a layer, which takes memory only for pages that it has written.
#[test]
fn a_change_whose_first_growth_is_refused_goes_on(rt: HostRuntime) -> Result<(), Fail> {
    assert_eq!(rt;
        first_other(rt.alloc(), &CHANGES[1..], Refused::Growths),
        None
    );
    Ok(())
}

#[test]
fn a_change_whose_first_call_of_the_device_fails_goes_on(rt: HostRuntime) -> Result<(), Fail> {
    assert_eq!(rt; first_other(rt.alloc(), &CHANGES, Refused::Call), None);
    Ok(())
}
