//! Stores over devices and memory that may be refused, and runs of texts on them.

use block_device::{BlockDevice, FuseDevice, FuseMode, MemoryDevice};
use command_language::CountedReader;
use command_shell::run;
use layer_store::{Refusal, Store, Version, create_store, open_store};
use refusing::Refusing;
use std::alloc::Global;

/// What takes memory, and can be told to refuse it.
pub type Heap = Refusing<Global>;

/// A device whose calls may be refused.
pub type Frail<'a> = FuseDevice<MemoryDevice<&'a Heap>>;

/// A store whose growths and whose device's calls may be refused.
pub type FrailStore<'a> = Store<Frail<'a>, &'a Heap>;

/// More calls of the device than there are.
pub const NEVER: u32 = u32::MAX;

/// A store without layers, on a device each of whose calls after so many fails.
pub fn new_store<'a>(heap: &'a Heap, passes: u32) -> Option<FrailStore<'a>> {
    let fuse = FuseDevice::new(MemoryDevice::new(heap), u64::from(passes), FuseMode::Onward);
    match create_store(heap, fuse, 64, Version::Two) {
        Ok(store) => Some(store),
        Err(_) => None,
    }
}

/// What the store answers to a text.
pub fn replies_to(alloc: Global, store: &mut FrailStore<'_>, text: &[u8]) -> Vec<u8> {
    let mut output = Vec::new(alloc);
    run(store, &mut CountedReader::over(text), &mut output);
    output
}

/// What is left of a store.
#[derive(Clone, Copy, PartialEq, Eq, Debug)]
pub enum Kept {
    /// It is still held.
    Held,
    /// A device whose store can be opened, and has so many objects in layer `a`.
    Objects(u64),
    /// The same, without that layer.
    NoLayer,
    /// A device of so many blocks, whose opening is refused.
    Refused(Refusal, u32),
}

/// What there is on a device, whose calls are no longer refused.
pub fn kept_on<'a>(heap: &'a Heap, device: Frail<'a>) -> Kept {
    let device = device.into_inner();
    let blocks = device.blocks();
    match open_store(heap, device, 64, Version::Three) {
        Ok(store) => kept_in(store),
        Err((refusal, _)) => Kept::Refused(refusal, blocks),
    }
}

// What there is in a store that was opened.
fn kept_in<'a>(store: Store<MemoryDevice<&'a Heap>, &'a Heap>) -> Kept {
    let mut store = store;
    match store.count(b"a") {
        Ok(count) => Kept::Objects(count),
        Err(_) => Kept::NoLayer,
    }
}
