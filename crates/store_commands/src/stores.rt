//! Stores made, opened and closed.

use block_device::{BlockDevice, MemoryDevice};
use layer_store::{Refusal, Store, Version, create_store, open_store};
use std::alloc::{Allocator, Global};

/// A new store in memory.
pub fn new_store(alloc: Global, cache: u32) -> Result<Store<MemoryDevice>, Refusal> {
    match create_store(alloc, MemoryDevice::new(alloc), cache, Version::Three) {
        Ok(store) => Ok(store),
        Err((refusal, _)) => Err(refusal),
    }
}

/// Closes the store: why that is refused, if it is, and the device.
pub fn closed<D: BlockDevice, A: Allocator + Copy>(store: Store<D, A>) -> (Option<Refusal>, D) {
    match store.close() {
        Ok(device) => (None, device),
        Err((refusal, device)) => (Some(refusal), device),
    }
}

/// The device of the store, closed.
pub fn device_of<D: BlockDevice + Drop, A: Allocator + Copy>(
    store: Store<D, A>,
) -> Result<D, Refusal> {
    match store.close() {
        Ok(device) => Ok(device),
        Err((refusal, _)) => Err(refusal),
    }
}

/// The store on a device, which is lost where it is refused.
pub fn opened<D: BlockDevice + Drop, A: Allocator + Copy>(
    alloc: A,
    device: D,
    cache: u32,
) -> Result<Store<D, A>, Refusal> {
    match open_store(alloc, device, cache, Version::Three) {
        Ok(store) => Ok(store),
        Err((refusal, _)) => Err(refusal),
    }
}
