//! The store.

mod asking;
mod changes;
mod closing;
mod memory;
mod outlining;
mod questions;
mod start;
mod whole;

use block_device::BlockDevice;
use live_layers::{Layers, Rooms};
use plain_table::Refusal;
pub use start::{create_store, open_store};
use std::alloc::{Allocator, Global};

// What a store that failed answers.
const FAILED: Refusal = Refusal::StoreFailed(19);

/// A spatial store on a device. Each of its commands is one lawful step of the plain table: it answers as the
/// table does and leaves the table that it leaves; or it answers `Memory` or `Device` and leaves the table as
/// it was; or, half way through a change or a reopening, it answers `StoreFailed` with the number of the
/// fault, and the store answers `StoreFailed(19)` from then on.
///
/// Each layer is an R*-tree of pages and a table from identifier to box and tag. Questions only read pages. A
/// change writes them behind an open gate, and [`Store::reopen`] and [`Store::close`] shut it over an image
/// of the table.
#[derive(Drop)]
pub struct Store<D: BlockDevice, A: Allocator = Global> {
    layers: Layers<D, A>,
    rooms: Rooms<A>,
    failed: bool,
}
