//! The reader of a base through its log.
ghost use Rattle.std.specs.Prelude.{◌≤◌, length};

mod calls;

use committed_log::Slots;
use read_only_device::BlockReader;
use std::alloc::{Allocator, Global};

/// What recovery makes of a base and a log of commits, only read: the blocks that were committed last when the
/// log was read.
///
/// The index of the regions is read once. A block is then read from its last slot, or from the base: regions that
/// are committed later are not seen, and no read goes behind those that were read. Memory is the index, at most 16
/// bytes for each block of the regions.
#[derive(Drop)]
pub struct SnapshotReader<B: BlockReader, J: BlockReader, A: Allocator + Copy = Global> {
    base: B,
    journal: J,
    // for each block of the regions its home, so that as many blocks of the log are regions
    slots: Slots<A>,
    ghost there: { length slots.homes.items ≤ length (J.shown journal) },
}
