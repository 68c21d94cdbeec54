//! A device in memory, and what it keeps of the writes since the last sync.
ghost use Rattle.std.specs.Prelude.{◌≤◌, ◌^◌, length};
ghost use Rattle.block_device.specs.History.{history};
ghost use Rattle.block_device.specs.Kept.{IsKept};
ghost use Rattle.block_device.specs.KeptFact.{kept_is_fact};

mod calls;
mod stop;

use crate::block_list::BlockList;
use crate::log::Log;
use crate::past::Past;
use std::alloc::{Allocator, Global};

/// A device in memory, which is honest and never fails, and of which a stop can be tried.
///
/// Reads and syncs take no memory. A write takes some where it appends, and where it is the first of its
/// block since the last sync: what the block held then is kept, so there is room for at most twice the
/// blocks. Zeros behind all other blocks have their room, but are not written there before another block is
/// written behind or among them.
#[derive(Drop)]
pub struct MemoryDevice<A: Allocator + Copy = Global> {
    blocks: BlockList<A>,
    // whether each block was written since the last sync
    marks: Vec<bool, A>,
    // the first write since then of each block that was there
    log: Log<A>,
    // how many were there
    synced: usize,
    // how many writes answered Ok
    writes: u64,
    past: Past,
    ghost kept: { IsKept blocks marks.items log synced (history past.notes) } by { kept_is_fact
        blocks
        marks.items log synced (history past.notes) },
    ghost few: { length blocks ≤ 2 ^ 31 },
}
