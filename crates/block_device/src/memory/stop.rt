//! A stop of a device in memory.
ghost use Rattle.std.specs.Prelude.{◌≡◌, ◌<◌, ℕ, length, replicate};
ghost use Rattle.std.specs.List.{All};
ghost use Rattle.block_device.specs.Device.{Only};
ghost use Rattle.block_device.specs.Kept.{FillsMarked, IsLeftFrom};
ghost use Rattle.block_device.specs.Memory.{shown_of, may_leave_of, IsLeftBy};

use crate::block_list::BlockList;
use crate::log::Log;
use crate::memory::MemoryDevice;
use crate::past::Past;
use crate::{BlockDevice, Left};
use std::alloc::Allocator;

impl<A: Allocator + Copy> MemoryDevice<A> {
    /// The device as a stop now leaves it, with no writes and nothing unsynced. It takes no memory.
    pub fn after_stop(self, left: Left) -> MemoryDevice<A>
        ensures exact { IsLeftBy left self result }

        // It is one of the outcomes of a stop now, and a further stop leaves nothing else.
        ensures outcome { may_leave_of self (shown_of result) }
        ensures durable { Only (shown_of result) (may_leave_of result) }
        ensures honest { ⟦<MemoryDevice<A> as BlockDevice>⟧.honest result }
    {
        let MemoryDevice {
            blocks,
            mut marks,
            mut log,
            synced,
            ..
        } = self;
        let mut blocks = blocks.into_written();
        leave(left, &mut blocks, &marks, &log, synced);
        marks.truncate(blocks.len());
        marks.fill(false);
        log.clear();
        MemoryDevice {
            synced: blocks.len(),
            blocks: BlockList::of(blocks),
            marks,
            log,
            writes: 0,
            past: Past::new(),
        }
    }
}

// Makes of the blocks what such a stop leaves.
fn leave<A: Allocator + Copy>(
    left: Left,
    blocks: &mut Vec<[u8; 4096], A>,
    marks: &[bool],
    log: &Log<A>,
    synced: usize,
)
    requires marks { length marks.now ≡ length blocks.old.items }
    requires log { All (λ w. w.at < length blocks.old.items) log.now }
    ensures blocks { IsLeftFrom left marks.now log.now synced blocks.old.items blocks.new.items }
    ensures byte { (byte : ℕ) → left ≡ Left.Filled byte → byte < 256 }
{
    match left {
        Left::Written => {}
        Left::Synced => {
            log.restore(blocks);
            blocks.truncate(synced);
        }
        Left::Filled(byte) => fill(blocks, marks, &[byte; 4096]),
    }
}

// Writes the bytes into each marked block.
fn fill<A: Allocator>(blocks: &mut Vec<[u8; 4096], A>, marks: &[bool], bytes: &[u8; 4096])
    requires { length marks.now ≡ length blocks.old.items }
    ensures { FillsMarked bytes.now marks.now blocks.old.items blocks.new.items }
{
    for i in 0..marks.len() {
        if marks[i] {
            blocks[i] = *bytes;
        }
    }
}
