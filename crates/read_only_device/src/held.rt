//! Blocks in memory, which are only read: the premise on a reader can be met.
ghost use Rattle.std.specs.Prelude.{◌≡◌, ◌≤◌, ◌<◌, ◌^◌, length, IfSome, IsNone};
ghost use Rattle.std.specs.List.{All};
ghost use Rattle.block_device.specs.Device.{IsBlock};

use crate::BlockReader;
use block_device::DeviceError;
use std::alloc::{Allocator, Global};

/// Blocks in memory, which are only read.
#[derive(Drop)]
pub struct HeldBlocks<A: Allocator = Global> {
    blocks: Vec<[u8; 4096], A>,
    ghost few: { length blocks.items ≤ 2 ^ 31 },
}

impl<A: Allocator> HeldBlocks<A> {
    /// The reader of these blocks, of which there may be 2^31.
    pub fn over(blocks: Vec<[u8; 4096], A>) -> Option<HeldBlocks<A>>
        ensures honest { IfSome result (λ r. All IsBlock blocks.items →
            ⟦<HeldBlocks<A> as BlockReader>⟧.honest r) }
        ensures shown { IfSome result (λ r. ⟦<HeldBlocks<A> as BlockReader>⟧.shown r ≡ blocks.items) }
        ensures many { IsNone result → 2 ^ 31 < length blocks.items }
    {
        if blocks.len() > 1 << 31 {
            return None;
        }
        Some(HeldBlocks { blocks })
    }
}

impl<A: Allocator> BlockReader for HeldBlocks<A> {
    ghost shown = { λ r. r.blocks.items };

    ghost honest = { λ r. All IsBlock r.blocks.items };

    fn blocks(&self) -> u32 {
        self.blocks.len() as u32
    }

    fn read(&self, i: u32, into: &mut [u8; 4096]) -> Result<(), DeviceError> {
        *into = self.blocks[i as usize];
        Ok(())
    }

    ghost few_blocks = { λ r. r.few };

    ghost whole = { λ _ whole. whole };
}
