//! The log by which a stop of a device in memory undoes writes.
ghost use Rattle.std.specs.Prelude.{◌≡◌, ◌<◌, ◌++◌, ◌∷◌, List, [], length, OnOk, OnErr, IsErrOf};
ghost use Rattle.std.specs.List.{All};
ghost use Rattle.block_device.specs.Logged.{Write, restored, writes_in};

use crate::DeviceError;
use std::alloc::Allocator;
use std::marker::Model;
use std::slice::from_ref;

/// The first write since the last sync of each block that was there then, with what the block held.
#[derive(Drop)]
pub struct Log<A: Allocator> {
    numbers: Vec<u32, A>,
    blocks: Vec<[u8; 4096], A>,
}

impl<A: Allocator> Model for Log<A> {
    ghost Value = { List Write };

    ghost view = { λ l. writes_in l.numbers.items l.blocks.items };

    ghost invariant = { λ l. length l.numbers.items ≡ length l.blocks.items };
}

impl<A: Allocator + Copy> Log<A> {
    /// No write, with memory from this allocator.
    pub fn new(alloc: A) -> Self
        ensures { result ≡ [] }
    {
        Log {
            numbers: Vec::new(alloc),
            blocks: Vec::new(alloc),
        }
    }

    /// Adds a write of block i, which held these bytes.
    pub fn add(&mut self, i: u32, old: &[u8; 4096]) -> Result<(), DeviceError>
        ensures added { OnOk result (self.new ≡ self.old ++ record { at = i; old = old.now } ∷ []) }
        ensures refused { OnErr result (self.new ≡ self.old) }
        ensures memory { IsErrOf result DeviceError.Failed → ⊥ }
    {
        self.numbers.reserve(1)?;
        self.blocks.extend_from_slice(from_ref(old))?;
        self.numbers.push_reserved(i);
        Ok(())
    }

    /// Forgets all writes.
    pub fn clear(&mut self)
        ensures { self.new ≡ [] }
    {
        self.numbers.clear();
        self.blocks.clear();
    }

    /// Writes back what the writes replaced.
    pub fn restore(&self, blocks: &mut Vec<[u8; 4096], A>)
        requires { All (λ w. w.at < length blocks.old.items) self.now }
        ensures { blocks.new.items ≡ restored self.now blocks.old.items }
    {
        restore(blocks, &self.numbers, &self.blocks);
    }
}

// Writes these bytes back into the blocks of these numbers.
fn restore<A: Allocator>(blocks: &mut Vec<[u8; 4096], A>, numbers: &[u32], olds: &[[u8; 4096]])
    requires paired { length numbers.now ≡ length olds.now }
    requires there { All (λ w. w.at < length blocks.old.items) (writes_in numbers.now olds.now) }
    ensures { blocks.new.items ≡ restored (writes_in numbers.now olds.now) blocks.old.items }
{
    for k in 0..numbers.len() {
        blocks[numbers[k] as usize] = olds[k];
    }
}
