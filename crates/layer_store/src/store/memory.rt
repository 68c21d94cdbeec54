//! Where a store takes its memory from, and what is answered for want of it.

ghost use Rattle.std.specs.Prelude.{◌≡◌};
ghost use Rattle.live_layers.specs.Keeping.{alloc_of};
ghost use Rattle.plain_table.specs.Commands.{Command, MayGiveUp};
ghost use Rattle.plain_table.specs.Step.Answer.{Refused};
ghost use Rattle.plain_table.specs.declared.refusal.Refusal.TheVariants as refusal;
ghost use Rattle.store_law.specs.States.StoreState.{Dead};
ghost use Rattle.layer_store.specs.Commands.{TakesReply, TakesStep};
ghost use Rattle.layer_store.specs.Representation.{IsInState, layers_in};

use crate::store::{FAILED, Store};
use block_device::BlockDevice;
use plain_table::Refusal;
use std::alloc::Allocator;

impl<D: BlockDevice, A: Allocator + Copy> Store<D, A> {
    /// Where answers take their memory from.
    pub fn alloc(&self) -> A
        ensures { result ≡ alloc_of (layers_in self.now) }
    {
        self.layers.alloc()
    }

    /// What a command is answered for which the caller found no memory: `Memory`, or `StoreFailed(19)` by a
    /// store that failed. The store stays as it is.
    pub fn out_of_memory(&mut self) -> Refusal
        ensures step { (c : Command) → MayGiveUp c → TakesStep self.old self.new c (Refused result) }
        ensures reply { (c : Command) → MayGiveUp c → TakesReply self.old self.new c (Refused result) }
        ensures same { self.new ≡ self.old }
        ensures dead { IsInState self.old Dead → result ≡ refusal.StoreFailed 19 }
    {
        if self.failed {
            return FAILED;
        }
        Refusal::Memory
    }
}
