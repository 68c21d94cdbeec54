//! Layers dropped.

ghost use Rattle.std.specs.Prelude.{OnOk};
ghost use Rattle.plain_table.specs.Commands.Command.{Drop};
ghost use Rattle.plain_table.specs.Table.{Table};
ghost use Rattle.live_layers.specs.Changes.{IsChangeBy};
ghost use Rattle.live_layers.specs.Dropping.{KeepsOtherTrees};
ghost use Rattle.live_layers.specs.Keeping.{IsSound};

mod take_layer;

use crate::faults::change_of;
use crate::layers::Layers;
use crate::unmade::Unmade;
use block_device::BlockDevice;
use std::alloc::Allocator;

impl<B: BlockDevice, A: Allocator + Copy> Layers<B, A> {
    /// Drops a layer with all its objects: its pages are freed, and all other trees stay.
    ///
    /// Refused, in this order, by BadName and NoLayer.
    pub fn drop_layer(&mut self, name: &[u8]) -> Result<(), Unmade>
        ensures change { IsChangeBy self.old self.new (Drop name.now) result }
        ensures others { (t : Table) → IsSound self.old t →
            OnOk result (KeepsOtherTrees self.old self.new name.now) }
    {
        match self.named(name) {
            Ok(place) => change_of(self.take_layer(place)),
            Err(refusal) => Err(Unmade::Refused(refusal)),
        }
    }
}
