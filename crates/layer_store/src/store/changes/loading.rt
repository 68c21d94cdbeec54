//! All objects of a layer at once.

ghost use Rattle.std.specs.Prelude.{◌≡◌, true, false, map, OnOk};
ghost use Rattle.live_layers.specs.Keeping.{ChangesTree};
ghost use Rattle.live_layers.specs.Rules.{HasFilled};
ghost use Rattle.live_layers.specs.Staying.{KeepsPagesAndRecords};
ghost use Rattle.plain_table.specs.Commands.Command.{Load};
ghost use Rattle.plain_table.specs.Loads.{given_object};
ghost use Rattle.plain_table.specs.Step.{changes};
ghost use Rattle.plain_table.specs.Table.{Table, layer_at};
ghost use Rattle.store_law.specs.States.StoreState.{Alive};
ghost use Rattle.layer_store.specs.Commands.{Changes};
ghost use Rattle.layer_store.specs.Representation.{IsInState, layers_in};

use crate::store::changes::tell;
use crate::store::{FAILED, Store};
use block_device::BlockDevice;
use plain_table::{RawBox, Refusal};
use std::alloc::Allocator;

impl<D: BlockDevice, A: Allocator + Copy> Store<D, A> {
    /// Puts objects, each an identifier with a box and a tag, into a layer that has none, all at once: its
    /// tree is packed from them in the order in which they are given. A load of no objects changes nothing.
    /// The objects are copied first: [`Store::load_owned`] takes less memory.
    ///
    /// Refused, in this order, by BadName, NoLayer, WrongDims, BadBox, NotEmpty, DuplicateInLoad and
    /// TooManyObjects.
    pub fn load(&mut self, layer: &[u8], objects: &[(u64, RawBox, u32)]) -> Result<(), Refusal>
        ensures changes { Changes self.old self.new (Load layer.now objects.now) result }
        ensures tree { (t : Table) → IsInState self.old (Alive t) →
            changes t (Load layer.now objects.now) ≡ true →
            OnOk result (ChangesTree (layers_in self.old) (layers_in self.new) layer.now
            (HasFilled (layer_at t layer.now) (map given_object objects.now))) }
        ensures same { (t : Table) → IsInState self.old (Alive t) →
            changes t (Load layer.now objects.now) ≡ false →
            KeepsPagesAndRecords (layers_in self.old) (layers_in self.new) }
    {
        if self.failed {
            return Err(FAILED);
        }
        match Vec::from_slice(self.layers.alloc(), objects) {
            Ok(objects) => self.load_owned(layer, objects),
            Err(_) => Err(Refusal::Memory),
        }
    }

    /// Does as [`Store::load`] does, and gives the list back as soon as the store has its own: beside the
    /// pages that are held a load then takes some 72 bytes an object of two axes, and 88 of three.
    pub fn load_owned(
        &mut self,
        layer: &[u8],
        objects: Vec<(u64, RawBox, u32), A>,
    ) -> Result<(), Refusal>
        ensures changes { Changes self.old self.new (Load layer.now objects.items) result }
        ensures tree { (t : Table) → IsInState self.old (Alive t) →
            changes t (Load layer.now objects.items) ≡ true →
            OnOk result (ChangesTree (layers_in self.old) (layers_in self.new) layer.now
            (HasFilled (layer_at t layer.now) (map given_object objects.items))) }
        ensures same { (t : Table) → IsInState self.old (Alive t) →
            changes t (Load layer.now objects.items) ≡ false →
            KeepsPagesAndRecords (layers_in self.old) (layers_in self.new) }
    {
        if self.failed {
            return Err(FAILED);
        }
        let made = self.layers.load(layer, objects);
        tell(&mut self.failed, made)
    }
}
