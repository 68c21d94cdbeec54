//! Single objects of a layer.

ghost use Rattle.std.specs.Prelude.{◌≡◌, true, false, OnOk};
ghost use Rattle.live_layers.specs.Keeping.{ChangesTree};
ghost use Rattle.live_layers.specs.Rules.{HasGained, HasLost, HasMoved};
ghost use Rattle.live_layers.specs.Staying.{KeepsPagesAndRecords};
ghost use Rattle.plain_table.specs.Boxes.{given_bounds};
ghost use Rattle.plain_table.specs.Commands.Command.{Delete, Insert, Move};
ghost use Rattle.plain_table.specs.Step.{changes};
ghost use Rattle.plain_table.specs.Table.{Table, layer_at};
ghost use Rattle.store_law.specs.States.StoreState.{Alive};
ghost use Rattle.layer_store.specs.Commands.{Changes};
ghost use Rattle.layer_store.specs.Representation.{IsInState, layers_in};

use crate::store::changes::tell;
use crate::store::{FAILED, Store};
use block_device::BlockDevice;
use plain_table::{RawBox, Refusal};
use std::alloc::Allocator;

impl<D: BlockDevice, A: Allocator + Copy> Store<D, A> {
    /// Adds an object with a new identifier, a box and a tag to a layer, by a lawful insertion into its tree.
    ///
    /// Refused, in this order, by BadName, NoLayer, WrongDims, BadBox, Duplicate and TooManyObjects.
    pub fn insert(&mut self, layer: &[u8], id: u64, bounds: RawBox, tag: u32) -> Result<(), Refusal>
        ensures changes { Changes self.old self.new (Insert layer.now id bounds tag) result }
        ensures tree { (t : Table) → IsInState self.old (Alive t) →
            OnOk result (ChangesTree (layers_in self.old) (layers_in self.new) layer.now
            (HasGained (layer_at t layer.now) id (given_bounds bounds, tag))) }
    {
        if self.failed {
            return Err(FAILED);
        }
        let made = self.layers.insert(layer, id, bounds, tag, &mut self.rooms);
        tell(&mut self.failed, made)
    }

    /// Gives the object with that identifier that box: by a lawful removal from the layer's tree, and then a
    /// lawful insertion into it. It keeps its tag. A move to the box that the object has changes nothing.
    ///
    /// Refused, in this order, by BadName, NoLayer, WrongDims, BadBox and NoObject.
    pub fn move_object(&mut self, layer: &[u8], id: u64, bounds: RawBox) -> Result<(), Refusal>
        ensures changes { Changes self.old self.new (Move layer.now id bounds) result }
        ensures tree { (t : Table) → IsInState self.old (Alive t) →
            changes t (Move layer.now id bounds) ≡ true →
            OnOk result (ChangesTree (layers_in self.old) (layers_in self.new) layer.now
            (HasMoved (layer_at t layer.now) id (given_bounds bounds))) }
        ensures same { (t : Table) → IsInState self.old (Alive t) →
            changes t (Move layer.now id bounds) ≡ false →
            KeepsPagesAndRecords (layers_in self.old) (layers_in self.new) }
    {
        if self.failed {
            return Err(FAILED);
        }
        let made = self.layers.move_object(layer, id, bounds, &mut self.rooms);
        tell(&mut self.failed, made)
    }

    /// Takes out the object with that identifier, by a lawful removal from the layer's tree.
    ///
    /// Refused, in this order, by BadName, NoLayer and NoObject.
    pub fn delete(&mut self, layer: &[u8], id: u64) -> Result<(), Refusal>
        ensures changes { Changes self.old self.new (Delete layer.now id) result }
        ensures tree { (t : Table) → IsInState self.old (Alive t) →
            OnOk result (ChangesTree (layers_in self.old) (layers_in self.new) layer.now
            (HasLost (layer_at t layer.now) id)) }
    {
        if self.failed {
            return Err(FAILED);
        }
        let made = self.layers.delete(layer, id, &mut self.rooms);
        tell(&mut self.failed, made)
    }
}
