//! Layers made and taken out.

ghost use Rattle.std.specs.Prelude.{◌≡◌, OnOk};
ghost use Rattle.layer_pages.specs.Changes.{IsEmptyLeaf};
ghost use Rattle.live_layers.specs.Creating.{BringsTree, version_after};
ghost use Rattle.live_layers.specs.Dropping.{KeepsOtherTrees};
ghost use Rattle.plain_table.specs.Commands.Command.{Create, Drop};
ghost use Rattle.plain_table.specs.Table.{Table};
ghost use Rattle.store_law.specs.States.StoreState.{Alive};
ghost use Rattle.layer_store.specs.Commands.{Changes};
ghost use Rattle.layer_store.specs.Representation.{IsInState, file_version, layers_in, newest_in};

use crate::store::changes::tell;
use crate::store::{FAILED, Store};
use block_device::BlockDevice;
use plain_table::Refusal;
use std::alloc::Allocator;

impl<D: BlockDevice, A: Allocator + Copy> Store<D, A> {
    /// Makes an empty layer of that name with 2 or 3 axes, whose nodes may have 4 to 100 entries. Its tree is
    /// an empty leaf. Where the store may write version 3 its identifiers are a tree, and the file is then of
    /// that version (docs/FORMAT.md, "Versions").
    ///
    /// Refused, in this order, by BadName, BadDims, BadFanout, LayerExists and TooManyLayers.
    pub fn create(&mut self, layer: &[u8], dims: u64, fanout: u64) -> Result<(), Refusal>
        ensures changes { Changes self.old self.new (Create layer.now dims fanout) result }
        ensures tree { (t : Table) → IsInState self.old (Alive t) →
            OnOk result (BringsTree (layers_in self.old) (layers_in self.new) layer.now IsEmptyLeaf) }
        ensures version { (t : Table) → IsInState self.old (Alive t) → OnOk result
            (file_version self.new ≡ version_after (newest_in self.old) (file_version self.old)) }
    {
        if self.failed {
            return Err(FAILED);
        }
        let made = self.layers.create(layer, dims, fanout);
        tell(&mut self.failed, made)
    }

    /// Takes out a layer with its objects. The pages of its tree and of its identifier table are free again.
    ///
    /// Refused, in this order, by BadName and NoLayer.
    pub fn drop_layer(&mut self, layer: &[u8]) -> Result<(), Refusal>
        ensures changes { Changes self.old self.new (Drop layer.now) result }
        ensures others { (t : Table) → IsInState self.old (Alive t) →
            OnOk result (KeepsOtherTrees (layers_in self.old) (layers_in self.new) layer.now) }
    {
        if self.failed {
            return Err(FAILED);
        }
        let made = self.layers.drop_layer(layer);
        tell(&mut self.failed, made)
    }
}
