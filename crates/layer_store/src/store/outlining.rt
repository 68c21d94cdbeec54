//! What is told of the pages of layers. It is asked by no command.

ghost use Rattle.plain_table.specs.Table.{Table};
ghost use Rattle.store_law.specs.States.StoreState.{Alive};
ghost use Rattle.live_layers.specs.Changes.{Rose};
ghost use Rattle.live_layers.specs.Outlines.{IsIdPages, IsOfName, ListsTree};
ghost use Rattle.layer_store.specs.Commands.{OnlyAsks};
ghost use Rattle.layer_store.specs.Representation.{IsInState, layers_in};

use crate::store::{FAILED, Store};
use block_device::BlockDevice;
use live_layers::LayerOutline;
use plain_table::Refusal;
use std::alloc::Allocator;

impl<D: BlockDevice, A: Allocator + Copy> Store<D, A> {
    /// The nodes of the tree of a layer, the root first, each before those below it, and siblings by
    /// position: page, level, count of entries and box of each. They are exactly the nodes of the tree, and
    /// it looks at each once.
    ///
    /// Refused, in this order, by BadName and NoLayer.
    pub fn outline(&mut self, layer: &[u8]) -> Result<LayerOutline<A>, Refusal>
        ensures asks { OnlyAsks self.old self.new result }
        ensures listed { (t : Table) → IsInState self.old (Alive t) →
            IsOfName (Rose (layers_in self.old) (layers_in self.new)) t layer.now
            (ListsTree (layers_in self.old) (layers_in self.new) t layer.now) result }
    {
        if self.failed {
            return Err(FAILED);
        }
        self.layers.outline(layer)
    }

    /// How many pages the identifier table of a layer has, with its first one. It takes memory for the
    /// objects of the layer.
    ///
    /// Refused, in this order, by BadName and NoLayer.
    pub fn id_pages(&mut self, layer: &[u8]) -> Result<u64, Refusal>
        ensures asks { OnlyAsks self.old self.new result }
        ensures counted { (t : Table) → IsInState self.old (Alive t) →
            IsOfName (Rose (layers_in self.old) (layers_in self.new)) t layer.now
            (IsIdPages (layers_in self.old) t layer.now) result }
    {
        if self.failed {
            return Err(FAILED);
        }
        self.layers.id_pages(layer)
    }
}
