//! Questions that no command asks: a range query in any order, and the join of given objects with a layer.

ghost use Rattle.std.specs.Prelude.{OnOk, map};
ghost use Rattle.plain_table.specs.Commands.Command.{Range};
ghost use Rattle.plain_table.specs.Loads.{given_object};
ghost use Rattle.plain_table.specs.Step.{layer_refusals, refusals_of};
ghost use Rattle.plain_table.specs.Table.{Table, layer_at};
ghost use Rattle.spatial_join.specs.Rows.{looks_beside};
ghost use Rattle.store_law.specs.States.StoreState.{Alive};
ghost use Rattle.tree_node.specs.Searches.{admitted};
ghost use Rattle.live_layers.specs.Changes.{Rose};
ghost use Rattle.live_layers.specs.Keeping.{LooksAtTree};
ghost use Rattle.live_layers.specs.Loading.{boxes_refusals};
ghost use Rattle.live_layers.specs.Questions.{HasPairs, HasRows, IsToldOr, LooksAtMost, is_admitted};
ghost use Rattle.layer_store.specs.Commands.{OnlyAsks};
ghost use Rattle.layer_store.specs.Representation.{IsInState, layers_in};

use crate::store::{FAILED, Store};
use block_device::BlockDevice;
use plain_table::{AnyBox, RawBox, RawQuery, Refusal};
use std::alloc::Allocator;

impl<D: BlockDevice, A: Allocator + Copy> Store<D, A> {
    /// [`Store::range`] with the objects in any order: no time goes into theirs.
    ///
    /// Refused, in this order, by BadName, NoLayer, WrongDims and BadBox.
    pub fn range_unordered(
        &mut self,
        layer: &[u8],
        query: RawQuery,
        tag: Option<u32>,
    ) -> Result<Vec<(u64, AnyBox, u32), A>, Refusal>
        ensures asks { OnlyAsks self.old self.new result }
        ensures told { (t : Table) → IsInState self.old (Alive t) →
            IsToldOr (Rose (layers_in self.old) (layers_in self.new)) (refusals_of t (Range layer.now query tag))
            (HasRows (layer_at t layer.now) query tag) result }
        ensures looks { (t : Table) → IsInState self.old (Alive t) →
            OnOk result (LooksAtTree (layers_in self.old) (layers_in self.new) layer.now
            (admitted (is_admitted (layer_at t layer.now).dims query))) }
    {
        if self.failed {
            return Err(FAILED);
        }
        self.layers.range_unordered(layer, query, tag)
    }

    /// All pairs of one of the objects and an object of a layer whose boxes have at most this squared distance, and
    /// within 0 meet: their identifiers, ascending by the first and then by the second. The objects are of no layer,
    /// and an identifier may stand among them more than once. Those that lie near one another are best given one
    /// after another: 64 in turn go down the tree together, and at most its root is looked at for them, and each
    /// other node whose box is that near to the least box of them all.
    ///
    /// Refused, in this order, by BadName, NoLayer, WrongDims and BadBox.
    pub fn join_rows(
        &mut self,
        objects: &[(u64, RawBox, u32)],
        layer: &[u8],
        within: u64,
    ) -> Result<Vec<(u64, u64), A>, Refusal>
        ensures asks { OnlyAsks self.old self.new result }
        ensures told { (t : Table) → IsInState self.old (Alive t) →
            IsToldOr (Rose (layers_in self.old) (layers_in self.new))
            (layer_refusals t layer.now (boxes_refusals (layer_at t layer.now).dims objects.now))
            (HasPairs objects.now (layer_at t layer.now) within) result }
        ensures looks { (t : Table) → IsInState self.old (Alive t) →
            OnOk result (LooksAtMost (layers_in self.old) (layers_in self.new) layer.now
            (looks_beside (layer_at t layer.now).dims within (map given_object objects.now))) }
    {
        if self.failed {
            return Err(FAILED);
        }
        self.layers.join_rows(objects, layer, within)
    }
}
