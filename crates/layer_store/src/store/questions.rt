//! The commands that only ask.

ghost use Rattle.std.specs.Prelude.{◌≡◌, ◌⊎◌, ◌*◌, IfErr, OnOk};
ghost use Rattle.live_layers.specs.Keeping.{LooksAtTree};
ghost use Rattle.live_layers.specs.Questions.{LooksAtTrees};
ghost use Rattle.nearest.specs.Nearest.{is_searched};
ghost use Rattle.plain_table.specs.Answers.{count_answer, object_answer};
ghost use Rattle.plain_table.specs.Answers.{distances_answer, pairs_answer};
ghost use Rattle.plain_table.specs.Boxes.{given_point, point_dims};
ghost use Rattle.plain_table.specs.Commands.Command.{Count, Get, Join, Nearest};
ghost use Rattle.plain_table.specs.Step.{nearest_rows};
ghost use Rattle.plain_table.specs.Table.{Table, layer_at};
ghost use Rattle.plain_table.specs.declared.refusal.Refusal.TheVariants as refusal;
ghost use Rattle.tree_node.specs.Joins.{admitted_pairs};
ghost use Rattle.tree_node.specs.Searches.{admitted};
ghost use Rattle.store_law.specs.States.StoreState.{Alive};
ghost use Rattle.layer_store.specs.Commands.{Answers, AnswersRange};
ghost use Rattle.layer_store.specs.Representation.{IsInState, layers_in, looks_in};

use crate::store::{FAILED, Store};
use block_device::BlockDevice;
use plain_table::{AnyBox, RawBox, RawPoint, RawQuery, Refusal};
use std::alloc::Allocator;

impl<D: BlockDevice, A: Allocator + Copy> Store<D, A> {
    /// The box and the tag of the object with that identifier, by the layer's identifier table.
    ///
    /// Refused, in this order, by BadName, NoLayer and NoObject.
    pub fn get(&mut self, layer: &[u8], id: u64) -> Result<(AnyBox, u32), Refusal>
        ensures answers { Answers self.old self.new (Get layer.now id) (object_answer id) result }
    {
        if self.failed {
            return Err(FAILED);
        }
        self.layers.get(layer, id)
    }

    /// How many objects a layer has, by its record. It takes no memory, and makes no call of the device.
    ///
    /// Refused, in this order, by BadName and NoLayer.
    pub fn count(&mut self, layer: &[u8]) -> Result<u64, Refusal>
        ensures answers { Answers self.old self.new (Count layer.now) count_answer result }
        ensures gives_up { IfErr result (λ r. (r ≡ refusal.StoreFailed 19) ⊎ ((r ≡ refusal.BadName)
            ⊎ (r ≡ refusal.NoLayer))) }
        ensures same { self.new ≡ self.old }
    {
        if self.failed {
            return Err(FAILED);
        }
        self.layers.count(layer)
    }

    /// The objects of a layer that the query seeks, with a tag only those that have it, ascending by
    /// identifier. It looks at the root of the layer's tree, and at each other node whose box the query
    /// admits.
    ///
    /// Refused, in this order, by BadName, NoLayer, WrongDims and BadBox.
    pub fn range(
        &mut self,
        layer: &[u8],
        query: RawQuery,
        tag: Option<u32>,
    ) -> Result<Vec<(u64, AnyBox, u32), A>, Refusal>
        ensures { AnswersRange self.old self.new layer.now query tag result }
    {
        if self.failed {
            return Err(FAILED);
        }
        self.layers.range(layer, query, tag)
    }

    /// The k objects of a layer that are nearest to the point, or all of fewer: identifiers with squared
    /// distances, by distance, and of equal distances by identifier. So many are 1 to 1,000,000. It looks at
    /// the root of the layer's tree, and at each other node that is no farther than the kth of them, or at
    /// each where there are fewer.
    ///
    /// Refused, in this order, by BadName, NoLayer, WrongDims and BadCount.
    pub fn nearest(
        &mut self,
        layer: &[u8],
        k: u64,
        point: RawPoint,
    ) -> Result<Vec<(u64, u128), A>, Refusal>
        ensures answers { Answers self.old self.new (Nearest layer.now k point) distances_answer result }
        ensures looks { (t : Table) → IsInState self.old (Alive t) →
            OnOk result (LooksAtTree (layers_in self.old) (layers_in self.new) layer.now
            (admitted (is_searched (point_dims point) k (given_point point)
            (nearest_rows (layer_at t layer.now) k point)))) }
    {
        if self.failed {
            return Err(FAILED);
        }
        self.layers.nearest(layer, k, point)
    }

    /// The objects of a layer whose boxes meet the window (boxes that touch meet), with a tag only those that
    /// have it, ascending by identifier.
    ///
    /// Refused, in this order, by BadName, NoLayer, WrongDims and BadBox.
    pub fn window(
        &mut self,
        layer: &[u8],
        bounds: RawBox,
        tag: Option<u32>,
    ) -> Result<Vec<(u64, AnyBox, u32), A>, Refusal>
        ensures { AnswersRange self.old self.new layer.now (RawQuery.Window bounds) tag result }
    {
        self.range(layer, RawQuery::Window(bounds), tag)
    }

    /// The objects of a layer whose boxes lie within the window, with a tag only those that have it,
    /// ascending by identifier.
    ///
    /// Refused, in this order, by BadName, NoLayer, WrongDims and BadBox.
    pub fn inside(
        &mut self,
        layer: &[u8],
        bounds: RawBox,
        tag: Option<u32>,
    ) -> Result<Vec<(u64, AnyBox, u32), A>, Refusal>
        ensures { AnswersRange self.old self.new layer.now (RawQuery.Inside bounds) tag result }
    {
        self.range(layer, RawQuery::Inside(bounds), tag)
    }

    /// The objects of a layer whose boxes enclose the box, with a tag only those that have it,
    /// ascending by identifier.
    ///
    /// Refused, in this order, by BadName, NoLayer, WrongDims and BadBox.
    pub fn around(
        &mut self,
        layer: &[u8],
        bounds: RawBox,
        tag: Option<u32>,
    ) -> Result<Vec<(u64, AnyBox, u32), A>, Refusal>
        ensures { AnswersRange self.old self.new layer.now (RawQuery.Around bounds) tag result }
    {
        self.range(layer, RawQuery::Around(bounds), tag)
    }

    /// The objects of a layer whose boxes hold the point, with a tag only those that have it,
    /// ascending by identifier.
    ///
    /// Refused, in this order, by BadName, NoLayer and WrongDims.
    pub fn point(
        &mut self,
        layer: &[u8],
        point: RawPoint,
        tag: Option<u32>,
    ) -> Result<Vec<(u64, AnyBox, u32), A>, Refusal>
        ensures { AnswersRange self.old self.new layer.now (RawQuery.Point point) tag result }
    {
        self.range(layer, RawQuery::Point(point), tag)
    }

    /// All pairs of an object of the first layer and an object of the second whose boxes have at most this
    /// squared distance, and within 0 meet: their identifiers, ascending by the first and then by the second.
    /// It looks at no more than twice as many nodes as there are pairs of nodes of the two trees that a join
    /// admits.
    ///
    /// Refused, in this order, by BadName, NoLayer and DimsDiffer. Both names are tried before it is asked
    /// whether there are such layers.
    pub fn join(
        &mut self,
        first: &[u8],
        second: &[u8],
        within: u64,
    ) -> Result<Vec<(u64, u64), A>, Refusal>
        ensures answers { Answers self.old self.new (Join first.now second.now within) pairs_answer result }
        ensures looks { (t : Table) → IsInState self.old (Alive t) →
            OnOk result (LooksAtTrees (layers_in self.old) (layers_in self.new) first.now second.now
            (λ tree other. 2 * admitted_pairs (layer_at t first.now).dims within tree other)) }
    {
        if self.failed {
            return Err(FAILED);
        }
        self.layers.join(first, second, within)
    }

    /// How many nodes questions have looked at so far, with the pages that other commands have. The count
    /// stays at u64::MAX.
    pub fn looks(&self) -> u64
        ensures { result ≡ looks_in self.now }
    {
        self.layers.looks()
    }
}
