//! Questions, answered from the records, the trees and the identifier tables of the layers.

ghost use Rattle.std.specs.Prelude.{◌≡◌, ◌⊎◌, ◌*◌, IfErr, OnOk, true};
ghost use Rattle.nearest.specs.Nearest.{is_searched};
ghost use Rattle.page_cache.specs.Cache.{looks_of};
ghost use Rattle.plain_table.specs.Answers.{boxes_answer, count_answer, object_answer};
ghost use Rattle.plain_table.specs.Answers.{distances_answer, pairs_answer};
ghost use Rattle.plain_table.specs.Boxes.{given_point, point_dims};
ghost use Rattle.plain_table.specs.Commands.Command.{Count, Get, Join, Nearest, Range};
ghost use Rattle.plain_table.specs.Step.{nearest_rows, reply_of};
ghost use Rattle.plain_table.specs.Table.{Table, layer_at};
ghost use Rattle.plain_table.specs.declared.refusal.Refusal.TheVariants as refusal;
ghost use Rattle.live_layers.specs.Faults.{is_plain};
ghost use Rattle.tree_node.specs.Joins.{admitted_pairs};
ghost use Rattle.tree_node.specs.Searches.{admitted};
ghost use Rattle.live_layers.specs.Changes.{IsAnswered, KeepsInQuestion};
ghost use Rattle.live_layers.specs.Keeping.{IsSound, LooksAtTree, cache_of};
ghost use Rattle.live_layers.specs.Questions.{LooksAtTrees, is_admitted};
ghost use Rattle.live_layers.specs.Refusals.{IsTried, refusals_in};

mod boxes;
mod distances;
mod pairs;
mod range;
mod rows;
mod unordered;

use crate::layers::Layers;
use block_device::BlockDevice;
use plain_table::{AnyBox, RawPoint, RawQuery, Refusal, is_layer_name};
use std::alloc::Allocator;

impl<B: BlockDevice, A: Allocator + Copy> Layers<B, A> {
    /// The objects of a layer that the query seeks, with a tag only those that have it, ascending by
    /// identifier. The root of the layer's tree is looked at, and each other node whose box the query admits.
    ///
    /// Refused, in this order, by BadName, NoLayer, WrongDims and BadBox.
    pub fn range(
        &mut self,
        name: &[u8],
        query: RawQuery,
        tag: Option<u32>,
    ) -> Result<Vec<(u64, AnyBox, u32), A>, Refusal>
        ensures answered { (t : Table) → IsSound self.old t →
            IsAnswered self.old self.new t (Range name.now query tag) (boxes_answer result) }
        ensures looks { (t : Table) → IsSound self.old t → OnOk result (LooksAtTree self.old self.new name.now
            (admitted (is_admitted (layer_at t name.now).dims query))) }
        ensures in_turn { IsTried (refusals_in self.old (Range name.now query tag)) result }
        ensures keeps { KeepsInQuestion self.old self.new result }
    {
        let place = self.named(name)?;
        let located = self.locate(place);
        if located.dims == 2 {
            self.range_in::<2>(&located, query, tag)
        } else {
            self.range_in::<3>(&located, query, tag)
        }
    }

    /// The box and the tag of the object with that identifier, by the layer's identifier table.
    ///
    /// Refused, in this order, by BadName, NoLayer and NoObject.
    pub fn get(&mut self, name: &[u8], id: u64) -> Result<(AnyBox, u32), Refusal>
        ensures answered { (t : Table) → IsSound self.old t →
            IsAnswered self.old self.new t (Get name.now id) (object_answer id result) }
        ensures in_turn { IsTried (refusals_in self.old (Get name.now id)) result }
        ensures keeps { KeepsInQuestion self.old self.new result }
    {
        let place = self.named(name)?;
        let located = self.locate(place);
        if located.dims == 2 {
            let (_, kept) = self.object_of::<2>(&located, id)?;
            Ok((AnyBox::Two(kept.0), kept.1))
        } else {
            let (_, kept) = self.object_of::<3>(&located, id)?;
            Ok((AnyBox::Three(kept.0), kept.1))
        }
    }

    /// How many objects a layer has, by its record. It takes no memory and makes no call of the device.
    ///
    /// Refused, in this order, by BadName and NoLayer.
    pub fn count(&self, name: &[u8]) -> Result<u64, Refusal>
        ensures answered { (t : Table) → IsSound self.now t →
            count_answer result ≡ reply_of t (Count name.now) }
        ensures in_turn { IsTried (refusals_in self.now (Count name.now)) result }
        ensures gives_up { IfErr result (λ r. (r ≡ refusal.BadName) ⊎ (r ≡ refusal.NoLayer)) }
        ensures cause { IfErr result (λ refusal. is_plain refusal ≡ true) }
    {
        let place = self.named(name)?;
        Ok(self.records[place].count)
    }

    /// The k objects of a layer that are nearest to the point, or all of fewer: identifiers with squared
    /// distances, by distance, and of equal distances by identifier. So many are 1 to 1,000,000. The root of
    /// the layer's tree is looked at, and each other node that is no farther than the kth of them, or each
    /// where there are fewer.
    ///
    /// Refused, in this order, by BadName, NoLayer, WrongDims and BadCount.
    pub fn nearest(
        &mut self,
        name: &[u8],
        k: u64,
        point: RawPoint,
    ) -> Result<Vec<(u64, u128), A>, Refusal>
        ensures answered { (t : Table) → IsSound self.old t →
            IsAnswered self.old self.new t (Nearest name.now k point) (distances_answer result) }
        ensures looks { (t : Table) → IsSound self.old t → OnOk result (LooksAtTree self.old self.new name.now
            (admitted (is_searched (point_dims point) k (given_point point)
            (nearest_rows (layer_at t name.now) k point)))) }
        ensures in_turn { IsTried (refusals_in self.old (Nearest name.now k point)) result }
        ensures keeps { KeepsInQuestion self.old self.new result }
    {
        let place = self.named(name)?;
        let located = self.locate(place);
        match point {
            RawPoint::Two(point) => self.nearest_to::<2>(&located, k, &point),
            RawPoint::Three(point) => self.nearest_to::<3>(&located, k, &point),
        }
    }

    /// All pairs of an object of the first layer and an object of the second whose boxes have at most this
    /// squared distance, and within 0 meet: their identifiers, ascending by the first and then by the second.
    /// At most twice as many nodes are looked at as there are pairs of nodes of the two trees that have to
    /// be.
    ///
    /// Refused, in this order, by BadName, NoLayer and DimsDiffer. Both names are tried before it is asked
    /// whether there are such layers.
    pub fn join(
        &mut self,
        first: &[u8],
        second: &[u8],
        within: u64,
    ) -> Result<Vec<(u64, u64), A>, Refusal>
        ensures answered { (t : Table) → IsSound self.old t →
            IsAnswered self.old self.new t (Join first.now second.now within) (pairs_answer result) }
        ensures looks { (t : Table) → IsSound self.old t →
            OnOk result (LooksAtTrees self.old self.new first.now
            second.now (λ tree other. 2 * admitted_pairs (layer_at t first.now).dims within tree other)) }
        ensures in_turn { IsTried (refusals_in self.old (Join first.now second.now within)) result }
        ensures keeps { KeepsInQuestion self.old self.new result }
    {
        if !is_layer_name(first) || !is_layer_name(second) {
            return Err(Refusal::BadName);
        }
        let Ok(place) = self.find(first) else {
            return Err(Refusal::NoLayer);
        };
        let Ok(other_place) = self.find(second) else {
            return Err(Refusal::NoLayer);
        };
        let left = self.locate(place);
        let right = self.locate(other_place);
        if left.dims != right.dims {
            return Err(Refusal::DimsDiffer);
        }
        if left.dims == 2 {
            self.pairs_in::<2>(&left, &right, within)
        } else {
            self.pairs_in::<3>(&left, &right, within)
        }
    }

    /// How many pages were looked at so far. The count stays at u64::MAX.
    pub fn looks(&self) -> u64
        ensures { result ≡ looks_of (cache_of self.now) }
    {
        self.cache.looks()
    }
}
