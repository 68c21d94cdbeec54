//! The join of given objects with the tree of a layer. It is asked by no command.

ghost use Rattle.std.specs.Prelude.{◌≡◌, ℕ, List, IfOk, IfErr, OnOk, map};
ghost use Rattle.box_math.specs.Bounds.{IsDims};
ghost use Rattle.id_words.specs.Objects.{pairs_in};
ghost use Rattle.plain_table.specs.Loads.{GivenObjects, given_object};
ghost use Rattle.plain_table.specs.Step.{layer_refusals};
ghost use Rattle.plain_table.specs.Table.{Table, layer_at};
ghost use Rattle.spatial_join.specs.Rows.{looks_beside};
ghost use Rattle.store_law.specs.Lawful.{IsFault};
ghost use Rattle.live_layers.specs.Changes.{KeepsInQuestion, Rose};
ghost use Rattle.live_layers.specs.Keeping.{IsSound};
ghost use Rattle.live_layers.specs.Loading.{boxes_refusals};
ghost use Rattle.live_layers.specs.Located.{IsLocated};
ghost use Rattle.live_layers.specs.Questions.{HasPairs, IsToldOr, LooksAtMost};

use crate::faults::as_refusal;
use crate::layers::Layers;
use crate::located::Located;
use crate::objects::entries_in;
use block_device::BlockDevice;
use node_page::Entry;
use plain_table::{Axes, Dimension, RawBox, Refusal};
use spatial_join::join_rows;
use std::alloc::Allocator;

impl<B: BlockDevice, A: Allocator + Copy> Layers<B, A> {
    /// All pairs of one of the objects and an object of a layer whose boxes have at most this squared distance, and
    /// within 0 meet: their identifiers, ascending by the first and then by the second. An identifier may stand
    /// among the objects more than once. Objects that lie near one another are best given one after another: 64 in
    /// turn go down the tree together, and at most its root is looked at for them, and each other node whose box is
    /// that near to the least box of them all.
    ///
    /// Refused, in this order, by BadName, NoLayer, WrongDims and BadBox.
    pub fn join_rows(
        &mut self,
        objects: &[(u64, RawBox, u32)],
        name: &[u8],
        within: u64,
    ) -> Result<Vec<(u64, u64), A>, Refusal>
        ensures told { (t : Table) → IsSound self.old t → IsToldOr (Rose self.old self.new)
            (layer_refusals t name.now (boxes_refusals (layer_at t name.now).dims objects.now))
            (HasPairs objects.now (layer_at t name.now) within) result }
        ensures looks { (t : Table) → IsSound self.old t → OnOk result (LooksAtMost self.old self.new name.now
            (looks_beside (layer_at t name.now).dims within (map given_object objects.now))) }
        ensures keeps { KeepsInQuestion self.old self.new result }
    {
        let place = self.named(name)?;
        let located = self.locate(place);
        if located.dims == 2 {
            self.pairs_with::<2>(objects, &located, within)
        } else {
            self.pairs_with::<3>(objects, &located, within)
        }
    }

    // The pairs of one of the objects and an object of the layer that stands there, which has `D` axes.
    fn pairs_with<const D: usize>(
        &mut self,
        objects: &[(u64, RawBox, u32)],
        located: &Located,
        within: u64,
    ) -> Result<Vec<(u64, u64), A>, Refusal>
    where
        Axes: Dimension<D>,
        requires dims { IsDims D }
        requires axes { located.now.dims ≡ D }
        ensures told { (t : Table) (name : List ℕ) → IsSound self.old t →
            IsLocated self.old t name located.now →
            IsToldOr (Rose self.old self.new) (boxes_refusals (layer_at t name).dims objects.now)
            (HasPairs objects.now (layer_at t name) within) result }
        ensures looks { (t : Table) (name : List ℕ) → IsSound self.old t →
            IsLocated self.old t name located.now → OnOk result (LooksAtMost self.old self.new name
            (looks_beside (layer_at t name).dims within (map given_object objects.now))) }
        ensures keeps { KeepsInQuestion self.old self.new result }
    {
        let entries = entries_in::<D, A>(self.alloc, objects)?;
        self.pairs_beside::<D>(entries.as_slice(), located, within)
    }

    // The same of entries of leaves.
    fn pairs_beside<const D: usize>(
        &mut self,
        entries: &[Entry<D>],
        located: &Located,
        within: u64,
    ) -> Result<Vec<(u64, u64), A>, Refusal>
        requires dims { IsDims D }
        requires axes { located.now.dims ≡ D }
        ensures pairs { (t : Table) (name : List ℕ) (given : GivenObjects) → IsSound self.old t →
            IsLocated self.old t name located.now → pairs_in entries.now ≡ map given_object given →
            IfOk result (HasPairs given (layer_at t name) within) }
        ensures looks { (t : Table) (name : List ℕ) (given : GivenObjects) → IsSound self.old t →
            IsLocated self.old t name located.now → pairs_in entries.now ≡ map given_object given →
            OnOk result (LooksAtMost self.old self.new name
            (looks_beside (layer_at t name).dims within (map given_object given))) }
        ensures fault { (t : Table) (name : List ℕ) → IsSound self.old t → IsLocated self.old t name located.now →
            IfErr result (IsFault (Rose self.old self.new)) }
        ensures keeps { KeepsInQuestion self.old self.new result }
    {
        match join_rows(self.alloc, &mut self.cache, entries, located.root, within) {
            Ok(pairs) => Ok(pairs),
            Err(fault) => Err(as_refusal(fault)),
        }
    }
}
