//! Range queries whose answer may come in any order. They are asked by no command.

ghost use Rattle.std.specs.Prelude.{◌≡◌, ◌&&◌, ℕ, List, IfOk, IfErr, OnOk, IsPermutation, filter};
ghost use Rattle.std.specs.FinMap.{entries};
ghost use Rattle.box_math.specs.Objects.{bounds_of, has_tag};
ghost use Rattle.box_math.specs.Queries.{admits, seeks};
ghost use Rattle.plain_table.specs.Commands.Command.{Range};
ghost use Rattle.plain_table.specs.Step.{query_refusals, refusals_of};
ghost use Rattle.plain_table.specs.Table.{Table, layer_at};
ghost use Rattle.store_law.specs.Lawful.{IsFault};
ghost use Rattle.tree_node.specs.Searches.{admitted};
ghost use Rattle.live_layers.specs.Changes.{KeepsInQuestion, Rose};
ghost use Rattle.live_layers.specs.Keeping.{IsSound, LooksAtTree};
ghost use Rattle.live_layers.specs.Located.{IsLocated};
ghost use Rattle.live_layers.specs.Questions.{HasRows, IsToldOr, is_admitted};

use crate::faults::as_refusal;
use crate::layers::Layers;
use crate::layers::questions::range::shown_rows;
use crate::located::Located;
use block_device::BlockDevice;
use box_math::{BBox, Query};
use plain_table::{AnyBox, Axes, Dimension, RawQuery, Refusal};
use range_query::range_in_tree_order;
use std::alloc::Allocator;

impl<B: BlockDevice, A: Allocator + Copy> Layers<B, A> {
    /// [`Layers::range`] with the objects in any order: no time goes into theirs.
    ///
    /// Refused, in this order, by BadName, NoLayer, WrongDims and BadBox.
    pub fn range_unordered(
        &mut self,
        name: &[u8],
        query: RawQuery,
        tag: Option<u32>,
    ) -> Result<Vec<(u64, AnyBox, u32), A>, Refusal>
        ensures told { (t : Table) → IsSound self.old t →
            IsToldOr (Rose self.old self.new) (refusals_of t (Range name.now query tag))
            (HasRows (layer_at t name.now) query tag) result }
        ensures looks { (t : Table) → IsSound self.old t → OnOk result (LooksAtTree self.old self.new name.now
            (admitted (is_admitted (layer_at t name.now).dims query))) }
        ensures keeps { KeepsInQuestion self.old self.new result }
    {
        let place = self.named(name)?;
        let located = self.locate(place);
        if located.dims == 2 {
            self.unordered_in::<2>(&located, query, tag)
        } else {
            self.unordered_in::<3>(&located, query, tag)
        }
    }

    // The objects that a query seeks in the layer that stands there, which has `D` axes.
    fn unordered_in<const D: usize>(
        &mut self,
        located: &Located,
        query: RawQuery,
        tag: Option<u32>,
    ) -> Result<Vec<(u64, AnyBox, u32), A>, Refusal>
    where
        Axes: Dimension<D>,
        requires { located.now.dims ≡ D }
        ensures told { (t : Table) (name : List ℕ) → IsSound self.old t →
            IsLocated self.old t name located.now →
            IsToldOr (Rose self.old self.new) (query_refusals (layer_at t name).dims query)
            (HasRows (layer_at t name) query tag) result }
        ensures looks { (t : Table) (name : List ℕ) → IsSound self.old t →
            IsLocated self.old t name located.now →
            OnOk result (LooksAtTree self.old self.new name
            (admitted (is_admitted (layer_at t name).dims query))) }
        ensures keeps { KeepsInQuestion self.old self.new result }
    {
        let asked = query.in_axes::<D>()?;
        let rows = self.seek_unordered::<D>(located, &asked, tag)?;
        Ok(shown_rows::<D, A>(self.alloc, &rows)?)
    }

    // The same of a query of D axes.
    fn seek_unordered<const D: usize>(
        &mut self,
        located: &Located,
        query: &Query<D>,
        tag: Option<u32>,
    ) -> Result<Vec<(u64, (BBox<D>, u32)), A>, Refusal>
        requires axes { located.now.dims ≡ D }
        ensures rows { (t : Table) (name : List ℕ) → IsSound self.old t →
            IsLocated self.old t name located.now →
            IfOk result (λ rows. IsPermutation (filter (λ row. seeks query.now (bounds_of row.1) && has_tag tag row.1)
            (entries (layer_at t name).objects)) rows.items) }
        ensures looks { (t : Table) (name : List ℕ) → IsSound self.old t →
            IsLocated self.old t name located.now →
            OnOk result (LooksAtTree self.old self.new name (admitted (admits query.now))) }
        ensures fault { (t : Table) (name : List ℕ) → IsSound self.old t →
            IsLocated self.old t name located.now →
            IfErr result (IsFault (Rose self.old self.new)) }
        ensures keeps { KeepsInQuestion self.old self.new result }
    {
        match range_in_tree_order(self.alloc, &mut self.cache, located.root, query, tag) {
            Ok(rows) => Ok(rows),
            Err(fault) => Err(as_refusal(fault)),
        }
    }
}
