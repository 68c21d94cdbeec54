//! Range queries of the tree of a layer.

ghost use Rattle.std.specs.Prelude.{◌≡◌, ◌&&◌, ℕ, List, IfOk, IfErr, OnOk, filter, map as each};
ghost use Rattle.std.specs.FinMap.{entries};
ghost use Rattle.box_math.specs.Objects.{bounds_of, has_tag};
ghost use Rattle.box_math.specs.Queries.{admits, seeks};
ghost use Rattle.plain_table.specs.Answers.{boxes_answer, row_of};
ghost use Rattle.plain_table.specs.Step.{first_refusal, query_refusals, range_rows};
ghost use Rattle.plain_table.specs.Step.Answer.{Boxes};
ghost use Rattle.plain_table.specs.Table.{Table, layer_at};
ghost use Rattle.store_law.specs.Lawful.{IsFault};
ghost use Rattle.tree_node.specs.Searches.{admitted};
ghost use Rattle.live_layers.specs.Changes.{KeepsInQuestion, Rose};
ghost use Rattle.live_layers.specs.Keeping.{IsSound, LooksAtTree};
ghost use Rattle.live_layers.specs.Located.{IsLocated};
ghost use Rattle.live_layers.specs.Questions.{IsReply, is_admitted};
ghost use Rattle.live_layers.specs.Refusals.{IsOfNone, IsTried};

use crate::faults::as_refusal;
use crate::layers::Layers;
use crate::located::Located;
use block_device::BlockDevice;
use box_math::{BBox, Query};
use plain_table::{AnyBox, Axes, Dimension, RawQuery, Refusal};
use range_query::range;
use std::alloc::{AllocError, Allocator};

impl<B: BlockDevice, A: Allocator + Copy> Layers<B, A> {
    // The objects that a query seeks in the layer that stands there, which has `D` axes. Refused, in this
    // order, by WrongDims and BadBox.
    pub(crate) fn range_in<const D: usize>(
        &mut self,
        located: &Located,
        query: RawQuery,
        tag: Option<u32>,
    ) -> Result<Vec<(u64, AnyBox, u32), A>, Refusal>
    where
        Axes: Dimension<D>,
        requires { located.now.dims ≡ D }
        ensures replied { (t : Table) (name : List ℕ) → IsSound self.old t →
            IsLocated self.old t name located.now →
            IsReply (Rose self.old self.new) (first_refusal (query_refusals (layer_at t name).dims query))
            (Boxes (range_rows (layer_at t name) query tag)) (boxes_answer result) }
        ensures looks { (t : Table) (name : List ℕ) → IsSound self.old t →
            IsLocated self.old t name located.now →
            OnOk result (LooksAtTree self.old self.new name
            (admitted (is_admitted (layer_at t name).dims query))) }
        ensures in_turn { IsTried (λ _. query_refusals D query) result }
        ensures keeps { KeepsInQuestion self.old self.new result }
    {
        let asked = query.in_axes::<D>()?;
        let rows = self.seek::<D>(located, &asked, tag)?;
        Ok(shown_rows::<D, A>(self.alloc, &rows)?)
    }

    // The objects that a query of D axes seeks in the layer that stands there, which has as many.
    fn seek<const D: usize>(
        &mut self,
        located: &Located,
        query: &Query<D>,
        tag: Option<u32>,
    ) -> Result<Vec<(u64, (BBox<D>, u32)), A>, Refusal>
        requires axes { located.now.dims ≡ D }
        ensures rows { (t : Table) (name : List ℕ) → IsSound self.old t →
            IsLocated self.old t name located.now →
            IfOk result (λ rows. rows.items
            ≡ filter (λ row. seeks query.now (bounds_of row.1) && has_tag tag row.1)
            (entries (layer_at t name).objects)) }
        ensures looks { (t : Table) (name : List ℕ) → IsSound self.old t →
            IsLocated self.old t name located.now →
            OnOk result (LooksAtTree self.old self.new name (admitted (admits query.now))) }
        ensures fault { (t : Table) (name : List ℕ) → IsSound self.old t →
            IsLocated self.old t name located.now →
            IfErr result (IsFault (Rose self.old self.new)) }
        ensures of_none { IfErr result IsOfNone }
        ensures keeps { KeepsInQuestion self.old self.new result }
    {
        match range(self.alloc, &mut self.cache, located.root, query, tag) {
            Ok(rows) => Ok(rows),
            Err(fault) => Err(as_refusal(fault)),
        }
    }
}

/// Rows as replies show them.
pub(crate) fn shown_rows<const D: usize, A: Allocator + Copy>(
    alloc: A,
    rows: &[(u64, (BBox<D>, u32))],
) -> Result<Vec<(u64, AnyBox, u32), A>, AllocError>
where
    Axes: Dimension<D>,
    ensures { IfOk result (λ all. each row_of all.items ≡ rows.now) }
{
    let mut shown = Vec::with_capacity(alloc, rows.len())?;
    for (id, (bounds, tag)) in rows {
        shown.push((*id, <Axes as Dimension<D>>::shown(*bounds), *tag))?;
    }
    Ok(shown)
}
