//! The nearest objects, from the tree of a layer.

ghost use Rattle.std.specs.Prelude.{◌∷◌, [], ◌==◌, not, ℕ, List, OnOk, take};
ghost use Rattle.std.specs.FinMap.{entries};
ghost use Rattle.box_math.specs.Bounds.{IsDims};
ghost use Rattle.nearest.specs.Nearest.{is_searched};
ghost use Rattle.plain_table.specs.Answers.{distances_answer};
ghost use Rattle.box_math.specs.Nearest.{by_distance};
ghost use Rattle.plain_table.specs.Nearest.{is_count};
ghost use Rattle.plain_table.specs.Step.{first_refusal};
ghost use Rattle.plain_table.specs.Step.Answer.{Distances};
ghost use Rattle.plain_table.specs.Table.{Table, layer_at};
ghost use Rattle.plain_table.specs.declared.refusal.Refusal.TheVariants as refusal;
ghost use Rattle.tree_node.specs.Searches.{admitted};
ghost use Rattle.live_layers.specs.Changes.{KeepsInQuestion, Rose};
ghost use Rattle.live_layers.specs.Keeping.{IsSound, LooksAtTree};
ghost use Rattle.live_layers.specs.Located.{IsLocated};
ghost use Rattle.live_layers.specs.Questions.{IsReply};
ghost use Rattle.live_layers.specs.Refusals.{IsTried};

use crate::faults::as_refusal;
use crate::layers::Layers;
use crate::located::Located;
use block_device::BlockDevice;
use nearest::nearest;
use plain_table::{Refusal, is_count};
use std::alloc::Allocator;

impl<B: BlockDevice, A: Allocator + Copy> Layers<B, A> {
    // The objects of the layer that stands there that are nearest to a point of D axes. Refused, in this
    // order, by WrongDims and BadCount.
    pub(crate) fn nearest_to<const D: usize>(
        &mut self,
        located: &Located,
        k: u64,
        point: &[i32; D],
    ) -> Result<Vec<(u64, u128), A>, Refusal>
        requires { IsDims D }
        ensures replied { (t : Table) (name : List ℕ) → IsSound self.old t →
            IsLocated self.old t name located.now →
            IsReply (Rose self.old self.new)
            (first_refusal ((not (D == (layer_at t name).dims), refusal.WrongDims)
            ∷ (not (is_count k), refusal.BadCount) ∷ []))
            (Distances (take k (by_distance (layer_at t name).dims point.now
            (entries (layer_at t name).objects))))
            (distances_answer result) }
        ensures in_turn { IsTried (λ _. (not (D == located.now.dims), refusal.WrongDims)
            ∷ (not (is_count k), refusal.BadCount) ∷ []) result }
        ensures looks { (t : Table) (name : List ℕ) → IsSound self.old t →
            IsLocated self.old t name located.now →
            OnOk result (LooksAtTree self.old self.new name (admitted (is_searched D k point.now
            (take k (by_distance (layer_at t name).dims point.now (entries (layer_at t name).objects)))))) }
        ensures keeps { KeepsInQuestion self.old self.new result }
    {
        if usize::from(located.dims) != D {
            return Err(Refusal::WrongDims);
        }
        if !is_count(k) {
            return Err(Refusal::BadCount);
        }
        match nearest::<D, B, A, A>(self.alloc, &mut self.cache, located.root, point, k as usize) {
            Ok(rows) => Ok(rows),
            Err(fault) => Err(as_refusal(fault)),
        }
    }
}
