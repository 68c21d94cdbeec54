//! The spatial join of two layers, from their trees.

ghost use Rattle.std.specs.Prelude.{◌≡◌, ◌*◌, ℕ, List, IfOk, IfErr, OnOk};
ghost use Rattle.box_math.specs.Bounds.{IsDims};
ghost use Rattle.plain_table.specs.Step.{join_rows};
ghost use Rattle.plain_table.specs.Table.{Table, layer_at};
ghost use Rattle.store_law.specs.Lawful.{IsFault};
ghost use Rattle.tree_node.specs.Joins.{admitted_pairs};
ghost use Rattle.live_layers.specs.Changes.{KeepsInQuestion, Rose};
ghost use Rattle.live_layers.specs.Keeping.{IsSound};
ghost use Rattle.live_layers.specs.Located.{IsLocated};
ghost use Rattle.live_layers.specs.Questions.{LooksAtTrees};
ghost use Rattle.live_layers.specs.Refusals.{IsOfNone};

use crate::faults::as_refusal;
use crate::layers::Layers;
use crate::located::Located;
use block_device::BlockDevice;
use plain_table::Refusal;
use spatial_join::join;
use std::alloc::Allocator;

impl<B: BlockDevice, A: Allocator + Copy> Layers<B, A> {
    // The pairs of objects of the layers that stand there, both of D axes, whose boxes have at most this
    // squared distance.
    pub(crate) fn pairs_in<const D: usize>(
        &mut self,
        left: &Located,
        right: &Located,
        within: u64,
    ) -> Result<Vec<(u64, u64), A>, Refusal>
        requires dims { IsDims D }
        requires left { left.now.dims ≡ D }
        requires right { right.now.dims ≡ D }
        ensures pairs { (t : Table) (first second : List ℕ) → IsSound self.old t →
            IsLocated self.old t first left.now → IsLocated self.old t second right.now →
            IfOk result (λ pairs. pairs.items ≡ join_rows (layer_at t first) (layer_at t second) within) }
        ensures looks { (t : Table) (first second : List ℕ) → IsSound self.old t →
            IsLocated self.old t first left.now → IsLocated self.old t second right.now →
            OnOk result (LooksAtTrees self.old self.new first second
            (λ s o. 2 * admitted_pairs D within s o)) }
        ensures fault { (t : Table) (first second : List ℕ) → IsSound self.old t →
            IsLocated self.old t first left.now → IsLocated self.old t second right.now →
            IfErr result (IsFault (Rose self.old self.new)) }
        ensures of_none { IfErr result IsOfNone }
        ensures keeps { KeepsInQuestion self.old self.new result }
    {
        match join::<D, B, A, A>(self.alloc, &mut self.cache, left.root, right.root, within) {
            Ok(pairs) => Ok(pairs),
            Err(fault) => Err(as_refusal(fault)),
        }
    }
}
