//! The box and the tag of an object, from the identifier table of its layer.

ghost use Rattle.std.specs.Prelude.{◌≡◌, ◌∷◌, [], ℕ, IfOk, List};
ghost use Rattle.box_math.specs.Bounds.{IsDims};
ghost use Rattle.plain_table.specs.Step.{first_refusal, missing_refusals, object_row};
ghost use Rattle.plain_table.specs.Step.Answer.{Boxes};
ghost use Rattle.plain_table.specs.Table.{Table, layer_at};
ghost use Rattle.live_layers.specs.Changes.{KeepsInQuestion, Rose};
ghost use Rattle.live_layers.specs.Keeping.{IsSound};
ghost use Rattle.live_layers.specs.Located.{IsLocated, IsSpotOf};
ghost use Rattle.live_layers.specs.Questions.{IsReply, found_answer};
ghost use Rattle.live_layers.specs.Refusals.{IsTried, lost_refusals};

use crate::faults::as_refusal;
use crate::layers::Layers;
use crate::located::Located;
use block_device::BlockDevice;
use box_math::BBox;
use id_table::{Sought, Spot, find};
use plain_table::Refusal;
use std::alloc::Allocator;

impl<B: BlockDevice, A: Allocator + Copy> Layers<B, A> {
    // The box and the tag of an object of the layer that stands there, which has D axes, and the spot of its
    // identifier. Refused by NoObject.
    pub(crate) fn object_of<const D: usize>(
        &mut self,
        located: &Located,
        id: u64,
    ) -> Result<(Spot, (BBox<D>, u32)), Refusal>
        requires dims { IsDims D }
        requires axes { located.now.dims ≡ D }
        ensures replied { (t : Table) (name : List ℕ) → IsSound self.old t →
            IsLocated self.old t name located.now →
            IsReply (Rose self.old self.new) (first_refusal (missing_refusals (layer_at t name) id))
            (Boxes (object_row (layer_at t name) id ∷ [])) (found_answer id result) }
        ensures in_turn { IsTried lost_refusals result }
        ensures spot { (t : Table) → IsSound self.old t →
            IfOk result (λ found. IsSpotOf D self.new located.now id found.0) }
        ensures keeps { KeepsInQuestion self.old self.new result }
    {
        let sought = match find::<D, B, A>(&mut self.cache, located.ids_root, id) {
            Ok(sought) => sought,
            Err(fault) => return Err(as_refusal(fault)),
        };
        let Sought { spot, kept } = sought;
        match kept {
            Some(kept) => Ok((spot, kept)),
            None => Err(Refusal::NoObject),
        }
    }
}
