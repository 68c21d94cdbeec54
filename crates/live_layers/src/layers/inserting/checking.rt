//! Whether an object may be inserted.

ghost use Rattle.std.specs.Prelude.{◌≡◌, ◌<◌, ℕ, List, IfOk, nat_le};
ghost use Rattle.box_math.specs.Bounds.{IsDims};
ghost use Rattle.plain_table.specs.Boxes.{dims_of, given_bounds};
ghost use Rattle.plain_table.specs.Step.{first_refusal, object_refusals};
ghost use Rattle.plain_table.specs.Table.{Table, layer_at, most_objects, object_count};
ghost use Rattle.plain_table.specs.declared.boxes.RawBox.{RawBox as GivenBox};
ghost use Rattle.live_layers.specs.Changes.{KeepsInQuestion, Rose};
ghost use Rattle.live_layers.specs.Inserting.{IsAllowedOr};
ghost use Rattle.live_layers.specs.Keeping.{IsSound, count_in};
ghost use Rattle.live_layers.specs.Located.{IsLocated, IsSpotOf};
ghost use Rattle.live_layers.specs.Refusals.{IsTried, found_refusals};

use crate::faults::as_refusal;
use crate::layers::Layers;
use crate::located::Located;
use block_device::BlockDevice;
use box_math::BBox;
use id_table::{Spot, find};
use plain_table::{MOST_OBJECTS, Refusal};
use std::alloc::Allocator;

impl<B: BlockDevice, A: Allocator + Copy> Layers<B, A> {
    // The box of an object that may be inserted into the layer that stands there, and the spot where its
    // identifier would come; or why it may not.
    pub(crate) fn check_object<const D: usize>(
        &mut self,
        located: &Located,
        id: u64,
        low: [i32; D],
        high: [i32; D],
    ) -> Result<(Spot, BBox<D>), Refusal>
        requires dims { IsDims D }
        ensures allowed { (t : Table) (name : List ℕ) (box : GivenBox) → IsSound self.old t →
            IsLocated self.old t name located.now → dims_of box ≡ D →
            given_bounds box ≡ record { low = low.entry; high = high.entry } →
            IsAllowedOr (Rose self.old self.new)
            (first_refusal (object_refusals (layer_at t name) id box (nat_le most_objects (object_count t))))
            result }
        ensures in_turn { (box : GivenBox) → dims_of box ≡ D →
            given_bounds box ≡ record { low = low.entry; high = high.entry } →
            IsTried (found_refusals located.now.dims box (nat_le most_objects (count_in self.old))) result }
        ensures bounds { IfOk result (λ found. found.1 ≡ record { low = low.entry; high = high.entry }) }
        ensures spot { (t : Table) → IsSound self.old t →
            IfOk result (λ found. IsSpotOf D self.new located.now id found.0) }
        ensures room { IfOk result (λ _. self.new.object_count < most_objects) }
        ensures keeps { KeepsInQuestion self.old self.new result }
    {
        if usize::from(located.dims) != D {
            return Err(Refusal::WrongDims);
        }
        let Some(bounds) = BBox::try_new(low, high) else {
            return Err(Refusal::BadBox);
        };
        let sought = match find::<D, B, A>(&mut self.cache, located.ids_root, id) {
            Ok(sought) => sought,
            Err(fault) => return Err(as_refusal(fault)),
        };
        if sought.kept.is_some() {
            return Err(Refusal::Duplicate);
        }
        if self.object_count >= MOST_OBJECTS {
            return Err(Refusal::TooManyObjects);
        }
        Ok((sought.spot, bounds))
    }
}
