//! Whether an object may get another box.

ghost use Rattle.std.specs.Prelude.{◌≡◌, ℕ, List, IfOk, Some};
ghost use Rattle.std.specs.FinMap as map;
ghost use Rattle.box_math.specs.Bounds.{IsDims};
ghost use Rattle.plain_table.specs.Boxes.{dims_of, given_bounds};
ghost use Rattle.plain_table.specs.Step.{box_refusals, first_refusal, missing_refusals};
ghost use Rattle.plain_table.specs.Table.{Table, layer_at};
ghost use Rattle.plain_table.specs.declared.boxes.RawBox.{RawBox as GivenBox};
ghost use Rattle.live_layers.specs.Changes.{KeepsInQuestion, Rose};
ghost use Rattle.live_layers.specs.Inserting.{IsAllowedOr};
ghost use Rattle.live_layers.specs.Keeping.{IsSound};
ghost use Rattle.live_layers.specs.Located.{IsLocated, IsSpotOf};
ghost use Rattle.live_layers.specs.Refusals.{IsTried, lost_refusals};

use crate::layers::Layers;
use crate::located::Located;
use block_device::BlockDevice;
use box_math::BBox;
use id_table::Spot;
use plain_table::Refusal;
use std::alloc::Allocator;

impl<B: BlockDevice, A: Allocator + Copy> Layers<B, A> {
    // The spot of an object of the layer that stands there, the object, and the box that it may get; or why
    // it may not.
    pub(crate) fn check_move<const D: usize>(
        &mut self,
        located: &Located,
        id: u64,
        low: [i32; D],
        high: [i32; D],
    ) -> Result<(Spot, (BBox<D>, u32), BBox<D>), Refusal>
        requires dims { IsDims D }
        ensures allowed { (t : Table) (name : List ℕ) (box : GivenBox) → IsSound self.old t →
            IsLocated self.old t name located.now → dims_of box ≡ D →
            given_bounds box ≡ record { low = low.entry; high = high.entry } →
            IsAllowedOr (Rose self.old self.new)
            (first_refusal (box_refusals (layer_at t name).dims box (missing_refusals (layer_at t name) id)))
            result }
        ensures in_turn { (box : GivenBox) → dims_of box ≡ D →
            given_bounds box ≡ record { low = low.entry; high = high.entry } →
            IsTried (λ found. box_refusals located.now.dims box (lost_refusals found)) result }
        ensures axes { IfOk result (λ _. located.now.dims ≡ D) }
        ensures has { (t : Table) (name : List ℕ) → IsSound self.old t →
            IsLocated self.old t name located.now →
            IfOk result (λ found. map.get (layer_at t name).objects id ≡ Some found.1) }
        ensures gets { IfOk result (λ found. found.2 ≡ record { low = low.entry; high = high.entry }) }
        ensures spot { (t : Table) → IsSound self.old t →
            IfOk result (λ found. IsSpotOf D self.new located.now id found.0) }
        ensures keeps { KeepsInQuestion self.old self.new result }
    {
        if usize::from(located.dims) != D {
            return Err(Refusal::WrongDims);
        }
        let Some(bounds) = BBox::try_new(low, high) else {
            return Err(Refusal::BadBox);
        };
        match self.object_of::<D>(located, id) {
            Ok((spot, known)) => Ok((spot, known, bounds)),
            Err(refusal) => Err(refusal),
        }
    }
}
