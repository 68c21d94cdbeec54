//! Objects put into the layer at a place.

ghost use Rattle.std.specs.Prelude.{◌≡◌, ◌<◌, ℕ, List, true, false, OnOk, length, map};
ghost use Rattle.box_math.specs.Bounds.{IsDims};
ghost use Rattle.page_cache.specs.Cache.{version_of};
ghost use Rattle.id_words.specs.Objects.{pairs_in};
ghost use Rattle.plain_table.specs.Commands.Command.{Load};
ghost use Rattle.plain_table.specs.Loads.{GivenObjects, are_ordered, given_object, have_dims};
ghost use Rattle.plain_table.specs.Step.{changes};
ghost use Rattle.plain_table.specs.Table.{Table, layer_at};
ghost use Rattle.live_layers.specs.Changes.{IsChange, KeepsInChange};
ghost use Rattle.live_layers.specs.Keeping.{ChangesTree, IsSound, cache_of, records_in};
ghost use Rattle.live_layers.specs.Loading.{ReachesObjects};
ghost use Rattle.live_layers.specs.Refusals.{IsRecordedAt, IsTriedChange, record_at, refusals_in};
ghost use Rattle.live_layers.specs.Rules.{HasFilled};
ghost use Rattle.live_layers.specs.Staying.{KeepsPagesAndRecords};

use crate::faults::change_of;
use crate::layers::Layers;
use crate::unmade::Unmade;
use block_device::BlockDevice;
use node_page::Entry;
use std::alloc::Allocator;

impl<B: BlockDevice, A: Allocator + Copy> Layers<B, A> {
    // Puts the objects of these entries, which have the layer's axes, into the layer at a place. The entries
    // are left in another order.
    pub(crate) fn load_boxes<const D: usize>(
        &mut self,
        place: usize,
        entries: &mut [Entry<D>],
    ) -> Result<(), Unmade>
        requires dims { IsDims D }
        requires within { place < length (records_in self.old) }
        ensures change { (t : Table) (name : List ℕ) (given : GivenObjects) → IsSound self.old t →
            ReachesObjects t name place given D (pairs_in entries.old) →
            IsChange self.old self.new t (Load name given) result }
        ensures tree { (t : Table) (name : List ℕ) (given : GivenObjects) → IsSound self.old t →
            ReachesObjects t name place given D (pairs_in entries.old) → changes t (Load name given) ≡ true →
            OnOk result (ChangesTree self.old self.new name
            (HasFilled (layer_at t name) (pairs_in entries.old))) }
        ensures same { (t : Table) (name : List ℕ) (given : GivenObjects) → IsSound self.old t →
            ReachesObjects t name place given D (pairs_in entries.old) → changes t (Load name given) ≡ false →
            KeepsPagesAndRecords self.old self.new }
        ensures in_turn { (name : List ℕ) (given : GivenObjects) → IsRecordedAt self.old name place →
            have_dims (record_at (records_in self.old) name).dims given ≡ true → are_ordered given ≡ true →
            pairs_in entries.old ≡ map given_object given →
            IsTriedChange (refusals_in self.old (Load name given)) result }
        ensures keeps { KeepsInChange self.old self.new (version_of (cache_of self.old)) result }
    {
        if let Err(refusal) = self.check_load(place, entries) {
            return Err(Unmade::Refused(refusal));
        }
        if entries.is_empty() {
            return Ok(());
        }
        change_of(self.fill(place, entries))
    }
}
