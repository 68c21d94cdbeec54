//! Whether objects may be put into a layer.

ghost use Rattle.std.specs.Prelude.{◌≡◌, ◌+◌, ◌<◌, ◌≤◌, ℕ, List, IfErr, OnOk, length, map, slice_index_or, true};
ghost use Rattle.catalog_page.specs.Layout.{Record};
ghost use Rattle.id_words.specs.Objects.{pairs_in};
ghost use Rattle.plain_table.specs.Loads.{GivenObjects, given_object};
ghost use Rattle.plain_table.specs.Step.{first_refusal, load_refusals};
ghost use Rattle.plain_table.specs.Table.{Table, layer_at, most_objects, object_count};
ghost use Rattle.live_layers.specs.Faults.{is_plain};
ghost use Rattle.live_layers.specs.Inserting.{IsAllowedOr};
ghost use Rattle.live_layers.specs.Keeping.{IsSound, count_in, records_in};
ghost use Rattle.live_layers.specs.Loading.{ReachesObjects};
ghost use Rattle.live_layers.specs.Refusals.{IsTried, ids_refusals};

use crate::layers::Layers;
use crate::repeats::repeated;
use block_device::BlockDevice;
use node_page::Entry;
use plain_table::{MOST_OBJECTS, Refusal};
use std::alloc::Allocator;

impl<B: BlockDevice, A: Allocator + Copy> Layers<B, A> {
    // Whether the objects of these entries, which have the layer's axes, may be put into the layer at a place.
    // Refused, in this order, by NotEmpty, DuplicateInLoad and TooManyObjects.
    pub(crate) fn check_load<const D: usize>(
        &self,
        place: usize,
        entries: &[Entry<D>],
    ) -> Result<(), Refusal>
        requires within { place < length (records_in self.now) }
        ensures allowed { (t : Table) (name : List ℕ) (given : GivenObjects) → IsSound self.now t →
            ReachesObjects t name place given D (pairs_in entries.now) →
            IsAllowedOr ⊥ (first_refusal (load_refusals (layer_at t name) given (object_count t))) result }
        ensures in_turn { (given : GivenObjects) (d : Record) → pairs_in entries.now ≡ map given_object given →
            IsTried (λ _. ids_refusals (slice_index_or (records_in self.now) place d).count given
            (count_in self.now)) result }
        ensures room { OnOk result (0 < length entries.now →
            self.now.object_count + length entries.now ≤ most_objects) }
        ensures quiet { IfErr result (λ r. is_plain r ≡ true) }
    {
        if self.count_at(place) > 0 {
            return Err(Refusal::NotEmpty);
        }
        if let Some(id) = repeated(self.alloc, entries)? {
            return Err(Refusal::DuplicateInLoad(id));
        }
        if entries.len() as u64 > MOST_OBJECTS.saturating_sub(self.object_count) {
            return Err(Refusal::TooManyObjects);
        }
        Ok(())
    }
}
