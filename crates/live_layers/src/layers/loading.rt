//! All objects of a layer at once.

ghost use Rattle.std.specs.Prelude.{◌≡◌, ◌<◌, ℕ, List, true, false, length, map, OnOk};
ghost use Rattle.page_cache.specs.Cache.{version_of};
ghost use Rattle.plain_table.specs.Commands.Command.{Load};
ghost use Rattle.plain_table.specs.Loads.{given_object};
ghost use Rattle.plain_table.specs.Step.{changes};
ghost use Rattle.plain_table.specs.Table.{Table, layer_at};
ghost use Rattle.live_layers.specs.Changes.{IsChange, IsChangeBy, KeepsInChange};
ghost use Rattle.live_layers.specs.Keeping.{ChangesTree, IsSound, cache_of, records_in};
ghost use Rattle.live_layers.specs.Loading.{NamesLayer};
ghost use Rattle.live_layers.specs.Refusals.{IsRecordedAt, IsTriedChange, record_at, refusals_in};
ghost use Rattle.live_layers.specs.Rules.{HasFilled};
ghost use Rattle.live_layers.specs.Staying.{KeepsPagesAndRecords};

mod checking;
mod load_boxes;

use crate::layers::Layers;
use crate::objects::entries_in;
use crate::unmade::Unmade;
use block_device::BlockDevice;
use plain_table::{Axes, Dimension, RawBox};
use std::alloc::Allocator;

impl<B: BlockDevice, A: Allocator + Copy> Layers<B, A> {
    /// Puts objects into a layer that has none, all at once: its tree is packed from them in the order given,
    /// and its identifier table has them. A load of no objects changes nothing. The list is given back once
    /// its objects are entries of leaves, before more memory is taken.
    ///
    /// Refused, in this order, by BadName, NoLayer, WrongDims, BadBox, NotEmpty, DuplicateInLoad and
    /// TooManyObjects.
    pub fn load(&mut self, name: &[u8], objects: Vec<(u64, RawBox, u32), A>) -> Result<(), Unmade>
        ensures change { IsChangeBy self.old self.new (Load name.now objects.items) result }
        ensures tree { (t : Table) → IsSound self.old t → changes t (Load name.now objects.items) ≡ true →
            OnOk result (ChangesTree self.old self.new name.now
            (HasFilled (layer_at t name.now) (map given_object objects.items))) }
        ensures same { (t : Table) → IsSound self.old t → changes t (Load name.now objects.items) ≡ false →
            KeepsPagesAndRecords self.old self.new }
    {
        let place = match self.named(name) {
            Ok(place) => place,
            Err(refusal) => return Err(Unmade::Refused(refusal)),
        };
        if self.locate(place).dims == 2 {
            self.load_given::<2>(place, objects)
        } else {
            self.load_given::<3>(place, objects)
        }
    }

    // Puts objects into the layer at a place, which has `D` axes.
    fn load_given<const D: usize>(
        &mut self,
        place: usize,
        objects: Vec<(u64, RawBox, u32), A>,
    ) -> Result<(), Unmade>
    where
        Axes: Dimension<D>,
        requires within { place < length (records_in self.old) }
        ensures change { (t : Table) (name : List ℕ) → IsSound self.old t →
            NamesLayer t name place D → IsChange self.old self.new t (Load name objects.items) result }
        ensures tree { (t : Table) (name : List ℕ) → IsSound self.old t → NamesLayer t name place D →
            changes t (Load name objects.items) ≡ true →
            OnOk result (ChangesTree self.old self.new name
            (HasFilled (layer_at t name) (map given_object objects.items))) }
        ensures same { (t : Table) (name : List ℕ) → IsSound self.old t → NamesLayer t name place D →
            changes t (Load name objects.items) ≡ false → KeepsPagesAndRecords self.old self.new }
        ensures in_turn { (name : List ℕ) → IsRecordedAt self.old name place →
            (record_at (records_in self.old) name).dims ≡ D →
            IsTriedChange (refusals_in self.old (Load name objects.items)) result }
        ensures keeps { KeepsInChange self.old self.new (version_of (cache_of self.old)) result }
    {
        let given = entries_in::<D, A>(self.alloc, objects.as_slice());
        drop(objects);
        match given {
            Ok(mut entries) => self.load_boxes::<D>(place, entries.as_mut_slice()),
            Err(refusal) => Err(Unmade::Refused(refusal)),
        }
    }
}
