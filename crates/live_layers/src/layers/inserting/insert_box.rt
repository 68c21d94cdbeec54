//! An object inserted into the layer at a place.

ghost use Rattle.std.specs.Prelude.{◌≡◌, ◌<◌, ℕ, List, OnOk, length};
ghost use Rattle.box_math.specs.Bounds.{IsDims};
ghost use Rattle.page_cache.specs.Cache.{version_of};
ghost use Rattle.plain_table.specs.Boxes.{dims_of, given_bounds};
ghost use Rattle.plain_table.specs.Commands.Command.{Insert};
ghost use Rattle.plain_table.specs.Table.{Table, layer_at};
ghost use Rattle.plain_table.specs.declared.boxes.RawBox.{RawBox as GivenBox};
ghost use Rattle.live_layers.specs.Changes.{IsChange, KeepsInChange};
ghost use Rattle.live_layers.specs.Inserting.{ReachesBox};
ghost use Rattle.live_layers.specs.Keeping.{ChangesTree, IsSound, cache_of, records_in};
ghost use Rattle.live_layers.specs.Refusals.{IsRecordedAt, IsTriedChange, refusals_in};
ghost use Rattle.live_layers.specs.Rules.{HasGained};

use crate::faults::change_of;
use crate::layers::Layers;
use crate::rooms::Room;
use crate::unmade::Unmade;
use block_device::BlockDevice;
use condense::Kept;
use layer_pages::ObjectAt;
use node_page::Entry;
use std::alloc::Allocator;

/// What an object has beside its box.
#[derive(Clone, Copy)]
pub(crate) struct Label {
    pub(crate) id: u64,
    pub(crate) tag: u32,
}

impl<B: BlockDevice, A: Allocator + Copy> Layers<B, A> {
    // Inserts an object into the layer at a place. The box is of as many axes as there are coordinates.
    pub(crate) fn insert_box<const D: usize>(
        &mut self,
        place: usize,
        label: Label,
        low: [i32; D],
        high: [i32; D],
        kept_room: &mut Room<Kept<D>, A>,
    ) -> Result<(), Unmade>
        requires dims { IsDims D }
        requires within { place < length (records_in self.old) }
        ensures change { (t : Table) (name : List ℕ) (box : GivenBox) → IsSound self.old t →
            ReachesBox t name place box D (record { low = low.entry; high = high.entry }) →
            IsChange self.old self.new t (Insert name label.id box label.tag) result }
        ensures tree { (t : Table) (name : List ℕ) (box : GivenBox) → IsSound self.old t →
            ReachesBox t name place box D (record { low = low.entry; high = high.entry }) →
            OnOk result (ChangesTree self.old self.new name
            (HasGained (layer_at t name) label.id (given_bounds box, label.tag))) }
        ensures in_turn { (name : List ℕ) (box : GivenBox) → IsRecordedAt self.old name place →
            dims_of box ≡ D → given_bounds box ≡ record { low = low.entry; high = high.entry } →
            IsTriedChange (refusals_in self.old (Insert name label.id box label.tag)) result }
        ensures keeps { KeepsInChange self.old self.new (version_of (cache_of self.old)) result }
    {
        let located = self.locate(place);
        let (spot, bounds) = match self.check_object(&located, label.id, low, high) {
            Ok(found) => found,
            Err(refusal) => return Err(Unmade::Refused(refusal)),
        };
        let object = ObjectAt {
            entry: Entry {
                bounds,
                reference: label.id,
                tag: label.tag,
            },
            spot,
        };
        change_of(self.add_object(place, &object, kept_room))
    }
}
