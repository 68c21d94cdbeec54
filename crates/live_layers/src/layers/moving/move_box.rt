//! An object of the layer at a place that gets another box.

ghost use Rattle.std.specs.Prelude.{◌≡◌, ◌<◌, ℕ, List, OnOk, false, true, length};
ghost use Rattle.box_math.specs.Bounds.{IsDims};
ghost use Rattle.page_cache.specs.Cache.{version_of};
ghost use Rattle.plain_table.specs.Boxes.{dims_of, given_bounds};
ghost use Rattle.plain_table.specs.Commands.Command.{Move};
ghost use Rattle.plain_table.specs.Step.{changes};
ghost use Rattle.plain_table.specs.Table.{Table, layer_at};
ghost use Rattle.plain_table.specs.declared.boxes.RawBox.{RawBox as GivenBox};
ghost use Rattle.live_layers.specs.Changes.{IsChange, KeepsInChange};
ghost use Rattle.live_layers.specs.Inserting.{ReachesBox};
ghost use Rattle.live_layers.specs.Keeping.{ChangesTree, IsSound, cache_of, records_in};
ghost use Rattle.live_layers.specs.Refusals.{IsRecordedAt, IsTriedChange, refusals_in};
ghost use Rattle.live_layers.specs.Rules.{HasMoved};
ghost use Rattle.live_layers.specs.Staying.{KeepsPagesAndRecords};

use crate::faults::change_of;
use crate::layers::Layers;
use crate::rooms::Room;
use crate::unmade::Unmade;
use block_device::BlockDevice;
use condense::Kept;
use layer_pages::ObjectAt;
use node_page::Entry;
use std::alloc::Allocator;

impl<B: BlockDevice, A: Allocator + Copy> Layers<B, A> {
    // Gives an object of the layer at a place a box of as many axes as there are coordinates.
    pub(crate) fn move_box<const D: usize>(
        &mut self,
        place: usize,
        id: u64,
        low: [i32; D],
        high: [i32; D],
        kept_room: &mut Room<Kept<D>, A>,
    ) -> Result<(), Unmade>
        requires dims { IsDims D }
        requires within { place < length (records_in self.old) }
        ensures change { (t : Table) (name : List ℕ) (box : GivenBox) → IsSound self.old t →
            ReachesBox t name place box D (record { low = low.entry; high = high.entry }) →
            IsChange self.old self.new t (Move name id box) result }
        ensures tree { (t : Table) (name : List ℕ) (box : GivenBox) → IsSound self.old t →
            ReachesBox t name place box D (record { low = low.entry; high = high.entry }) →
            changes t (Move name id box) ≡ true →
            OnOk result (ChangesTree self.old self.new name
            (HasMoved (layer_at t name) id (given_bounds box))) }
        ensures same { (t : Table) (name : List ℕ) (box : GivenBox) → IsSound self.old t →
            ReachesBox t name place box D (record { low = low.entry; high = high.entry }) →
            changes t (Move name id box) ≡ false → KeepsPagesAndRecords self.old self.new }
        ensures in_turn { (name : List ℕ) (box : GivenBox) → IsRecordedAt self.old name place →
            dims_of box ≡ D → given_bounds box ≡ record { low = low.entry; high = high.entry } →
            IsTriedChange (refusals_in self.old (Move name id box)) result }
        ensures keeps { KeepsInChange self.old self.new (version_of (cache_of self.old)) result }
    {
        let located = self.locate(place);
        let (spot, known, bounds) = match self.check_move(&located, id, low, high) {
            Ok(found) => found,
            Err(refusal) => return Err(Unmade::Refused(refusal)),
        };
        if known.0 == bounds {
            return Ok(());
        }
        let object = ObjectAt {
            entry: Entry {
                bounds: known.0,
                reference: id,
                tag: known.1,
            },
            spot,
        };
        change_of(self.replace_box(place, &object, &bounds, kept_room))
    }
}
