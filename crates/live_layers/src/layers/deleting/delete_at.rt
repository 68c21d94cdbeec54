//! An object deleted from the layer at a place.

ghost use Rattle.std.specs.Prelude.{◌≡◌, ◌<◌, ℕ, List, OnOk, length};
ghost use Rattle.box_math.specs.Bounds.{IsDims};
ghost use Rattle.page_cache.specs.Cache.{version_of};
ghost use Rattle.plain_table.specs.Commands.Command.{Delete};
ghost use Rattle.plain_table.specs.Table.{Table, layer_at};
ghost use Rattle.live_layers.specs.Changes.{IsChange, KeepsInChange};
ghost use Rattle.live_layers.specs.Keeping.{ChangesTree, IsSound, cache_of, records_in};
ghost use Rattle.live_layers.specs.Reaching.{Reaches};
ghost use Rattle.live_layers.specs.Refusals.{IsRecordedAt, IsTriedChange, refusals_in};
ghost use Rattle.live_layers.specs.Rules.{HasLost};

use crate::faults::change_of;
use crate::layers::Layers;
use crate::located::Located;
use crate::rooms::Room;
use crate::unmade::Unmade;
use block_device::BlockDevice;
use condense::Kept;
use layer_pages::ObjectAt;
use node_page::Entry;
use std::alloc::Allocator;

impl<B: BlockDevice, A: Allocator + Copy> Layers<B, A> {
    // Deletes an object from the layer at a place, which was located there and has D axes.
    pub(crate) fn delete_at<const D: usize>(
        &mut self,
        place: usize,
        located: &Located,
        id: u64,
        kept_room: &mut Room<Kept<D>, A>,
    ) -> Result<(), Unmade>
        requires dims { IsDims D }
        requires axes { located.now.dims ≡ D }
        requires within { place < length (records_in self.old) }
        ensures change { (t : Table) (name : List ℕ) → IsSound self.old t →
            Reaches self.old t name place located.now → IsChange self.old self.new t (Delete name id) result }
        ensures tree { (t : Table) (name : List ℕ) → IsSound self.old t →
            Reaches self.old t name place located.now →
            OnOk result (ChangesTree self.old self.new name (HasLost (layer_at t name) id)) }
        ensures in_turn { (name : List ℕ) → IsRecordedAt self.old name place →
            IsTriedChange (refusals_in self.old (Delete name id)) result }
        ensures keeps { KeepsInChange self.old self.new (version_of (cache_of self.old)) result }
    {
        let (spot, known) = match self.object_of::<D>(located, id) {
            Ok(found) => found,
            Err(refusal) => return Err(Unmade::Refused(refusal)),
        };
        let object = ObjectAt {
            entry: Entry {
                bounds: known.0,
                reference: id,
                tag: known.1,
            },
            spot,
        };
        change_of(self.take_object(place, &object, kept_room))
    }
}
