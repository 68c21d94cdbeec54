//! An object taken out of the tree and the identifier table of a layer.

ghost use Rattle.std.specs.Prelude.{◌≡◌, ◌<◌, ℕ, List, Some, IfErr, OnOk, length};
ghost use Rattle.std.specs.FinMap as map;
ghost use Rattle.box_math.specs.Bounds.{IsDims};
ghost use Rattle.page_cache.specs.Cache.{version_of};
ghost use Rattle.page_file.specs.Fault.{IsOfDevice};
ghost use Rattle.layer_pages.specs.Layers.{HasObject, id_of};
ghost use Rattle.plain_table.specs.Table.{Table, layer_at, without_object};
ghost use Rattle.live_layers.specs.Begun.{BeginsChange};
ghost use Rattle.live_layers.specs.Keeping.{ChangesTree, Finds, IsSound, cache_of, records_in};
ghost use Rattle.live_layers.specs.Located.{IsSpotIn};
ghost use Rattle.live_layers.specs.Rules.{HasLost};

use crate::broken::Broken;
use crate::layers::Layers;
use crate::rooms::{Room, take_kept};
use block_device::BlockDevice;
use condense::Kept;
use layer_pages::{Layer, ObjectAt, remove};
use std::alloc::Allocator;

impl<B: BlockDevice, A: Allocator + Copy> Layers<B, A> {
    // Takes out an object that the layer at a place has with that box and that tag, at that spot. The memory
    // of what is inserted again is taken before the gate is opened.
    pub(crate) fn take_object<const D: usize>(
        &mut self,
        place: usize,
        object: &ObjectAt<D>,
        kept_room: &mut Room<Kept<D>, A>,
    ) -> Result<(), Broken>
        requires dims { IsDims D }
        requires within { place < length (records_in self.old) }
        ensures taken { (t : Table) (name : List ℕ) → IsSound self.old t → Finds t name place →
            (layer_at t name).dims ≡ D → HasObject (layer_at t name).objects object.now →
            IsSpotIn D self.old place (id_of object.now) object.now.spot →
            OnOk result (IsSound self.new
            (map.insert t name (without_object (layer_at t name) (id_of object.now)))) }
        ensures tree { (t : Table) (name : List ℕ) → IsSound self.old t → Finds t name place →
            (layer_at t name).dims ≡ D → HasObject (layer_at t name).objects object.now →
            IsSpotIn D self.old place (id_of object.now) object.now.spot →
            OnOk result (ChangesTree self.old self.new name (HasLost (layer_at t name) (id_of object.now))) }
        ensures faults { (t : Table) (name : List ℕ) → IsSound self.old t → Finds t name place →
            (layer_at t name).dims ≡ D → HasObject (layer_at t name).objects object.now →
            IsSpotIn D self.old place (id_of object.now) object.now.spot →
            IfErr result (λ b. IsOfDevice b.cause) }
        ensures begins { BeginsChange self.old self.new (version_of (cache_of self.old)) result }
    {
        let mut kept = take_kept(kept_room, self.alloc)?;
        self.begin()?;
        let located = self.locate(place);
        let layer = Layer {
            root: located.root,
            ids_root: located.ids_root,
            fanout: located.fanout,
        };
        let root = match remove(&mut self.cache, layer, object, &mut kept) {
            Ok(root) => root,
            Err(fault) => return Err(self.broken_by(fault)),
        };
        let count = self.count_at(place).saturating_sub(1);
        self.note(place, root, count);
        self.object_count = self.object_count.saturating_sub(1);
        *kept_room = Some(kept);
        Ok(())
    }
}
