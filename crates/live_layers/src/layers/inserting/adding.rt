//! An object added to the tree and the identifier table of a layer.

ghost use Rattle.std.specs.Prelude.{◌≡◌, ◌<◌, ℕ, List, false, IfErr, OnOk, length};
ghost use Rattle.std.specs.FinMap as map;
ghost use Rattle.box_math.specs.Bounds.{IsDims};
ghost use Rattle.page_cache.specs.Cache.{version_of};
ghost use Rattle.page_file.specs.Fault.{IsOfDevice};
ghost use Rattle.layer_pages.specs.Layers.{id_of, kept_of};
ghost use Rattle.plain_table.specs.Table.{Table, layer_at, most_objects, with_object};
ghost use Rattle.live_layers.specs.Begun.{BeginsChange};
ghost use Rattle.live_layers.specs.Keeping.{ChangesTree, Finds, IsSound, cache_of, records_in};
ghost use Rattle.live_layers.specs.Located.{IsSpotIn};
ghost use Rattle.live_layers.specs.Rules.{HasGained};

use crate::broken::Broken;
use crate::layers::Layers;
use crate::rooms::{Room, take_kept};
use block_device::BlockDevice;
use condense::Kept;
use layer_pages::{Layer, ObjectAt, insert};
use std::alloc::Allocator;

impl<B: BlockDevice, A: Allocator + Copy> Layers<B, A> {
    // Adds an object that the layer at a place does not have, at that spot. The memory of what waits is taken
    // before the gate is opened.
    pub(crate) fn add_object<const D: usize>(
        &mut self,
        place: usize,
        object: &ObjectAt<D>,
        kept_room: &mut Room<Kept<D>, A>,
    ) -> Result<(), Broken>
        requires dims { IsDims D }
        requires within { place < length (records_in self.old) }
        requires room { self.old.object_count < most_objects }
        ensures added { (t : Table) (name : List ℕ) → IsSound self.old t → Finds t name place →
            (layer_at t name).dims ≡ D →
            map.contains_key (layer_at t name).objects (id_of object.now) ≡ false →
            IsSpotIn D self.old place (id_of object.now) object.now.spot →
            OnOk result (IsSound self.new
            (map.insert t name (with_object (layer_at t name) (id_of object.now) (kept_of object.now)))) }
        ensures tree { (t : Table) (name : List ℕ) → IsSound self.old t → Finds t name place →
            (layer_at t name).dims ≡ D →
            map.contains_key (layer_at t name).objects (id_of object.now) ≡ false →
            IsSpotIn D self.old place (id_of object.now) object.now.spot →
            OnOk result (ChangesTree self.old self.new name
            (HasGained (layer_at t name) (id_of object.now) (kept_of object.now))) }
        ensures faults { (t : Table) (name : List ℕ) → IsSound self.old t → Finds t name place →
            (layer_at t name).dims ≡ D → IsSpotIn D self.old place (id_of object.now) object.now.spot →
            IfErr result (λ b. IsOfDevice b.cause) }
        ensures begins { BeginsChange self.old self.new (version_of (cache_of self.old)) result }
    {
        let mut kept = take_kept(kept_room, self.alloc)?;
        self.begin()?;
        let located = self.locate(place);
        let layer = Layer {
            root: located.root,
            ids_root: located.ids_root,
            fanout: located.fanout,
        };
        let root = match insert(&mut self.cache, layer, object, &mut kept.waiting) {
            Ok(root) => root,
            Err(fault) => return Err(self.broken_by(fault)),
        };
        let count = self.count_at(place).saturating_add(1);
        self.note(place, root, count);
        self.object_count += 1;
        *kept_room = Some(kept);
        Ok(())
    }
}
