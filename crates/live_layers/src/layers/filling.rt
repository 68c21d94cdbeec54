//! The objects of a layer that has none.

ghost use Rattle.std.specs.Prelude.{◌≡◌, ◌+◌, ◌<◌, ◌≤◌, ℕ, List, IfErr, IsPermutation, OnOk, length};
ghost use Rattle.std.specs.FinMap as map;
ghost use Rattle.box_math.specs.Bounds.{IsDims};
ghost use Rattle.id_words.specs.Objects.{pairs_in};
ghost use Rattle.layer_pages.specs.Layers.{Objects};
ghost use Rattle.page_cache.specs.Cache.{version_of};
ghost use Rattle.page_file.specs.Fault.{IsOfDevice};
ghost use Rattle.plain_table.specs.Table.{Table, layer_at, most_objects};
ghost use Rattle.live_layers.specs.Begun.{BeginsChange};
ghost use Rattle.live_layers.specs.Keeping.{ChangesTree, Finds, IsSound, cache_of, records_in};
ghost use Rattle.live_layers.specs.Rules.{HasFilled};

use crate::broken::Broken;
use crate::layers::Layers;
use block_device::BlockDevice;
use layer_pages::{Layer, load};
use node_page::Entry;
use std::alloc::Allocator;

impl<B: BlockDevice, A: Allocator + Copy> Layers<B, A> {
    // Puts the objects of these entries into the layer at a place, which has none: a packed tree, and a table
    // of their identifiers, which are all different. The entries are left in another order.
    pub(crate) fn fill<const D: usize>(
        &mut self,
        place: usize,
        entries: &mut [Entry<D>],
    ) -> Result<(), Broken>
        requires dims { IsDims D }
        requires within { place < length (records_in self.old) }
        requires room { self.old.object_count + length entries.old ≤ most_objects }
        ensures filled { (t : Table) (name : List ℕ) (all : Objects) → IsSound self.old t →
            Finds t name place →
            (layer_at t name).dims ≡ D → map.len (layer_at t name).objects ≡ 0 →
            IsPermutation (pairs_in entries.old) (map.entries all) →
            OnOk result (IsSound self.new (map.insert t name (record (layer_at t name) { objects = all }))) }
        ensures tree { (t : Table) (name : List ℕ) (all : Objects) → IsSound self.old t → Finds t name place →
            (layer_at t name).dims ≡ D → map.len (layer_at t name).objects ≡ 0 →
            IsPermutation (pairs_in entries.old) (map.entries all) →
            OnOk result (ChangesTree self.old self.new name
            (HasFilled (layer_at t name) (pairs_in entries.old))) }
        ensures faults { (t : Table) (name : List ℕ) (all : Objects) → IsSound self.old t →
            Finds t name place →
            (layer_at t name).dims ≡ D → map.len (layer_at t name).objects ≡ 0 →
            IsPermutation (pairs_in entries.old) (map.entries all) →
            IfErr result (λ b. IsOfDevice b.cause) }
        ensures begins { BeginsChange self.old self.new (version_of (cache_of self.old)) result }
    {
        self.begin()?;
        let located = self.locate(place);
        let count = entries.len() as u64;
        let layer = Layer {
            root: located.root,
            ids_root: located.ids_root,
            fanout: located.fanout,
        };
        let root = match load(self.alloc, &mut self.cache, layer, entries) {
            Ok(root) => root,
            Err(fault) => return Err(self.broken_by(fault)),
        };
        self.note(place, root, count);
        self.object_count += count;
        Ok(())
    }
}
