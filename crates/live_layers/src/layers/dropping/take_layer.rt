//! The pages and the record of a layer that goes.

ghost use Rattle.std.specs.Prelude.{◌≡◌, ◌<◌, ◌⊎◌, ℕ, List, IfErr, OnOk, false, length};
ghost use Rattle.std.specs.FinMap as map;
ghost use Rattle.box_math.specs.Bounds.{IsDims};
ghost use Rattle.layer_pages.specs.Layers.{CanBeRoot, IsLayerAt, LayerPages, Objects, part_of_layer};
ghost use Rattle.page_cache.specs.Calls.{Changes};
ghost use Rattle.page_file.specs.Fault.{IsDamage, IsOfDevice};
ghost use Rattle.node_page.specs.Parts.{Moves, no_page};
ghost use Rattle.page_cache.specs.Cache.{IsPageMap, pages, version_of};
ghost use Rattle.plain_table.specs.Table.{Table};
ghost use Rattle.live_layers.specs.Begun.{BeginsChange};
ghost use Rattle.live_layers.specs.Dropping.{KeepsOtherTrees};
ghost use Rattle.live_layers.specs.Keeping.{Finds, IsSound, cache_of, records_in};

use crate::broken::Broken;
use crate::layers::Layers;
use crate::located::Located;
use block_device::BlockDevice;
use layer_pages::free;
use page_cache::PageCache;
use page_file::Fault;
use std::alloc::Allocator;

impl<B: BlockDevice, A: Allocator + Copy> Layers<B, A> {
    // Frees the pages of the layer at a place, and takes its record out.
    pub(crate) fn take_layer(&mut self, place: usize) -> Result<(), Broken>
        requires within { place < length (records_in self.old) }
        ensures taken { (t : Table) (name : List ℕ) → IsSound self.old t → Finds t name place →
            OnOk result (IsSound self.new (map.remove t name)) }
        ensures others { (t : Table) (name : List ℕ) → IsSound self.old t → Finds t name place →
            OnOk result (KeepsOtherTrees self.old self.new name) }
        ensures faults { (t : Table) (name : List ℕ) → IsSound self.old t → Finds t name place →
            IfErr result (λ b. IsOfDevice b.cause) }
        ensures begins { BeginsChange self.old self.new (version_of (cache_of self.old)) result }
    {
        self.begin()?;
        let located = self.locate(place);
        let count = self.count_at(place);
        match free_pages(&mut self.cache, &located) {
            Ok(()) => (),
            Err(fault) => return Err(self.broken_by(fault)),
        }
        self.records.remove(place);
        self.object_count = self.object_count.saturating_sub(count);
        self.written = false;
        Ok(())
    }
}

// Frees all pages of the layer that stands there.
fn free_pages<B: BlockDevice, A: Allocator + Copy>(
    cache: &mut PageCache<B, A>,
    located: &Located,
) -> Result<(), Fault>
    requires dims { IsDims located.now.dims }
    requires root { CanBeRoot located.now.root }
    ensures changes { Changes cache.old cache.new result }
    ensures sound { IsPageMap cache.old → (l : LayerPages) (most : ℕ) (objects : Objects)
        → IsLayerAt located.now.dims most (pages cache.old) located.now.root located.now.ids_root l objects
        → IsPageMap cache.new }
    ensures freed { IsPageMap cache.old → (l : LayerPages) (most : ℕ) (objects : Objects)
        → IsLayerAt located.now.dims most (pages cache.old) located.now.root located.now.ids_root l objects
        → OnOk result (Moves (pages cache.old) (pages cache.new) (part_of_layer l) no_page) }
    ensures faults { IsPageMap cache.old → (l : LayerPages) (most : ℕ) (objects : Objects)
        → IsLayerAt located.now.dims most (pages cache.old) located.now.root located.now.ids_root l objects
        → IfErr result IsOfDevice }
    ensures other_faults { IfErr result (λ f. IsOfDevice f ⊎ IsDamage f) }
{
    if located.dims == 2 {
        free::<2, B, A>(cache, located.root, located.ids_root)
    } else {
        free::<3, B, A>(cache, located.root, located.ids_root)
    }
}
