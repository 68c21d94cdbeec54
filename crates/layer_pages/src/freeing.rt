//! Layers given up.

ghost use Rattle.std.specs.Prelude.{◌≡◌, ◌⊎◌, ℕ, IfErr, OnOk};
ghost use Rattle.box_math.specs.Bounds.{IsDims};
ghost use Rattle.page_file.specs.Fault.{IsDamage, IsOfDevice};
ghost use Rattle.page_cache.specs.Cache.{Grows, IsPageMap, pages};
ghost use Rattle.page_cache.specs.Calls.{Changes};
ghost use Rattle.node_page.specs.Parts.{Moves, no_page};
ghost use Rattle.layer_pages.specs.Layers.{CanBeRoot, IsLayerAt, LayerPages, Objects, part_of_layer};

use block_device::BlockDevice;
use condense::free_tree;
use id_table::free_all;
use node_page::Root;
use page_cache::PageCache;
use page_file::Fault;
use std::alloc::Allocator;

/// Frees all pages of a layer.
///
/// With a sound map, where the pages stand for a layer there, a refusal is `Memory` or
/// `Device`. No page more is live, also after a refusal.
pub fn free<const D: usize, B: BlockDevice, A: Allocator + Copy>(
    cache: &mut PageCache<B, A>,
    root: Root,
    ids_root: u32,
) -> Result<(), Fault>
    requires dims { IsDims D }
    requires root { CanBeRoot root }
    ensures changes { Changes cache.old cache.new result }
    ensures sound { IsPageMap cache.old → (l : LayerPages) (most : ℕ) (objects : Objects)
        → IsLayerAt D most (pages cache.old) root ids_root l objects → IsPageMap cache.new }
    ensures freed { IsPageMap cache.old → (l : LayerPages) (most : ℕ) (objects : Objects)
        → IsLayerAt D most (pages cache.old) root ids_root l objects
        → OnOk result (Moves (pages cache.old) (pages cache.new) (part_of_layer l) no_page) }
    ensures grows { Grows 0 cache.old cache.new }
    ensures faults { IsPageMap cache.old → (l : LayerPages) (most : ℕ) (objects : Objects)
        → IsLayerAt D most (pages cache.old) root ids_root l objects →
        IfErr result IsOfDevice }
    ensures other_faults { IfErr result (λ f. IsOfDevice f ⊎ IsDamage f) }
{
    free_tree::<D, B, A>(cache, root)?;
    free_all::<D, B, A>(cache, ids_root)?;
    Ok(())
}
