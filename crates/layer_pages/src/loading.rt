//! All objects of a layer at once.

ghost use Rattle.std.specs.Prelude.{◌≡◌, ℕ, true, false};
ghost use Rattle.std.specs.Prelude.{IfErr, IfOk, IsPermutation, OnOk, length};
ghost use Rattle.std.specs.FinMap as map;
ghost use Rattle.box_math.specs.Bounds.{IsDims};
ghost use Rattle.page_cache.specs.Cache.{Grows, IsPageMap, pages};
ghost use Rattle.page_cache.specs.Calls.{Changes};
ghost use Rattle.node_page.specs.Faults.{IsChangeFault, IsNoDamage};
ghost use Rattle.id_table.specs.Table.{kind_of};
ghost use Rattle.id_words.specs.Objects.{pairs_in};
ghost use Rattle.layer_pages.specs.Changes.{BecomesLayer, BecomesTable, HasPacked};
ghost use Rattle.id_table.specs.Changes.{most_filled_pages};
ghost use Rattle.layer_pages.specs.Changes.{most_loaded_pages};
ghost use Rattle.layer_pages.specs.Layers.{CanBeRoot, IsLayerAt, LayerPages, Objects, part_of_layer};

use crate::layer::Layer;
use block_device::BlockDevice;
use condense::free_tree;
use id_table::fill;
use node_page::{Entry, Root};
use page_cache::PageCache;
use page_file::Fault;
use std::alloc::Allocator;
use tree_node::see_boxes;

/// Puts the objects of these entries of leaves into a layer without objects, and answers the root of its tree,
/// which is packed. Their identifiers are all different. The entries are left in another order.
///
/// With a sound map, where the pages stand for that layer without objects, a refusal is `Memory` or `Device`,
/// or `NoPages` where each page number is live. Also after a refusal at most `most_loaded_pages` more pages
/// are live.
pub fn load<const D: usize, B: BlockDevice, A: Allocator + Copy, H: Allocator + Copy>(
    alloc: H,
    cache: &mut PageCache<B, A>,
    layer: Layer,
    entries: &mut [Entry<D>],
) -> Result<Root, Fault>
    requires dims { IsDims D }
    requires root { CanBeRoot layer.root }
    ensures changes { Changes cache.old cache.new result }
    ensures root { IfOk result CanBeRoot }
    ensures sound { IsPageMap cache.old → (l : LayerPages) (most : ℕ) (all : Objects)
        → IsLayerAt D most (pages cache.old) layer.root layer.ids_root l map.empty →
        IsPermutation (pairs_in entries.old) (map.entries all)
        → IfOk result (λ _. IsPageMap cache.new) }
    ensures loaded { IsPageMap cache.old → (l : LayerPages) (most : ℕ) (all : Objects)
        → IsLayerAt D most (pages cache.old) layer.root layer.ids_root l map.empty →
        IsPermutation (pairs_in entries.old) (map.entries all)
        → IfOk result (λ after.
        BecomesLayer D layer.fanout.most (pages cache.old) (pages cache.new) (part_of_layer l)
        (kind_of l.ids) after
        layer.ids_root all (HasPacked D layer.fanout.most (pairs_in entries.old))) }
    ensures same { IsPermutation entries.old entries.new }
    ensures grows { IsPageMap cache.old → (l : LayerPages) (most : ℕ) (all : Objects)
        → IsLayerAt D most (pages cache.old) layer.root layer.ids_root l map.empty →
        IsPermutation (pairs_in entries.old) (map.entries all)
        → Grows (most_loaded_pages (length entries.old)) cache.old cache.new }
    ensures faults { IsPageMap cache.old → (l : LayerPages) (most : ℕ) (all : Objects)
        → IsLayerAt D most (pages cache.old) layer.root layer.ids_root l map.empty →
        IsPermutation (pairs_in entries.old) (map.entries all)
        → IfErr result (IsNoDamage cache.new) }
    ensures other_faults { IfErr result (IsChangeFault cache.new) }
{
    see_boxes(entries);
    let after = bulk_load::load(alloc, cache, entries, layer.fanout)?;
    if !can_be_root(after) {
        return Err(Fault::Damaged(after.page));
    }
    put_ids(cache, layer.root, layer.ids_root, entries)?;
    Ok(after)
}

// Whether a tree may begin there.
fn can_be_root(root: Root) -> bool
    ensures yes { result ≡ true → CanBeRoot root }
    ensures no { result ≡ false → ¬ (CanBeRoot root) }
{
    root.level <= 40 && root.page >= 3 && root.page < 1 << 31
}

// Puts the objects of these entries into the table of a layer without objects, and frees its tree.
fn put_ids<const D: usize, B: BlockDevice, A: Allocator + Copy>(
    cache: &mut PageCache<B, A>,
    root: Root,
    ids_root: u32,
    entries: &mut [Entry<D>],
) -> Result<(), Fault>
    requires dims { IsDims D }
    requires root { CanBeRoot root }
    ensures changes { Changes cache.old cache.new result }
    ensures sound { IsPageMap cache.old → (l : LayerPages) (most : ℕ) (all : Objects)
        → IsLayerAt D most (pages cache.old) root ids_root l map.empty →
        IsPermutation (pairs_in entries.old) (map.entries all)
        → OnOk result (IsPageMap cache.new) }
    ensures put { IsPageMap cache.old → (l : LayerPages) (most : ℕ) (all : Objects)
        → IsLayerAt D most (pages cache.old) root ids_root l map.empty →
        IsPermutation (pairs_in entries.old) (map.entries all)
        → OnOk result (BecomesTable D (pages cache.old) (pages cache.new) (part_of_layer l) (kind_of l.ids)
        ids_root all) }
    ensures same { IsPermutation entries.old entries.new }
    ensures grows { IsPageMap cache.old → (l : LayerPages) (most : ℕ) (all : Objects)
        → IsLayerAt D most (pages cache.old) root ids_root l map.empty →
        IsPermutation (pairs_in entries.old) (map.entries all)
        → Grows (most_filled_pages (length entries.old)) cache.old cache.new }
    ensures faults { IsPageMap cache.old → (l : LayerPages) (most : ℕ) (all : Objects)
        → IsLayerAt D most (pages cache.old) root ids_root l map.empty →
        IsPermutation (pairs_in entries.old) (map.entries all)
        → IfErr result (IsNoDamage cache.new) }
    ensures other_faults { IfErr result (IsChangeFault cache.new) }
{
    fill(cache, ids_root, entries)?;
    free_tree::<D, B, A>(cache, root)?;
    Ok(())
}
