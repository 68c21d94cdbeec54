//! An object inserted into a layer.

ghost use Rattle.std.specs.Prelude.{◌≡◌, ℕ, false, IfErr, IfOk};
ghost use Rattle.std.specs.FinMap as map;
ghost use Rattle.page_cache.specs.Cache.{Grows, IsPageMap, pages};
ghost use Rattle.page_cache.specs.Calls.{Changes};
ghost use Rattle.node_page.specs.Faults.{IsChangeFault, IsNoDamage};
ghost use Rattle.id_table.specs.Table.{kind_of};
ghost use Rattle.layer_pages.specs.Changes.{BecomesLayer, HasInserted, most_inserted_pages};
ghost use Rattle.layer_pages.specs.Layers.{CanBeRoot, IsAtSpot, IsLayerAt, LayerPages, Objects, id_of};
ghost use Rattle.layer_pages.specs.Layers.{kept_of, part_of_layer};

use crate::layer::{Layer, ObjectAt};
use block_device::BlockDevice;
use node_page::Root;
use page_cache::PageCache;
use page_file::Fault;
use reinsert::{Waiting, insert_with};
use std::alloc::Allocator;

/// Inserts an object, whose identifier the layer does not have, and answers the root of its tree: by a lawful
/// insertion into the tree, and then into the identifier table, at the spot where it would come.
///
/// With a sound map, where the pages stand for that layer, a refusal is `Memory` or `Device`, or `NoPages`
/// where each page number is live. One that touched no page leaves the map as it was. Also after a refusal at
/// most `most_inserted_pages` more pages are live.
pub fn insert<const D: usize, B: BlockDevice, A: Allocator + Copy>(
    cache: &mut PageCache<B, A>,
    layer: Layer,
    object: &ObjectAt<D>,
    waiting: &mut Waiting<D>,
) -> Result<Root, Fault>
    requires root { CanBeRoot layer.root }
    ensures changes { Changes cache.old cache.new result }
    ensures root { IfOk result CanBeRoot }
    ensures sound { IsPageMap cache.old → (l : LayerPages) (objects : Objects)
        → IsLayerAt D layer.fanout.most (pages cache.old) layer.root layer.ids_root l objects
        → IsAtSpot (pages cache.old) layer.ids_root object.now
        → IfOk result (λ _. IsPageMap cache.new) }
    ensures inserted { IsPageMap cache.old → (l : LayerPages) (objects : Objects)
        → IsLayerAt D layer.fanout.most (pages cache.old) layer.root layer.ids_root l objects
        → IsAtSpot (pages cache.old) layer.ids_root object.now
        → map.contains_key objects (id_of object.now) ≡ false → IfOk result (λ after.
        BecomesLayer D layer.fanout.most (pages cache.old) (pages cache.new) (part_of_layer l) (kind_of l.ids)
        after layer.ids_root (map.insert objects (id_of object.now) (kept_of object.now))
        (HasInserted D layer.fanout.most l (id_of object.now) (kept_of object.now))) }
    ensures grows { Grows most_inserted_pages cache.old cache.new }
    ensures faults { IsPageMap cache.old → (l : LayerPages) (objects : Objects)
        → IsLayerAt D layer.fanout.most (pages cache.old) layer.root layer.ids_root l objects
        → IsAtSpot (pages cache.old) layer.ids_root object.now → IfErr result (IsNoDamage cache.new) }
    ensures other_faults { IfErr result (IsChangeFault cache.new) }
{
    // a box that was looked at is known to be one
    let _ = object.entry.bounds.low();
    let after = insert_with(cache, layer.root, &object.entry, 0, layer.fanout, waiting)?;
    let ObjectAt { entry, spot } = object;
    id_table::add(
        cache,
        layer.ids_root,
        *spot,
        entry.reference,
        &entry.bounds,
        entry.tag,
    )?;
    Ok(after)
}
