//! An object removed from a layer.

ghost use Rattle.std.specs.Prelude.{◌≡◌, ℕ, IfErr, IfOk};
ghost use Rattle.std.specs.FinMap as map;
ghost use Rattle.page_cache.specs.Cache.{Grows, IsPageMap, pages};
ghost use Rattle.page_cache.specs.Calls.{Changes};
ghost use Rattle.node_page.specs.Faults.{IsChangeFault, IsNoDamage};
ghost use Rattle.condense.specs.Removed.{IsRefused, most_removal_pages};
ghost use Rattle.id_table.specs.Table.{kind_of};
ghost use Rattle.layer_pages.specs.Changes.{BecomesLayer, HasRemoved};
ghost use Rattle.layer_pages.specs.Layers.{CanBeRoot, HasObject, IsAtSpot, IsLayerAt, LayerPages, Objects};
ghost use Rattle.layer_pages.specs.Layers.{id_of, kept_of, part_of_layer};

use crate::layer::{Layer, ObjectAt};
use block_device::BlockDevice;
use condense::{Kept, remove_with};
use node_page::Root;
use page_cache::PageCache;
use page_file::Fault;
use std::alloc::Allocator;

/// Removes the object with that identifier, which the layer has with that box and that tag, and answers the
/// root of its tree: by a lawful removal from the tree, and then from the identifier table.
///
/// With a sound map, where the pages stand for that layer, a refusal is `Memory` or `Device`, or `NoPages`
/// where each page number is live. One that touched no page leaves the map as it was. Where the layer does
/// not have the object with that box and that tag, that is `Damaged` with the root's page, and no page is
/// touched, unless memory or the device refused before. Also after a refusal at most `most_removal_pages`
/// more pages are live.
pub fn remove<const D: usize, B: BlockDevice, A: Allocator + Copy>(
    cache: &mut PageCache<B, A>,
    layer: Layer,
    object: &ObjectAt<D>,
    kept: &mut Kept<D>,
) -> Result<Root, Fault>
    requires root { CanBeRoot layer.root }
    ensures changes { Changes cache.old cache.new result }
    ensures root { IfOk result CanBeRoot }
    ensures sound { IsPageMap cache.old → (l : LayerPages) (objects : Objects)
        → IsLayerAt D layer.fanout.most (pages cache.old) layer.root layer.ids_root l objects
        → IsAtSpot (pages cache.old) layer.ids_root object.now
        → IfOk result (λ _. IsPageMap cache.new) }
    ensures removed { IsPageMap cache.old → (l : LayerPages) (objects : Objects)
        → IsLayerAt D layer.fanout.most (pages cache.old) layer.root layer.ids_root l objects
        → IsAtSpot (pages cache.old) layer.ids_root object.now → HasObject objects object.now
        → IfOk result (λ after.
        BecomesLayer D layer.fanout.most (pages cache.old) (pages cache.new) (part_of_layer l) (kind_of l.ids)
        after layer.ids_root (map.remove objects (id_of object.now))
        (HasRemoved D layer.fanout.most l (id_of object.now) (kept_of object.now))) }
    ensures absent { IsPageMap cache.old → (l : LayerPages) (objects : Objects)
        → IsLayerAt D layer.fanout.most (pages cache.old) layer.root layer.ids_root l objects
        → ¬ (HasObject objects object.now) → IsRefused layer.root.page cache.old cache.new result }
    ensures grows { Grows most_removal_pages cache.old cache.new }
    ensures faults { IsPageMap cache.old → (l : LayerPages) (objects : Objects)
        → IsLayerAt D layer.fanout.most (pages cache.old) layer.root layer.ids_root l objects
        → IsAtSpot (pages cache.old) layer.ids_root object.now → HasObject objects object.now
        → IfErr result (IsNoDamage cache.new) }
    ensures other_faults { IfErr result (IsChangeFault cache.new) }
{
    let after = remove_with(cache, layer.root, &object.entry, layer.fanout, kept)?;
    id_table::remove::<D, B, A>(cache, layer.ids_root, object.spot, object.entry.reference)?;
    Ok(after)
}
