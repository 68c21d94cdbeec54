//! The pages of the layers listed, while each layer is checked, and whether the file may have its table.

ghost use Rattle.std.specs.Prelude.{◌≡◌, ◌+◌, ◌*◌, ◌≤◌, ◌⊎◌, ℕ, List, IfErr, OnOk, length, map as each};
ghost use Rattle.box_math.specs.Bounds.{IsDims};
ghost use Rattle.catalog_page.specs.Layout.{record_of};
ghost use Rattle.id_table.specs.Table.{IdTable, IdsStand, kind_of, page_of};
ghost use Rattle.id_table.specs.declared.kind.TableKind.TheVariants.{Chains};
ghost use Rattle.page_cache.specs.Cache.{IsHonest, IsPageMap, given, looks_of, next_of, pages, version_of};
ghost use Rattle.page_cache.specs.Calls.{Asks};
ghost use Rattle.page_file.specs.Fault.{IsDamage, IsOfDevice};
ghost use Rattle.page_file.specs.declared.fault.Fault.TheVariants.{Damaged};
ghost use Rattle.page_file.specs.declared.header.Version.TheVariants.{Two};
ghost use Rattle.layer_pages.specs.Checked.{ComesInLayer};
ghost use Rattle.live_layers.specs.Catalog.{AreLayers};
ghost use Rattle.live_layers.specs.Checked.{AddsLayer, AddsLayers, ComesInLayers};
ghost use Rattle.live_layers.specs.Layers.{AllowsTable, AllowsTables, LayerStands, LayersStand, Reading};
ghost use Rattle.live_layers.specs.Layers.{root_of, row_of};

use block_device::BlockDevice;
use catalog_page::LayerRecord;
use id_table::{TableKind, kind_at};
use layer_pages::check;
use node_page::Root;
use page_cache::PageCache;
use page_file::{Fault, Version};
use std::alloc::Allocator;

/// Checks the layers of the records, and appends the pages of each.
pub fn list_layers<B: BlockDevice, A: Allocator + Copy>(
    alloc: A,
    cache: &mut PageCache<B, A>,
    records: &[LayerRecord],
    found: &mut Vec<u32, A>,
) -> Result<(), Fault>
    requires { AreLayers (each record_of records.now) }
    ensures asks { Asks cache.old cache.new result }
    ensures layers { IsPageMap cache.old →
        OnOk result (AddsLayers (pages cache.old) (version_of cache.old) (each record_of records.now)
        found.old.items found.new.items) }
    ensures stands { IsHonest cache.old → (hs : List Reading) → each row_of hs ≡ each record_of records.now →
        LayersStand (pages cache.old) hs → AllowsTables (version_of cache.old) hs → IfErr result IsOfDevice }
    ensures looks { looks_of cache.new ≤ looks_of cache.old + 2 * (length records.now * next_of cache.old)
        + 2 * length records.now }
    ensures damage { IsHonest cache.old → IfErr result (λ f. (n : ℕ) → f ≡ Damaged n →
        ComesInLayers (given cache.old) (each record_of records.now) n) }
    ensures faults { IfErr result (λ f. IsOfDevice f ⊎ IsDamage f) }
{
    for record in records {
        list_layer(alloc, cache, record, found)?;
    }
    Ok(())
}

// Checks the layer of a record, and appends its pages.
fn list_layer<B: BlockDevice, A: Allocator + Copy>(
    alloc: A,
    cache: &mut PageCache<B, A>,
    layer: &LayerRecord,
    found: &mut Vec<u32, A>,
) -> Result<(), Fault>
    requires { IsDims layer.now.dims }
    ensures asks { Asks cache.old cache.new result }
    ensures layer { IsPageMap cache.old → OnOk result (AddsLayer (pages cache.old) (version_of cache.old)
        (record_of layer.now) found.old.items found.new.items) }
    ensures stands { IsHonest cache.old → (h : Reading) → h.row ≡ record_of layer.now →
        LayerStands (pages cache.old) h → AllowsTable (version_of cache.old) h → IfErr result IsOfDevice }
    ensures looks { looks_of cache.new ≤ looks_of cache.old + 2 * next_of cache.old + 2 }
    ensures damage { IsHonest cache.old → IfErr result (λ f. (n : ℕ) → f ≡ Damaged n →
        ComesInLayer layer.now.dims (given cache.old) (root_of (record_of layer.now)) layer.now.ids_root n) }
    ensures faults { IfErr result (λ f. IsOfDevice f ⊎ IsDamage f) }
{
    if layer.dims == 2 {
        list_pages::<2, B, A>(alloc, cache, layer, found)
    } else {
        list_pages::<3, B, A>(alloc, cache, layer, found)
    }
}

// The same of a layer of D axes.
fn list_pages<const D: usize, B: BlockDevice, A: Allocator + Copy>(
    alloc: A,
    cache: &mut PageCache<B, A>,
    layer: &LayerRecord,
    found: &mut Vec<u32, A>,
) -> Result<(), Fault>
    requires dims { IsDims D }
    requires axes { layer.now.dims ≡ D }
    ensures asks { Asks cache.old cache.new result }
    ensures layer { IsPageMap cache.old → OnOk result (AddsLayer (pages cache.old) (version_of cache.old)
        (record_of layer.now) found.old.items found.new.items) }
    ensures stands { IsHonest cache.old → (h : Reading) → h.row ≡ record_of layer.now →
        LayerStands (pages cache.old) h → AllowsTable (version_of cache.old) h → IfErr result IsOfDevice }
    ensures looks { looks_of cache.new ≤ looks_of cache.old + 2 * next_of cache.old + 2 }
    ensures damage { IsHonest cache.old → IfErr result (λ f. (n : ℕ) → f ≡ Damaged n →
        ComesInLayer layer.now.dims (given cache.old) (root_of (record_of layer.now)) layer.now.ids_root n) }
    ensures faults { IfErr result (λ f. IsOfDevice f ⊎ IsDamage f) }
{
    let root = Root {
        page: layer.root,
        level: layer.level,
    };
    let list = check::<D, B, A, A>(
        &alloc,
        cache,
        root,
        layer.ids_root,
        layer.fanout,
        layer.count,
    )?;
    allow_table::<D, B, A>(cache, layer.ids_root)?;
    found.extend_from_slice(list.as_slice())?;
    Ok(())
}

// Sees that the file may have the identifier table that begins at a page: below version 3 a tree is damage.
fn allow_table<const D: usize, B: BlockDevice, A: Allocator + Copy>(
    cache: &mut PageCache<B, A>,
    ids_root: u32,
) -> Result<(), Fault>
    requires dims { IsDims D }
    ensures asks { Asks cache.old cache.new result }
    ensures allowed { IsHonest cache.old → (t : IdTable) → page_of t ≡ ids_root
        → IdsStand D (pages cache.old) t → OnOk result (version_of cache.old ≡ Two → kind_of t ≡ Chains) }
    ensures stands { IsHonest cache.old → (t : IdTable) → page_of t ≡ ids_root
        → IdsStand D (pages cache.old) t → (version_of cache.old ≡ Two → kind_of t ≡ Chains)
        → IfErr result IsOfDevice }
    ensures looks { looks_of cache.new ≤ looks_of cache.old + 1 }
    ensures damage { IsHonest cache.old → IfErr result (λ f. IsOfDevice f ⊎ (f ≡ Damaged ids_root)) }
    ensures faults { IfErr result (λ f. IsOfDevice f ⊎ IsDamage f) }
{
    if cache.version() == Version::Three {
        return Ok(());
    }
    match kind_at::<D, B, A>(cache, ids_root)? {
        TableKind::Chains => Ok(()),
        TableKind::Tree => Err(Fault::Damaged(ids_root)),
    }
}
