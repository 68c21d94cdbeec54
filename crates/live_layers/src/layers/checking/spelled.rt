//! Whether the page of the catalog spells the records.

ghost use Rattle.std.specs.Prelude.{◌≡◌, ◌+◌, ◌≤◌, ◌⊎◌, ◌↔◌, true, Some, IfErr, IsTrue, OnOk, map as each};
ghost use Rattle.catalog_page.specs.Layout.{record_of};
ghost use Rattle.page_cache.specs.Cache.{IsHonest, looks_of, pages};
ghost use Rattle.page_cache.specs.Calls.{Asks};
ghost use Rattle.page_file.specs.Fault.{IsDamage, IsOfDevice};
ghost use Rattle.page_file.specs.declared.fault.Fault.TheVariants.{Damaged};
ghost use Rattle.live_layers.specs.Layers.{catalog_in};

use crate::layers::CATALOG;
use crate::layers::open::decode_catalog;
use block_device::BlockDevice;
use catalog_page::LayerRecord;
use page_cache::PageCache;
use page_file::Fault;
use std::alloc::Allocator;

/// Sees that the page of the catalog spells the records where they were written there.
pub fn check_catalog<B: BlockDevice, A: Allocator + Copy>(
    cache: &mut PageCache<B, A>,
    records: &[LayerRecord],
    written: bool,
) -> Result<(), Fault>
    ensures asks { Asks cache.old cache.new result }
    ensures spelled { IsHonest cache.old → OnOk result (written ≡ true →
        catalog_in (pages cache.old) ≡ Some (each record_of records.now)) }
    ensures stands { IsHonest cache.old → (written ≡ true →
        catalog_in (pages cache.old) ≡ Some (each record_of records.now)) → IfErr result IsOfDevice }
    ensures looks { looks_of cache.new ≤ looks_of cache.old + 1 }
    ensures damage { IsHonest cache.old → IfErr result (λ f. IsOfDevice f ⊎ (f ≡ Damaged 2)) }
    ensures faults { IfErr result (λ f. IsOfDevice f ⊎ IsDamage f) }
{
    if !written {
        return Ok(());
    }
    match decode_catalog(cache)? {
        Some(spelled) if are_same(&spelled, records) => Ok(()),
        _ => Err(Fault::Damaged(CATALOG)),
    }
}

// Whether both lists have the same records.
fn are_same(records: &[LayerRecord], others: &[LayerRecord]) -> bool
    ensures { IsTrue result ↔ (each record_of records.now ≡ each record_of others.now) }
{
    if records.len() != others.len() {
        return false;
    }
    for place in 0..records.len() {
        if !is_same(&records[place], &others[place]) {
            return false;
        }
    }
    true
}

// Whether both records are the same.
fn is_same(layer: &LayerRecord, other: &LayerRecord) -> bool
    ensures { IsTrue result ↔ (record_of layer.now ≡ record_of other.now) }
{
    layer.name.as_slice() == other.name.as_slice()
        && (layer.dims, layer.fanout, layer.level) == (other.dims, other.fanout, other.level)
        && (layer.root, layer.ids_root, layer.count) == (other.root, other.ids_root, other.count)
}
