//! Live layers over the pages of a file that was opened.

ghost use Rattle.std.specs.Prelude.{◌≡◌, ◌+◌, ◌≤◌, ◌⊎◌, Some, None, IsTrue, IfOk, IfErr, map as each};
ghost use Rattle.std.specs.Prelude.{option_map};
ghost use Rattle.block_device.specs.Device.{Blocks};
ghost use Rattle.catalog_page.specs.Layout.{record_of, records_of};
ghost use Rattle.page_file.specs.Fault.{IsDamage, IsOfDevice, faults_after};
ghost use Rattle.page_file.specs.Stops.{AddsOnly, StopSince};
ghost use Rattle.page_file.specs.declared.fault.Fault.TheVariants as fault;
ghost use Rattle.page_file.specs.declared.gate.Gate.TheVariants.{Open};
ghost use Rattle.page_cache.specs.Cache.{IsHonest, LiesIn, blocks_of, device_of, gate_of, looks_of, next_of};
ghost use Rattle.page_cache.specs.Cache.{pages};
ghost use Rattle.page_cache.specs.Calls.{Asks, AsksUntil};
ghost use Rattle.plain_table.specs.Table.{Table, most_objects};
ghost use Rattle.live_layers.specs.Catalog.{is_good_catalog, objects_named};
ghost use Rattle.live_layers.specs.Image.{HasNoCatalog, IsImage};
ghost use Rattle.live_layers.specs.Keeping.{IsSound, IsWritten, cache_of, newest_of, records_in};
ghost use Rattle.live_layers.specs.Layers.{catalog_in};
ghost use Rattle.live_layers.specs.Staying.{FindsTreesIn};

use crate::catalog::is_good_catalog;
use crate::layers::{CATALOG, Layers};
use arrayvec::ArrayVec;
use block_device::BlockDevice;
use catalog_page::{LayerRecord, decode};
use page_cache::PageCache;
use page_file::{Fault, Version};
use std::alloc::Allocator;

impl<B: BlockDevice, A: Allocator + Copy> Layers<B, A> {
    /// The layers that the catalog of a file names. Its page is read and checked, and no other: `Damaged`
    /// with its number where it holds no good catalog. Layers that are made are such as files of the newest
    /// version may have.
    ///
    /// On an honest device any other refusal is `Memory` or `Device`, and an image of a table is opened as
    /// layers that are sound with it, and have its trees. The device comes back, with its blocks as they
    /// were.
    pub fn open(
        alloc: A,
        cache: PageCache<B, A>,
        newest: Version,
    ) -> Result<Layers<B, A>, (Fault, B)>
        ensures image { (t : Table) (blocks : Blocks) → IsHonest cache → LiesIn cache blocks →
            IsImage blocks t →
            IfOk result (λ layers. IsSound layers t) }
        ensures not_refused { (t : Table) (blocks : Blocks) → IsHonest cache → LiesIn cache blocks →
            IsImage blocks t →
            IfErr result (λ e. IsOfDevice e.0) }
        ensures trees { (blocks : Blocks) → IsHonest cache → LiesIn cache blocks →
            IfOk result (λ layers. FindsTreesIn layers blocks) }
        ensures catalog { IfOk result (λ layers. IsHonest cache →
            catalog_in (pages cache) ≡ Some (records_in layers)) }
        ensures good { IfOk result (λ layers.
            IsTrue (is_good_catalog (next_of cache) (records_in layers))) }
        ensures refused { IsHonest cache → IfErr result (λ e. IsOfDevice e.0 ⊎
            ((e.0 ≡ fault.Damaged 2) × HasNoCatalog (pages cache) (next_of cache))) }
        ensures only { IfErr result (λ e. IsOfDevice e.0 ⊎ IsDamage e.0) }
        ensures written { IfOk result IsWritten }
        ensures newest { IfOk result (λ layers. newest_of layers ≡ newest) }
        ensures asks { IfOk result (λ layers. AsksUntil cache (cache_of layers) None) }
        ensures refused_stops { IfErr result (λ e. IsHonest cache →
            AddsOnly B.moment B.left_since B.recovery (device_of cache) e.1
            (StopSince (gate_of cache) (blocks_of cache))) }
        ensures refused_blocks { IfErr result (λ e. IsHonest cache → ¬ (gate_of cache ≡ Open) →
            B.shown e.1 ≡ blocks_of cache) }
        ensures cause { IfErr result (λ e. B.faults e.1 ≡ faults_after e.0 (B.faults (device_of cache))) }
        ensures refused_honest { IfErr result (λ e. IsHonest cache → B.honest e.1) }
    {
        let mut cache = cache;
        match read_catalog(&mut cache) {
            Ok(records) => {
                let object_count = count_of(&records);
                Ok(Layers {
                    alloc,
                    cache,
                    records,
                    object_count,
                    written: true,
                    newest,
                })
            }
            Err(fault) => Err((fault, cache.abandon())),
        }
    }
}

// Reads and checks the catalog.
pub(super) fn read_catalog<B: BlockDevice, A: Allocator + Copy>(
    cache: &mut PageCache<B, A>,
) -> Result<ArrayVec<LayerRecord, 60>, Fault>
    ensures asks { Asks cache.old cache.new result }
    ensures catalog { IsHonest cache.old →
        IfOk result (λ records. catalog_in (pages cache.old) ≡ Some (records_of records)) }
    ensures good { IfOk result (λ records.
        IsTrue (is_good_catalog (next_of cache.old) (records_of records))) }
    ensures damaged { IsHonest cache.old → IfErr result (λ f. IsOfDevice f ⊎
        ((f ≡ fault.Damaged 2) × HasNoCatalog (pages cache.old) (next_of cache.old))) }
    ensures only { IfErr result (λ f. IsOfDevice f ⊎ IsDamage f) }
{
    match decode_catalog(cache)? {
        Some(records) if is_good_catalog(&records, cache.next_number()) => Ok(records),
        _ => Err(Fault::Damaged(CATALOG)),
    }
}

// The records that the page of the catalog spells, if it spells any.
#[tactic(auto, using(page_cache::specs::Calls::ends_so))]
pub(super) fn decode_catalog<B: BlockDevice, A: Allocator + Copy>(
    cache: &mut PageCache<B, A>,
) -> Result<Option<ArrayVec<LayerRecord, 60>>, Fault>
    ensures asks { Asks cache.old cache.new result }
    ensures spelled { IsHonest cache.old →
        IfOk result (λ records. option_map records_of records ≡ catalog_in (pages cache.old)) }
    ensures faults { IsHonest cache.old → IfErr result IsOfDevice }
    ensures only { IfErr result (λ f. IsOfDevice f ⊎ IsDamage f) }
    ensures looks { looks_of cache.new ≤ looks_of cache.old + 1 }
{
    let page = cache.page(CATALOG)?;
    Ok(decode(page))
}

// How many objects the layers of a good catalog have together.
pub(super) fn count_of(records: &[LayerRecord]) -> u64
    requires { objects_named (each record_of records.now) ≤ most_objects }
    ensures { result ≡ objects_named (each record_of records.now) }
{
    let mut total = 0;
    for record in records {
        total += record.count;
    }
    total
}
