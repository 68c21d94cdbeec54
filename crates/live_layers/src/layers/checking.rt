//! All pages checked: whether the layers are sound.

ghost use Rattle.std.specs.Prelude.{◌≡◌, ◌+◌, ◌*◌, ◌≤◌, ◌⊎◌, ℕ, List, true, IfErr, IsTrue, OnOk, length};
ghost use Rattle.std.specs.Prelude.{map as each};
ghost use Rattle.catalog_page.specs.Layout.{record_of};
ghost use Rattle.page_cache.specs.Cache.{IsHonest, IsPageMap, looks_of};
ghost use Rattle.page_cache.specs.Cache.{next_of, pages, version_of};
ghost use Rattle.page_cache.specs.Calls.{Asks};
ghost use Rattle.page_file.specs.Fault.{IsDamage, IsOfDevice};
ghost use Rattle.page_file.specs.declared.fault.Fault.TheVariants.{Damaged};
ghost use Rattle.plain_table.specs.declared.refusal.Refusal.TheVariants as refusal;
ghost use Rattle.node_page.specs.Parts.{IsAllOf};
ghost use Rattle.plain_table.specs.Answers.{done_answer};
ghost use Rattle.plain_table.specs.Commands.Command.{Check};
ghost use Rattle.plain_table.specs.Table.{Table};
ghost use Rattle.live_layers.specs.Catalog as catalog;
ghost use Rattle.live_layers.specs.Catalog.{AreLayers, objects_named};
ghost use Rattle.live_layers.specs.Changes.{IsAnswered, KeepsInQuestion};
ghost use Rattle.live_layers.specs.Checked.{FindsLayers, IsCheckRefusal, IsFoundDamaged, IsFoundSound};
ghost use Rattle.live_layers.specs.Checked.{IsNamedDamaged};
ghost use Rattle.live_layers.specs.Keeping.{IsSound, cache_of, records_in};
ghost use Rattle.live_layers.specs.Layers.{AllowsTables, LayersStand, Reading, in_use, row_of};
ghost use Rattle.live_layers.specs.Staying.{KeepsPagesAndRecords};

mod lists;
mod once;
mod spelled;

use crate::catalog::is_good_catalog;
use crate::faults::as_refusal;
use crate::layers::checking::lists::list_layers;
use crate::layers::checking::once::each_once;
use crate::layers::checking::spelled::check_catalog;
use crate::layers::open::count_of;
use crate::layers::{CATALOG, Layers};
use block_device::BlockDevice;
use catalog_page::LayerRecord;
use page_cache::PageCache;
use page_file::Fault;
use plain_table::Refusal;
use std::alloc::Allocator;

impl<B: BlockDevice, A: Allocator + Copy> Layers<B, A> {
    /// Checks all pages: on an honest device it answers so only where the layers are sound with some table,
    /// and else, unless memory or the device refused before, `Damaged` with the number of a page: that of the
    /// catalog, one at which the chain of free pages breaks, one that a walk through a layer comes to, or one
    /// that does not stand in just one of these. Layers that are sound are refused by `Memory` or `Device`
    /// alone.
    ///
    /// It makes at most two looks for each layer and number below the next one, two more for each layer, and
    /// one at the catalog.
    pub fn check(&mut self) -> Result<(), Refusal>
        ensures answered { (t : Table) → IsSound self.old t →
            IsAnswered self.old self.new t Check (done_answer result) }
        ensures sound { IsHonest (cache_of self.old) → OnOk result (IsFoundSound self.new) }
        ensures looks { looks_of (cache_of self.new) ≤ looks_of (cache_of self.old) +
            (1 + 2 * length (records_in self.old)
            + 2 * (length (records_in self.old) * next_of (cache_of self.old))) }
        ensures refused { IfErr result IsCheckRefusal }
        ensures damage { IsHonest (cache_of self.old) →
            IfErr result (λ r. (n : ℕ) → r ≡ refusal.Damaged n → IsNamedDamaged self.old n) }
        ensures keeps { KeepsInQuestion self.old self.new result }
    {
        match self.check_all() {
            Ok(()) => Ok(()),
            Err(fault) => Err(as_refusal(fault)),
        }
    }

    // The same, with the fault of the file that a refusal is.
    fn check_all(&mut self) -> Result<(), Fault>
        ensures asks { Asks (cache_of self.old) (cache_of self.new) result }
        ensures found { IsHonest (cache_of self.old) → OnOk result (IsFoundSound self.new) }
        ensures stands { (t : Table) → IsSound self.old t → IfErr result IsOfDevice }
        ensures sound { (t : Table) → IsSound self.old t → IsSound self.new t }
        ensures looks { looks_of (cache_of self.new) ≤ looks_of (cache_of self.old) +
            (1 + 2 * length (records_in self.old)
            + 2 * (length (records_in self.old) * next_of (cache_of self.old))) }
        ensures trees { KeepsPagesAndRecords self.old self.new }
        ensures damage { IsHonest (cache_of self.old) →
            IfErr result (λ f. (n : ℕ) → f ≡ Damaged n → IsNamedDamaged self.old n) }
        ensures faults { IfErr result (λ f. IsOfDevice f ⊎ IsDamage f) }
    {
        if !are_good(&self.records, self.cache.next_number(), self.object_count) {
            return Err(Fault::Damaged(CATALOG));
        }
        check_catalog(&mut self.cache, &self.records, self.written)?;
        check_pages(self.alloc, &mut self.cache, &self.records)
    }
}

// Whether the records may stand in a catalog, and have so many objects together.
fn are_good(records: &[LayerRecord], next: u32, object_count: u64) -> bool
    ensures good { result ≡ true → IsTrue (catalog.is_good_catalog next (each record_of records.now)) }
    ensures counted { result ≡ true → object_count ≡ objects_named (each record_of records.now) }
    ensures found { IsTrue (catalog.is_good_catalog next (each record_of records.now)) →
        object_count ≡ objects_named (each record_of records.now) → result ≡ true }
{
    if !is_good_catalog(records, next) {
        return false;
    }
    count_of(records) == object_count
}

// Sees that the layers of the records stand in the pages, with tables that the file may have, and that each
// page given out stands in one place: in the catalog, in a layer, or among the free pages.
fn check_pages<B: BlockDevice, A: Allocator + Copy>(
    alloc: A,
    cache: &mut PageCache<B, A>,
    records: &[LayerRecord],
) -> Result<(), Fault>
    requires { AreLayers (each record_of records.now) }
    ensures asks { Asks cache.old cache.new result }
    ensures found { IsHonest cache.old → OnOk result (IsPageMap cache.old ×
        FindsLayers (pages cache.old) (version_of cache.old) (each record_of records.now)) }
    ensures stands { IsPageMap cache.old → (hs : List Reading) → each row_of hs ≡ each record_of records.now →
        LayersStand (pages cache.old) hs → AllowsTables (version_of cache.old) hs
        → IsAllOf (pages cache.old) (in_use hs) → IfErr result IsOfDevice }
    ensures looks { looks_of cache.new ≤ looks_of cache.old + 2 * (length records.now * next_of cache.old)
        + 2 * length records.now }
    ensures damage { IsHonest cache.old → IfErr result (λ f. (n : ℕ) → f ≡ Damaged n →
        IsFoundDamaged cache.old (each record_of records.now) n) }
    ensures faults { IfErr result (λ f. IsOfDevice f ⊎ IsDamage f) }
{
    let mut found = cache.free_pages(alloc)?;
    found.push(CATALOG)?;
    list_layers(alloc, cache, records, &mut found)?;
    each_once(found.as_mut_slice(), cache.next_number())
}
