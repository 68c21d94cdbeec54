//! How a store begins: made anew on a device without blocks, or opened.

ghost use Rattle.std.specs.Prelude.{◌≡◌, ◌⊎◌, Err, IfOk, IfErr, true, false, length};
ghost use Rattle.std.specs.FinMap.{empty};
ghost use Rattle.block_device.specs.Device.{Blocks, LeavesOnly, Only};
ghost use Rattle.live_layers.specs.Faults.{faults_after_refusal};
ghost use Rattle.live_layers.specs.Image.{HasNoCatalog, IsImage, OpeningRefuses};
ghost use Rattle.live_layers.specs.Staying.{FindsTreesIn};
ghost use Rattle.page_file.specs.File.{IsHonest, LiesIn, blocks_of, device_of, gate_of, next_of, pages};
ghost use Rattle.page_file.specs.File.{version_of};
ghost use Rattle.page_file.specs.Layout.{IsWithin, opened_version};
ghost use Rattle.page_file.specs.Opening.{IsRefused};
ghost use Rattle.page_file.specs.Stops.{AddsOnly, StopSince};
ghost use Rattle.page_file.specs.declared.fault.Fault.{Fault};
ghost use Rattle.page_file.specs.declared.gate.Gate.TheVariants.{Shut};
ghost use Rattle.page_file.specs.declared.header.Version.TheVariants.{Two};
ghost use Rattle.plain_table.specs.Table.{Table};
ghost use Rattle.plain_table.specs.declared.refusal.Refusal.TheVariants as refusal;
ghost use Rattle.store_law.specs.States.StoreState.{Alive};
ghost use Rattle.layer_store.specs.Faults.{IsMemoryOrDevice};
ghost use Rattle.layer_store.specs.Representation.{BeginsWith, IsInState, IsSettled, SpellsRecords};
ghost use Rattle.layer_store.specs.Representation.{blocks_in, device_in, file_version, layers_in, newest_in};
ghost use Rattle.layer_store.specs.Starting.{OpeningRefusesAs, is_cache};

use crate::store::Store;
use block_device::BlockDevice;
use live_layers::{Layers, Rooms, as_refusal};
use page_cache::PageCache;
use page_file::{Fault, PageFile, Version, create_pages, open_pages};
use plain_table::Refusal;
use std::alloc::Allocator;

// Whether a cache may hold so many pages.
fn is_cache(pages: u32) -> bool
    ensures { result ≡ is_cache pages }
{
    pages >= 8 && pages <= 4096
}

/// Makes a store without layers on a device without blocks, which takes its memory from this allocator and
/// holds at most so many pages in memory (8 to 4096). Its blocks are an image of the empty table, and the
/// file has version 2. Layers that are made are such as files of the newest version may have: with
/// `Version::Two` programs that do not know version 3 read the file.
///
/// Refused by `BadCache`, before any call of the device. On an honest device any other refusal is `Memory` or
/// `Device`. The device comes back.
pub fn create_store<D: BlockDevice, A: Allocator + Copy>(
    alloc: A,
    device: D,
    cache: u32,
    newest: Version,
) -> Result<Store<D, A>, (Refusal, D)>
    requires { length (D.shown device) ≡ 0 }
    ensures bad_cache { is_cache cache ≡ false → result ≡ Err (refusal.BadCache, device) }
    // What stops leave is told since the store is made, and of a device without a commit since before the
    // call.
    ensures begins { IfOk result (λ store. D.honest device →
        ((k : Blocks) → D.recovery.commits device k → ⊥) →
        BeginsWith store (D.moment device) empty) }
    ensures made { IfOk result (λ store. D.honest device →
        BeginsWith store (D.moment (device_in store)) empty) }
    ensures closed { IfOk result (λ store. D.honest device → IsImage (blocks_in store) empty) }
    ensures now_settled { IfOk result IsSettled }
    ensures spelled { IfOk result (λ store. D.honest device → SpellsRecords store) }

    // A stop leaves blocks that opening refuses, or an image of the empty table; and once the store is made
    // nothing but what is read.
    ensures stops { IfOk result (λ store. D.honest device →
        LeavesOnly D.moment D.left_since D.recovery device (device_in store) (λ c. IsRefused c
        ⊎ IsImage c empty)) }
    ensures refused_stops { is_cache cache ≡ true → IfErr result (λ e. D.honest device →
        LeavesOnly D.moment D.left_since D.recovery device e.1 (λ c. IsRefused c ⊎ IsImage c empty)) }
    ensures durable { IfOk result (λ store. D.honest device →
        Only (blocks_in store) (D.may_leave (device_in store))) }

    ensures refused { is_cache cache ≡ true → IfErr result (λ e. D.honest device → IsMemoryOrDevice e.0) }
    ensures version { IfOk result (λ store. D.honest device → file_version store ≡ Two) }
    ensures newest { IfOk result (λ store. newest_in store ≡ newest) }
    ensures no_fault { IfOk result (λ store. D.faults (device_in store) ≡ D.faults device) }
    ensures cause { IfErr result (λ e. D.faults e.1 ≡ faults_after_refusal e.0 (D.faults device)) }
    ensures honest { IfOk result (λ store. D.honest device → D.honest (device_in store)) }
    ensures refused_honest { IfErr result (λ e. D.honest device → D.honest e.1) }
{
    if !is_cache(cache) {
        return Err((Refusal::BadCache, device));
    }
    match create_pages(device) {
        Ok(file) => begin(alloc, file, cache, newest),
        Err((fault, device)) => Err((as_refusal(fault), device)),
    }
}

/// Opens the store that lies on a device: gate, header and catalog are read and checked (docs/FORMAT.md,
/// "Opening"), no other page is read (tested), and nothing is written. The store takes its memory from this
/// allocator and holds at most so many pages in memory (8 to 4096). Layers that are made are such as files of
/// the newest version may have; those that are there stay as they are. A file of a newer version is refused,
/// as one of a version that is not known.
///
/// On an honest device an image of a table, of a version that is read, is opened as a store of that table and
/// of its trees, but for `Memory` and `Device`; and blocks are opened only where no check refuses them. The
/// file is of the version that they have.
///
/// Refused by `BadCache`, before any call of the device. On an honest device any other refusal is `Memory`,
/// `Device`, or that of the first check that fails. The device comes back, with its blocks as they were.
pub fn open_store<D: BlockDevice, A: Allocator + Copy>(
    alloc: A,
    device: D,
    cache: u32,
    newest: Version,
) -> Result<Store<D, A>, (Refusal, D)>
    ensures bad_cache { is_cache cache ≡ false → result ≡ Err (refusal.BadCache, device) }
    ensures image { (t : Table) → D.honest device → IsImage (D.shown device) t →
        IfOk result (λ store. BeginsWith store (D.moment (device_in store)) t) }
    // Where it was durable, and all that a stop would bring back, also a stop within the call leaves that
    // table.
    ensures durable_image { (t : Table) → D.honest device → IsImage (D.shown device) t →
        Only (D.shown device) (D.may_leave device) →
        ((k : Blocks) → D.recovery.commits device k → k ≡ D.shown device) →
        IfOk result (λ store. BeginsWith store (D.moment device) t) }

    ensures trees { IfOk result (λ store. D.honest device → FindsTreesIn (layers_in store) (D.shown device)) }
    ensures opened { IfOk result (λ store. D.honest device → (f : Fault) → OpeningRefuses (D.shown device) f →
        ⊥) }
    ensures within { IfOk result (λ store. D.honest device → IsWithin newest (file_version store)) }
    ensures refused { is_cache cache ≡ true → IfErr result (λ e. D.honest device →
        IsMemoryOrDevice e.0 ⊎ OpeningRefusesAs newest (D.shown device) e.0) }

    // A stop leaves nothing but what one before the call might have left; and once the store is opened
    // nothing but what is read.
    ensures stops { IfOk result (λ store. D.honest device →
        LeavesOnly D.moment D.left_since D.recovery device (device_in store) (D.may_leave device)) }
    ensures refused_stops { is_cache cache ≡ true →
        IfErr result (λ e. D.honest device →
        LeavesOnly D.moment D.left_since D.recovery device e.1 (D.may_leave device)) }
    ensures durable { IfOk result (λ store. D.honest device →
        Only (blocks_in store) (D.may_leave (device_in store))) }

    ensures now_settled { IfOk result IsSettled }
    ensures spelled { IfOk result (λ store. D.honest device → SpellsRecords store) }
    ensures blocks { IfOk result (λ store. D.honest device → blocks_in store ≡ D.shown device) }
    ensures refused_blocks { IfErr result (λ e. D.honest device → D.shown e.1 ≡ D.shown device) }
    ensures version { IfOk result (λ store. D.honest device →
        file_version store ≡ opened_version (D.shown device)) }
    ensures newest { IfOk result (λ store. newest_in store ≡ newest) }
    ensures no_fault { IfOk result (λ store. D.faults (device_in store) ≡ D.faults device) }
    ensures cause { IfErr result (λ e. D.faults e.1 ≡ faults_after_refusal e.0 (D.faults device)) }
    ensures honest { IfOk result (λ store. D.honest device → D.honest (device_in store)) }
    ensures refused_honest { IfErr result (λ e. D.honest device → D.honest e.1) }
{
    if !is_cache(cache) {
        return Err((Refusal::BadCache, device));
    }
    match open_pages(device, newest) {
        Ok(file) => begin(alloc, file, cache, newest),
        Err((fault, device)) => Err((as_refusal(fault), device)),
    }
}

// The store over a file whose gate is shut: its catalog is read and checked, and no other page. The blocks
// stay.
fn begin<D: BlockDevice, A: Allocator + Copy>(
    alloc: A,
    file: PageFile<D>,
    capacity: u32,
    newest: Version,
) -> Result<Store<D, A>, (Refusal, D)>
    requires shut { gate_of file ≡ Shut }
    requires capacity { is_cache capacity ≡ true }
    ensures image { (t : Table) (blocks : Blocks) → IsHonest file → LiesIn file blocks → IsImage blocks t →
        IfOk result (λ store. IsInState store (Alive t)) }
    ensures not_refused { (t : Table) (blocks : Blocks) → IsHonest file → LiesIn file blocks →
        IsImage blocks t →
        IfErr result (λ e. IsMemoryOrDevice e.0) }
    ensures trees { (blocks : Blocks) → IsHonest file → LiesIn file blocks →
        IfOk result (λ store. FindsTreesIn (layers_in store) blocks) }
    ensures opened { IfOk result (λ _. IsHonest file → HasNoCatalog (pages file) (next_of file) → ⊥) }
    ensures refused { IfErr result (λ e. IsHonest file → IsMemoryOrDevice e.0 ⊎
        ((e.0 ≡ refusal.Damaged 2) × HasNoCatalog (pages file) (next_of file))) }
    ensures settled { IfOk result IsSettled }
    ensures spelled { IfOk result (λ store. IsHonest file → SpellsRecords store) }
    ensures stops { IfOk result (λ store. IsHonest file →
        AddsOnly D.moment D.left_since D.recovery (device_of file) (device_in store)
        (StopSince Shut (blocks_of file))) }
    ensures refused_stops { IfErr result (λ e. IsHonest file →
        AddsOnly D.moment D.left_since D.recovery (device_of file) e.1 (StopSince Shut (blocks_of file))) }
    ensures blocks { IfOk result (λ store. IsHonest file → blocks_in store ≡ blocks_of file) }
    ensures refused_blocks { IfErr result (λ e. IsHonest file → D.shown e.1 ≡ blocks_of file) }
    ensures version { IfOk result (λ store. IsHonest file → file_version store ≡ version_of file) }
    ensures newest { IfOk result (λ store. newest_in store ≡ newest) }
    ensures no_fault { IfOk result (λ store. D.faults (device_in store) ≡ D.faults (device_of file)) }
    ensures cause { IfErr result (λ e. D.faults e.1 ≡ faults_after_refusal e.0 (D.faults (device_of file))) }
    ensures honest { IfOk result (λ store. IsHonest file → D.honest (device_in store)) }
    ensures refused_honest { IfErr result (λ e. IsHonest file → D.honest e.1) }
{
    let cache = match PageCache::over(alloc, file, capacity) {
        Ok(cache) => cache,
        Err((fault, device)) => return Err((as_refusal(fault), device)),
    };
    match Layers::open(alloc, cache, newest) {
        Ok(layers) => Ok(Store {
            layers,
            rooms: Rooms::new(),
            failed: false,
        }),
        Err((fault, device)) => Err((as_refusal(fault), device)),
    }
}
