//! The layers that a live store keeps.

ghost use Rattle.catalog_page.specs.Layout.{records_of};
ghost use Rattle.live_layers.specs.Catalog.{AreLayers};

mod beginning;
mod checking;
mod closing;
mod creating;
mod deleting;
mod dropping;
mod dumping;
mod filling;
mod find;
mod inserting;
mod listing;
mod loading;
mod locate;
mod memory;
mod moving;
mod named;
mod noting;
mod open;
mod outlining;
mod questions;
mod reopening;

use arrayvec::ArrayVec;
use block_device::BlockDevice;
use catalog_page::LayerRecord;
use page_cache::PageCache;
use page_file::Version;
use std::alloc::Allocator;

// The page of the catalog.
const CATALOG: u32 = 2;

/// The layers of a live store: their records in memory, ascending by name, and their trees and identifier
/// tables in the pages of a cache.
#[derive(Drop)]
pub struct Layers<D: BlockDevice, A: Allocator> {
    // Where answers take their memory from.
    alloc: A,
    cache: PageCache<D, A>,
    records: ArrayVec<LayerRecord, 60>,
    // how many objects the layers have together
    object_count: u64,
    // true only where page 2 spells the records
    written: bool,
    // the version that the file may be raised to: layers that are made have what it allows
    newest: Version,
    ghost are_layers: { AreLayers (records_of records) },
}
