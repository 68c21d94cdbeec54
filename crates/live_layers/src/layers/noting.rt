//! The record of a layer that has changed.

ghost use Rattle.std.specs.Prelude.{◌≡◌, ◌<◌, ◌≤◌, false, length, slice_index_or, slice_set};
ghost use Rattle.catalog_page.specs.Layout.{records_of};
ghost use Rattle.layer_pages.specs.Layers.{CanBeRoot};
ghost use Rattle.live_layers.specs.Catalog.{with_tree};
ghost use Rattle.live_layers.specs.Keeping.{cache_of, newest_of, records_in};

use crate::layers::Layers;
use arrayvec::ArrayVec;
use block_device::BlockDevice;
use catalog_page::LayerRecord;
use node_page::Root;
use std::alloc::Allocator;

impl<B: BlockDevice, A: Allocator> Layers<B, A> {
    // Notes in the record at a place where the tree of the layer begins now, and how many objects it has.
    // Page 2 is not written.
    pub(crate) fn note(&mut self, place: usize, root: Root, count: u64)
        requires within { place < length (records_in self.old) }
        requires root { CanBeRoot root }
        ensures records { (d : _) → records_in self.new ≡ slice_set (records_in self.old) place
            (with_tree (slice_index_or (records_in self.old) place d) root count) }
        ensures cache { cache_of self.new ≡ cache_of self.old }
        ensures count { self.new.object_count ≡ self.old.object_count }
        ensures written { self.new.written ≡ false }
        ensures newest { newest_of self.new ≡ newest_of self.old }
    {
        note_tree(&mut self.records, place, root, count);
        self.written = false;
    }

    // How many objects the layer at a place has, as its record says.
    pub(crate) fn count_at(&self, place: usize) -> u64
        requires { place < length (records_in self.now) }
        ensures { (d : _) → result ≡ (slice_index_or (records_in self.now) place d).count }
    {
        self.records[place].count
    }
}

// Writes the root and the count into the record at a place.
fn note_tree(records: &mut ArrayVec<LayerRecord, 60>, place: usize, root: Root, count: u64)
    requires within { place < length (records_of records.old) }
    ensures { (d : _) → records_of records.new ≡ slice_set (records_of records.old) place
        (with_tree (slice_index_or (records_of records.old) place d) root count) }
{
    let record = &mut records[place];
    record.root = root.page;
    record.level = root.level;
    record.count = count;
}
