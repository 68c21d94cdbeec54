//! Where the layer of a name stands.

ghost use Rattle.std.specs.Prelude.{◌≡◌, ◌<◌, ◌≤◌, length, slice_index_or, IfOk, IfErr, None, Some};
ghost use Rattle.catalog_page.specs.Layout.{Record};
ghost use Rattle.plain_table.specs.Table.{Table};
ghost use Rattle.live_layers.specs.Keeping.{Belongs, Finds, IsSound, records_in};
ghost use Rattle.live_layers.specs.Refusals.{record_named};

use crate::layers::Layers;
use crate::search::search;
use block_device::BlockDevice;
use std::alloc::Allocator;

impl<D: BlockDevice, A: Allocator> Layers<D, A> {
    // The place of the layer of that name, or else the one where it would go.
    pub(crate) fn find(&self, name: &[u8]) -> Result<usize, usize>
        ensures within { IfOk result (λ place. place < length (records_in self.now)) }
        ensures end { IfErr result (λ place. place ≤ length (records_in self.now)) }
        ensures found { (t : Table) → IsSound self.now t → IfOk result (λ place. Finds t name.now place) }
        ensures belongs { (t : Table) → IsSound self.now t →
            IfErr result (λ place. Belongs t name.now place) }
        ensures recorded { IfOk result (λ place. (d : Record) → record_named (records_in self.now) name.now
            ≡ Some (slice_index_or (records_in self.now) place d)) }
        ensures unrecorded { IfErr result (λ _. record_named (records_in self.now) name.now ≡ None) }
    {
        search(&self.records, name)
    }
}
