//! The layer at a place.

ghost use Rattle.std.specs.Prelude.{◌<◌, ◌≤◌, ℕ, List, length};
ghost use Rattle.box_math.specs.Bounds.{IsDims};
ghost use Rattle.layer_pages.specs.Layers.{CanBeRoot};
ghost use Rattle.plain_table.specs.Table.{Table};
ghost use Rattle.live_layers.specs.Keeping.{Finds, IsSound, records_in};
ghost use Rattle.live_layers.specs.Located.{IsLocated, IsRecorded};

use crate::layers::Layers;
use crate::located::Located;
use block_device::BlockDevice;
use node_page::Root;
use std::alloc::Allocator;
use tree_node::Fanout;

impl<D: BlockDevice, A: Allocator> Layers<D, A> {
    // Where the layer at a place stands.
    pub(crate) fn locate(&self, place: usize) -> Located
        requires { place < length (records_in self.now) }
        ensures dims { IsDims result.dims }
        ensures root { CanBeRoot result.root }
        ensures located { (t : Table) (name : List ℕ) → IsSound self.now t → Finds t name place →
            IsLocated self.now t name result }
        ensures few { length (records_in self.now) ≤ 60 }
        ensures by_record { IsRecorded self.now place result }
    {
        let record = &self.records[place];
        let fanout = Fanout {
            most: record.fanout,
        };
        Located {
            dims: record.dims,
            fanout,
            root: Root {
                page: record.root,
                level: record.level,
            },
            ids_root: record.ids_root,
        }
    }
}
