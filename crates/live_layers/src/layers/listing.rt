//! The layers listed, by their records.

ghost use Rattle.std.specs.Prelude.{◌≡◌, Ok};
ghost use Rattle.catalog_page.specs.Layout.{record_of};
ghost use Rattle.plain_table.specs.Answers.{layers_answer, line_of_layer};
ghost use Rattle.plain_table.specs.Commands.Command.{Layers as ListLayers};
ghost use Rattle.plain_table.specs.Step.{reply_of};
ghost use Rattle.plain_table.specs.Table.{Table};
ghost use Rattle.live_layers.specs.Keeping.{IsSound};
ghost use Rattle.live_layers.specs.Listing.{record_line};

use crate::layers::Layers;
use crate::names::name_of;
use arrayvec::ArrayVec;
use block_device::BlockDevice;
use catalog_page::LayerRecord;
use plain_table::LayerInfo;
use std::alloc::Allocator;

impl<B: BlockDevice, A: Allocator> Layers<B, A> {
    /// The layers, ascending by name. It takes no memory and makes no call of the device.
    pub fn layers(&self) -> ArrayVec<LayerInfo, 60>
        ensures answered { (t : Table) → IsSound self.now t →
            layers_answer (Ok result) ≡ reply_of t ListLayers }
    {
        let mut all = ArrayVec::new();
        for record in self.records.as_slice() {
            all.push(info_of(record));
        }
        all
    }
}

// What a listing shows of the layer of a record.
fn info_of(layer: &LayerRecord) -> LayerInfo
    ensures { line_of_layer result ≡ record_line (record_of layer.now) }
{
    LayerInfo {
        name: name_of(&layer.name),
        dims: layer.dims,
        fanout: layer.fanout,
        count: layer.count,
    }
}
