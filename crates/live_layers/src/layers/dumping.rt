//! All that a store holds, as the commands that make it again.

ghost use Rattle.std.specs.Prelude.{◌≡◌, ◌⊎◌, ◌++◌, ℕ, List, IfErr, IfOk, OnOk, map as each};
ghost use Rattle.std.specs.FinMap.{entries};
ghost use Rattle.box_math.specs.Bounds.{IsDims};
ghost use Rattle.catalog_page.specs.Layout.{record_of};
ghost use Rattle.layer_pages.specs.Layers.{IsLayerAt, LayerPages, Objects};
ghost use Rattle.page_cache.specs.Cache.{IsHonest, pages};
ghost use Rattle.page_cache.specs.Calls.{Asks};
ghost use Rattle.page_file.specs.Fault.{IsDamage, IsOfDevice};
ghost use Rattle.plain_table.specs.Answers.{dump_answer};
ghost use Rattle.plain_table.specs.Commands.Command.{Dump};
ghost use Rattle.plain_table.specs.Listings.{dump_lines};
ghost use Rattle.plain_table.specs.Listings.DumpLine.{InsertLine};
ghost use Rattle.plain_table.specs.Table.{Table};
ghost use Rattle.live_layers.specs.Catalog.{AreLayers};
ghost use Rattle.live_layers.specs.Changes.{IsAnswered, KeepsInQuestion};
ghost use Rattle.live_layers.specs.Keeping.{IsSound};
ghost use Rattle.live_layers.specs.Layers.{LayerStands, LayersStand, Reading, entry_of, row_of};
ghost use Rattle.live_layers.specs.Listing.{lines_of, lines_of_layers};
ghost use Rattle.live_layers.specs.Refusals.{IsOfNone};

use crate::faults::as_refusal;
use crate::layers::Layers;
use crate::names::name_of;
use block_device::BlockDevice;
use box_math::BBox;
use catalog_page::LayerRecord;
use node_page::Root;
use page_cache::PageCache;
use page_file::Fault;
use plain_table::{Axes, Dimension, DumpRow, LayerName, Refusal};
use range_query::window;
use std::alloc::{AllocError, Allocator};

impl<B: BlockDevice, A: Allocator + Copy> Layers<B, A> {
    /// All layers, ascending by name: of each the command that creates it, and then those that insert its
    /// objects, ascending by identifier.
    ///
    /// Refused, on an honest device with sound layers, by `Memory` or `Device`.
    pub fn dump(&mut self) -> Result<Vec<DumpRow, A>, Refusal>
        ensures answered { (t : Table) → IsSound self.old t →
            IsAnswered self.old self.new t Dump (dump_answer result) }
        ensures of_none { IfErr result IsOfNone }
        ensures keeps { KeepsInQuestion self.old self.new result }
    {
        match dump_layers(self.alloc, &mut self.cache, &self.records) {
            Ok(rows) => Ok(rows),
            Err(fault) => Err(as_refusal(fault)),
        }
    }
}

// The rows of the layers of the records.
fn dump_layers<B: BlockDevice, A: Allocator + Copy>(
    alloc: A,
    cache: &mut PageCache<B, A>,
    records: &[LayerRecord],
) -> Result<Vec<DumpRow, A>, Fault>
    requires { AreLayers (each record_of records.now) }
    ensures asks { Asks cache.old cache.new result }
    ensures rows { IsHonest cache.old → (hs : List Reading) → each row_of hs ≡ each record_of records.now →
        LayersStand (pages cache.old) hs → IfOk result (λ rows. lines_of rows.items ≡ lines_of_layers hs) }
    ensures stands { IsHonest cache.old → (hs : List Reading) → each row_of hs ≡ each record_of records.now →
        LayersStand (pages cache.old) hs → IfErr result IsOfDevice }
    ensures other_faults { IfErr result (λ f. IsOfDevice f ⊎ IsDamage f) }
{
    let mut rows = Vec::new(alloc);
    for record in records {
        dump_layer(alloc, cache, record, &mut rows)?;
    }
    Ok(rows)
}

// Appends the rows of the layer of a record.
fn dump_layer<B: BlockDevice, A: Allocator + Copy>(
    alloc: A,
    cache: &mut PageCache<B, A>,
    layer: &LayerRecord,
    rows: &mut Vec<DumpRow, A>,
) -> Result<(), Fault>
    requires { IsDims layer.now.dims }
    ensures asks { Asks cache.old cache.new result }
    ensures rows { IsHonest cache.old → (h : Reading) → h.row ≡ record_of layer.now →
        LayerStands (pages cache.old) h →
        OnOk result (lines_of rows.new.items ≡ lines_of rows.old.items ++ dump_lines (entry_of h)) }
    ensures stands { IsHonest cache.old → (h : Reading) → h.row ≡ record_of layer.now →
        LayerStands (pages cache.old) h → IfErr result IsOfDevice }
    ensures other_faults { IfErr result (λ f. IsOfDevice f ⊎ IsDamage f) }
{
    let root = Root {
        page: layer.root,
        level: layer.level,
    };
    let create = DumpRow::Create(name_of(&layer.name), layer.dims, layer.fanout);
    rows.push(create)?;
    if layer.dims == 2 {
        let objects = objects_at::<2, B, A>(alloc, cache, root)?;
        Ok(add_objects(&layer.name, &objects, rows)?)
    } else {
        let objects = objects_at::<3, B, A>(alloc, cache, root)?;
        Ok(add_objects(&layer.name, &objects, rows)?)
    }
}

// All objects of the layer whose tree is at a root, ascending by identifier: those that meet the window of
// all points.
fn objects_at<const D: usize, B: BlockDevice, A: Allocator + Copy>(
    alloc: A,
    cache: &mut PageCache<B, A>,
    root: Root,
) -> Result<Vec<(u64, (BBox<D>, u32)), A>, Fault>
    requires { IsDims D }
    ensures asks { Asks cache.old cache.new result }
    ensures rows { IsHonest cache.old → (most ids_root : ℕ) (l : LayerPages) (objects : Objects) →
        IsLayerAt D most (pages cache.old) root ids_root l objects →
        IfOk result (λ rows. rows.items ≡ entries objects) }
    ensures stands { IsHonest cache.old → (most ids_root : ℕ) (l : LayerPages) (objects : Objects) →
        IsLayerAt D most (pages cache.old) root ids_root l objects → IfErr result IsOfDevice }
    ensures other_faults { IfErr result (λ f. IsOfDevice f ⊎ IsDamage f) }
{
    let all = BBox::new([i32::MIN; D], [i32::MAX; D]);
    window(alloc, cache, root, &all, None)
}

// Appends the rows of objects.
fn add_objects<const D: usize, A: Allocator + Copy>(
    name: &LayerName,
    objects: &[(u64, (BBox<D>, u32))],
    rows: &mut Vec<DumpRow, A>,
) -> Result<(), AllocError>
where
    Axes: Dimension<D>,
    ensures { OnOk result (lines_of rows.new.items ≡ lines_of rows.old.items ++
        each (λ object. InsertLine name.now.items object.0 object.1) objects.now) }
{
    for (id, (bounds, tag)) in objects {
        let bounds = <Axes as Dimension<D>>::shown(*bounds);
        rows.push(DumpRow::Insert(name_of(name), *id, bounds, *tag))?;
    }
    Ok(())
}
