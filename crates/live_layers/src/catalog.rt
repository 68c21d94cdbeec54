//! The checks of the catalog, which opening makes after those of gate and header (docs/FORMAT.md, "Opening").

ghost use Rattle.std.specs.Prelude.{◌≡◌, ◌≤◌, map as each, nat_le, length};
ghost use Rattle.std.specs.Cmp.Lexicographic.{slice_cmp};
ghost use Rattle.std.specs.List.{list_all};
ghost use Rattle.std.specs.Ordering.{is_lt, nat_cmp};
ghost use Rattle.catalog_page.specs.Layout.{record_of};
ghost use Rattle.catalog_page.specs.declared.layer_record.LayerRecord.{LayerRecord as Layer};
ghost use Rattle.live_layers.specs.Catalog as catalog;
ghost use Rattle.plain_table.specs.Table.{most_objects};

use catalog_page::LayerRecord;
use plain_table::{MOST_OBJECTS, is_dims, is_fanout, is_layer_name};

/// Whether the catalog is good in a file of which `next` is one more than the greatest page number given out.
pub fn is_good_catalog(records: &[LayerRecord], next: u32) -> bool
    ensures { result ≡ catalog.is_good_catalog next (each record_of records.now) }
{
    if !are_layer_records(records, next) {
        return false;
    }
    names_ascend(records) && have_room(records)
}

// Whether each record is that of a layer that may be.
fn are_layer_records(records: &[LayerRecord], next: u32) -> bool
    ensures { result ≡ list_all (λ (layer : Layer). catalog.is_layer_record next (record_of layer))
        records.now }
{
    records.iter().all(|record| is_layer_record(record, next))
}

// Whether the record is that of a layer that may be.
fn is_layer_record(layer: &LayerRecord, next: u32) -> bool
    ensures { result ≡ catalog.is_layer_record next (record_of layer.now) }
{
    is_layer(layer)
        && layer.level <= 40
        && is_page(next, layer.root)
        && is_page(next, layer.ids_root)
}

// Whether the name, dimension and fanout are those of a layer that may be.
fn is_layer(layer: &LayerRecord) -> bool
    ensures { result ≡ catalog.is_layer (record_of layer.now) }
{
    is_layer_name(&layer.name)
        && is_dims(u64::from(layer.dims))
        && is_fanout(u64::from(layer.fanout))
}

// Whether this is the number of a page given out after the catalog.
fn is_page(next: u32, n: u32) -> bool
    ensures { result ≡ catalog.is_page next n }
{
    n >= 3 && n < next
}

// Whether each name is below all those after it.
fn names_ascend(records: &[LayerRecord]) -> bool
    ensures { result ≡ catalog.names_ascend (each record_of records.now) }
{
    let Some((first, rest)) = records.split_first() else {
        return true;
    };
    let is_first = is_below_all(first, rest);
    is_first && names_ascend(rest)
}

// Whether the first name is below those of all the records.
fn is_below_all(first: &LayerRecord, records: &[LayerRecord]) -> bool
    ensures { result ≡ list_all (λ (layer : Layer). is_lt
        (slice_cmp nat_cmp first.now.name.items layer.name.items)) records.now }
{
    records.iter().all(|record| is_below(first, record))
}

// Whether the first name is below the second.
fn is_below(first: &LayerRecord, second: &LayerRecord) -> bool
    ensures { result ≡ is_lt (slice_cmp nat_cmp first.now.name.items second.now.name.items) }
{
    first.name.as_slice().cmp(second.name.as_slice()).is_lt()
}

// Whether the layers have at most as many objects together as a store may have.
fn have_room(records: &[LayerRecord]) -> bool
    ensures { result ≡ nat_le (catalog.objects_named (each record_of records.now)) most_objects }
{
    let mut total = 0;
    for record in records {
        if record.count > MOST_OBJECTS - total {
            return false;
        }
        total += record.count;
    }
    true
}
