//! One record in its place of the catalog's page.

ghost use Rattle.std.specs.Prelude.{◌≡◌, ◌+◌, ◌<◌, ◌≤◌, ◌↔◌, length, IsSome, IfSome};
ghost use Rattle.catalog_page.specs.Layout.{record_of, record_place, record_at, record_from};
ghost use Rattle.catalog_page.specs.Layout.{HasName, HasNumbers, ChangesOnly, ChangesRecord};

use crate::layer_record::LayerRecord;
use crate::names::{read_name, write_name};
use block_bytes::{read_u8, read_u32, read_u64, write_u8, write_u32, write_u64};

// Where the record begins.
fn place_of(place: usize) -> usize
    requires { place < 60 }
    ensures value { result ≡ record_place place }
    ensures bound { result + 64 ≤ 4096 }
{
    256 + 64 * place
}

/// The record in the place, or `None` where the length of its name is not 1 to 24.
pub(crate) fn read_record(page: &[u8; 4096], place: usize) -> Option<LayerRecord>
    requires { place < 60 }
    ensures value { IfSome result (λ layer. record_of layer ≡ record_at page.now place) }
    ensures some { IsSome result ↔ HasName (record_at page.now place) }
{
    let at = place_of(place);
    match read_name(page, at) {
        Some(name) => Some(LayerRecord {
            name,
            dims: read_u8(page, at + 25),
            fanout: read_u8(page, at + 26),
            level: read_u8(page, at + 27),
            root: read_u32(page, at + 28),
            ids_root: read_u32(page, at + 32),
            count: read_u64(page, at + 36),
        }),
        None => None,
    }
}

/// Writes the record into the place. Bytes that it does not name stay.
pub(crate) fn write_record(page: &mut [u8; 4096], place: usize, layer: &LayerRecord)
    requires { place < 60 }
    ensures short { length layer.now.name.items ≤ 24 }
    ensures written { record_at page.new place ≡ record_of layer.now }
    ensures others { ChangesRecord (length layer.now.name.items) (record_place place) page.old page.new }
{
    let at = place_of(place);
    write_name(page, at, &layer.name);
    write_numbers(page, at, layer);
}

// Writes the record's numbers, after the field of its name.
fn write_numbers(page: &mut [u8; 4096], at: usize, layer: &LayerRecord)
    requires { at + 44 ≤ 4096 }
    ensures written { HasNumbers at (record_of layer.now) page.new }
    ensures others { ChangesOnly 19 (at + 25) page.old page.new }
{
    let &LayerRecord {
        dims,
        fanout,
        level,
        root,
        ids_root,
        count,
        ..
    } = layer;
    write_u8(page, at + 25, dims);
    write_u8(page, at + 26, fanout);
    write_u8(page, at + 27, level);
    write_u32(page, at + 28, root);
    write_u32(page, at + 32, ids_root);
    write_u64(page, at + 36, count);
}
