//! The list of layers as the bytes of a page.

ghost use Rattle.std.specs.Prelude.{◌≡◌, ℕ, ◌<◌, All, Some, length, option_map, IfSome};
ghost use Rattle.block_bytes.specs.Numbers.{number_at};
ghost use Rattle.catalog_page.specs.Layout.{records_of, records_at, IsCatalog, Spells, IsNamed};

use crate::layer_record::LayerRecord;
use crate::records::{read_record, write_record};
use arrayvec::ArrayVec;
use block_bytes::{CATALOG_KIND, read_u8, write_u8, zero_block};

/// The records that the page spells, or `None` where it spells none: where its kind is not 1, its count is
/// above 60, or the length of some name is not 1 to 24.
pub fn decode(page: &[u8; 4096]) -> Option<ArrayVec<LayerRecord, 60>>
    ensures spelled { option_map records_of result ≡ records_at page.now }
    ensures is_catalog { IfSome result (λ layers. IsCatalog (records_of layers)) }
{
    if read_u8(page, 0) != CATALOG_KIND {
        return None;
    }
    let count = usize::from(read_u8(page, 1));
    if count > 60 {
        return None;
    }
    let mut layers = ArrayVec::new();
    for place in 0..count {
        match read_record(page, place) {
            Some(layer) => layers.push(layer),
            None => return None,
        }
    }
    Some(layers)
}

/// Makes the page the one that spells these records, with zeros in all bytes that they do not name. Each of
/// them must have a name of at least one byte.
pub fn encode(layers: &ArrayVec<LayerRecord, 60>, page: &mut [u8; 4096])
    requires { All (λ layer. 0 < length layer.name) (records_of layers.now) }
    ensures spelled { Spells page.new (records_of layers.now) }
    ensures rest { (k : ℕ) → (IsNamed page.new k → ⊥) → number_at 1 k page.new ≡ 0 }
    ensures read_back { records_at page.new ≡ Some (records_of layers.now) }
{
    let count = layers.len();
    *page = zero_block();
    write_u8(page, 0, CATALOG_KIND);
    write_u8(page, 1, count as u8);
    for place in 0..count {
        write_record(page, place, &layers[place]);
    }
}
