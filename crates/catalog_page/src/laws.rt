//! What pages spell, as laws of all lists of bytes: each law is the contract of a function that does nothing,
//! but for the last, which encodes and decodes.

ghost use Rattle.std.specs.Prelude.{◌≡◌, ◌<◌, All, Some, length, option_map};
ghost use Rattle.catalog_page.specs.Layout.{records_of};
ghost use Rattle.catalog_page.specs.PageLaws.{ReadsWhatIsSpelled, ReadsNamedBytes, SpellsCatalogs};
ghost use Rattle.catalog_page.specs.PageLaws.{BeginsEmpty, CatalogsHaveOnePage};

use crate::layer_record::LayerRecord;
use crate::page::{decode, encode};
use arrayvec::ArrayVec;

/// Reading gives exactly what is spelled, so a page spells at most one list of layers.
pub fn what_is_spelled_is_read()
    ensures { ReadsWhatIsSpelled }
{}

/// Only the named bytes of a page are read: its first two, and those of the records below its count.
pub fn named_bytes_are_read()
    ensures { ReadsNamedBytes }
{}

/// What a page spells has at most 60 layers, each with a name of 1 to 24 bytes and numbers of their width.
pub fn what_is_spelled_is_a_catalog()
    ensures { SpellsCatalogs }
{}

/// Zeros after a first byte of 1, the catalog of a new file, spell no layers.
pub fn a_new_catalog_has_no_layers()
    ensures { BeginsEmpty }
{}

/// A list of layers has one page: two that spell it, with zeros in all bytes that it does not name, have the
/// same bytes. So `encode` leaves nothing open.
pub fn a_catalog_has_one_page()
    ensures { CatalogsHaveOnePage }
{}

/// Layers that are encoded are decoded again.
pub fn a_catalog_comes_back(
    layers: &ArrayVec<LayerRecord, 60>,
    page: &mut [u8; 4096],
) -> Option<ArrayVec<LayerRecord, 60>>
    requires { All (λ layer. 0 < length layer.name) (records_of layers.now) }
    ensures { option_map records_of result ≡ Some (records_of layers.now) }
{
    encode(layers, page);
    decode(page)
}
