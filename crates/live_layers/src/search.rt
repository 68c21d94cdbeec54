//! The search for a name among records in the order of their names.

ghost use Rattle.std.specs.Prelude.{◌≡◌, ◌≤◌, ◌<◌, ℕ, length, slice_index_or, IfOk, IfErr};
ghost use Rattle.std.specs.Cmp.Lexicographic.{slice_cmp};
ghost use Rattle.std.specs.Ordering.{nat_cmp};
ghost use Rattle.std.specs.declared.cmp.Ordering.TheVariants.{Less, Equal, Greater};

use catalog_page::LayerRecord;
use std::cmp::Ordering;

/// The place of the record with that name, or else where one goes: after the names below it. There are few
/// records, so each is compared in turn.
pub fn search(records: &[LayerRecord], name: &[u8]) -> Result<usize, usize>
    ensures within { IfOk result (λ place. place < length records.now) }
    ensures found { (d : _) → IfOk result (λ place.
        slice_cmp nat_cmp name.now (slice_index_or records.now place d).name.items ≡ Equal) }
    ensures ahead { IfOk result (λ place. (k : ℕ) (d : _) → k < place →
        slice_cmp nat_cmp name.now (slice_index_or records.now k d).name.items ≡ Greater) }
    ensures end { IfErr result (λ place. place ≤ length records.now) }
    ensures behind { IfErr result (λ place. (k : ℕ) (d : _) → k < place →
        slice_cmp nat_cmp name.now (slice_index_or records.now k d).name.items ≡ Greater) }
    ensures before { (d : _) → IfErr result (λ place. place < length records.now →
        slice_cmp nat_cmp name.now (slice_index_or records.now place d).name.items ≡ Less) }
{
    for (place, record) in records.iter().enumerate() {
        match name.cmp(record.name.as_slice()) {
            Ordering::Less => return Err(place),
            Ordering::Equal => return Ok(place),
            Ordering::Greater => {}
        }
    }
    Err(records.len())
}
