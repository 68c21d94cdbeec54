//! The objects of entries of leaves.

ghost use Rattle.std.specs.Prelude.{◌≡◌, take};
ghost use Rattle.id_words.specs.Objects.{pairs_in};

use arrayvec::ArrayVec;
use box_math::BBox;
use node_page::Entry;

/// How many objects are taken from entries at once: no page of a table has more (docs/FORMAT.md, "Identifier
/// tables", "Identifier trees").
pub const AT_ONCE: usize = 145;

/// The objects of these entries of leaves from the first on, as many as are taken at once.
pub fn first_objects<const D: usize>(
    entries: &[Entry<D>],
) -> ArrayVec<(u64, (BBox<D>, u32)), AT_ONCE>
    ensures { result.items ≡ take 145 (pairs_in entries.now) }
{
    let mut objects = ArrayVec::new();
    'entries: for place in 0..entries.len().min(AT_ONCE) {
        let entry = entries[place];
        objects.push((entry.reference, (entry.bounds, entry.tag)));
    }
    objects
}
