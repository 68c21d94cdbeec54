//! One object in its place of a leaf page: its identifier, then its lows, then its highs, then its tag.

ghost use Rattle.std.specs.Prelude.{◌≡◌, ℕ, ◌+◌, ◌*◌, ◌<◌, ◌≤◌, ◌↔◌, Some, List, length, slice_index_or};
ghost use Rattle.std.specs.Prelude.{IsSome, IsTrue, IfSome};
ghost use Rattle.block_bytes.specs.Numbers.{number_at};
ghost use Rattle.box_math.specs.Bounds.{IsBox};
ghost use Rattle.box_math.specs.Objects.{bounds_of};
ghost use Rattle.box_bytes.specs.Corners.{Keeps};
ghost use Rattle.bucket_page.specs.Layout.{Entry, HasOrderedBox, IsClearOfEntry, entry_place};
ghost use Rattle.id_page.specs.Leaf.{HasLeafHead, leaf_at, leaf_object, most_objects, object_size};

use crate::head::{LEAF_KIND, count_at};
use block_bytes::{read_u8, read_u32, read_u64, write_u32, write_u64};
use box_bytes::{read_box, write_box};
use box_math::BBox;

/// How many objects a leaf has at most: 145 in two axes, 113 in three, and none in another dimension.
#[inline]
pub fn objects_that_fit<const D: usize>() -> usize
    ensures { result ≡ most_objects D }
{
    if D == 2 {
        return 145;
    }
    if D == 3 {
        return 113;
    }
    0
}

/// Whether the page begins as a leaf of that dimension does. Its boxes are not looked at.
#[inline]
pub fn has_leaf_head<const D: usize>(page: &[u8; 4096]) -> bool
    ensures { IsTrue result ↔ HasLeafHead D page.now }
{
    2 <= D
        && D <= 3
        && read_u8(page, 0) == LEAF_KIND
        && usize::from(read_u8(page, 1)) == D
        && count_at(page) <= objects_that_fit::<D>()
}

// Where the object in the place begins.
#[inline]
pub(crate) fn object_place<const D: usize>(place: usize) -> usize
    requires within { place < most_objects D }
    ensures value { result ≡ entry_place (object_size D) place }
    ensures bound { result + 12 + 8 * D ≤ 4096 }
{
    16 + (12 + 8 * D) * place
}

/// The identifier of the object in the place, of which nothing else is read.
#[inline]
pub fn id_at<const D: usize>(page: &[u8; 4096], place: usize) -> u64
    requires within { place < most_objects D }
    ensures value { result ≡ (leaf_object D page.now place).0 }
    ensures of_leaf { (objects : List Entry) (other : Entry) → leaf_at D page.now ≡ Some objects
        → place < length objects → result ≡ (slice_index_or objects place other).0 }
{
    read_u64(page, object_place::<D>(place))
}

/// The object in the place, or `None` where it has a low above its high. In a leaf page of that dimension
/// each place below the count has one.
#[inline]
pub fn object_at<const D: usize>(page: &[u8; 4096], place: usize) -> Option<(u64, (BBox<D>, u32))>
    requires within { place < most_objects D }
    ensures value { IfSome result (λ object. object ≡ leaf_object D page.now place) }
    ensures some { IsSome result ↔ HasOrderedBox D (leaf_object D page.now place) }
    ensures of_leaf { (objects : List Entry) (other : Entry) → leaf_at D page.now ≡ Some objects
        → place < length objects → result ≡ Some (slice_index_or objects place other) }
{
    let at = object_place::<D>(place);
    match read_box(page, at + 8, at + 8 + 4 * D, 4) {
        Some(bounds) => Some((read_u64(page, at), (bounds, read_u32(page, at + 8 + 8 * D)))),
        None => None,
    }
}

/// Writes the object into the place.
pub(crate) fn write_object<const D: usize>(
    page: &mut [u8; 4096],
    place: usize,
    object: &(u64, (BBox<D>, u32)),
)
    requires within { place < most_objects D }
    ensures is_box { IsBox D (bounds_of object.now.1) }
    ensures written { leaf_object D page.new place ≡ object.now }
    ensures others { Keeps (IsClearOfEntry (object_size D) place) page.old page.new }
{
    let at = object_place::<D>(place);
    let (bounds, tag) = object.1;
    write_u64(page, at, object.0);
    write_box(page, at + 8, at + 8 + 4 * D, 4, &bounds);
    write_u32(page, at + 8 + 8 * D, tag);
}
