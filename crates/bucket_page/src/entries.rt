//! One object in its place of a bucket page: its identifier, then its lows, then its highs, then its tag,
//! which pages of format 1 have not.

ghost use Rattle.std.specs.Prelude.{◌≡◌, ℕ, ◌+◌, ◌*◌, ◌<◌, ◌≤◌, ◌↔◌, Some, length, slice_index_or, IsSome};
ghost use Rattle.std.specs.Prelude.{IfSome};
ghost use Rattle.block_bytes.specs.Kinds.{bucket_kind};
ghost use Rattle.block_bytes.specs.Numbers.{number_at};
ghost use Rattle.box_math.specs.Bounds.{IsDims, IsBox};
ghost use Rattle.box_math.specs.Objects.{bounds_of};
ghost use Rattle.box_bytes.specs.Corners.{Keeps};
ghost use Rattle.bucket_page.specs.Layout.{BucketContent, Entry, entry_place, entry_size, object_at};
ghost use Rattle.bucket_page.specs.Layout.{object_in};
ghost use Rattle.bucket_page.specs.Layout.{HasOrderedBox, IsClearOfEntry, bucket_at, size_in, tag_in};

use block_bytes::{
    UNTAGGED_BUCKET_KIND, read_u8, read_u32, read_u64, write_u8, write_u32, write_u64,
};
use box_bytes::{read_box, write_box};
use box_math::BBox;

// The bytes of an entry, by the page's kind.
#[inline]
fn size_of<const D: usize>(page: &[u8; 4096]) -> usize
    requires dims { IsDims D }
    ensures value { result ≡ size_in D page.now }
    ensures bound { result ≤ 12 + 8 * D }
{
    if read_u8(page, 0) == UNTAGGED_BUCKET_KIND {
        return 8 + 8 * D;
    }
    12 + 8 * D
}

// Where the entry begins, of entries of one size.
#[inline]
fn place_of(size: usize, place: usize) -> usize
    requires small { size ≤ 36 }
    requires within { place < 100 }
    ensures value { result ≡ entry_place size place }
    ensures bound { result + 36 ≤ 4096 }
{
    16 + size * place
}

// The tag at a place, by the page's kind.
#[inline]
fn tag_at(page: &[u8; 4096], at: usize) -> u32
    requires within { at + 4 ≤ 4096 }
    ensures { result ≡ tag_in (number_at 1 0 page.now) at page.now }
{
    if read_u8(page, 0) == UNTAGGED_BUCKET_KIND {
        return 0;
    }
    read_u32(page, at)
}

/// The identifier of the object in the place, of which nothing else is read.
#[inline]
pub fn id_at<const D: usize>(page: &[u8; 4096], place: usize) -> u64
    requires dims { IsDims D }
    requires within { place < 100 }
    ensures value { result ≡ number_at 8 (entry_place (size_in D page.now) place) page.now }
    ensures of_bucket { (c : BucketContent) (other : Entry) → bucket_at D page.now ≡ Some c
        → place < length c.entries → result ≡ (slice_index_or c.entries place other).0 }
{
    read_u64(page, place_of(size_of::<D>(page), place))
}

/// The object in the place, or `None` where it has a low above its high. In a page that is a bucket page of
/// that dimension, each place below the count has one.
#[inline]
pub fn entry_at<const D: usize>(page: &[u8; 4096], place: usize) -> Option<(u64, (BBox<D>, u32))>
    requires dims { IsDims D }
    requires within { place < 100 }
    ensures value { IfSome result (λ entry. entry ≡ object_at D page.now place) }
    ensures some { IsSome result ↔ HasOrderedBox D (object_at D page.now place) }
    ensures of_bucket { (c : BucketContent) (other : Entry) → bucket_at D page.now ≡ Some c
        → place < length c.entries → result ≡ Some (slice_index_or c.entries place other) }
{
    let at = place_of(size_of::<D>(page), place);
    match read_box(page, at + 8, at + 8 + 4 * D, 4) {
        Some(bounds) => Some((read_u64(page, at), (bounds, tag_at(page, at + 8 + 8 * D)))),
        None => None,
    }
}

/// Writes the object into the place, with its tag.
pub(crate) fn write_entry<const D: usize>(
    page: &mut [u8; 4096],
    place: usize,
    entry: &(u64, (BBox<D>, u32)),
)
    requires dims { IsDims D }
    requires within { place < 100 }
    ensures is_box { IsBox D (bounds_of entry.now.1) }
    ensures written { object_in D bucket_kind page.new place ≡ entry.now }
    ensures others { Keeps (IsClearOfEntry (entry_size D bucket_kind) place) page.old page.new }
{
    let at = place_of(12 + 8 * D, place);
    let (bounds, tag) = entry.1;
    write_u64(page, at, entry.0);
    write_box(page, at + 8, at + 8 + 4 * D, 4, &bounds);
    write_u32(page, at + 8 + 8 * D, tag);
}

/// Makes the bytes of the place zeros.
pub(crate) fn clear_entry<const D: usize>(page: &mut [u8; 4096], place: usize)
    requires dims { IsDims D }
    requires within { place < 100 }
    ensures cleared { (k : ℕ) → entry_place (entry_size D bucket_kind) place ≤ k
        → k < entry_place (entry_size D bucket_kind) (place + 1) → number_at 1 k page.new ≡ 0 }
    ensures others { Keeps (IsClearOfEntry (entry_size D bucket_kind) place) page.old page.new }
{
    let at = place_of(12 + 8 * D, place);
    for k in at..at + 12 + 8 * D {
        write_u8(page, k, 0);
    }
}
