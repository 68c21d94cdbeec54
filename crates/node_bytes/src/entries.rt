//! One entry in its place of a node page: a low and a high in the columns of each axis, and after them a
//! reference and, where the page has tags, a tag.

ghost use Rattle.std.specs.Prelude.{◌≡◌, ◌<◌, ◌↔◌, IsSome, IfSome, IsTrue, false};
ghost use Rattle.box_math.specs.Bounds.{IsDims, IsBox, IsOrdered};
ghost use Rattle.box_bytes.specs.Corners.{Keeps};
ghost use Rattle.tree_node.specs.Nodes.{item_of};
ghost use Rattle.node_bytes.specs.Layout.{has_tags, item_at, tag_at, IsReference, IsEntry, IsClearOfEntry};

use block_bytes::{read_u32, read_u64, write_u32, write_u64};
use box_bytes::{read_box, read_corner, write_box};
use box_math::BBox;
use tree_node::Entry;

// Whether a node of the level may refer so: above the leaves to pages from 3 on and below 2^31.
#[inline]
fn is_reference(level: u8, reference: u64) -> bool
    ensures { IsTrue result ↔ IsReference level reference }
{
    level == 0 || (reference >= 3 && reference < 1 << 31)
}

/// The tag in the place, which is 0 where the page has none. Whether it has tags is asked once for all
/// places.
#[inline]
pub(crate) fn tag_in<const D: usize>(page: &[u8; 4096], place: usize, tagged: bool) -> u32
    requires dims { IsDims D }
    requires within { place < 100 }
    requires tagged { tagged ≡ has_tags page.now }
    ensures { result ≡ tag_at D page.now place }
{
    if tagged {
        read_u32(page, 816 + 800 * D + 4 * place)
    } else {
        0
    }
}

/// The entry in the place, or `None` where it is none of that level: where it has a low above its high, or
/// its reference is no page of a child above the leaves.
#[inline]
pub(crate) fn read_entry<const D: usize>(
    page: &[u8; 4096],
    place: usize,
    level: u8,
    tagged: bool,
) -> Option<Entry<D>>
    requires dims { IsDims D }
    requires within { place < 100 }
    requires tagged { tagged ≡ has_tags page.now }
    ensures value { IfSome result (λ entry. item_of entry ≡ item_at D page.now place) }
    ensures some { IsSome result ↔ IsEntry D level (item_at D page.now place) }
{
    let reference = read_u64(page, 16 + 800 * D + 8 * place);
    if !is_reference(level, reference) {
        return None;
    }
    let tag = tag_in::<D>(page, place, tagged);
    match read_box(page, 16 + 4 * place, 416 + 4 * place, 800) {
        Some(bounds) => Some(Entry {
            bounds,
            reference,
            tag,
        }),
        None => None,
    }
}

/// The entry in the place, which holds one of some level: its box is not looked at again.
#[inline]
pub(crate) fn entry_at<const D: usize>(page: &[u8; 4096], place: usize, tagged: bool) -> Entry<D>
    requires dims { IsDims D }
    requires within { place < 100 }
    requires tagged { tagged ≡ has_tags page.now }
    requires ordered { IsOrdered D (item_at D page.now place).bounds.low
        (item_at D page.now place).bounds.high }
    ensures { item_of result ≡ item_at D page.now place }
{
    let low = read_corner(page, 16 + 4 * place, 800);
    let high = read_corner(page, 416 + 4 * place, 800);
    let reference = read_u64(page, 16 + 800 * D + 8 * place);
    let tag = tag_in::<D>(page, place, tagged);
    Entry {
        bounds: BBox::new(low, high),
        reference,
        tag,
    }
}

/// Writes the entry into the place, without its tag where the page has none.
pub(crate) fn write_entry<const D: usize>(
    page: &mut [u8; 4096],
    place: usize,
    entry: &Entry<D>,
    tagged: bool,
)
    requires dims { IsDims D }
    requires within { place < 100 }
    requires tagged { tagged ≡ has_tags page.old }
    ensures is_box { IsBox D entry.now.bounds }
    ensures written { (tagged ≡ false → entry.now.tag ≡ 0) → item_at D page.new place ≡ item_of entry.now }
    ensures others { Keeps (IsClearOfEntry D tagged place) page.old page.new }
{
    let reference = entry.reference;
    let tag = entry.tag;
    write_box(page, 16 + 4 * place, 416 + 4 * place, 800, &entry.bounds);
    write_u64(page, 16 + 800 * D + 8 * place, reference);
    if tagged {
        write_u32(page, 816 + 800 * D + 4 * place, tag);
    }
}
