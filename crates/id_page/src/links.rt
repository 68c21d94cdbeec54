//! The head of a fork page, and one child in its place: its key, then its page.

ghost use Rattle.std.specs.Prelude.{◌≡◌, ℕ, ◌+◌, ◌<◌, ◌≤◌, ◌↔◌, Some, length, slice_index_or, IsTrue};
ghost use Rattle.block_bytes.specs.Numbers.{number_at};
ghost use Rattle.box_bytes.specs.Corners.{Keeps};
ghost use Rattle.bucket_page.specs.Layout.{IsClearOfEntry, entry_place};
ghost use Rattle.id_page.specs.Fork.{ForkContent, HasForkHead, Link, fork_at, link_at, link_size};

use crate::head::{FORK_KIND, count_at};
use block_bytes::{read_u8, read_u32, read_u64, write_u32, write_u64};

/// How many children a fork has at most.
pub const MOST_CHILDREN: usize = 340;

/// Whether the page begins as a fork of that dimension does. Its keys are not looked at.
#[inline]
pub fn has_fork_head<const D: usize>(page: &[u8; 4096]) -> bool
    ensures { IsTrue result ↔ HasForkHead D page.now }
{
    read_u8(page, 0) == FORK_KIND
        && usize::from(read_u8(page, 1)) == D
        && count_at(page) <= MOST_CHILDREN
        && level_at(page) >= 1
}

/// The level of a fork page, its byte 4: 1 above leaves.
#[inline]
pub fn level_at(page: &[u8; 4096]) -> u8
    ensures value { result ≡ number_at 1 4 page.now }
    ensures of_fork { (dims : ℕ) (c : ForkContent) → fork_at dims page.now ≡ Some c → result ≡ c.level }
{
    read_u8(page, 4)
}

// Where the child in the place begins.
#[inline]
pub(crate) fn link_place(place: usize) -> usize
    requires within { place < 340 }
    ensures value { result ≡ entry_place link_size place }
    ensures bound { result + 12 ≤ 4096 }
{
    16 + 12 * place
}

/// The key of the child in the place.
#[inline]
pub fn key_at(page: &[u8; 4096], place: usize) -> u64
    requires within { place < 340 }
    ensures value { result ≡ (link_at page.now place).0 }
    ensures of_fork { (dims : ℕ) (c : ForkContent) (other : Link) → fork_at dims page.now ≡ Some c
        → place < length c.links → result ≡ (slice_index_or c.links place other).0 }
{
    read_u64(page, link_place(place))
}

/// The page of the child in the place.
#[inline]
pub fn page_at(page: &[u8; 4096], place: usize) -> u32
    requires within { place < 340 }
    ensures value { result ≡ (link_at page.now place).1 }
    ensures of_fork { (dims : ℕ) (c : ForkContent) (other : Link) → fork_at dims page.now ≡ Some c
        → place < length c.links → result ≡ (slice_index_or c.links place other).1 }
{
    read_u32(page, link_place(place) + 8)
}

/// Writes the child into the place.
pub(crate) fn write_link(page: &mut [u8; 4096], place: usize, key: u64, child: u32)
    requires within { place < 340 }
    ensures written { link_at page.new place ≡ (key, child) }
    ensures others { Keeps (IsClearOfEntry link_size place) page.old page.new }
{
    let at = link_place(place);
    write_u64(page, at, key);
    write_u32(page, at + 8, child);
}
