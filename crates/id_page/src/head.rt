//! What the pages of identifier trees have in common: their kinds, their count, and bytes that are cleared.

ghost use Rattle.std.specs.Prelude.{◌≡◌, ℕ, ◌+◌, ◌<◌, ◌≤◌, Some, length, List};
ghost use Rattle.block_bytes.specs.Numbers.{IsApart, number_at};
ghost use Rattle.box_bytes.specs.Corners.{Keeps};
ghost use Rattle.bucket_page.specs.Layout.{Entry};
ghost use Rattle.id_page.specs.Fork.{ForkContent, fork_at};
ghost use Rattle.id_page.specs.Leaf.{leaf_at};

use block_bytes::{read_u8, read_u16, write_u8};

/// The kind of a fork page, its byte 0.
pub const FORK_KIND: u8 = 8;

/// The kind of a leaf page, its byte 0.
pub const LEAF_KIND: u8 = 9;

/// How many objects or children the page says it has: the number in the two bytes at 2.
#[inline]
pub fn count_at(page: &[u8; 4096]) -> usize
    ensures value { result ≡ number_at 2 2 page.now }
    ensures of_leaf { (dims : ℕ) (objects : List Entry) → leaf_at dims page.now ≡ Some objects
        → result ≡ length objects }
    ensures of_fork { (dims : ℕ) (c : ForkContent) → fork_at dims page.now ≡ Some c
        → result ≡ length c.links }
{
    usize::from(read_u16(page, 2))
}

/// The dimension that the page says it is of: its byte 1.
#[inline]
pub fn dims_at(page: &[u8; 4096]) -> u8
    ensures value { result ≡ number_at 1 1 page.now }
    ensures of_leaf { (dims : ℕ) (objects : List Entry) → leaf_at dims page.now ≡ Some objects
        → result ≡ dims }
    ensures of_fork { (dims : ℕ) (c : ForkContent) → fork_at dims page.now ≡ Some c → result ≡ dims }
{
    read_u8(page, 1)
}

/// Makes so many bytes from a place zeros.
pub(crate) fn clear_bytes(page: &mut [u8; 4096], at: usize, many: usize)
    requires within { at + many ≤ 4096 }
    ensures cleared { (k : ℕ) → at ≤ k → k < at + many → number_at 1 k page.new ≡ 0 }
    ensures others { Keeps (λ n from. IsApart n from many at) page.old page.new }
{
    for k in at..at + many {
        write_u8(page, k, 0);
    }
}
