//! The first bytes of a bucket page: its kind, its dimension, its count and the next page.

ghost use Rattle.std.specs.Prelude.{◌≡◌, ℕ, ◌<◌, ◌≤◌, ◌↔◌, Some, length, IsTrue};
ghost use Rattle.block_bytes.specs.Numbers.{number_at};
ghost use Rattle.box_math.specs.Bounds.{IsDims};
ghost use Rattle.bucket_page.specs.Layout.{BucketContent, HasBucketHead, IsBucketKind, IsHead, bucket_at};

use block_bytes::{BUCKET_KIND, UNTAGGED_BUCKET_KIND, read_u8, read_u16, read_u32, write_u32};

/// Whether the page begins as a bucket page of that dimension does: its kind, 7 or that of format 1, its
/// dimension, and a count of 1 to 100. Its boxes are not looked at.
#[inline]
pub fn has_bucket_head<const D: usize>(page: &[u8; 4096]) -> bool
    ensures { IsTrue result ↔ HasBucketHead D page.now }
{
    let count = count_at(page);
    is_bucket_kind(read_u8(page, 0))
        && usize::from(read_u8(page, 1)) == D
        && 1 <= count
        && count <= 100
}

// Whether a page of this kind is a bucket page.
#[inline]
fn is_bucket_kind(kind: u8) -> bool
    ensures { IsTrue result ↔ IsBucketKind kind }
{
    kind == BUCKET_KIND || kind == UNTAGGED_BUCKET_KIND
}

/// How many objects a bucket page says it has: the number in the two bytes at 2.
#[inline]
pub fn count_at(page: &[u8; 4096]) -> usize
    ensures value { result ≡ number_at 2 2 page.now }
    ensures of_bucket { (dims : ℕ) (c : BucketContent) → bucket_at dims page.now ≡ Some c →
        result ≡ length c.entries }
{
    usize::from(read_u16(page, 2))
}

/// The next page of a bucket page, or 0 if there is none: the number in the four bytes at 4.
#[inline]
pub fn next_at(page: &[u8; 4096]) -> u32
    ensures value { result ≡ number_at 4 4 page.now }
    ensures of_bucket { (dims : ℕ) (c : BucketContent) → bucket_at dims page.now ≡ Some c → result ≡ c.next }
{
    read_u32(page, 4)
}

/// Makes the page one of zeros but for the head of a bucket page.
pub(crate) fn write_head<const D: usize>(page: &mut [u8; 4096], count: u16, next: u32)
    requires { IsDims D }
    ensures head { IsHead D count next page.new }
    ensures rest { (k : ℕ) → 8 ≤ k → number_at 1 k page.new ≡ 0 }
{
    block_bytes::write_head(page, BUCKET_KIND, D as u8, count);
    write_u32(page, 4, next);
}
