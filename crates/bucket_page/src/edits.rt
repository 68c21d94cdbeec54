//! A bucket page changed in place. One of format 1 is made one of the kind that is written first.

ghost use Rattle.std.specs.Prelude.{◌≡◌, ◌⊎◌, ℕ, ◌+◌, ◌-◌, ◌<◌, ◌≤◌, Some, length};
ghost use Rattle.block_bytes.specs.Kinds.{bucket_kind};
ghost use Rattle.block_bytes.specs.Numbers.{number_at};
ghost use Rattle.box_math.specs.Bounds.{IsDims};
ghost use Rattle.box_bytes.specs.Corners.{Keeps};
ghost use Rattle.bucket_page.specs.Layout.{BucketContent, IsClearOfEntry, IsTidy, IsUntagged, bucket_at};
ghost use Rattle.bucket_page.specs.Layout.{entry_place, entry_size, popped, pushed, replaced};

use crate::entries::{clear_entry, write_entry};
use crate::head::count_at;
use crate::page::{decode, encode};
use block_bytes::{UNTAGGED_BUCKET_KIND, read_u8, write_u16};
use box_math::BBox;

/// Adds an object to a bucket page whose count is below 100: it is written in the place after the last one,
/// and counted. Other bytes stay, but where the page is one of format 1: its bucket is encoded anew first.
pub fn push_entry<const D: usize>(page: &mut [u8; 4096], entry: &(u64, (BBox<D>, u32)))
    requires dims { IsDims D }
    requires room { number_at 2 2 page.old < 100 }
    ensures pushed { (c : BucketContent) → bucket_at D page.old ≡ Some c
        → bucket_at D page.new ≡ Some (pushed c entry.now) }
    ensures kind { (c : BucketContent) → bucket_at D page.old ≡ Some c →
        number_at 1 0 page.new ≡ bucket_kind }
    ensures rest { number_at 1 0 page.old ≡ bucket_kind → (k : ℕ) → 8 ≤ k
        → IsClearOfEntry (entry_size D bucket_kind) (number_at 2 2 page.old) 1 k
        → number_at 1 k page.new ≡ number_at 1 k page.old }
    ensures tidy { (c : BucketContent) → bucket_at D page.old ≡ Some c →
        IsUntagged page.old ⊎ IsTidy D page.old
        → IsTidy D page.new }
{
    renew::<D>(page);
    let count = count_at(page);
    write_entry(page, count, entry);
    write_u16(page, 2, count as u16 + 1);
}

/// Writes another object into the place of one of a bucket page. Other bytes stay, but where the page is one
/// of format 1: its bucket is encoded anew first.
pub fn set_entry<const D: usize>(page: &mut [u8; 4096], place: usize, entry: &(u64, (BBox<D>, u32)))
    requires dims { IsDims D }
    requires within { place < 100 }
    ensures count { number_at 2 2 page.new ≡ number_at 2 2 page.old }
    ensures replaced { (c : BucketContent) → bucket_at D page.old ≡ Some c → place < length c.entries
        → bucket_at D page.new ≡ Some (replaced c place entry.now) }
    ensures kind { (c : BucketContent) → bucket_at D page.old ≡ Some c →
        number_at 1 0 page.new ≡ bucket_kind }
    ensures others { number_at 1 0 page.old ≡ bucket_kind
        → Keeps (IsClearOfEntry (entry_size D bucket_kind) place) page.old page.new }
    ensures tidy { (c : BucketContent) → bucket_at D page.old ≡ Some c → place < length c.entries
        → IsUntagged page.old ⊎ IsTidy D page.old → IsTidy D page.new }
{
    renew::<D>(page);
    write_entry(page, place, entry);
}

/// Takes the last object from a bucket page of 2 to 100: it is no longer counted, and its bytes are zeros.
/// All others stay, but where the page is one of format 1: its bucket is encoded anew first. So a page with
/// zeros in all bytes that it does not name stays one.
pub fn pop_entry<const D: usize>(page: &mut [u8; 4096])
    requires dims { IsDims D }
    requires some { 1 < number_at 2 2 page.old }
    requires few { number_at 2 2 page.old ≤ 100 }
    ensures popped { (c : BucketContent) → bucket_at D page.old ≡ Some c →
        bucket_at D page.new ≡ Some (popped c) }
    ensures kind { (c : BucketContent) → bucket_at D page.old ≡ Some c →
        number_at 1 0 page.new ≡ bucket_kind }
    ensures cleared { number_at 1 0 page.old ≡ bucket_kind → (k : ℕ)
        → entry_place (entry_size D bucket_kind) (number_at 2 2 page.old - 1) ≤ k
        → k < entry_place (entry_size D bucket_kind) (number_at 2 2 page.old) → number_at 1 k page.new ≡ 0 }
    ensures rest { number_at 1 0 page.old ≡ bucket_kind → (k : ℕ) → 8 ≤ k
        → IsClearOfEntry (entry_size D bucket_kind) (number_at 2 2 page.old - 1) 1 k
        → number_at 1 k page.new ≡ number_at 1 k page.old }
    ensures tidy { (c : BucketContent) → bucket_at D page.old ≡ Some c →
        IsUntagged page.old ⊎ IsTidy D page.old
        → IsTidy D page.new }
{
    renew::<D>(page);
    let count = count_at(page);
    clear_entry::<D>(page, count - 1);
    write_u16(page, 2, (count - 1) as u16);
}

// Makes a bucket page of format 1 the one that is written of its bucket, whose objects have the tag 0. Other
// pages stay.
fn renew<const D: usize>(page: &mut [u8; 4096])
    requires dims { IsDims D }
    ensures same { bucket_at D page.new ≡ bucket_at D page.old }
    ensures kind { (c : BucketContent) → bucket_at D page.old ≡ Some c →
        number_at 1 0 page.new ≡ bucket_kind }
    ensures count { number_at 2 2 page.new ≡ number_at 2 2 page.old }
    ensures unchanged { number_at 1 0 page.old ≡ bucket_kind → page.new ≡ page.old }
    ensures tidy { (c : BucketContent) → bucket_at D page.old ≡ Some c →
        IsUntagged page.old ⊎ IsTidy D page.old
        → IsTidy D page.new }
{
    if read_u8(page, 0) != UNTAGGED_BUCKET_KIND {
        return;
    }
    if let Some(bucket) = decode::<D>(page) {
        encode(&bucket, page);
    }
}
