//! A bucket as the bytes of a page.

ghost use Rattle.std.specs.Prelude.{◌≡◌, ◌<◌, length, option_map, IfSome};
ghost use Rattle.block_bytes.specs.Kinds.{bucket_kind};
ghost use Rattle.block_bytes.specs.Numbers.{number_at};
ghost use Rattle.box_math.specs.Bounds.{IsDims};
ghost use Rattle.bucket_page.specs.Layout.{content_of, bucket_at, IsBucket, IsTidy, Spells};

use crate::bucket::Bucket;
use crate::entries::{entry_at, write_entry};
use crate::head::{count_at, has_bucket_head, next_at, write_head};
use arrayvec::ArrayVec;

/// The bucket that the page spells, or `None` where it spells none of that dimension: where its kind is
/// neither 7 nor 4, its dimension is another, its count is 0 or above 100, or some object has a low above its
/// high.
pub fn decode<const D: usize>(page: &[u8; 4096]) -> Option<Bucket<D>>
    requires { IsDims D }
    ensures spelled { option_map content_of result ≡ bucket_at D page.now }
    ensures is_bucket { IfSome result (λ bucket. IsBucket D (content_of bucket)) }
{
    if !has_bucket_head::<D>(page) {
        return None;
    }
    let count = count_at(page);
    let mut entries = ArrayVec::new();
    for place in 0..count {
        match entry_at(page, place) {
            Some(entry) => entries.push(entry),
            None => return None,
        }
    }
    Some(Bucket {
        next: next_at(page),
        entries,
    })
}

/// Makes the page the one that spells the bucket, with zeros in all bytes that it does not name.
pub fn encode<const D: usize>(bucket: &Bucket<D>, page: &mut [u8; 4096])
    requires dims { IsDims D }
    requires some { 0 < length bucket.now.entries.items }
    ensures spelled { Spells D page.new (content_of bucket.now) }
    ensures kind { number_at 1 0 page.new ≡ bucket_kind }
    ensures rest { IsTidy D page.new }
{
    let count = bucket.entries.len();
    write_head::<D>(page, count as u16, bucket.next);
    for place in 0..count {
        write_entry(page, place, &bucket.entries[place]);
    }
}
