//! What pages spell, as laws of all lists of bytes: each law is the contract of a function that does nothing,
//! but for the last, which encodes and decodes.

ghost use Rattle.std.specs.Prelude.{◌≡◌, ◌<◌, Some, length, option_map};
ghost use Rattle.box_math.specs.Bounds.{IsDims};
ghost use Rattle.bucket_page.specs.Layout.{content_of};
ghost use Rattle.bucket_page.specs.PageLaws.{ReadsWhatIsSpelled, ReadsNamedBytes, SpellsBuckets};
ghost use Rattle.bucket_page.specs.PageLaws.{BucketsHaveOnePage};

use crate::bucket::Bucket;
use crate::page::{decode, encode};

/// Reading gives exactly what is spelled, so a page spells at most one bucket.
pub fn what_is_spelled_is_read()
    ensures { ReadsWhatIsSpelled }
{}

/// Only the named bytes of a page are read: its head, and the entries below its count.
pub fn named_bytes_are_read()
    ensures { ReadsNamedBytes }
{}

/// What a page spells has 1 to 100 objects, each with a box of 32-bit coordinates, its lows at most its
/// highs.
pub fn what_is_spelled_is_a_bucket()
    ensures { SpellsBuckets }
{}

/// A bucket has one page of a kind: two that spell it, with zeros in all bytes that it does not name, have
/// the same bytes. So `encode` leaves nothing open.
pub fn a_bucket_has_one_page()
    ensures { BucketsHaveOnePage }
{}

/// A bucket that is encoded is decoded again.
pub fn a_bucket_comes_back<const D: usize>(
    bucket: &Bucket<D>,
    page: &mut [u8; 4096],
) -> Option<Bucket<D>>
    requires dims { IsDims D }
    requires some { 0 < length bucket.now.entries.items }
    ensures { option_map content_of result ≡ Some (content_of bucket.now) }
{
    encode(bucket, page);
    decode(page)
}
