//! Buckets at the pages of a cache.

ghost use Rattle.std.specs.Prelude.{◌≡◌, ◌<◌, ◌≤◌, ◌⊎◌, ℕ, List, Some, true, false, length};
ghost use Rattle.std.specs.Prelude.{IfOk, IfErr, IfSome, IsSomeAnd, OnOk};
ghost use Rattle.box_math.specs.Bounds.{IsDims};
ghost use Rattle.bucket_page.specs.Layout.{BucketContent, HasBucketHead, bucket_at, content_of, Spells};
ghost use Rattle.page_file.specs.Fault.{IsDamage, IsOfDevice};
ghost use Rattle.page_file.specs.Pages.{SameBut};
ghost use Rattle.page_file.specs.declared.fault.Fault.TheVariants as fault;
ghost use Rattle.page_cache.specs.Cache.{Grows, IsHonest, IsLive, IsPageMap, given, next_of};
ghost use Rattle.page_cache.specs.Cache.{pages};
ghost use Rattle.page_cache.specs.Calls.{Asks, Changes};
ghost use Rattle.id_chains.specs.Pages.{BeginsFull, IsFoundAt};
ghost use Rattle.id_words.specs.Objects.{kept_in};
ghost use Rattle.id_chains.specs.Table.{Bucket as Linked, ChainStands, bucket_in};
ghost use Rattle.id_chains.specs.Tidy.{IsTidyPage};
ghost use Rattle.id_chains.specs.Walks.{NamesNext};

use block_device::BlockDevice;
use box_math::BBox;
use bucket_page::{Bucket, count_at, encode, entry_at, has_bucket_head, id_at, next_at};
use page_cache::PageCache;
use page_file::Fault;
use std::alloc::Allocator;

// What is kept of an identifier on a bucket page, if an object there has it: identifiers are compared in
// their places, and only that object is decoded. `None` where the page begins as no bucket of this dimension,
// or that object has no box.
pub(crate) fn kept_on<const D: usize>(page: &[u8; 4096], id: u64) -> Option<Option<(BBox<D>, u32)>>
    requires dims { IsDims D }
    ensures of_bucket { (c : BucketContent) → bucket_at D page.now ≡ Some c →
        result ≡ Some (kept_in id c.entries) }
    ensures head { IfSome result (λ kept. HasBucketHead D page.now) }
{
    if !has_bucket_head::<D>(page) {
        return None;
    }
    for place in 0..count_at(page) {
        if id_at::<D>(page, place) == id {
            return match entry_at::<D>(page, place) {
                Some(object) => Some(Some(object.1)),
                None => None,
            };
        }
    }
    Some(None)
}

// Looks for an identifier in the bucket at a page, in one look: its box and its tag, if it is there, and the
// page of the next bucket.
#[tactic(auto, using(page_cache::specs::Calls::ends_so))]
pub(crate) fn look<const D: usize, B: BlockDevice, A: Allocator + Copy>(
    cache: &mut PageCache<B, A>,
    number: u32,
    id: u64,
) -> Result<(Option<(BBox<D>, u32)>, u32), Fault>
    requires dims { IsDims D }
    ensures asks { Asks cache.old cache.new result }
    ensures found { IsHonest cache.old → (c : BucketContent) → bucket_in D (pages cache.old number) ≡ Some c
        → IfOk result (λ r. (r.0 ≡ kept_in id c.entries) × (r.1 ≡ c.next)) }
    ensures names { IsHonest cache.old → IfOk result (λ r. NamesNext D (given cache.old number) r.1) }
    ensures there { IsHonest cache.old → (c : BucketContent) → bucket_in D (pages cache.old number) ≡ Some c
        → IfErr result IsOfDevice }
    ensures damage { IsHonest cache.old → IfErr result (λ f. IsOfDevice f ⊎ (f ≡ fault.Damaged number)) }
    ensures other_faults { IfErr result (λ f. IsOfDevice f ⊎ IsDamage f) }
{
    let page = cache.page(number)?;
    match kept_on::<D>(page, id) {
        Some(kept) => Ok((kept, next_at(page))),
        None => Err(Fault::Damaged(number)),
    }
}

// The place of an identifier on a bucket page, if an object there has it: identifiers are compared in their
// places. `None` where the page begins as no bucket of this dimension.
pub(crate) fn place_on<const D: usize>(page: &[u8; 4096], id: u64) -> Option<Option<usize>>
    requires dims { IsDims D }
    ensures of_bucket { (c : BucketContent) → bucket_at D page.now ≡ Some c
        → IsSomeAnd result (IsFoundAt id c.entries) }
    ensures within { IfSome result (λ found. IfSome found (λ place. place < 100)) }
    ensures head { IfSome result (λ found. HasBucketHead D page.now) }
{
    if !has_bucket_head::<D>(page) {
        return None;
    }
    for place in 0..count_at(page) {
        if id_at::<D>(page, place) == id {
            return Some(Some(place));
        }
    }
    Some(None)
}

// Looks for the place of an identifier in the bucket at a page, in one look: the place, if it is there, and
// the page of the next bucket.
#[tactic(auto, using(page_cache::specs::Calls::ends_so))]
pub(crate) fn place_at<const D: usize, B: BlockDevice, A: Allocator + Copy>(
    cache: &mut PageCache<B, A>,
    number: u32,
    id: u64,
) -> Result<(Option<usize>, u32), Fault>
    requires dims { IsDims D }
    ensures asks { Asks cache.old cache.new result }
    ensures found { IsHonest cache.old → (c : BucketContent) → bucket_in D (pages cache.old number) ≡ Some c
        → IfOk result (λ r. IsFoundAt id c.entries r.0 × (r.1 ≡ c.next)) }
    ensures names { IsHonest cache.old → IfOk result (λ r. NamesNext D (given cache.old number) r.1) }
    ensures within { IfOk result (λ r. IfSome r.0 (λ place. place < 100)) }
    ensures some { OnOk result (¬ (number ≡ 0)) }
    ensures there { IsHonest cache.old → (c : BucketContent) → bucket_in D (pages cache.old number) ≡ Some c
        → IfErr result IsOfDevice }
    ensures damage { IsHonest cache.old → IfErr result (λ f. IsOfDevice f ⊎ (f ≡ fault.Damaged number)) }
    ensures other_faults { IfErr result (λ f. IsOfDevice f ⊎ IsDamage f) }
{
    let page = cache.page(number)?;
    match place_on::<D>(page, id) {
        Some(found) => Ok((found, next_at(page))),
        None => Err(Fault::Damaged(number)),
    }
}

// Whether the first page of a chain has room for an object more. There is none where there is no page, or it
// is full.
#[tactic(auto, using(page_cache::specs::Calls::ends_so))]
pub(crate) fn has_room<const D: usize, B: BlockDevice, A: Allocator + Copy>(
    cache: &mut PageCache<B, A>,
    first: u32,
) -> Result<bool, Fault>
    requires dims { IsDims D }
    ensures asks { Asks cache.old cache.new result }
    ensures some { IfOk result (λ room. room ≡ true → ¬ (first ≡ 0)) }
    ensures room { IsHonest cache.old → (c : BucketContent) → bucket_in D (pages cache.old first) ≡ Some c
        → IfOk result (λ room. room ≡ true → length c.entries < 100) }
    ensures head { IsHonest cache.old → IfOk result (λ room. room ≡ true →
        (next : ℕ) × NamesNext D (given cache.old first) next) }
    ensures full { IsHonest cache.old → (chain : List Linked) → ChainStands D (pages cache.old) first chain
        → IfOk result (λ room. room ≡ false → BeginsFull chain) }
    ensures there { IsHonest cache.old → (chain : List Linked) → ChainStands D (pages cache.old) first chain
        → IfErr result IsOfDevice }
    ensures spelled { IsHonest cache.old → (c : BucketContent) → bucket_in D (pages cache.old first) ≡ Some c
        → IfErr result IsOfDevice }
    ensures damage { IsHonest cache.old → IfErr result (λ f. IsOfDevice f ⊎ (f ≡ fault.Damaged first)) }
    ensures met { IfErr result (λ f. ¬ (first ≡ 0)) }
    ensures other_faults { IfErr result (λ f. IsOfDevice f ⊎ IsDamage f) }
{
    if first == 0 {
        return Ok(false);
    }
    let page = cache.page(first)?;
    if !has_bucket_head::<D>(page) {
        return Err(Fault::Damaged(first));
    }
    if count_at(page) == 100 {
        return Ok(false);
    }
    Ok(true)
}

// Writes a bucket into a live page. After a refusal that page may hold any bytes.
pub(crate) fn write_bucket<const D: usize, B: BlockDevice, A: Allocator + Copy>(
    cache: &mut PageCache<B, A>,
    number: u32,
    bucket: &Bucket<D>,
) -> Result<(), Fault>
    requires dims { IsDims D }
    requires some { 0 < length bucket.now.entries.items }
    ensures changes { Changes cache.old cache.new result }
    ensures next { next_of cache.new ≡ next_of cache.old }
    ensures written { IsHonest cache.old → IsLive cache.old number
        → OnOk result (bucket_in D (pages cache.new number) ≡ Some (content_of bucket.now)) }
    ensures tidy { IsHonest cache.old → IsLive cache.old number
        → OnOk result (IsSomeAnd (pages cache.new number) (IsTidyPage D)) }
    ensures live { IsHonest cache.old → IsLive cache.old number → IsLive cache.new number }
    ensures others { IsHonest cache.old → IsLive cache.old number
        → SameBut number (pages cache.old) (pages cache.new) }
    ensures sound { IsPageMap cache.old → IsLive cache.old number → IsPageMap cache.new }
    ensures grows { Grows 0 cache.old cache.new }
    ensures faults { IsHonest cache.old → IsLive cache.old number → IfErr result IsOfDevice }
    ensures given_faults { IsHonest cache.old → 2 ≤ number → number < next_of cache.old →
        IfErr result IsOfDevice }
    ensures other_faults { IfErr result (λ f. IsOfDevice f ⊎ IsDamage f) }
{
    cache.refill(
        number,
        |page: &mut [u8; 4096]|
            requires { IsDims D × (0 < length bucket.now.entries.items) }
            ensures spelled { Spells D page.new (content_of bucket.entry.now) }
            ensures tidy { IsTidyPage D page.new }
        { encode(bucket, page) },
    )
}
