//! The place of an object in its chain: found by a walk along it, and written anew.

ghost use Rattle.std.specs.Prelude.{◌≡◌, ◌≤◌, ◌<◌, ◌⊎◌, List, ℕ, Some, length, slice_index_or, IfErr, IfOk};
ghost use Rattle.std.specs.Prelude.{OnErr, OnOk, true};
ghost use Rattle.box_math.specs.Bounds.{IsDims};
ghost use Rattle.bucket_page.specs.Layout.{BucketContent, Entry, bucket_at, replaced};
ghost use Rattle.page_file.specs.Fault.{IsDamage, IsOfDevice};
ghost use Rattle.page_file.specs.Pages.{SameBut};
ghost use Rattle.page_file.specs.declared.fault.Fault.TheVariants as fault;
ghost use Rattle.page_cache.specs.Cache.{Grows, IsHonest, IsLive, IsPageMap, KeepsMap, given};
ghost use Rattle.page_cache.specs.Cache.{next_of, pages, touched_of};
ghost use Rattle.page_cache.specs.Calls.{Asks, Changes};
ghost use Rattle.id_chains.specs.Pages.{HasObject, IsInChain, moved};
ghost use Rattle.id_chains.specs.Table.{Bucket, ChainStands, bucket_in};
ghost use Rattle.id_chains.specs.Tidy.{IsTidyPage, KeepsTidy};
ghost use Rattle.id_chains.specs.Walks.{MeetsAlong, MeetsBucket};

use crate::bucket::place_at;
use block_device::BlockDevice;
use box_math::BBox;
use bucket_page::{entry_at, set_entry};
use page_cache::PageCache;
use page_file::Fault;
use std::alloc::Allocator;

// The page of a chain whose bucket has the identifier, and the place of the object there. Where none has it,
// the last page of the chain is `Damaged`, or that of the directory where the chain has none.
pub(crate) fn place_in<const D: usize, B: BlockDevice, A: Allocator + Copy>(
    cache: &mut PageCache<B, A>,
    directory: u32,
    first: u32,
    id: u64,
) -> Result<(u32, usize), Fault>
    requires dims { IsDims D }
    ensures asks { Asks cache.old cache.new result }
    ensures found { IsHonest cache.old → (chain : List Bucket) → ChainStands D (pages cache.old) first chain
        → IfOk result (λ r. IsInChain id chain r.0 r.1) }
    ensures within { IfOk result (λ r. r.1 < 100) }
    ensures met { IsHonest cache.old → IfOk result (λ r. MeetsBucket D (given cache.old) first r.0) }
    ensures there { IsHonest cache.old → (chain : List Bucket) → ChainStands D (pages cache.old) first chain
        → length chain ≤ next_of cache.old → HasObject id chain → IfErr result IsOfDevice }
    ensures damage { IsHonest cache.old → IfErr result (λ f. (n : ℕ) → f ≡ fault.Damaged n
        → (n ≡ directory) ⊎ MeetsAlong D (given cache.old) first n) }
    ensures other_faults { IfErr result (λ f. IsOfDevice f ⊎ IsDamage f) }
{
    let mut before = directory;
    let mut number = first;
    for walked in 0..cache.next_number() {
        if number == 0 {
            return Err(Fault::Damaged(before));
        }
        let (found, next) = place_at::<D, B, A>(cache, number, id)?;
        if let Some(place) = found {
            return Ok((number, place));
        }
        before = number;
        number = next;
    }
    Err(Fault::Damaged(before))
}

// Writes an object into the place of one of a bucket page, where it lies in memory. After a refusal the map
// is as before.
pub(crate) fn put_at<const D: usize, B: BlockDevice, A: Allocator + Copy>(
    cache: &mut PageCache<B, A>,
    number: u32,
    place: usize,
    object: &(u64, (BBox<D>, u32)),
) -> Result<(), Fault>
    requires dims { IsDims D }
    requires within { place < 100 }
    ensures changes { Changes cache.old cache.new result }
    ensures refused { OnErr result (KeepsMap cache.old cache.new) }
    ensures written { IsHonest cache.old → (c : BucketContent) → bucket_in D (pages cache.old number) ≡ Some c
        → place < length c.entries
        → OnOk result (bucket_in D (pages cache.new number) ≡ Some (replaced c place object.now)) }
    ensures tidy { IsHonest cache.old → (c : BucketContent) → bucket_in D (pages cache.old number) ≡ Some c
        → place < length c.entries → OnOk result (KeepsTidy D (pages cache.old) (pages cache.new)) }
    ensures live { IsHonest cache.old → IsLive cache.old number → IsLive cache.new number }
    ensures others { IsHonest cache.old → IsLive cache.old number
        → SameBut number (pages cache.old) (pages cache.new) }
    ensures sound { IsPageMap cache.old → IsLive cache.old number → IsPageMap cache.new }
    ensures grows { Grows 0 cache.old cache.new }
    ensures faults { IsHonest cache.old → IsLive cache.old number → IfErr result IsOfDevice }
    ensures touched { OnOk result (touched_of cache.new ≡ true) }
    ensures damage { IsHonest cache.old → IfErr result (λ f. IsOfDevice f ⊎ (f ≡ fault.Damaged number)) }
    ensures other_faults { IfErr result (λ f. IsOfDevice f ⊎ IsDamage f) }
{
    cache.edit(
        number,
        |page: &mut [u8; 4096]|
            requires { IsDims D × (place < 100) }
            ensures replaced { (c : BucketContent) → bucket_at D page.old ≡ Some c → place < length c.entries
                → bucket_at D page.new ≡ Some (replaced c place object.entry.now) }
            ensures tidy { (c : BucketContent) → bucket_at D page.old ≡ Some c → place < length c.entries
                → IsTidyPage D page.old → IsTidyPage D page.new }
        { set_entry(page, place, object) },
    )
}

// Writes another box of an object of a bucket page, where it lies in memory. After a refusal the map is as
// before.
pub(crate) fn move_at<const D: usize, B: BlockDevice, A: Allocator + Copy>(
    cache: &mut PageCache<B, A>,
    number: u32,
    place: usize,
    bounds: &BBox<D>,
) -> Result<(), Fault>
    requires dims { IsDims D }
    requires within { place < 100 }
    ensures changes { Changes cache.old cache.new result }
    ensures refused { OnErr result (KeepsMap cache.old cache.new) }
    ensures written { IsHonest cache.old → (c : BucketContent) (other : Entry)
        → bucket_in D (pages cache.old number) ≡ Some c → place < length c.entries
        → OnOk result (bucket_in D (pages cache.new number)
        ≡ Some (replaced c place (moved (slice_index_or c.entries place other) bounds.now))) }
    ensures tidy { IsHonest cache.old → (c : BucketContent) → bucket_in D (pages cache.old number) ≡ Some c
        → place < length c.entries → OnOk result (KeepsTidy D (pages cache.old) (pages cache.new)) }
    ensures others { IsHonest cache.old → IsLive cache.old number
        → SameBut number (pages cache.old) (pages cache.new) }
    ensures sound { IsPageMap cache.old → IsLive cache.old number → IsPageMap cache.new }
    ensures grows { Grows 0 cache.old cache.new }
    ensures faults { IsHonest cache.old → IsLive cache.old number → IfErr result IsOfDevice }
    ensures damage { IsHonest cache.old → IfErr result (λ f. IsOfDevice f ⊎ (f ≡ fault.Damaged number)) }
    ensures other_faults { IfErr result (λ f. IsOfDevice f ⊎ IsDamage f) }
{
    cache.edit(
        number,
        |page: &mut [u8; 4096]|
            requires { IsDims D × (place < 100) }
            ensures moved { (c : BucketContent) (other : Entry) → bucket_at D page.old ≡ Some c →
                place < length c.entries
                → bucket_at D page.new
                ≡ Some (replaced c place (moved (slice_index_or c.entries place other) bounds.entry.now)) }
            ensures tidy { (c : BucketContent) → bucket_at D page.old ≡ Some c → place < length c.entries
                → IsTidyPage D page.old → IsTidyPage D page.new }
        { set_box(page, place, bounds) },
    )
}

// Writes another box of the object in a place of a bucket page, and keeps its identifier and its tag. A place
// without an object stays.
fn set_box<const D: usize>(page: &mut [u8; 4096], place: usize, bounds: &BBox<D>)
    requires dims { IsDims D }
    requires within { place < 100 }
    ensures moved { (c : BucketContent) (other : Entry) → bucket_at D page.old ≡ Some c →
        place < length c.entries → bucket_at D page.new
        ≡ Some (replaced c place (moved (slice_index_or c.entries place other) bounds.now)) }
    ensures tidy { (c : BucketContent) → bucket_at D page.old ≡ Some c → place < length c.entries
        → IsTidyPage D page.old → IsTidyPage D page.new }
{
    if let Some((id, (_, tag))) = entry_at::<D>(page, place) {
        set_entry(page, place, &(id, (*bounds, tag)));
    }
}
