//! An object removed.

ghost use Rattle.std.specs.Prelude.{◌≡◌, ◌<◌, ◌⊎◌, List, ℕ, Some, true, false, length};
ghost use Rattle.std.specs.Prelude.{◌-◌, IfErr, IfOk, OnOk, slice_index_or};
ghost use Rattle.std.specs.FinMap as map;
ghost use Rattle.box_math.specs.Bounds.{IsDims};
ghost use Rattle.bucket_page.specs.Layout.{BucketContent, bucket_at, Entry};
ghost use Rattle.page_file.specs.Fault.{IsDamage, IsOfDevice};
ghost use Rattle.page_file.specs.declared.fault.Fault.TheVariants as fault;
ghost use Rattle.page_cache.specs.Cache.{Grows, IsHonest, IsLive, IsPageMap, given, pages};
ghost use Rattle.page_cache.specs.Cache.{touched_of};
ghost use Rattle.page_cache.specs.Calls.{Asks, Changes};
ghost use Rattle.id_chains.specs.Changes.{Removes};
ghost use Rattle.id_chains.specs.Pages.{PopsLast, Shrinks, Unlinks};
ghost use Rattle.id_chains.specs.Table.{IdChains, IdChainsStand, bucket_in, class_of, objects_of};
ghost use Rattle.id_chains.specs.Tidy.{KeepsTidy};
ghost use Rattle.id_chains.specs.Walks.{MeetsInChain};

use crate::directory::{class_of, read_link, write_link};
use crate::places::{place_in, put_at};
use block_device::BlockDevice;
use box_math::BBox;
use bucket_page::{count_at, entry_at, has_bucket_head, next_at, pop_entry};
use page_cache::PageCache;
use page_file::Fault;
use std::alloc::Allocator;

/// Removes an object from the table, which has its identifier: the last object of the first page of its chain
/// fills the place, and a first page that becomes empty is freed.
///
/// Pages with zeros in all bytes that they do not name stay so.
///
/// With a sound map, where the pages stand for a table at that directory, a refusal is `Memory` or `Device`.
/// On other pages it may be `Damaged` too. On an honest device, where the map is sound or no page is touched,
/// that comes with the number of the directory's page or of one that a walk along the chain of the identifier
/// meets in the table as it stood before.
#[tactic(auto, using(page_cache::specs::Calls::changing))]
pub fn remove<const D: usize, B: BlockDevice, A: Allocator + Copy>(
    cache: &mut PageCache<B, A>,
    directory: u32,
    id: u64,
) -> Result<(), Fault>
    requires dims { IsDims D }
    ensures changes { Changes cache.old cache.new result }
    ensures sound { IsPageMap cache.old → (t : IdChains) → t.page ≡ directory
        → IdChainsStand D (pages cache.old) t
        → IsPageMap cache.new }
    ensures tidy { IsPageMap cache.old → (t : IdChains) → t.page ≡ directory
        → IdChainsStand D (pages cache.old) t
        → OnOk result (KeepsTidy D (pages cache.old) (pages cache.new)) }
    ensures removed { IsPageMap cache.old → (t : IdChains) → t.page ≡ directory →
        IdChainsStand D (pages cache.old) t
        → map.contains_key (objects_of t) id ≡ true
        → OnOk result (Removes D (pages cache.old) (pages cache.new) t id) }
    ensures grows { Grows 0 cache.old cache.new }
    ensures faults { IsPageMap cache.old → (t : IdChains) → t.page ≡ directory
        → IdChainsStand D (pages cache.old) t
        → map.contains_key (objects_of t) id ≡ true → IfErr result IsOfDevice }
    ensures damage { IsHonest cache.old → IsPageMap cache.old ⊎ (touched_of cache.new ≡ false)
        → IfErr result (λ f. (n : ℕ) → f ≡ fault.Damaged n
        → MeetsInChain D (given cache.old) directory (class_of id) n) }
    ensures other_faults { IfErr result (λ f. IsOfDevice f ⊎ IsDamage f) }
{
    let class = class_of(id);
    let first = read_link::<D, B, A>(cache, directory, class)?;
    let (holder, place) = place_in::<D, B, A>(cache, directory, first, id)?;
    let last = last_in::<D, B, A>(cache, first)?;
    put_at(cache, holder, place, &last)?;
    drop_last::<D, B, A>(cache, directory, class, first)
}

// The last object of the bucket at a page, in one look.
#[tactic(auto, using(page_cache::specs::Calls::ends_so))]
fn last_in<const D: usize, B: BlockDevice, A: Allocator + Copy>(
    cache: &mut PageCache<B, A>,
    number: u32,
) -> Result<(u64, (BBox<D>, u32)), Fault>
    requires dims { IsDims D }
    ensures asks { Asks cache.old cache.new result }
    ensures last { IsHonest cache.old → (c : BucketContent) (other : Entry)
        → bucket_in D (pages cache.old number) ≡ Some c
        → IfOk result (λ last. last ≡ slice_index_or c.entries (length c.entries - 1) other) }
    ensures there { IsHonest cache.old → (c : BucketContent) → bucket_in D (pages cache.old number) ≡ Some c
        → IfErr result IsOfDevice }
    ensures damage { IsHonest cache.old → IfErr result (λ f. IsOfDevice f ⊎ (f ≡ fault.Damaged number)) }
    ensures other_faults { IfErr result (λ f. IsOfDevice f ⊎ IsDamage f) }
{
    let page = cache.page(number)?;
    match last_on::<D>(page) {
        Some(last) => Ok(last),
        None => Err(Fault::Damaged(number)),
    }
}

// The last object of a bucket page, or `None` where the page begins as none of this dimension, or that object
// has no box.
fn last_on<const D: usize>(page: &[u8; 4096]) -> Option<(u64, (BBox<D>, u32))>
    requires dims { IsDims D }
    ensures of_bucket { (c : BucketContent) (other : Entry) → bucket_at D page.now ≡ Some c
        → result ≡ Some (slice_index_or c.entries (length c.entries - 1) other) }
{
    if !has_bucket_head::<D>(page) {
        return None;
    }
    entry_at::<D>(page, count_at(page) - 1)
}

// Takes the last object out of the first page of a chain, or frees that page where it has no other.
#[tactic(auto, using(page_cache::specs::Calls::turns))]
fn drop_last<const D: usize, B: BlockDevice, A: Allocator + Copy>(
    cache: &mut PageCache<B, A>,
    directory: u32,
    class: usize,
    first: u32,
) -> Result<(), Fault>
    requires dims { IsDims D }
    requires class { class < 1000 }
    ensures changes { Changes cache.old cache.new result }
    ensures less { IsPageMap cache.old → ¬ (directory ≡ first) → (links : List ℕ)
        → pages cache.old directory ≡ Some links → (c : BucketContent) →
        bucket_in D (pages cache.old first) ≡ Some c
        → OnOk result (Shrinks D (pages cache.old) (pages cache.new) directory class first c links) }
    ensures sound { IsPageMap cache.old → IsLive cache.old first → IsLive cache.old directory
        → ¬ (directory ≡ first) → IsPageMap cache.new }
    ensures grows { Grows 0 cache.old cache.new }
    ensures faults { IsPageMap cache.old → IsLive cache.old first → IsLive cache.old directory
        → ¬ (directory ≡ first) → ¬ (first ≡ 2) → IfErr result IsOfDevice }
    ensures damage { IsPageMap cache.old → IsLive cache.old first → IsLive cache.old directory
        → IfErr result (λ f. IsOfDevice f ⊎ ((f ≡ fault.Damaged first) ⊎ (f ≡ fault.Damaged directory))) }
    ensures other_faults { IfErr result (λ f. IsOfDevice f ⊎ IsDamage f) }
{
    let emptied = cache.edit(
        first,
        |page: &mut [u8; 4096]| -> Option<u32>
            requires { IsDims D }
            ensures { PopsLast D page.old page.new result }
        { pop_or_next::<D>(page) },
    )?;
    match emptied {
        Some(next) => unlink(cache, directory, class, first, next),
        None => Ok(()),
    }
}

// Takes the last object out of a bucket page that has more. The next page of its chain is answered where it
// has not.
fn pop_or_next<const D: usize>(page: &mut [u8; 4096]) -> Option<u32>
    requires { IsDims D }
    ensures { PopsLast D page.old page.new result }
{
    let count = count_at(page);
    if count <= 1 || count > 100 {
        return Some(next_at(page));
    }
    pop_entry::<D>(page);
    None
}

// Frees the first page of a chain: its next page becomes the first.
#[tactic(auto, using(page_cache::specs::Calls::turns))]
fn unlink<B: BlockDevice, A: Allocator + Copy>(
    cache: &mut PageCache<B, A>,
    directory: u32,
    class: usize,
    first: u32,
    next: u32,
) -> Result<(), Fault>
    requires class { class < 1000 }
    ensures changes { Changes cache.old cache.new result }
    ensures unlinked { IsPageMap cache.old → IsLive cache.old first → ¬ (directory ≡ first) → (links : List ℕ)
        → pages cache.old directory ≡ Some links → (c : BucketContent) → length c.entries ≡ 1 → next ≡ c.next
        → OnOk result (Unlinks (pages cache.old) (pages cache.new) directory class first c links) }
    ensures sound { IsPageMap cache.old → IsLive cache.old first → IsLive cache.old directory
        → ¬ (directory ≡ first) → IsPageMap cache.new }
    ensures grows { Grows 0 cache.old cache.new }
    ensures faults { IsPageMap cache.old → IsLive cache.old first → IsLive cache.old directory
        → ¬ (directory ≡ first) → ¬ (first ≡ 2) → IfErr result IsOfDevice }
    ensures damage { IsPageMap cache.old → IsLive cache.old first → IsLive cache.old directory
        → IfErr result (λ f. IsOfDevice f ⊎ ((f ≡ fault.Damaged first) ⊎ (f ≡ fault.Damaged directory))) }
    ensures other_faults { IfErr result (λ f. IsOfDevice f ⊎ IsDamage f) }
{
    write_link(cache, directory, class, next)?;
    cache.free(first)
}
