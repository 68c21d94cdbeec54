//! An object added.

ghost use Rattle.std.specs.Prelude.{◌≡◌, ◌≤◌, ◌<◌, ◌⊎◌, List, ℕ, Some, false, length, take, IfErr, IfOk};
ghost use Rattle.std.specs.Prelude.{OnOk, true};
ghost use Rattle.std.specs.FinMap as map;
ghost use Rattle.block_bytes.specs.Numbers.{number_at};
ghost use Rattle.box_math.specs.Bounds.{IsDims};
ghost use Rattle.bucket_page.specs.Layout.{BucketContent, bucket_at};
ghost use Rattle.page_file.specs.Fault.{IsDamage, IsOfDevice};
ghost use Rattle.page_file.specs.Pages.{SameBut};
ghost use Rattle.page_file.specs.declared.fault.Fault.TheVariants as fault;
ghost use Rattle.page_cache.specs.Cache.{Grows, IsHonest, IsLive, IsPageMap, given, next_of};
ghost use Rattle.page_cache.specs.Cache.{pages, touched_of};
ghost use Rattle.page_cache.specs.Calls.{Changes};
ghost use Rattle.node_page.specs.Faults.{IsNoDamage};
ghost use Rattle.id_words.specs.Objects.{AreNew};
ghost use Rattle.id_chains.specs.Changes.{Fills, Sets};
ghost use Rattle.id_chains.specs.Pages.{IsRun, IsWholeRun, PushesRun, PutsBefore, first_class, with_more};
ghost use Rattle.id_chains.specs.Table.{IdChains, IdChainsStand, bucket_in, class_of, objects_of};
ghost use Rattle.id_chains.specs.Tidy.{IsTidyPage, KeepsTidy};
ghost use Rattle.id_words.specs.Damage.{MayBreakAt};
ghost use Rattle.id_chains.specs.Walks.{BeginsChain, IsBucket, KeepsFirst};

use crate::bucket::{has_room, write_bucket};
use crate::directory::{class_of, read_link, write_link};
use arrayvec::ArrayVec;
use block_device::BlockDevice;
use box_math::BBox;
use bucket_page::{Bucket, count_at, push_entry};
use page_cache::PageCache;
use page_file::Fault;
use std::alloc::Allocator;

/// Adds an object to the table, which does not have its identifier: into the first page of its chain, or into
/// a new page before that one where it is full.
///
/// Pages with zeros in all bytes that they do not name stay so, and so is a new one.
///
/// With a sound map, where the pages stand for a table at that directory, a refusal is `Memory` or `Device`,
/// or `NoPages` where each page number is live. On other pages of an honest device it may be `Damaged` too,
/// with the number of the directory's page, of the first page of the chain, or, where the map is not sound,
/// of a page given out that is not live.
pub fn add<const D: usize, B: BlockDevice, A: Allocator + Copy>(
    cache: &mut PageCache<B, A>,
    directory: u32,
    id: u64,
    bounds: &BBox<D>,
    tag: u32,
) -> Result<(), Fault>
    requires dims { IsDims D }
    ensures changes { Changes cache.old cache.new result }
    ensures sound { IsPageMap cache.old → (t : IdChains) → t.page ≡ directory
        → IdChainsStand D (pages cache.old) t
        → IsPageMap cache.new }
    ensures tidy { IsPageMap cache.old → (t : IdChains) → t.page ≡ directory
        → IdChainsStand D (pages cache.old) t
        → OnOk result (KeepsTidy D (pages cache.old) (pages cache.new)) }
    ensures added { IsPageMap cache.old → (t : IdChains) → t.page ≡ directory
        → IdChainsStand D (pages cache.old) t
        → map.contains_key (objects_of t) id ≡ false
        → OnOk result (Sets D (pages cache.old) (pages cache.new) t id (bounds.now, tag)) }
    ensures grows { Grows 1 cache.old cache.new }
    ensures faults { IsPageMap cache.old → (t : IdChains) → t.page ≡ directory
        → IdChainsStand D (pages cache.old) t
        → IfErr result (IsNoDamage cache.new) }
    ensures damage { IsHonest cache.old → IfErr result (λ f. (n : ℕ) → f ≡ fault.Damaged n
        → BeginsChain D (given cache.old) directory (class_of id) n ⊎ MayBreakAt cache.old n) }
    ensures other_faults { IfErr result (λ f. IsNoDamage cache.new f ⊎ IsDamage f) }
{
    add_run(cache, directory, &[(id, (*bounds, tag))])?;
    Ok(())
}

// Adds the objects from the first one on that are of its chain: as many as the first page of the chain has
// room for, or a new page before that one where it is full. Answers how many these are.
pub(crate) fn add_run<const D: usize, B: BlockDevice, A: Allocator + Copy>(
    cache: &mut PageCache<B, A>,
    directory: u32,
    objects: &[(u64, (BBox<D>, u32))],
) -> Result<usize, Fault>
    requires dims { IsDims D }
    requires some { 0 < length objects.now }
    ensures changes { Changes cache.old cache.new result }
    ensures sound { IsPageMap cache.old → (t : IdChains) → t.page ≡ directory
        → IdChainsStand D (pages cache.old) t
        → IsPageMap cache.new }
    ensures tidy { IsPageMap cache.old → (t : IdChains) → t.page ≡ directory
        → IdChainsStand D (pages cache.old) t
        → OnOk result (KeepsTidy D (pages cache.old) (pages cache.new)) }
    ensures count { IfOk result (λ count. (0 < count) × (count ≤ length objects.now)) }
    ensures added { IsPageMap cache.old → (t : IdChains) → t.page ≡ directory
        → IdChainsStand D (pages cache.old) t
        → AreNew (objects_of t) objects.now
        → IfOk result (λ count. Fills D (pages cache.old) (pages cache.new) t (take count objects.now)) }
    ensures grows { Grows 1 cache.old cache.new }
    ensures whole { IfOk result (λ count. Grows 0 cache.old cache.new ⊎ IsWholeRun objects.now count) }
    ensures faults { IsPageMap cache.old → (t : IdChains) → t.page ≡ directory
        → IdChainsStand D (pages cache.old) t
        → IfErr result (IsNoDamage cache.new) }
    ensures touched { OnOk result (touched_of cache.new ≡ true) }
    ensures damage { IsHonest cache.old → IfErr result (λ f. (n : ℕ) → f ≡ fault.Damaged n
        → BeginsChain D (given cache.old) directory (first_class objects.now) n ⊎ MayBreakAt cache.old n) }
    ensures spelled { IsPageMap cache.old → IfErr result (λ f. (n : ℕ) → f ≡ fault.Damaged n
        → (n ≡ directory) ⊎ (¬ (IsBucket D (pages cache.old n)))) }
    ensures kept { IsPageMap cache.old → OnOk result (KeepsFirst D directory cache.old cache.new) }
    ensures other_faults { IfErr result (λ f. IsNoDamage cache.new f ⊎ IsDamage f) }
{
    let class = class_of(objects[0].0);
    let first = read_link::<D, B, A>(cache, directory, class)?;
    let room = has_room::<D, B, A>(cache, first)?;
    if room {
        return put_in(cache, first, class, objects);
    }
    put_alone(cache, directory, class, first, objects)
}

// Adds to the bucket at a page with room the objects from the first one on that are of the chain, where the
// page lies in memory. Answers how many these are. A page without room is `Damaged`.
#[tactic(auto, using(page_cache::specs::Calls::ends_so))]
fn put_in<const D: usize, B: BlockDevice, A: Allocator + Copy>(
    cache: &mut PageCache<B, A>,
    number: u32,
    class: usize,
    objects: &[(u64, (BBox<D>, u32))],
) -> Result<usize, Fault>
    requires dims { IsDims D }
    requires some { 0 < length objects.now }
    requires first { class ≡ first_class objects.now }
    ensures changes { Changes cache.old cache.new result }
    ensures next { next_of cache.new ≡ next_of cache.old }
    ensures run { IfOk result (IsRun class objects.now) }
    ensures written { IsHonest cache.old → (c : BucketContent) → bucket_in D (pages cache.old number) ≡ Some c
        → length c.entries < 100
        → IfOk result (λ count. bucket_in D (pages cache.new number)
        ≡ Some (with_more c (take count objects.now))) }
    ensures tidy { IsHonest cache.old → (c : BucketContent) → bucket_in D (pages cache.old number) ≡ Some c
        → OnOk result (KeepsTidy D (pages cache.old) (pages cache.new)) }
    ensures others { IsHonest cache.old → IsLive cache.old number
        → SameBut number (pages cache.old) (pages cache.new) }
    ensures sound { IsPageMap cache.old → IsLive cache.old number → IsPageMap cache.new }
    ensures grows { Grows 0 cache.old cache.new }
    ensures faults { IsHonest cache.old → (c : BucketContent) → bucket_in D (pages cache.old number) ≡ Some c
        → length c.entries < 100 → IfErr result IsOfDevice }
    ensures touched { OnOk result (touched_of cache.new ≡ true) }
    ensures damage { IsHonest cache.old → IfErr result (λ f. IsOfDevice f ⊎ (f ≡ fault.Damaged number)) }
    ensures other_faults { IfErr result (λ f. IsOfDevice f ⊎ IsDamage f) }
{
    let pushed = cache.edit(
        number,
        |page: &mut [u8; 4096]| -> Option<usize>
            requires { IsDims D × (0 < length objects.now) × (class ≡ first_class objects.now) }
            ensures { PushesRun D class objects.entry.now page.old page.new result }
        { push_where_room(page, class, objects) },
    )?;
    match pushed {
        Some(count) => Ok(count),
        None => Err(Fault::Damaged(number)),
    }
}

// Adds a run of objects to a bucket page that has room, and answers how many. `None` where it has none.
fn push_where_room<const D: usize>(
    page: &mut [u8; 4096],
    class: usize,
    objects: &[(u64, (BBox<D>, u32))],
) -> Option<usize>
    requires dims { IsDims D }
    requires some { 0 < length objects.now }
    requires first { class ≡ first_class objects.now }
    ensures { PushesRun D class objects.now page.old page.new result }
{
    if count_at(page) >= 100 {
        return None;
    }
    Some(push_run(page, class, objects))
}

// Adds to a bucket page the objects from the first one on that are of the chain, as many as it has room for.
// Answers how many these are.
fn push_run<const D: usize>(
    page: &mut [u8; 4096],
    class: usize,
    objects: &[(u64, (BBox<D>, u32))],
) -> usize
    requires dims { IsDims D }
    requires room { number_at 2 2 page.old < 100 }
    requires some { 0 < length objects.now }
    requires first { class ≡ first_class objects.now }
    ensures run { IsRun class objects.now result }
    ensures pushed { (c : BucketContent) → bucket_at D page.old ≡ Some c
        → bucket_at D page.new ≡ Some (with_more c (take result objects.now)) }
    ensures tidy { (c : BucketContent) → bucket_at D page.old ≡ Some c →
        IsTidyPage D page.old → IsTidyPage D page.new }
{
    let mut count = 0;
    for object in objects {
        if count_at(page) >= 100 || class_of(object.0) != class {
            return count;
        }
        push_entry(page, object);
        count += 1;
    }
    count
}

// Puts a run of objects into a new page before the first one of a chain, and answers how many.
fn put_alone<const D: usize, B: BlockDevice, A: Allocator + Copy>(
    cache: &mut PageCache<B, A>,
    directory: u32,
    class: usize,
    first: u32,
    objects: &[(u64, (BBox<D>, u32))],
) -> Result<usize, Fault>
    requires dims { IsDims D }
    requires class { class < 1000 }
    requires some { 0 < length objects.now }
    requires first { class ≡ first_class objects.now }
    ensures changes { Changes cache.old cache.new result }
    ensures run { IfOk result (IsRun class objects.now) }
    ensures sound { IsPageMap cache.old → IsLive cache.old directory → IsPageMap cache.new }
    ensures put { IsPageMap cache.old → (page : List ℕ) → pages cache.old directory ≡ Some page
        → IfOk result (λ count. PutsBefore D (pages cache.old) (pages cache.new) directory class first
        (take count objects.now) page) }
    ensures grows { Grows 1 cache.old cache.new }
    ensures whole { IfOk result (IsWholeRun objects.now) }
    ensures faults { IsPageMap cache.old → IsLive cache.old directory
        → IfErr result (IsNoDamage cache.new) }
    ensures touched { OnOk result (touched_of cache.new ≡ true) }
    ensures damage { IsHonest cache.old → IfErr result (λ f. (n : ℕ) → f ≡ fault.Damaged n
        → (n ≡ directory) ⊎ MayBreakAt cache.old n) }
    ensures other_faults { IfErr result (λ f. IsNoDamage cache.new f ⊎ IsDamage f) }
{
    let bucket = Bucket {
        next: first,
        entries: run_of(class, objects),
    };
    put_before(cache, directory, class, &bucket)?;
    Ok(bucket.entries.len())
}

// The objects from the first one on that are of the chain, as many as a page has room for.
fn run_of<const D: usize>(
    class: usize,
    objects: &[(u64, (BBox<D>, u32))],
) -> ArrayVec<(u64, (BBox<D>, u32)), 100>
    requires some { 0 < length objects.now }
    requires first { class ≡ first_class objects.now }
    ensures taken { result.items ≡ take (length result.items) objects.now }
    ensures run { IsRun class objects.now (length result.items) }
    ensures whole { IsWholeRun objects.now (length result.items) }
{
    let mut entries = ArrayVec::new();
    for object in objects {
        if entries.is_full() || class_of(object.0) != class {
            return entries;
        }
        entries.push(*object);
    }
    entries
}

// Puts a bucket into a new page before the first one of a chain, which the bucket names as the next.
pub(crate) fn put_before<const D: usize, B: BlockDevice, A: Allocator + Copy>(
    cache: &mut PageCache<B, A>,
    directory: u32,
    class: usize,
    bucket: &Bucket<D>,
) -> Result<(), Fault>
    requires dims { IsDims D }
    requires class { class < 1000 }
    requires some { 0 < length bucket.now.entries.items }
    ensures changes { Changes cache.old cache.new result }
    ensures sound { IsPageMap cache.old → IsLive cache.old directory → IsPageMap cache.new }
    ensures put { IsPageMap cache.old → (page : List ℕ) → pages cache.old directory ≡ Some page
        → OnOk result (PutsBefore D (pages cache.old) (pages cache.new) directory class bucket.now.next
        bucket.now.entries.items page) }
    ensures grows { Grows 1 cache.old cache.new }
    ensures faults { IsPageMap cache.old → IsLive cache.old directory
        → IfErr result (IsNoDamage cache.new) }
    ensures touched { OnOk result (touched_of cache.new ≡ true) }
    ensures damage { IsHonest cache.old → IfErr result (λ f. (n : ℕ) → f ≡ fault.Damaged n
        → (n ≡ directory) ⊎ MayBreakAt cache.old n) }
    ensures other_faults { IfErr result (λ f. IsNoDamage cache.new f ⊎ IsDamage f) }
{
    let number = cache.allocate()?;
    write_bucket(cache, number, bucket)?;
    write_link(cache, directory, class, number)
}
