//! Identifier tables checked: whether one stands.

ghost use Rattle.std.specs.Prelude.{◌≡◌, ◌≤◌, ◌<◌, ◌+◌, ◌++◌, ◌∷◌, ◌⊎◌, ◌↔◌, [], List, ℕ, Some, true, false};
ghost use Rattle.std.specs.Prelude.{All};
ghost use Rattle.std.specs.Prelude.{IfErr, IfOk, OnErr, OnOk, IsTrue, length};
ghost use Rattle.block_bytes.specs.Numbers.{number_at};
ghost use Rattle.box_math.specs.Bounds.{IsDims};
ghost use Rattle.bucket_page.specs.Layout.{BucketContent, HasBucketHead, HasOrderedBox, bucket_at};
ghost use Rattle.bucket_page.specs.Layout.{object_at, objects_at};
ghost use Rattle.page_file.specs.Fault.{IsDamage, IsOfDevice};
ghost use Rattle.page_file.specs.declared.fault.Fault.TheVariants as fault;
ghost use Rattle.page_cache.specs.Cache.{IsHonest, IsPageMap, given, looks_of, next_of, pages};
ghost use Rattle.page_cache.specs.Calls.{Asks};
ghost use Rattle.node_page.specs.Checked.{named_pages};
ghost use Rattle.id_chains.specs.Checked.{AddsBucket, AddsChain, AddsChains, AddsObjects, IsCheckedTable};
ghost use Rattle.id_chains.specs.Checked.{ComesAlong, ComesFrom, ComesInTable};
ghost use Rattle.id_words.specs.Seen.{SeesOne, seen_times};
ghost use Rattle.id_chains.specs.Checked.{MayFollow, MayStand};
ghost use Rattle.id_chains.specs.Table.{Bucket, ChainStands, IdChains, IdChainsStand, IsFilled, bucket_in};
ghost use Rattle.id_chains.specs.Table.{class_of};
ghost use Rattle.id_words.specs.Objects.{times_in};
ghost use Rattle.id_chains.specs.Table.{occurs_in_chain};

use crate::directory::{class_of, copy_page, is_directory, link_of};
use block_device::BlockDevice;
use box_math::BBox;
use bucket_page::{count_at, entry_at, has_bucket_head, next_at};
use node_page::Visits;
use page_cache::PageCache;
use page_file::Fault;
use std::alloc::Allocator;
use std::collections::BTreeSet;

/// What a table holds.
#[derive(Drop)]
pub struct TableFacts<const D: usize, H: Allocator> {
    /// The identifier of each object, and then its box and its tag, chain after chain.
    pub pairs: Vec<(u64, (BBox<D>, u32)), H>,
    /// The page of the directory, and those of the chains.
    pub pages: Vec<u32, H>,
}

/// Checks the table with its directory at a page, and answers what it holds.
///
/// On an honest device it answers so only where a table stands there, and a refusal is then `Memory` or
/// `Device`. Elsewhere it may be `Damaged` too, with the number of a page: that of the directory, or one that
/// a walk along a chain comes to. It makes no more looks than the file's next number, whatever the pages are.
/// Map and gate stay, also after a refusal.
pub fn check_table<const D: usize, B: BlockDevice, A: Allocator + Copy, H: Allocator + Copy>(
    alloc: H,
    cache: &mut PageCache<B, A>,
    directory: u32,
) -> Result<TableFacts<D, H>, Fault>
    requires { IsDims D }
    ensures asks { Asks cache.old cache.new result }
    ensures table { IsPageMap cache.old → IfOk result (λ facts. IsCheckedTable D (pages cache.old) directory
        facts.pairs.items facts.pages.items) }
    ensures given_table { IsHonest cache.old →
        IfOk result (λ facts. IsCheckedTable D (given cache.old) directory
        facts.pairs.items facts.pages.items) }
    ensures stands { IsHonest cache.old → (t : IdChains) → t.page ≡ directory
        → IdChainsStand D (pages cache.old) t → IfErr result IsOfDevice }
    ensures looks { looks_of cache.new ≤ looks_of cache.old + next_of cache.old }
    ensures damage { IsHonest cache.old
        → IfErr result (λ f. (n : ℕ) → f ≡ fault.Damaged n → ComesInTable D (given cache.old) directory n) }
    ensures other_faults { IfErr result (λ f. IsOfDevice f ⊎ IsDamage f) }
{
    let mut visits = Visits::new(alloc, cache.next_number())?;
    let mut pairs = Vec::new(alloc);
    come_to(directory, &mut visits)?;
    let bytes = copy_page(cache, directory)?;
    if !is_directory::<D>(&bytes) {
        return Err(Fault::Damaged(directory));
    }
    add_chains::<D, B, A, H>(alloc, cache, &bytes, &mut visits, &mut pairs)?;
    let pages = visits.into_pages();
    Ok(TableFacts { pairs, pages })
}

// Visits a page that a table may have.
fn come_to<H: Allocator + Copy>(page: u32, visits: &mut Visits<H>) -> Result<(), Fault>
    ensures added { OnOk result (visits.new.pages.items ≡ visits.old.pages.items ++ page ∷ []) }
    ensures low { OnOk result (2 < page) }
    ensures marks { length visits.new.marks.items ≡ length visits.old.marks.items }
    ensures unchanged { OnErr result (visits.new.pages.items ≡ visits.old.pages.items) }
    ensures first { 2 < page → named_pages visits.old.pages.items page ≡ 0 →
        page < length visits.old.marks.items
        → IfErr result (λ f. f ≡ fault.Memory) }
    ensures faults { IfErr result (λ f. (f ≡ fault.Memory) ⊎ (f ≡ fault.Damaged page)) }
{
    if page < 3 {
        return Err(Fault::Damaged(page));
    }
    visits.visit(page)
}

// Checks the chains that a directory names, and appends their objects and their pages.
fn add_chains<const D: usize, B: BlockDevice, A: Allocator + Copy, H: Allocator + Copy>(
    alloc: H,
    cache: &mut PageCache<B, A>,
    directory: &[u8; 4096],
    visits: &mut Visits<H>,
    pairs: &mut Vec<(u64, (BBox<D>, u32)), H>,
) -> Result<(), Fault>
    requires dims { IsDims D }
    requires numbers { length visits.old.marks.items ≡ next_of cache.old }
    ensures asks { Asks cache.old cache.new result }
    ensures found { IsHonest cache.old → OnOk result (AddsChains D (given cache.old) directory.now 1000
        pairs.old.items pairs.new.items visits.old.pages.items visits.new.pages.items) }
    ensures stands { IsHonest cache.old → (chains : List (List Bucket)) → length chains ≡ 1000
        → MayStand D (given cache.old) directory.now chains visits.old.pages.items → IfErr result IsOfDevice }
    ensures numbers { length visits.new.marks.items ≡ length visits.old.marks.items }
    ensures looks { looks_of cache.new + length visits.old.pages.items
        ≤ looks_of cache.old + length visits.new.pages.items }
    ensures damage { IsHonest cache.old
        → IfErr result (λ f. (n : ℕ) → f ≡ fault.Damaged n → ComesFrom D (given cache.old) directory.now n) }
    ensures other_faults { IfErr result (λ f. IsOfDevice f ⊎ IsDamage f) }
{
    for class in 0..1000 {
        add_chain::<D, B, A, H>(
            alloc,
            cache,
            link_of(directory, class),
            class,
            visits,
            pairs,
        )?;
    }
    Ok(())
}

// Checks the chain of a remainder from its first page on, and appends its objects and its pages.
fn add_chain<const D: usize, B: BlockDevice, A: Allocator + Copy, H: Allocator + Copy>(
    alloc: H,
    cache: &mut PageCache<B, A>,
    first: u32,
    class: usize,
    visits: &mut Visits<H>,
    pairs: &mut Vec<(u64, (BBox<D>, u32)), H>,
) -> Result<(), Fault>
    requires dims { IsDims D }
    requires numbers { length visits.old.marks.items ≡ next_of cache.old }
    ensures asks { Asks cache.old cache.new result }
    ensures found { IsHonest cache.old → OnOk result (AddsChain D (given cache.old) class first
        pairs.old.items pairs.new.items visits.old.pages.items visits.new.pages.items) }
    ensures stands { IsHonest cache.old → (chain : List Bucket) → ChainStands D (given cache.old) first chain
        → IsFilled class chain →
        ((n : ℕ) → named_pages visits.old.pages.items n + occurs_in_chain n chain ≤ 1)
        → IfErr result IsOfDevice }
    ensures numbers { length visits.new.marks.items ≡ length visits.old.marks.items }
    ensures looks { looks_of cache.new + length visits.old.pages.items
        ≤ looks_of cache.old + length visits.new.pages.items }
    ensures damage { IsHonest cache.old
        → IfErr result (λ f. (n : ℕ) → f ≡ fault.Damaged n → ComesAlong D (given cache.old) first n) }
    ensures other_faults { IfErr result (λ f. IsOfDevice f ⊎ IsDamage f) }
{
    let mut seen = BTreeSet::new(alloc);
    let mut number = first;
    for walked in 0..cache.next_number() {
        if number == 0 {
            return Ok(());
        }
        let bucket = Expected {
            number,
            class,
            whole: walked > 0,
        };
        number = add_bucket::<D, B, A, H>(cache, bucket, visits, &mut seen, pairs)?;
    }
    Err(Fault::Damaged(number))
}

// What the bucket in a page is to be: of objects of this remainder, and full where another one comes before
// it.
#[derive(Clone, Copy, Drop)]
struct Expected {
    number: u32,
    class: usize,
    whole: bool,
}

// Checks a bucket, and appends its objects and its page. Answers the page of the next one.
#[tactic(auto, using(page_cache::specs::Calls::ends_so))]
fn add_bucket<const D: usize, B: BlockDevice, A: Allocator + Copy, H: Allocator + Copy>(
    cache: &mut PageCache<B, A>,
    bucket: Expected,
    visits: &mut Visits<H>,
    seen: &mut BTreeSet<u64, H>,
    pairs: &mut Vec<(u64, (BBox<D>, u32)), H>,
) -> Result<u32, Fault>
    requires dims { IsDims D }
    requires numbers { length visits.old.marks.items ≡ next_of cache.old }
    ensures asks { Asks cache.old cache.new result }
    ensures found { IsHonest cache.old →
        IfOk result (λ next. AddsBucket D (given cache.old) bucket.class bucket.number next bucket.whole
        pairs.old.items pairs.new.items visits.old.pages.items visits.new.pages.items seen.old seen.new) }
    ensures stands { IsHonest cache.old → (c : BucketContent)
        → bucket_in D (given cache.old bucket.number) ≡ Some c
        → MayFollow bucket.class bucket.number bucket.whole c visits.old.pages.items seen.old
        → IfErr result IsOfDevice }
    ensures numbers { length visits.new.marks.items ≡ length visits.old.marks.items }
    ensures looks { looks_of cache.new + length visits.old.pages.items
        ≤ looks_of cache.old + length visits.new.pages.items }
    ensures damage { IsHonest cache.old
        → IfErr result (λ f. IsOfDevice f ⊎ (f ≡ fault.Damaged bucket.number)) }
    ensures other_faults { IfErr result (λ f. IsOfDevice f ⊎ IsDamage f) }
{
    come_to(bucket.number, visits)?;
    let page = cache.page(bucket.number)?;
    if !is_in_chain::<D>(page, bucket.whole) {
        return Err(Fault::Damaged(bucket.number));
    }
    add_objects::<D, H>(page, bucket.number, bucket.class, seen, pairs)?;
    Ok(next_at(page))
}

// Whether a page begins as a bucket, and a full one where it has to.
fn is_in_chain<const D: usize>(page: &[u8; 4096], whole: bool) -> bool
    ensures { IsTrue result ↔ (HasBucketHead D page.now × (whole ≡ true → number_at 2 2 page.now ≡ 100)) }
{
    has_bucket_head::<D>(page) && (!whole || count_at(page) == 100)
}

// Appends the objects of a bucket page, each of which has the remainder and an identifier that was not seen
// before.
fn add_objects<const D: usize, H: Allocator + Copy>(
    page: &[u8; 4096],
    number: u32,
    class: usize,
    seen: &mut BTreeSet<u64, H>,
    pairs: &mut Vec<(u64, (BBox<D>, u32)), H>,
) -> Result<(), Fault>
    requires dims { IsDims D }
    requires few { number_at 2 2 page.now ≤ 100 }
    ensures ordered { OnOk result ((place : ℕ) → place < number_at 2 2 page.now
        → HasOrderedBox D (object_at D page.now place)) }
    ensures found { OnOk result
        (AddsObjects class (objects_at D page.now (number_at 2 2 page.now)) pairs.old.items
        pairs.new.items seen.old seen.new) }
    ensures stands { (c : BucketContent) → bucket_at D page.now ≡ Some c
        → All (λ object. class_of object.0 ≡ class) c.entries
        → ((id : ℕ) → seen_times seen.old id + times_in id c.entries ≤ 1) →
        IfErr result (λ f. f ≡ fault.Memory) }
    ensures faults { IfErr result (λ f. (f ≡ fault.Memory) ⊎ (f ≡ fault.Damaged number)) }
{
    for place in 0..count_at(page) {
        let Some(object) = entry_at::<D>(page, place) else {
            return Err(Fault::Damaged(number));
        };
        if !sees_new(object.0, class, seen)? {
            return Err(Fault::Damaged(number));
        }
        pairs.push(object)?;
    }
    Ok(())
}

// Sees an identifier, and answers whether it has the remainder and was not seen before.
fn sees_new<H: Allocator + Copy>(
    id: u64,
    class: usize,
    seen: &mut BTreeSet<u64, H>,
) -> Result<bool, Fault>
    ensures new { IfOk result (λ new. new ≡ true → (class_of id ≡ class) × SeesOne seen.old seen.new id) }
    ensures known { IfOk result (λ new. new ≡ false → class_of id ≡ class → seen_times seen.old id ≡ 1) }
    ensures memory { IfErr result (λ f. f ≡ fault.Memory) }
{
    if class_of(id) != class {
        return Ok(false);
    }
    Ok(seen.insert(id)?)
}
