//! Looks at the pages of a tree.

ghost use Rattle.std.specs.Prelude.{◌≡◌, ◌≢◌, ℕ, ◌≤◌, ◌<◌, ◌⊎◌, Some, None, List, length, IfErr, IfOk};
ghost use Rattle.std.specs.Prelude.{IsSomeAnd};
ghost use Rattle.std.specs.Prelude.{IfSome, IsSome, OnOk, ◌+◌};
ghost use Rattle.block_bytes.specs.Numbers.{number_at};
ghost use Rattle.box_math.specs.Bounds.{IsDims};
ghost use Rattle.bucket_page.specs.Layout.{Entry};
ghost use Rattle.page_file.specs.Fault.{IsDamage, IsOfDevice};
ghost use Rattle.page_file.specs.declared.fault.Fault.TheVariants as fault;
ghost use Rattle.page_cache.specs.Cache.{IsHonest, IsLive, pages, given};
ghost use Rattle.page_cache.specs.Calls.{Asks};
ghost use Rattle.id_words.specs.Objects.{kept_in};
ghost use Rattle.id_page.specs.Fork.{AreAscending, ForkContent, fork_at, link_at, route, route_place};
ghost use Rattle.id_page.specs.Leaf.{HasLeafHead, leaf_at, leaf_object, most_objects};
ghost use Rattle.id_tree.specs.Rows.{IsFoundAt};
ghost use Rattle.id_tree.specs.Runs.{IsUpto};
ghost use Rattle.id_tree.specs.Tree.{fork_in, leaf_in};
ghost use Rattle.id_tree.specs.Checked.{BeginsAsLeaf, Names, NamesChild, SpellsFork};

use block_device::BlockDevice;
use box_math::BBox;
use id_page::{
    count_at, has_fork_head, has_leaf_head, key_at, level_at, object_at, page_at, place_of_child,
    place_of_id,
};
use page_cache::PageCache;
use page_file::Fault;
use std::alloc::Allocator;

/// What a fork says of the way to an identifier: its level, how many children it has, the place and the page
/// of the child where the identifier is, and the greatest identifier that is there too.
#[derive(Clone, Copy, Drop)]
pub(crate) struct Way {
    pub(crate) level: u8,
    pub(crate) count: usize,
    pub(crate) place: usize,
    pub(crate) child: Option<u32>,
    pub(crate) upto: u64,
}

// The way to an identifier in a fork page. A fork of no children has none.
fn way_on(page: &[u8; 4096], id: u64) -> Way
    requires few { number_at 2 2 page.now ≤ 340 }
    ensures level { (dims : ℕ) (c : ForkContent) → fork_at dims page.now ≡ Some c → result.level ≡ c.level }
    ensures count { (dims : ℕ) (c : ForkContent) → fork_at dims page.now ≡ Some c
        → result.count ≡ length c.links }
    ensures child { (dims : ℕ) (c : ForkContent) → fork_at dims page.now ≡ Some c → AreAscending c.links
        → result.child ≡ route id c.links }
    ensures place { (dims : ℕ) (c : ForkContent) → fork_at dims page.now ≡ Some c → AreAscending c.links
        → result.place ≡ route_place id c.links }
    ensures upto { (dims : ℕ) (c : ForkContent) → fork_at dims page.now ≡ Some c
        → IsUpto c.links result.place result.upto }
    ensures named { (dims : ℕ) (c : ForkContent) → fork_at dims page.now ≡ Some c
        → IfSome result.child (Names c) }
    ensures none { result.child ≡ None → result.count ≡ 0 }
    ensures within { result.place ≤ result.count }
    ensures few { result.count ≤ 340 }
{
    let level = level_at(page);
    let count = count_at(page);
    if count == 0 {
        return Way {
            level,
            count,
            place: 0,
            child: None,
            upto: u64::MAX,
        };
    }
    let place = place_of_child(page, id);
    Way {
        level,
        count,
        place,
        child: Some(page_at(page, place)),
        upto: upto_on(page, place, count),
    }
}

// The greatest identifier of the child in a place of a fork page of so many.
fn upto_on(page: &[u8; 4096], place: usize, count: usize) -> u64
    requires within { place < count }
    requires few { count ≤ 340 }
    requires some { (place + 1 ≡ count) ⊎ (0 < (link_at page.now (place + 1)).0) }
    ensures upto { (dims : ℕ) (c : ForkContent) → fork_at dims page.now ≡ Some c → count ≡ length c.links
        → IsUpto c.links place result }
{
    if place + 1 == count {
        return u64::MAX;
    }
    key_at(page, place + 1) - 1
}

// The way to an identifier in the fork at a page, in one look. A page that is none of this dimension is
// `Damaged`.
#[tactic(auto, using(page_cache::specs::Calls::ends_so))]
pub(crate) fn step<const D: usize, B: BlockDevice, A: Allocator + Copy>(
    cache: &mut PageCache<B, A>,
    number: u32,
    id: u64,
) -> Result<Way, Fault>
    ensures asks { Asks cache.old cache.new result }
    ensures level { IsHonest cache.old → (c : ForkContent) → fork_in D (pages cache.old number) ≡ Some c
        → IfOk result (λ way. way.level ≡ c.level) }
    ensures count { IsHonest cache.old → (c : ForkContent) → fork_in D (pages cache.old number) ≡ Some c
        → IfOk result (λ way. way.count ≡ length c.links) }
    ensures child { IsHonest cache.old → (c : ForkContent) → fork_in D (pages cache.old number) ≡ Some c
        → AreAscending c.links → IfOk result (λ way. way.child ≡ route id c.links) }
    ensures place { IsHonest cache.old → (c : ForkContent) → fork_in D (pages cache.old number) ≡ Some c
        → AreAscending c.links → IfOk result (λ way. way.place ≡ route_place id c.links) }
    ensures upto { IsHonest cache.old → (c : ForkContent) → fork_in D (pages cache.old number) ≡ Some c
        → IfOk result (λ way. IsUpto c.links way.place way.upto) }
    ensures names { IsHonest cache.old → IfOk result
        (λ way. IfSome way.child (NamesChild D (given cache.old) number)) }
    ensures fork { IsHonest cache.old → IfOk result
        (λ way. SpellsFork D (given cache.old) number way.level way.count) }
    ensures none { IfOk result (λ way. way.child ≡ None → way.count ≡ 0) }
    ensures within { IfOk result (λ way. way.place ≤ way.count) }
    ensures few { IfOk result (λ way. way.count ≤ 340) }
    ensures there { IsHonest cache.old → (c : ForkContent) → fork_in D (pages cache.old number) ≡ Some c
        → IfErr result IsOfDevice }
    ensures damage { IsHonest cache.old → IfErr result (λ f. IsOfDevice f ⊎ (f ≡ fault.Damaged number)) }
    ensures other_faults { IfErr result (λ f. IsOfDevice f ⊎ IsDamage f) }
{
    let page = cache.page(number)?;
    if !has_fork_head::<D>(page) {
        return Err(Fault::Damaged(number));
    }
    Ok(way_on(page, id))
}

// The place of an identifier in a leaf page and what is kept of its object, if it is there. `None` where the
// page begins as no leaf of this dimension, or that object has no box.
fn found_on<const D: usize>(page: &[u8; 4096], id: u64) -> Option<Option<(usize, (BBox<D>, u32))>>
    ensures of_leaf { (objects : List Entry) → leaf_at D page.now ≡ Some objects
        → IsSomeAnd result (IsFoundAt id objects) }
    ensures absent { result ≡ Some None → (k : ℕ) → k < number_at 2 2 page.now
        → (leaf_object D page.now k).0 ≢ id }
    ensures head { IsSome result → HasLeafHead D page.now }
{
    if !has_leaf_head::<D>(page) {
        return None;
    }
    match place_of_id::<D>(page, id) {
        Some(place) => match object_at::<D>(page, place) {
            Some(object) => Some(Some((place, object.1))),
            None => None,
        },
        None => Some(None),
    }
}

// Looks for an identifier in the leaf at a page, in one look.
#[tactic(auto, using(page_cache::specs::Calls::ends_so))]
pub(crate) fn look<const D: usize, B: BlockDevice, A: Allocator + Copy>(
    cache: &mut PageCache<B, A>,
    number: u32,
    id: u64,
) -> Result<Option<(usize, (BBox<D>, u32))>, Fault>
    requires dims { IsDims D }
    ensures asks { Asks cache.old cache.new result }
    ensures found { IsHonest cache.old → (objects : List Entry)
        → leaf_in D (pages cache.old number) ≡ Some objects
        → IfOk result (IsFoundAt id objects) }
    ensures absent { IsHonest cache.old → (bytes : List ℕ) → given cache.old number ≡ Some bytes
        → IfOk result (λ found. found ≡ None → (k : ℕ) → k < number_at 2 2 bytes
        → (leaf_object D bytes k).0 ≢ id) }
    ensures leaf { IsHonest cache.old → OnOk result (BeginsAsLeaf D (given cache.old) number) }
    ensures there { IsHonest cache.old → (objects : List Entry)
        → leaf_in D (pages cache.old number) ≡ Some objects
        → IfErr result IsOfDevice }
    ensures damage { IsHonest cache.old → IfErr result (λ f. IsOfDevice f ⊎ (f ≡ fault.Damaged number)) }
    ensures other_faults { IfErr result (λ f. IsOfDevice f ⊎ IsDamage f) }
{
    let page = cache.page(number)?;
    match found_on::<D>(page, id) {
        Some(found) => Ok(found),
        None => Err(Fault::Damaged(number)),
    }
}

// How many objects or children the node at a page says it has, in one look.
#[tactic(auto, using(page_cache::specs::Calls::ends_so))]
pub(crate) fn count_in<B: BlockDevice, A: Allocator + Copy>(
    cache: &mut PageCache<B, A>,
    number: u32,
) -> Result<usize, Fault>
    ensures asks { Asks cache.old cache.new result }
    ensures count { IsHonest cache.old → (page : List ℕ) → pages cache.old number ≡ Some page
        → IfOk result (λ count. count ≡ number_at 2 2 page) }
    ensures there { IsHonest cache.old → IsLive cache.old number → IfErr result IsOfDevice }
    ensures damage { IsHonest cache.old → IfErr result (λ f. IsOfDevice f ⊎ (f ≡ fault.Damaged number)) }
    ensures other_faults { IfErr result (λ f. IsOfDevice f ⊎ IsDamage f) }
{
    let page = cache.page(number)?;
    Ok(count_at(page))
}

// The bytes of a page, in one look.
#[tactic(auto, using(page_cache::specs::Calls::ends_so))]
pub(crate) fn copy_page<B: BlockDevice, A: Allocator + Copy>(
    cache: &mut PageCache<B, A>,
    number: u32,
) -> Result<[u8; 4096], Fault>
    ensures asks { Asks cache.old cache.new result }
    ensures bytes { IsHonest cache.old → IsLive cache.old number
        → IfOk result (λ bytes. pages cache.old number ≡ Some bytes) }
    ensures given_bytes { IsHonest cache.old → IfOk result (λ bytes. given cache.old number ≡ Some bytes) }
    ensures there { IsHonest cache.old → IsLive cache.old number → IfErr result IsOfDevice }
    ensures damage { IsHonest cache.old → IfErr result (λ f. IsOfDevice f ⊎ (f ≡ fault.Damaged number)) }
    ensures other_faults { IfErr result (λ f. IsOfDevice f ⊎ IsDamage f) }
{
    Ok(*cache.page(number)?)
}
