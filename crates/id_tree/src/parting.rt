//! The objects of a leaf page on both sides of a key, and the children of a fork page on both sides of a
//! place, as pages of their own.

ghost use Rattle.std.specs.Prelude.{◌≡◌, ℕ, ◌+◌, ◌*◌, ◌<◌, ◌-◌, ◌≤◌, Some, List, [], ◌∷◌, ◌++◌, length, take};
ghost use Rattle.std.specs.Prelude.{All, drop};
ghost use Rattle.std.specs.Prelude.{slice_index_or};
ghost use Rattle.block_bytes.specs.Numbers.{number_at};
ghost use Rattle.bucket_page.specs.Layout.{Entry};
ghost use Rattle.id_words.specs.Objects.{times_in};
ghost use Rattle.id_page.specs.Fork.{ForkContent, fork_at, with_links, IsTidyFork};
ghost use Rattle.id_page.specs.Leaf.{leaf_at, most_objects, IsTidyLeaf};
ghost use Rattle.id_tree.specs.Halving.{from_key, under_key};

use block_bytes::zero_block;
use id_page::{
    append_links, count_at, dims_at, id_at, keep_links, object_at, objects_that_fit, push_object,
    start_fork, start_leaf,
};

// How many objects of a leaf page have an identifier below a key.
pub(crate) fn count_under<const D: usize>(page: &[u8; 4096], key: u64) -> usize
    requires few { number_at 2 2 page.now ≤ most_objects D }
    ensures count { (objects : List Entry) → leaf_at D page.now ≡ Some objects
        → result ≡ length (under_key key objects) }
    ensures few { result ≤ number_at 2 2 page.now }
{
    let mut count = 0;
    for place in 0..count_at(page) {
        if id_at::<D>(page, place) < key {
            count += 1;
        }
    }
    count
}

// The key with so many objects of a leaf page below it, where each has an identifier of its own and there are
// more. It is looked for by halves of the keys between the least and the greatest identifier, up to the first
// key that has so many below it.
pub(crate) fn key_with<const D: usize>(page: &[u8; 4096], many: usize) -> u64
    requires few { number_at 2 2 page.now ≤ most_objects D }
    ensures parts { (objects : List Entry) → leaf_at D page.now ≡ Some objects
        → ((id : ℕ) → times_in id objects ≤ 1) → 0 < many → many < length objects
        → length (under_key result objects) ≡ many }
{
    let ends = ends_with::<D>(page, many);
    let mut low = ends.0;
    let mut high = ends.1;
    'halves: while high - low > 1 {
        let middle = middle_of(low, high);
        let below = count_under::<D>(page, middle);
        if below == many {
            return middle;
        }
        if below < many {
            low = middle;
        } else {
            high = middle;
        }
    }
    high
}

// Two keys, of which fewer than so many objects are below the first, and as many or more below the second:
// the least and the greatest identifier, or the ends of all keys where they are none.
fn ends_with<const D: usize>(page: &[u8; 4096], many: usize) -> (u64, u64)
    requires few { number_at 2 2 page.now ≤ most_objects D }
    ensures some { result.0 < result.1 }
    ensures low { (objects : List Entry) → leaf_at D page.now ≡ Some objects
        → 0 < many → length (under_key result.0 objects) < many }
    ensures high { (objects : List Entry) → leaf_at D page.now ≡ Some objects
        → ((id : ℕ) → times_in id objects ≤ 1) → many < length objects
        → many ≤ length (under_key result.1 objects) }
{
    let (least, greatest) = ends_of::<D>(page);
    if least < greatest
        && count_under::<D>(page, least) < many
        && many <= count_under::<D>(page, greatest)
    {
        return (least, greatest);
    }
    (0, u64::MAX)
}

// The least and the greatest identifier of a leaf page.
fn ends_of<const D: usize>(page: &[u8; 4096]) -> (u64, u64)
    requires few { number_at 2 2 page.now ≤ most_objects D }
    ensures { (objects : List Entry) → leaf_at D page.now ≡ Some objects
        → All (λ o. (result.0 ≤ o.0) × (o.0 ≤ result.1)) objects }
{
    let mut least = u64::MAX;
    let mut greatest = 0;
    for place in 0..count_at(page) {
        let id = id_at::<D>(page, place);
        least = least.min(id);
        greatest = greatest.max(id);
    }
    (least, greatest)
}

// The key in the middle between two that are not next to one another.
fn middle_of(low: u64, high: u64) -> u64
    requires two { low + 1 < high }
    ensures above { low < result }
    ensures below { result < high }
    ensures half { (2 * (result - low) ≤ high - low) × (2 * (high - result) ≤ high - low + 1) }
{
    low + (high - low) / 2
}

// Adds the objects of another leaf page with an identifier below a key to a leaf page that has room for them.
pub(crate) fn append_under<const D: usize>(page: &mut [u8; 4096], other: &[u8; 4096], key: u64)
    requires few { number_at 2 2 other.now ≤ most_objects D }
    ensures appended { (objects more : List Entry) → leaf_at D page.old ≡ Some objects
        → leaf_at D other.now ≡ Some more → length objects + length (under_key key more) ≤ most_objects D
        → leaf_at D page.new ≡ Some (objects ++ under_key key more) }
    ensures tidy { IsTidyLeaf D page.old → IsTidyLeaf D page.new }
{
    for place in 0..count_at(other) {
        if id_at::<D>(other, place) < key {
            push_from::<D>(page, other, place);
        }
    }
}

// Adds the objects of another leaf page with an identifier from a key on to a leaf page that has room for
// them.
pub(crate) fn append_from<const D: usize>(page: &mut [u8; 4096], other: &[u8; 4096], key: u64)
    requires few { number_at 2 2 other.now ≤ most_objects D }
    ensures appended { (objects more : List Entry) → leaf_at D page.old ≡ Some objects
        → leaf_at D other.now ≡ Some more → length objects + length (from_key key more) ≤ most_objects D
        → leaf_at D page.new ≡ Some (objects ++ from_key key more) }
    ensures tidy { IsTidyLeaf D page.old → IsTidyLeaf D page.new }
{
    for place in 0..count_at(other) {
        if id_at::<D>(other, place) >= key {
            push_from::<D>(page, other, place);
        }
    }
}

// Adds the object in the place of another leaf page, where there is room for it.
fn push_from<const D: usize>(page: &mut [u8; 4096], other: &[u8; 4096], place: usize)
    requires within { place < most_objects D }
    ensures pushed { (objects more : List Entry) (none : Entry) → leaf_at D page.old ≡ Some objects
        → leaf_at D other.now ≡ Some more → place < length more → length objects < most_objects D
        → leaf_at D page.new ≡ Some (objects ++ slice_index_or more place none ∷ []) }
    ensures tidy { IsTidyLeaf D page.old → IsTidyLeaf D page.new }
{
    if count_at(page) >= objects_that_fit::<D>() {
        return;
    }
    if let Some(object) = object_at::<D>(other, place) {
        push_object(page, &object);
    }
}

// The leaf of the objects with an identifier below a key, and that of those from it on.
pub(crate) fn leaf_under<const D: usize>(page: &[u8; 4096], key: u64) -> [u8; 4096]
    requires few { number_at 2 2 page.now ≤ most_objects D }
    ensures under { (objects : List Entry) → leaf_at D page.now ≡ Some objects
        → leaf_at D result ≡ Some (under_key key objects) }
    ensures tidy { IsTidyLeaf D result }
{
    let mut under = zero_block();
    start_leaf(&mut under, dims_at(page));
    append_under::<D>(&mut under, page, key);
    under
}

pub(crate) fn leaf_from<const D: usize>(page: &[u8; 4096], key: u64) -> [u8; 4096]
    requires few { number_at 2 2 page.now ≤ most_objects D }
    ensures from { (objects : List Entry) → leaf_at D page.now ≡ Some objects
        → leaf_at D result ≡ Some (from_key key objects) }
    ensures tidy { IsTidyLeaf D result }
{
    let mut from = zero_block();
    start_leaf(&mut from, dims_at(page));
    append_from::<D>(&mut from, page, key);
    from
}

// The fork of the first children of a fork page, and that of those from a place on.
pub(crate) fn fork_upto(page: &[u8; 4096], many: usize) -> [u8; 4096]
    requires few { number_at 2 2 page.now ≤ 340 }
    ensures count { number_at 2 2 result ≤ many }
    ensures upto { (dims : ℕ) (c : ForkContent) → fork_at dims page.now ≡ Some c
        → fork_at dims result ≡ Some (with_links c (take many c.links)) }
    ensures tidy { IsTidyFork page.now → IsTidyFork result }
{
    let mut first = *page;
    keep_links(&mut first, many);
    first
}

pub(crate) fn fork_beyond(page: &[u8; 4096], level: u8, many: usize) -> [u8; 4096]
    requires high { 1 ≤ level }
    requires few { number_at 2 2 page.now ≤ 340 }
    requires within { many ≤ number_at 2 2 page.now }
    ensures count { number_at 2 2 result + many ≡ number_at 2 2 page.now }
    ensures beyond { (dims : ℕ) (c : ForkContent) → fork_at dims page.now ≡ Some c
        → fork_at dims result ≡ Some (record { level = level; links = drop many c.links }) }
    ensures tidy { IsTidyFork result }
{
    let mut last = zero_block();
    start_fork(&mut last, dims_at(page), level);
    append_links(&mut last, page, many);
    last
}
