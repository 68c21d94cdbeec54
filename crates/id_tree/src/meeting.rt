//! What two neighbouring nodes have, as one page or as two shares of it.

ghost use Rattle.std.specs.Prelude.{◌≡◌, ◌<◌, ◌≤◌, ◌+◌, ◌-◌, ◌⊎◌, ℕ, Bool, true, false, Some, List, ◌++◌};
ghost use Rattle.std.specs.Prelude.{All, length, take, drop, slice_index_or, IfErr};
ghost use Rattle.block_bytes.specs.Numbers.{number_at};
ghost use Rattle.bucket_page.specs.Layout.{Entry};
ghost use Rattle.page_file.specs.Fault.{IsDamage, IsOfDevice};
ghost use Rattle.page_cache.specs.Cache.{IsHonest, pages};
ghost use Rattle.page_cache.specs.Calls.{Asks};
ghost use Rattle.id_page.specs.Fork.{ForkContent, Link, fork_at, with_links, IsTidyFork};
ghost use Rattle.id_page.specs.Leaf.{leaf_at, most_objects, IsTidyLeaf};
ghost use Rattle.id_words.specs.Objects.{times_in};
ghost use Rattle.id_tree.specs.Cutting.{CutsFork, CutsLeaf, SpellsNode};
ghost use Rattle.id_tree.specs.Halving.{from_key, under_key};
ghost use Rattle.id_tree.specs.Joining.{AreNeighbours, AreTooMany, FitTogether, HaveRoom, IsBalanced, met};
ghost use Rattle.id_tree.specs.Joining.{with_key, CutsBoth};
ghost use Rattle.id_tree.specs.Tree.{HasNode, Row};
ghost use Rattle.id_tree.specs.Tidy.{IsAsTidy};
ghost use Rattle.id_tree.specs.Works.{Finds};
ghost use Rattle.page_file.specs.declared.fault.Fault.TheVariants as fault;

use crate::halving::Cut;
use crate::looks::{copy_page, count_in};
use crate::parting::{append_from, append_under, fork_beyond, fork_upto, key_with};
use block_bytes::zero_block;
use block_device::BlockDevice;
use id_page::{
    MOST_CHILDREN, append_links, append_objects, count_at, dims_at, key_at, objects_that_fit,
    set_key, start_leaf,
};
use page_cache::PageCache;
use page_file::Fault;
use std::alloc::Allocator;

// Whether what the nodes of that level at two pages have fits into one page, in a look at each.
#[tactic(auto, using(page_cache::specs::Calls::turns))]
pub(crate) fn fit_together<const D: usize, B: BlockDevice, A: Allocator + Copy>(
    cache: &mut PageCache<B, A>,
    first: u32,
    second: u32,
    level: u8,
) -> Result<bool, Fault>
    ensures asks { Asks cache.old cache.new result }
    ensures fits { IsHonest cache.old → (one two : Row) → HasNode D (pages cache.old) first level one
        → HasNode D (pages cache.old) second level two → Finds result (λ fit.
        (fit ≡ true → FitTogether D level one two) × (fit ≡ false → AreTooMany D level one two)) }
    ensures damage { IsHonest cache.old → IfErr result (λ f. (n : ℕ) → f ≡ fault.Damaged n
        → (n ≡ first) ⊎ (n ≡ second)) }
    ensures other_faults { IfErr result (λ f. IsOfDevice f ⊎ IsDamage f) }
{
    let one = count_in(cache, first)?;
    let two = count_in(cache, second)?;
    if level == 0 {
        return Ok(fit_in(one, two, objects_that_fit::<D>()));
    }
    Ok(fit_in(one, two, MOST_CHILDREN))
}

// Whether so many and so many are at most as many as fit.
fn fit_in(one: usize, two: usize, most: usize) -> bool
    ensures fit { result ≡ true → one + two ≤ most }
    ensures many { result ≡ false → most < one + two }
{
    if one > most {
        return false;
    }
    two <= most - one
}

// The page of what the nodes of that level at two pages have, where it fits into one. Pages that are none, or
// have too much, are `Damaged`.
#[tactic(auto, using(page_cache::specs::Calls::turns))]
pub(crate) fn joined<const D: usize, B: BlockDevice, A: Allocator + Copy>(
    cache: &mut PageCache<B, A>,
    first: u32,
    second: u32,
    key: u64,
    level: u8,
) -> Result<[u8; 4096], Fault>
    ensures asks { Asks cache.old cache.new result }
    ensures joins { IsHonest cache.old → (one two : Row) → HasNode D (pages cache.old) first level one
        → HasNode D (pages cache.old) second level two → FitTogether D level one two → Finds result
        (λ page. SpellsNode D level (met key one two) page × IsAsTidy D (pages cache.old) page) }
    ensures damage { IsHonest cache.old → IfErr result (λ f. (n : ℕ) → f ≡ fault.Damaged n
        → (n ≡ first) ⊎ (n ≡ second)) }
    ensures other_faults { IfErr result (λ f. IsOfDevice f ⊎ IsDamage f) }
{
    let one = copy_page(cache, first)?;
    let two = copy_page(cache, second)?;
    if level == 0 {
        if !fit_in(count_at(&one), count_at(&two), objects_that_fit::<D>()) {
            return Err(Fault::Damaged(first));
        }
        return Ok(joined_leaf::<D>(&one, &two));
    }
    if !fit_in(count_at(&one), count_at(&two), MOST_CHILDREN) {
        return Err(Fault::Damaged(first));
    }
    Ok(joined_fork(&one, &two, key))
}

// The leaf of the objects of two leaf pages.
fn joined_leaf<const D: usize>(one: &[u8; 4096], two: &[u8; 4096]) -> [u8; 4096]
    requires few { number_at 2 2 one.now + number_at 2 2 two.now ≤ most_objects D }
    ensures all { (xs ys : List Entry) → leaf_at D one.now ≡ Some xs → leaf_at D two.now ≡ Some ys
        → leaf_at D result ≡ Some (xs ++ ys) }
    ensures tidy { IsTidyLeaf D one.now → IsTidyLeaf D result }
{
    let mut all = *one;
    append_objects::<D>(&mut all, two, 0);
    all
}

// The fork of the children of two fork pages, where the first one of the second page has this key.
fn joined_fork(one: &[u8; 4096], two: &[u8; 4096], key: u64) -> [u8; 4096]
    requires few { number_at 2 2 one.now + number_at 2 2 two.now ≤ 340 }
    ensures all { (dims : ℕ) (c d : ForkContent) → fork_at dims one.now ≡ Some c
        → fork_at dims two.now ≡ Some d
        → fork_at dims result ≡ Some (with_links c (c.links ++ with_key key d.links)) }
    ensures tidy { IsTidyFork one.now → IsTidyFork result }
{
    let behind = with_first_key(two, key);
    let mut all = *one;
    append_links(&mut all, &behind, 0);
    all
}

// A fork page with another key of its first child, if it has one.
fn with_first_key(page: &[u8; 4096], key: u64) -> [u8; 4096]
    ensures count { number_at 2 2 result ≡ number_at 2 2 page.now }
    ensures keyed { (dims : ℕ) (c : ForkContent) → fork_at dims page.now ≡ Some c
        → fork_at dims result ≡ Some (with_links c (with_key key c.links)) }
    ensures tidy { IsTidyFork page.now → IsTidyFork result }
{
    let count = count_at(page);
    if count == 0 {
        return *page;
    }
    let mut keyed = *page;
    set_key(&mut keyed, 0, key);
    keyed
}

// What the nodes of that level at two pages have, which is too much for one page, cut in two in the middle.
// Pages that are none, or have less, are `Damaged`.
#[tactic(auto, using(page_cache::specs::Calls::turns))]
pub(crate) fn shared<const D: usize, B: BlockDevice, A: Allocator + Copy>(
    cache: &mut PageCache<B, A>,
    first: u32,
    second: u32,
    key: u64,
    level: u8,
) -> Result<Cut, Fault>
    ensures asks { Asks cache.old cache.new result }
    ensures shares { IsHonest cache.old → (edge : Bool) (one two : Row)
        → AreNeighbours D (pages cache.old) level edge first second key one two → AreTooMany D level one two
        → Finds result (λ cut.
        CutsBoth D (pages cache.old) level edge key one two cut.key cut.first cut.second) }
    ensures damage { IsHonest cache.old → IfErr result (λ f. (n : ℕ) → f ≡ fault.Damaged n
        → (n ≡ first) ⊎ (n ≡ second)) }
    ensures other_faults { IfErr result (λ f. IsOfDevice f ⊎ IsDamage f) }
{
    let one = copy_page(cache, first)?;
    let two = copy_page(cache, second)?;
    if level == 0 {
        if !are_many(count_at(&one), count_at(&two), objects_that_fit::<D>()) {
            return Err(Fault::Damaged(first));
        }
        return Ok(shared_leaf::<D>(&one, &two, key));
    }
    if !are_many(count_at(&one), count_at(&two), MOST_CHILDREN) {
        return Err(Fault::Damaged(first));
    }
    Ok(shared_fork(&one, &two, level, key))
}

// Whether so many and so many fit into a page each, and not into one together.
fn are_many(one: usize, two: usize, most: usize) -> bool
    ensures few { result ≡ true → (one ≤ most) × (two ≤ most) }
    ensures many { result ≡ true → most < one + two }
    ensures accepts { one ≤ most → two ≤ most → most < one + two → result ≡ true }
{
    if one > most {
        return false;
    }
    if two > most {
        return false;
    }
    two > most - one
}

// The objects of two leaf pages, which this key parts, cut in two in the middle.
fn shared_leaf<const D: usize>(one: &[u8; 4096], two: &[u8; 4096], key: u64) -> Cut
    requires few_one { number_at 2 2 one.now ≤ most_objects D }
    requires few_two { number_at 2 2 two.now ≤ most_objects D }
    requires many { most_objects D < number_at 2 2 one.now + number_at 2 2 two.now }
    ensures cuts { (edge : Bool) (xs ys : List Entry) → leaf_at D one.now ≡ Some xs
        → leaf_at D two.now ≡ Some ys → ((q : ℕ) → times_in q (xs ++ ys) ≤ 1) → All (λ o. o.0 < key) xs
        → All (λ o. key ≤ o.0) ys → CutsLeaf D edge (xs ++ ys) result.key result.first result.second }
    ensures balanced { (xs ys : List Entry) → leaf_at D one.now ≡ Some xs → leaf_at D two.now ≡ Some ys
        → ((q : ℕ) → times_in q (xs ++ ys) ≤ 1) → All (λ o. o.0 < key) xs → All (λ o. key ≤ o.0) ys
        → IsBalanced D 0 result.first result.second }
    ensures roomy { (xs ys : List Entry) → leaf_at D one.now ≡ Some xs → leaf_at D two.now ≡ Some ys
        → ((q : ℕ) → times_in q (xs ++ ys) ≤ 1) → All (λ o. o.0 < key) xs → All (λ o. key ≤ o.0) ys
        → length xs + length ys + 2 ≤ most_objects D + most_objects D
        → HaveRoom D result.first result.second }
    ensures tidy_first { IsTidyLeaf D result.first }
    ensures tidy_second { IsTidyLeaf D result.second }
{
    let many = (count_at(one) + count_at(two)) / 2;
    let middle = middle_key::<D>(one, two, key, many);
    Cut {
        key: middle,
        first: both_under::<D>(one, two, middle),
        second: both_from::<D>(one, two, middle),
    }
}

// The key with so many objects of two leaf pages below it, where this one parts them.
fn middle_key<const D: usize>(one: &[u8; 4096], two: &[u8; 4096], key: u64, many: usize) -> u64
    requires few_one { number_at 2 2 one.now ≤ most_objects D }
    requires few_two { number_at 2 2 two.now ≤ most_objects D }
    ensures { (xs ys : List Entry) → leaf_at D one.now ≡ Some xs → leaf_at D two.now ≡ Some ys
        → ((q : ℕ) → times_in q (xs ++ ys) ≤ 1) → All (λ o. o.0 < key) xs → All (λ o. key ≤ o.0) ys
        → 0 < many → many < length xs + length ys
        → length (under_key result (xs ++ ys)) ≡ many }
{
    let count = count_at(one);
    if many < count {
        return key_with::<D>(one, many);
    }
    if many > count {
        return key_with::<D>(two, many - count);
    }
    key
}

// The leaf of the objects of two leaf pages below a key, and that of those from it on.
fn both_under<const D: usize>(one: &[u8; 4096], two: &[u8; 4096], key: u64) -> [u8; 4096]
    requires few_one { number_at 2 2 one.now ≤ most_objects D }
    requires few_two { number_at 2 2 two.now ≤ most_objects D }
    ensures under { (xs ys : List Entry) → leaf_at D one.now ≡ Some xs → leaf_at D two.now ≡ Some ys
        → length (under_key key (xs ++ ys)) ≤ most_objects D
        → leaf_at D result ≡ Some (under_key key (xs ++ ys)) }
    ensures tidy { IsTidyLeaf D result }
{
    let mut under = zero_block();
    start_leaf(&mut under, dims_at(one));
    append_under::<D>(&mut under, one, key);
    append_under::<D>(&mut under, two, key);
    under
}

fn both_from<const D: usize>(one: &[u8; 4096], two: &[u8; 4096], key: u64) -> [u8; 4096]
    requires few_one { number_at 2 2 one.now ≤ most_objects D }
    requires few_two { number_at 2 2 two.now ≤ most_objects D }
    ensures from { (xs ys : List Entry) → leaf_at D one.now ≡ Some xs → leaf_at D two.now ≡ Some ys
        → length (from_key key (xs ++ ys)) ≤ most_objects D
        → leaf_at D result ≡ Some (from_key key (xs ++ ys)) }
    ensures tidy { IsTidyLeaf D result }
{
    let mut from = zero_block();
    start_leaf(&mut from, dims_at(one));
    append_from::<D>(&mut from, one, key);
    append_from::<D>(&mut from, two, key);
    from
}

// The children of two fork pages of that level, the first one of the second page with this key, cut in two in
// the middle.
fn shared_fork(one: &[u8; 4096], two: &[u8; 4096], level: u8, key: u64) -> Cut
    requires high { 0 < level }
    requires few_one { number_at 2 2 one.now ≤ 340 }
    requires few_two { number_at 2 2 two.now ≤ 340 }
    requires many { 340 < number_at 2 2 one.now + number_at 2 2 two.now }
    ensures cuts { (dims : ℕ) (edge : Bool) (c d : ForkContent) → fork_at dims one.now ≡ Some c
        → c.level ≡ level → fork_at dims two.now ≡ Some d → d.level ≡ level
        → CutsFork dims level edge (c.links ++ with_key key d.links) result.key result.first result.second }
    ensures balanced { (dims : ℕ) (c d : ForkContent) → fork_at dims one.now ≡ Some c
        → fork_at dims two.now ≡ Some d → IsBalanced dims level result.first result.second }
    ensures tidy_first { IsTidyFork one.now → IsTidyFork result.first }
    ensures tidy_second { IsTidyFork result.second }
{
    let behind = with_first_key(two, key);
    let count = count_at(one);
    let many = (count + count_at(two)) / 2;
    if many < count {
        return cut_first(one, &behind, level, many);
    }
    cut_second(one, &behind, level, many - count)
}

// Both forks where the cut is before a child of the first one.
fn cut_first(one: &[u8; 4096], two: &[u8; 4096], level: u8, many: usize) -> Cut
    requires high { 0 < level }
    requires few_one { number_at 2 2 one.now ≤ 340 }
    requires within { many < number_at 2 2 one.now }
    requires room { (number_at 2 2 one.now - many) + number_at 2 2 two.now ≤ 340 }
    ensures key { (dims : ℕ) (c : ForkContent) (other : Link) → fork_at dims one.now ≡ Some c
        → result.key ≡ (slice_index_or c.links many other).0 }
    ensures first { (dims : ℕ) (c : ForkContent) → fork_at dims one.now ≡ Some c
        → fork_at dims result.first ≡ Some (with_links c (take many c.links)) }
    ensures second { (dims : ℕ) (c d : ForkContent) → fork_at dims one.now ≡ Some c
        → fork_at dims two.now ≡ Some d
        → fork_at dims result.second ≡ Some (record { level = level; links = drop many c.links ++ d.links }) }
    ensures tidy_first { IsTidyFork one.now → IsTidyFork result.first }
    ensures tidy_second { IsTidyFork result.second }
{
    let key = key_at(one, many);
    let first = fork_upto(one, many);
    let mut second = fork_beyond(one, level, many);
    append_links(&mut second, two, 0);
    Cut { key, first, second }
}

// Both forks where the cut is before a child of the second one.
fn cut_second(one: &[u8; 4096], two: &[u8; 4096], level: u8, many: usize) -> Cut
    requires high { 0 < level }
    requires few_two { number_at 2 2 two.now ≤ 340 }
    requires within { many < number_at 2 2 two.now }
    requires room { number_at 2 2 one.now + many ≤ 340 }
    ensures key { (dims : ℕ) (d : ForkContent) (other : Link) → fork_at dims two.now ≡ Some d
        → result.key ≡ (slice_index_or d.links many other).0 }
    ensures first { (dims : ℕ) (c d : ForkContent) → fork_at dims one.now ≡ Some c
        → fork_at dims two.now ≡ Some d
        → fork_at dims result.first ≡ Some (with_links c (c.links ++ take many d.links)) }
    ensures second { (dims : ℕ) (d : ForkContent) → fork_at dims two.now ≡ Some d
        → fork_at dims result.second ≡ Some (record { level = level; links = drop many d.links }) }
    ensures tidy_first { IsTidyFork one.now → IsTidyFork result.first }
    ensures tidy_second { IsTidyFork result.second }
{
    let key = key_at(two, many);
    let second = fork_beyond(two, level, many);
    let upto = fork_upto(two, many);
    let mut first = *one;
    append_links(&mut first, &upto, 0);
    Cut { key, first, second }
}
