//! Where a full node is cut in two.

ghost use Rattle.std.specs.Prelude.{◌≡◌, ◌<◌, ◌≤◌, ◌⊎◌, ◌+◌, ◌-◌, ◌/◌, ℕ, Bool, List, length, Some};
ghost use Rattle.std.specs.Prelude.{true, false, IfErr, IfOk};
ghost use Rattle.block_bytes.specs.Numbers.{number_at};
ghost use Rattle.bucket_page.specs.Layout.{Entry};
ghost use Rattle.page_file.specs.Fault.{IsDamage, IsOfDevice};
ghost use Rattle.page_file.specs.declared.fault.Fault.TheVariants as fault;
ghost use Rattle.page_cache.specs.Cache.{IsHonest, pages};
ghost use Rattle.page_cache.specs.Calls.{Asks};
ghost use Rattle.id_page.specs.Fork.{ForkContent, fork_at, IsTidyFork};
ghost use Rattle.id_page.specs.Leaf.{leaf_at, most_objects, IsTidyLeaf};
ghost use Rattle.id_words.specs.Objects.{times_in};
ghost use Rattle.id_tree.specs.Cutting.{Cuts, CutsFork, CutsLeaf};
ghost use Rattle.id_tree.specs.Halving.{under_key};
ghost use Rattle.id_tree.specs.Steps.{MayHalve};
ghost use Rattle.id_tree.specs.Tree.{Row, least_objects};
ghost use Rattle.id_tree.specs.Tidy.{AreAsTidy};

use crate::looks::copy_page;
use crate::parting::{count_under, fork_beyond, fork_upto, key_with, leaf_from, leaf_under};
use block_device::BlockDevice;
use id_page::{MOST_CHILDREN, count_at, key_at, objects_that_fit};
use page_cache::PageCache;
use page_file::Fault;
use std::alloc::Allocator;

/// A node cut in two: the page of what is below a key, and that of what is from it on.
#[derive(Drop)]
pub(crate) struct Cut {
    pub(crate) key: u64,
    pub(crate) first: [u8; 4096],
    pub(crate) second: [u8; 4096],
}

// Looks where the full node of that level at a page is to be cut before an identifier comes. A page that does
// not begin as a full one is `Damaged`.
#[tactic(auto, using(page_cache::specs::Calls::ends_so))]
pub(crate) fn plan<const D: usize, B: BlockDevice, A: Allocator + Copy>(
    cache: &mut PageCache<B, A>,
    page: u32,
    level: u8,
    edge: bool,
    id: u64,
) -> Result<Cut, Fault>
    ensures asks { Asks cache.old cache.new result }
    ensures cuts { IsHonest cache.old → (row : Row) → MayHalve D (pages cache.old) page level edge row
        → IfOk result (λ cut. Cuts D level edge row cut.key cut.first cut.second) }
    ensures tidy { IsHonest cache.old → (row : Row) → MayHalve D (pages cache.old) page level edge row
        → IfOk result (λ cut. AreAsTidy D (pages cache.old) cut.first cut.second) }
    ensures there { IsHonest cache.old → (row : Row) → MayHalve D (pages cache.old) page level edge row
        → IfErr result IsOfDevice }
    ensures damage { IsHonest cache.old → IfErr result (λ f. IsOfDevice f ⊎ (f ≡ fault.Damaged page)) }
    ensures other_faults { IfErr result (λ f. IsOfDevice f ⊎ IsDamage f) }
{
    let bytes = copy_page(cache, page)?;
    let count = count_at(&bytes);
    if level == 0 {
        if count == 0 {
            return Err(Fault::Damaged(page));
        }
        if count != objects_that_fit::<D>() {
            return Err(Fault::Damaged(page));
        }
        return Ok(cut_leaf::<D>(&bytes, edge, id));
    }
    if count != MOST_CHILDREN {
        return Err(Fault::Damaged(page));
    }
    Ok(cut_fork(&bytes, level, edge))
}

// Cuts a full leaf.
fn cut_leaf<const D: usize>(page: &[u8; 4096], edge: bool, id: u64) -> Cut
    requires some { 0 < number_at 2 2 page.now }
    requires full { number_at 2 2 page.now ≡ most_objects D }
    ensures cuts { (objects : List Entry) → leaf_at D page.now ≡ Some objects
        → ((q : ℕ) → times_in q objects ≤ 1)
        → CutsLeaf D edge objects result.key result.first result.second }
    ensures tidy_first { IsTidyLeaf D result.first }
    ensures tidy_second { IsTidyLeaf D result.second }
{
    let many = objects_kept::<D>(page, edge, id);
    let key = key_with::<D>(page, many);
    Cut {
        key,
        first: leaf_under::<D>(page, key),
        second: leaf_from::<D>(page, key),
    }
}

// How many of its objects a full leaf keeps: half of them, or all but the last at the edge of its tree where
// the identifier is above all.
fn objects_kept<const D: usize>(page: &[u8; 4096], edge: bool, id: u64) -> usize
    requires some { 0 < number_at 2 2 page.now }
    requires few { number_at 2 2 page.now ≤ most_objects D }
    ensures large { least_objects D ≤ result }
    ensures some { result < most_objects D }
    ensures rest { edge ≡ false → result + least_objects D ≤ most_objects D }
    ensures inner { edge ≡ false → result ≡ most_objects D / 2 }
    ensures half { (objects : List Entry) → leaf_at D page.now ≡ Some objects
        → length (under_key id objects) < most_objects D → result ≡ most_objects D / 2 }
    ensures last { edge ≡ true → (objects : List Entry) → leaf_at D page.now ≡ Some objects
        → length (under_key id objects) ≡ most_objects D → result ≡ most_objects D - 1 }
{
    let most = objects_that_fit::<D>();
    if edge {
        let below = count_under::<D>(page, id);
        if below == most {
            return most - 1;
        }
    }
    most / 2
}

// Cuts a full fork of that level.
fn cut_fork(page: &[u8; 4096], level: u8, edge: bool) -> Cut
    requires high { 0 < level }
    requires full { number_at 2 2 page.now ≡ 340 }
    ensures cuts { (dims : ℕ) (c : ForkContent) → fork_at dims page.now ≡ Some c → c.level ≡ level
        → CutsFork dims level edge c.links result.key result.first result.second }
    ensures tidy_first { IsTidyFork page.now → IsTidyFork result.first }
    ensures tidy_second { IsTidyFork result.second }
{
    let many = children_kept(edge);
    Cut {
        key: key_at(page, many),
        first: fork_upto(page, many),
        second: fork_beyond(page, level, many),
    }
}

// How many of its children a full fork keeps: half of them, or nine tenths at the edge of its tree.
fn children_kept(edge: bool) -> usize
    ensures large { 85 ≤ result }
    ensures some { result < 340 }
    ensures rest { edge ≡ false → result + 85 ≤ 340 }
{
    if edge {
        return 306;
    }
    170
}
