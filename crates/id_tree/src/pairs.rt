//! Two children of a fork next to one another, one of which is on the way to an identifier.

ghost use Rattle.std.specs.Prelude.{◌≡◌, ℕ, ◌<◌, ◌≤◌, ◌+◌, ◌⊎◌, Some, length, true, false, remove};
ghost use Rattle.std.specs.Prelude.{slice_index_or, slice_set, IfErr, IfOk, OnOk};
ghost use Rattle.block_bytes.specs.Numbers.{number_at};
ghost use Rattle.page_file.specs.Fault.{IsDamage, IsOfDevice};
ghost use Rattle.page_cache.specs.Cache.{Grows, IsHonest, IsPageMap, pages, IsLive, given, touched_of};
ghost use Rattle.page_cache.specs.Calls.{Asks, Changes};
ghost use Rattle.id_page.specs.Fork.{ForkContent, Link, fork_at, with_links, IsTidyFork};
ghost use Rattle.id_tree.specs.Joining.{AreApart, IsBeside, IsPair, Joins, MayFree, MayMeet, PutsAndFrees};
ghost use Rattle.id_tree.specs.Joining.{PutsBoth, Shares};
ghost use Rattle.id_tree.specs.Tree.{Row, fork_in};
ghost use Rattle.id_tree.specs.Tidy.{AreAsTidy, IsAsTidy};
ghost use Rattle.id_tree.specs.Checked.{Names};
ghost use Rattle.id_tree.specs.Works.{Works};
ghost use Rattle.page_file.specs.declared.fault.Fault.TheVariants as fault;

use crate::below::is_last;
use crate::halving::Cut;
use crate::looks::copy_page;
use block_device::BlockDevice;
use id_page::{MOST_CHILDREN, count_at, key_at, page_at, remove_link, set_key};
use page_cache::PageCache;
use page_file::Fault;
use std::alloc::Allocator;

/// Two children of a fork next to one another: the page of the fork as it is, the place of the first one, the
/// pages of both, the key of the second one, and whether that one is at the edge of the tree.
#[derive(Drop)]
pub(crate) struct Pair {
    pub(crate) fork: [u8; 4096],
    pub(crate) left: usize,
    pub(crate) first: u32,
    pub(crate) second: u32,
    pub(crate) key: u64,
    pub(crate) last: bool,
}

// The children in a place of the fork at a page and in the next one. A page of no such children is `Damaged`.
#[tactic(auto, using(page_cache::specs::Calls::ends_so))]
pub(crate) fn look_pair<const D: usize, B: BlockDevice, A: Allocator + Copy>(
    cache: &mut PageCache<B, A>,
    page: u32,
    edge: bool,
    left: usize,
) -> Result<Pair, Fault>
    ensures asks { Asks cache.old cache.new result }
    ensures pair { IsHonest cache.old → (level id child place : ℕ) (row : Row)
        → MayMeet D (pages cache.old) page level edge row id child place → IsBeside left place row
        → IfOk result (λ p. IsPair D level edge row id p.fork p.left p.first p.second p.key p.last) }
    ensures bytes { IsHonest cache.old → IsLive cache.old page
        → IfOk result (λ p. pages cache.old page ≡ Some p.fork) }
    ensures within { IfOk result (λ p. p.left + 1 < number_at 2 2 p.fork) }
    ensures few { IfOk result (λ p. number_at 2 2 p.fork ≤ 340) }
    ensures there { IsHonest cache.old → (level id child place : ℕ) (row : Row)
        → MayMeet D (pages cache.old) page level edge row id child place → IsBeside left place row
        → IfErr result IsOfDevice }
    ensures names { IsHonest cache.old → (c : ForkContent) → fork_in D (given cache.old page) ≡ Some c
        → IfOk result (λ p. Names c p.first × Names c p.second) }
    ensures damage { IsHonest cache.old → IfErr result (λ f. IsOfDevice f ⊎ (f ≡ fault.Damaged page)) }
    ensures other_faults { IfErr result (λ f. IsOfDevice f ⊎ IsDamage f) }
{
    let fork = copy_page(cache, page)?;
    let count = count_at(&fork);
    if count > MOST_CHILDREN {
        return Err(Fault::Damaged(page));
    }
    if count < 2 {
        return Err(Fault::Damaged(page));
    }
    if left >= count - 1 {
        return Err(Fault::Damaged(page));
    }
    let first = page_at(&fork, left);
    let second = page_at(&fork, left + 1);
    let key = key_at(&fork, left + 1);
    let last = is_last(edge, left + 1, count);
    Ok(Pair {
        fork,
        left,
        first,
        second,
        key,
        last,
    })
}

// Puts what both children of a pair have into the first one, frees the second one, and takes it from their
// fork.
#[tactic(auto, using(page_cache::specs::Calls::turns))]
pub(crate) fn put_joined<const D: usize, B: BlockDevice, A: Allocator + Copy>(
    cache: &mut PageCache<B, A>,
    page: u32,
    pair: &Pair,
    all: &[u8; 4096],
) -> Result<(), Fault>
    requires within { pair.now.left + 1 < number_at 2 2 pair.now.fork }
    requires few { number_at 2 2 pair.now.fork ≤ 340 }
    ensures changes { Changes cache.old cache.new result }
    ensures puts { IsPageMap cache.old → AreApart (pages cache.old) page pair.now.first pair.now.second
        → (c : ForkContent) → fork_at D pair.now.fork ≡ Some c → IsAsTidy D (pages cache.old) pair.now.fork
        → IsAsTidy D (pages cache.old) all.now
        → Works D cache.old cache.new result (λ u. Joins D (pages cache.old) (pages cache.new) page
        pair.now.first pair.now.second (pair.now.left + 1) pair.now.fork all.now) IsOfDevice }
    ensures grows { Grows 0 cache.old cache.new }
    ensures touched { OnOk result (touched_of cache.new ≡ true) }
    ensures damage { IsHonest cache.old → touched_of cache.new ≡ false
        → IfErr result (λ f. IsOfDevice f ⊎ (f ≡ fault.Damaged pair.now.first)) }
    ensures other_faults { IfErr result (λ f. IsOfDevice f ⊎ IsDamage f) }
{
    put_and_free(cache, pair.first, pair.second, all)?;
    let named = without_link(&pair.fork, pair.left + 1);
    cache.put(page, &named)
}

// Puts bytes into one live page, and frees another one.
#[tactic(auto, using(page_cache::specs::Calls::turns))]
pub(crate) fn put_and_free<B: BlockDevice, A: Allocator + Copy>(
    cache: &mut PageCache<B, A>,
    first: u32,
    second: u32,
    bytes: &[u8; 4096],
) -> Result<(), Fault>
    ensures changes { Changes cache.old cache.new result }
    ensures puts { IsPageMap cache.old → MayFree (pages cache.old) first second → (dims : ℕ)
        → IsAsTidy dims (pages cache.old) bytes.now
        → Works dims cache.old cache.new result
        (λ u. PutsAndFrees (pages cache.old) (pages cache.new) first second bytes.now) IsOfDevice }
    ensures grows { Grows 0 cache.old cache.new }
    ensures touched { OnOk result (touched_of cache.new ≡ true) }
    ensures damage { IsHonest cache.old → touched_of cache.new ≡ false
        → IfErr result (λ f. IsOfDevice f ⊎ (f ≡ fault.Damaged first)) }
    ensures other_faults { IfErr result (λ f. IsOfDevice f ⊎ IsDamage f) }
{
    cache.put(first, bytes)?;
    cache.free(second)
}

// A fork page without the child in a place.
fn without_link(fork: &[u8; 4096], place: usize) -> [u8; 4096]
    requires within { place < number_at 2 2 fork.now }
    requires few { number_at 2 2 fork.now ≤ 340 }
    ensures removed { (dims : ℕ) (c : ForkContent) → fork_at dims fork.now ≡ Some c
        → fork_at dims result ≡ Some (with_links c (remove c.links place)) }
    ensures tidy { IsTidyFork fork.now → IsTidyFork result }
{
    let mut named = *fork;
    remove_link(&mut named, place);
    named
}

// Puts the shares of both children of a pair, and the key between them into their fork.
#[tactic(auto, using(page_cache::specs::Calls::turns))]
pub(crate) fn put_shares<const D: usize, B: BlockDevice, A: Allocator + Copy>(
    cache: &mut PageCache<B, A>,
    page: u32,
    pair: &Pair,
    cut: &Cut,
) -> Result<(), Fault>
    requires within { pair.now.left + 1 < number_at 2 2 pair.now.fork }
    requires few { number_at 2 2 pair.now.fork ≤ 340 }
    ensures changes { Changes cache.old cache.new result }
    ensures puts { IsPageMap cache.old → AreApart (pages cache.old) page pair.now.first pair.now.second
        → (c : ForkContent) → fork_at D pair.now.fork ≡ Some c → pair.now.left + 1 < length c.links
        → IsAsTidy D (pages cache.old) pair.now.fork
        → AreAsTidy D (pages cache.old) cut.now.first cut.now.second
        → Works D cache.old cache.new result (λ u. Shares D (pages cache.old) (pages cache.new) page
        pair.now.first pair.now.second (pair.now.left + 1) cut.now.key pair.now.fork cut.now.first
        cut.now.second) IsOfDevice }
    ensures grows { Grows 0 cache.old cache.new }
    ensures touched { OnOk result (touched_of cache.new ≡ true) }
    ensures damage { IsHonest cache.old → touched_of cache.new ≡ false
        → IfErr result (λ f. IsOfDevice f ⊎ (f ≡ fault.Damaged pair.now.first)) }
    ensures other_faults { IfErr result (λ f. IsOfDevice f ⊎ IsDamage f) }
{
    put_both(cache, pair.first, pair.second, &cut.first, &cut.second)?;
    let named = with_key_at(&pair.fork, pair.left + 1, cut.key);
    cache.put(page, &named)
}

// Puts bytes into two live pages.
#[tactic(auto, using(page_cache::specs::Calls::turns))]
fn put_both<B: BlockDevice, A: Allocator + Copy>(
    cache: &mut PageCache<B, A>,
    first: u32,
    second: u32,
    one: &[u8; 4096],
    two: &[u8; 4096],
) -> Result<(), Fault>
    ensures changes { Changes cache.old cache.new result }
    ensures puts { IsPageMap cache.old → MayFree (pages cache.old) first second → (dims : ℕ)
        → AreAsTidy dims (pages cache.old) one.now two.now
        → Works dims cache.old cache.new result
        (λ u. PutsBoth (pages cache.old) (pages cache.new) first second one.now two.now) IsOfDevice }
    ensures grows { Grows 0 cache.old cache.new }
    ensures touched { OnOk result (touched_of cache.new ≡ true) }
    ensures damage { IsHonest cache.old → touched_of cache.new ≡ false
        → IfErr result (λ f. IsOfDevice f ⊎ (f ≡ fault.Damaged first)) }
    ensures other_faults { IfErr result (λ f. IsOfDevice f ⊎ IsDamage f) }
{
    cache.put(first, one)?;
    cache.put(second, two)
}

// A fork page with another key in a place.
fn with_key_at(fork: &[u8; 4096], place: usize, key: u64) -> [u8; 4096]
    requires within { place < 340 }
    ensures keyed { (dims : ℕ) (c : ForkContent) (other : Link) → fork_at dims fork.now ≡ Some c
        → place < length c.links → fork_at dims result
        ≡ Some (with_links c (slice_set c.links place (key, (slice_index_or c.links place other).1))) }
    ensures tidy { place < number_at 2 2 fork.now → IsTidyFork fork.now → IsTidyFork result }
{
    let mut named = *fork;
    set_key(&mut named, place, key);
    named
}
