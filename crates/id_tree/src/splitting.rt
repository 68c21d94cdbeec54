//! A full node split in two.

ghost use Rattle.std.specs.Prelude.{◌≡◌, ◌<◌, ◌≤◌, ◌⊎◌, ℕ, Bool, Some, insert, IfErr, IfOk, OnOk, true};
ghost use Rattle.std.specs.Prelude.{false};
ghost use Rattle.block_bytes.specs.Numbers.{number_at};
ghost use Rattle.page_file.specs.Fault.{IsDamage, IsOfDevice};
ghost use Rattle.page_cache.specs.Cache.{Grows, IsHonest, IsLive, IsPageMap, pages, touched_of};
ghost use Rattle.page_cache.specs.Calls.{Asks, Changes};
ghost use Rattle.node_page.specs.Faults.{IsNoDamage};
ghost use Rattle.id_page.specs.Fork.{ForkContent, fork_at, with_links, IsTidyFork};
ghost use Rattle.id_tree.specs.Cutting.{Splits, Plans};
ghost use Rattle.id_tree.specs.Steps.{MakesHalves, MaySplit};
ghost use Rattle.id_tree.specs.Tree.{Row};
ghost use Rattle.id_tree.specs.Tidy.{AreAsTidy, IsAsTidy};
ghost use Rattle.id_words.specs.Damage.{MayBreakAt};
ghost use Rattle.id_tree.specs.Works.{Finds, Works};
ghost use Rattle.page_file.specs.declared.fault.Fault.TheVariants as fault;

use crate::below::Below;
use crate::giving::give_and_put;
use crate::halving::{Cut, plan};
use crate::looks::copy_page;
use block_device::BlockDevice;
use id_page::{MOST_CHILDREN, count_at, insert_link};
use page_cache::PageCache;
use page_file::Fault;
use std::alloc::Allocator;

// Splits the full child in a place of a fork, where an identifier is. Answers the page of the half where it
// is then, and whether that one is at the edge of the tree, if the child was.
pub(crate) fn split<const D: usize, B: BlockDevice, A: Allocator + Copy>(
    cache: &mut PageCache<B, A>,
    page: u32,
    level: u8,
    below: &Below,
    id: u64,
) -> Result<(u32, bool), Fault>
    requires high { 0 < level }
    ensures changes { Changes cache.old cache.new result }
    ensures splits { IsPageMap cache.old → (edge : Bool) (row : Row)
        → MaySplit D (pages cache.old) page level edge row id
        below.now.child below.now.place below.now.last → Works D cache.old cache.new result (λ r.
        MakesHalves D (pages cache.old) (pages cache.new) page level edge row id r.0 r.1)
        (IsNoDamage cache.new) }
    ensures grows { Grows 1 cache.old cache.new }
    ensures touched { OnOk result (touched_of cache.new ≡ true) }
    ensures damage { IsHonest cache.old → touched_of cache.new ≡ false
        → IfErr result (λ f. (n : ℕ) → f ≡ fault.Damaged n
        → ((n ≡ page) ⊎ (n ≡ below.now.child)) ⊎ MayBreakAt cache.old n) }
    ensures other_faults { IfErr result (λ f. IsNoDamage cache.new f ⊎ IsDamage f) }
{
    let plan = plan_split::<D, B, A>(cache, page, level, below, id)?;
    put_split::<D, B, A>(cache, page, below, id, &plan)
}

/// A split that was looked out: the page of the fork as it is, and the halves of its child.
#[derive(Drop)]
struct Plan {
    fork: [u8; 4096],
    cut: Cut,
}

// Looks where the full child in a place of a fork is to be split.
#[tactic(auto, using(page_cache::specs::Calls::turns))]
fn plan_split<const D: usize, B: BlockDevice, A: Allocator + Copy>(
    cache: &mut PageCache<B, A>,
    page: u32,
    level: u8,
    below: &Below,
    id: u64,
) -> Result<Plan, Fault>
    requires high { 0 < level }
    ensures asks { Asks cache.old cache.new result }
    ensures plans { IsHonest cache.old → (edge : Bool) (row : Row)
        → (may : MaySplit D (pages cache.old) page level edge row id
        below.now.child below.now.place below.now.last) → Finds result (λ plan.
        Plans D (pages cache.old) level below.now.last row may.way.below plan.fork plan.cut.key
        plan.cut.first plan.cut.second) }
    ensures within { IfOk result (λ plan. below.now.place < number_at 2 2 plan.fork) }
    ensures room { IfOk result (λ plan. number_at 2 2 plan.fork < 340) }
    ensures damage { IsHonest cache.old → IfErr result (λ f. (n : ℕ) → f ≡ fault.Damaged n
        → (n ≡ page) ⊎ (n ≡ below.now.child)) }
    ensures other_faults { IfErr result (λ f. IsOfDevice f ⊎ IsDamage f) }
{
    let fork = copy_page(cache, page)?;
    let count = count_at(&fork);
    if count >= MOST_CHILDREN {
        return Err(Fault::Damaged(page));
    }
    if below.place >= count {
        return Err(Fault::Damaged(page));
    }
    let cut = plan::<D, B, A>(cache, below.child, level - 1, below.last, id)?;
    Ok(Plan { fork, cut })
}

// Splits the child as it was looked out.
fn put_split<const D: usize, B: BlockDevice, A: Allocator + Copy>(
    cache: &mut PageCache<B, A>,
    page: u32,
    below: &Below,
    id: u64,
    plan: &Plan,
) -> Result<(u32, bool), Fault>
    requires within { below.now.place < number_at 2 2 plan.now.fork }
    requires room { number_at 2 2 plan.now.fork < 340 }
    ensures changes { Changes cache.old cache.new result }
    ensures splits { IsPageMap cache.old → (level : ℕ) (edge : Bool) (row : Row)
        → (may : MaySplit D (pages cache.old) page level edge row id
        below.now.child below.now.place below.now.last)
        → Plans D (pages cache.old) level below.now.last row may.way.below plan.now.fork plan.now.cut.key
        plan.now.cut.first plan.now.cut.second → Works D cache.old cache.new result (λ r.
        MakesHalves D (pages cache.old) (pages cache.new) page level edge row id r.0 r.1)
        (IsNoDamage cache.new) }
    ensures grows { Grows 1 cache.old cache.new }
    ensures touched { OnOk result (touched_of cache.new ≡ true) }
    ensures damage { IsHonest cache.old → touched_of cache.new ≡ false
        → IfErr result (λ f. (n : ℕ) → f ≡ fault.Damaged n → MayBreakAt cache.old n) }
    ensures other_faults { IfErr result (λ f. IsNoDamage cache.new f ⊎ IsDamage f) }
{
    let number = put_cut::<D, B, A>(
        cache,
        page,
        &plan.fork,
        below.place + 1,
        below.child,
        &plan.cut,
    )?;
    if id < plan.cut.key {
        return Ok((below.child, false));
    }
    Ok((number, below.last))
}

// Puts both halves of a child, and names the second one in a place of its fork.
#[tactic(auto, using(page_cache::specs::Calls::turns))]
fn put_cut<const D: usize, B: BlockDevice, A: Allocator + Copy>(
    cache: &mut PageCache<B, A>,
    page: u32,
    fork: &[u8; 4096],
    place: usize,
    child: u32,
    cut: &Cut,
) -> Result<u32, Fault>
    requires within { place ≤ number_at 2 2 fork.now }
    requires room { number_at 2 2 fork.now < 340 }
    ensures changes { Changes cache.old cache.new result }
    ensures splits { IsPageMap cache.old → IsLive cache.old child → IsLive cache.old page → ¬ (page ≡ child)
        → (c : ForkContent) → fork_at D fork.now ≡ Some c → IsAsTidy D (pages cache.old) fork.now
        → AreAsTidy D (pages cache.old) cut.now.first cut.now.second
        → Works D cache.old cache.new result
        (λ number. Splits D (pages cache.old) (pages cache.new) page child number place cut.now.key
        fork.now cut.now.first cut.now.second) (IsNoDamage cache.new) }
    ensures grows { Grows 1 cache.old cache.new }
    ensures touched { OnOk result (touched_of cache.new ≡ true) }
    ensures damage { IsHonest cache.old → touched_of cache.new ≡ false
        → IfErr result (λ f. (n : ℕ) → f ≡ fault.Damaged n → MayBreakAt cache.old n) }
    ensures other_faults { IfErr result (λ f. IsNoDamage cache.new f ⊎ IsDamage f) }
{
    let number = give_and_put(cache, child, &cut.first, &cut.second)?;
    let named = with_link(fork, place, cut.key, number);
    cache.put(page, &named)?;
    Ok(number)
}

// A fork page with a child more, in a place.
fn with_link(fork: &[u8; 4096], place: usize, key: u64, child: u32) -> [u8; 4096]
    requires within { place ≤ number_at 2 2 fork.now }
    requires room { number_at 2 2 fork.now < 340 }
    ensures linked { (dims : ℕ) (c : ForkContent) → fork_at dims fork.now ≡ Some c
        → fork_at dims result ≡ Some (with_links c (insert c.links place (key, child))) }
    ensures tidy { IsTidyFork fork.now → IsTidyFork result }
{
    let mut named = *fork;
    insert_link(&mut named, place, key, child);
    named
}
