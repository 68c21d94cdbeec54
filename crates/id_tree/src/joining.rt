//! Two children next to one another made one, or cut in two elsewhere: before a child with little loses some
//! of what it has, and before a full leaf gets one object more.

ghost use Rattle.std.specs.Prelude.{◌≡◌, ◌<◌, ◌≤◌, ◌⊎◌, ◌+◌, ◌-◌, ◌*◌, ◌/◌, ℕ, Bool, true, IfErr, IfOk, OnOk};
ghost use Rattle.std.specs.Prelude.{Some, false};
ghost use Rattle.block_bytes.specs.Numbers.{number_at};
ghost use Rattle.page_file.specs.Fault.{IsDamage, IsOfDevice};
ghost use Rattle.page_cache.specs.Cache.{Grows, IsHonest, IsPageMap, pages, given, touched_of};
ghost use Rattle.page_cache.specs.Calls.{Asks, Changes};
ghost use Rattle.id_tree.specs.Joining.{AreTooMany, FitTogether, HasSpare, IsAmple, MakesSpare, MayJoin};
ghost use Rattle.id_tree.specs.Joining.{MayMeet, LeaveRoom, SharesOut};
ghost use Rattle.id_tree.specs.Tree.{HasNode, Row, fork_in};
ghost use Rattle.id_tree.specs.Checked.{ComesInTree};
ghost use Rattle.id_page.specs.Fork.{ForkContent};
ghost use Rattle.id_tree.specs.Works.{Works};
ghost use Rattle.page_file.specs.declared.fault.Fault.TheVariants as fault;

use crate::looks::count_in;
use crate::meeting::{fit_together, joined, shared};
use crate::pairs::{Pair, look_pair, put_joined, put_shares};
use block_device::BlockDevice;
use id_page::{MOST_CHILDREN, objects_that_fit};
use page_cache::PageCache;
use page_file::Fault;
use std::alloc::Allocator;

// Whether the node of that level at a page has two fifths of what fits, in one look.
#[tactic(auto, using(page_cache::specs::Calls::ends_so))]
pub(crate) fn is_ample<const D: usize, B: BlockDevice, A: Allocator + Copy>(
    cache: &mut PageCache<B, A>,
    number: u32,
    level: u8,
) -> Result<bool, Fault>
    ensures asks { Asks cache.old cache.new result }
    ensures ample { IsHonest cache.old → (edge : Bool) (row : Row)
        → HasNode D (pages cache.old) number level row
        → IfOk result (λ ample. ample ≡ true → HasSpare D level edge row) }
    ensures much { IsHonest cache.old → (row : Row) → HasNode D (pages cache.old) number level row
        → IfOk result (λ ample. ample ≡ true → IsAmple D level row) }
    ensures little { IsHonest cache.old → (row : Row) → HasNode D (pages cache.old) number level row
        → IfOk result (λ ample. ample ≡ false → ¬ (IsAmple D level row)) }
    ensures there { IsHonest cache.old → (row : Row) → HasNode D (pages cache.old) number level row
        → IfErr result IsOfDevice }
    ensures damage { IsHonest cache.old → IfErr result (λ f. IsOfDevice f ⊎ (f ≡ fault.Damaged number)) }
    ensures other_faults { IfErr result (λ f. IsOfDevice f ⊎ IsDamage f) }
{
    let count = count_in(cache, number)?;
    if level == 0 {
        return Ok(are_two_fifths(count, objects_that_fit::<D>()));
    }
    Ok(are_two_fifths(count, MOST_CHILDREN))
}

// Whether so many are two fifths of so many or more.
fn are_two_fifths(count: usize, most: usize) -> bool
    requires { most ≤ 340 }
    ensures yes { result ≡ true → most * 2 / 5 ≤ count }
    ensures no { result ≡ false → count < most * 2 / 5 }
{
    count >= most * 2 / 5
}

// Joins the child in a place of the fork of that level at a page with the one before it, or behind it where
// it is the first one. What does not fit into one page is cut in two in the middle. Answers the page where an
// identifier of that child is then, and whether that one is at the edge of the tree.
#[tactic(auto, using(page_cache::specs::Calls::changing))]
pub(crate) fn join<const D: usize, B: BlockDevice, A: Allocator + Copy>(
    cache: &mut PageCache<B, A>,
    page: u32,
    level: u8,
    edge: bool,
    place: usize,
    id: u64,
) -> Result<(u32, bool), Fault>
    requires high { 0 < level }
    ensures changes { Changes cache.old cache.new result }
    ensures joins { IsPageMap cache.old → (child : ℕ) (row : Row)
        → MayMeet D (pages cache.old) page level edge row id child place
        → Works D cache.old cache.new result (λ r.
        MakesSpare D (pages cache.old) (pages cache.new) page level edge row id r.0 r.1) IsOfDevice }
    ensures grows { Grows 0 cache.old cache.new }
    ensures touched { OnOk result (touched_of cache.new ≡ true) }
    ensures damage { IsHonest cache.old → touched_of cache.new ≡ false → (c : ForkContent)
        → fork_in D (given cache.old page) ≡ Some c
        → IfErr result (λ f. (n : ℕ) → f ≡ fault.Damaged n → ComesInTree D (given cache.old) page n) }
    ensures other_faults { IfErr result (λ f. IsOfDevice f ⊎ IsDamage f) }
{
    let pair = look_pair::<D, B, A>(cache, page, edge, left_of(place))?;
    join_pair::<D, B, A>(cache, page, level, id, &pair)
}

// The place before one, or the first place.
fn left_of(place: usize) -> usize
    ensures first { place ≡ 0 → result ≡ 0 }
    ensures later { 0 < place → result + 1 ≡ place }
{
    if place == 0 {
        return 0;
    }
    place - 1
}

// Joins two children next to one another of the fork of that level at a page.
#[tactic(auto, using(page_cache::specs::Calls::changing))]
fn join_pair<const D: usize, B: BlockDevice, A: Allocator + Copy>(
    cache: &mut PageCache<B, A>,
    page: u32,
    level: u8,
    id: u64,
    pair: &Pair,
) -> Result<(u32, bool), Fault>
    requires high { 0 < level }
    requires within { pair.now.left + 1 < number_at 2 2 pair.now.fork }
    requires few { number_at 2 2 pair.now.fork ≤ 340 }
    ensures changes { Changes cache.old cache.new result }
    ensures joins { IsPageMap cache.old → (edge : Bool) (row : Row)
        → MayJoin D (pages cache.old) page level edge row id pair.now.fork pair.now.left pair.now.first
        pair.now.second pair.now.key pair.now.last → Works D cache.old cache.new result (λ r.
        MakesSpare D (pages cache.old) (pages cache.new) page level edge row id r.0 r.1) IsOfDevice }
    ensures grows { Grows 0 cache.old cache.new }
    ensures touched { OnOk result (touched_of cache.new ≡ true) }
    ensures damage { IsHonest cache.old → touched_of cache.new ≡ false
        → IfErr result (λ f. (n : ℕ) → f ≡ fault.Damaged n
        → (n ≡ pair.now.first) ⊎ (n ≡ pair.now.second)) }
    ensures other_faults { IfErr result (λ f. IsOfDevice f ⊎ IsDamage f) }
{
    let fit = fit_together::<D, B, A>(cache, pair.first, pair.second, level - 1)?;
    if fit {
        return make_one::<D, B, A>(cache, page, level, pair);
    }
    share::<D, B, A>(cache, page, level, id, pair)
}

// Makes two children one.
#[tactic(auto, using(page_cache::specs::Calls::changing))]
fn make_one<const D: usize, B: BlockDevice, A: Allocator + Copy>(
    cache: &mut PageCache<B, A>,
    page: u32,
    level: u8,
    pair: &Pair,
) -> Result<(u32, bool), Fault>
    requires high { 0 < level }
    requires within { pair.now.left + 1 < number_at 2 2 pair.now.fork }
    requires few { number_at 2 2 pair.now.fork ≤ 340 }
    ensures changes { Changes cache.old cache.new result }
    ensures joins { IsPageMap cache.old → (id : ℕ) (edge : Bool) (row : Row)
        → (may : MayJoin D (pages cache.old) page level edge row id pair.now.fork pair.now.left pair.now.first
        pair.now.second pair.now.key pair.now.last)
        → FitTogether D (level - 1) may.pair.at.one may.pair.at.two
        → Works D cache.old cache.new result (λ r.
        MakesSpare D (pages cache.old) (pages cache.new) page level edge row id r.0 r.1) IsOfDevice }
    ensures grows { Grows 0 cache.old cache.new }
    ensures touched { OnOk result (touched_of cache.new ≡ true) }
    ensures damage { IsHonest cache.old → touched_of cache.new ≡ false
        → IfErr result (λ f. (n : ℕ) → f ≡ fault.Damaged n
        → (n ≡ pair.now.first) ⊎ (n ≡ pair.now.second)) }
    ensures other_faults { IfErr result (λ f. IsOfDevice f ⊎ IsDamage f) }
{
    let all = joined::<D, B, A>(cache, pair.first, pair.second, pair.key, level - 1)?;
    put_joined::<D, B, A>(cache, page, pair, &all)?;
    Ok((pair.first, pair.last))
}

// Cuts what two children have in two in the middle, so that both have room where that is not too much.
// Answers the page where an identifier is then, and whether that one is at the edge of the tree.
#[tactic(auto, using(page_cache::specs::Calls::changing))]
pub(crate) fn share<const D: usize, B: BlockDevice, A: Allocator + Copy>(
    cache: &mut PageCache<B, A>,
    page: u32,
    level: u8,
    id: u64,
    pair: &Pair,
) -> Result<(u32, bool), Fault>
    requires high { 0 < level }
    requires within { pair.now.left + 1 < number_at 2 2 pair.now.fork }
    requires few { number_at 2 2 pair.now.fork ≤ 340 }
    ensures changes { Changes cache.old cache.new result }
    ensures shares { IsPageMap cache.old → (edge : Bool) (row : Row)
        → (may : MayJoin D (pages cache.old) page level edge row id pair.now.fork pair.now.left pair.now.first
        pair.now.second pair.now.key pair.now.last)
        → AreTooMany D (level - 1) may.pair.at.one may.pair.at.two
        → Works D cache.old cache.new result (λ r.
        SharesOut D (pages cache.old) (pages cache.new) page level edge row id
        (LeaveRoom D (level - 1) may.pair.at.one may.pair.at.two) r.0 r.1) IsOfDevice }
    ensures grows { Grows 0 cache.old cache.new }
    ensures touched { OnOk result (touched_of cache.new ≡ true) }
    ensures damage { IsHonest cache.old → touched_of cache.new ≡ false
        → IfErr result (λ f. (n : ℕ) → f ≡ fault.Damaged n
        → (n ≡ pair.now.first) ⊎ (n ≡ pair.now.second)) }
    ensures other_faults { IfErr result (λ f. IsOfDevice f ⊎ IsDamage f) }
{
    let cut = shared::<D, B, A>(cache, pair.first, pair.second, pair.key, level - 1)?;
    put_shares::<D, B, A>(cache, page, pair, &cut)?;
    if id < cut.key {
        return Ok((pair.first, false));
    }
    Ok((pair.second, pair.last))
}
