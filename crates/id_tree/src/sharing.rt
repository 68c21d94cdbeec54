//! Room in a full child: a leaf shares with a neighbour that has room enough, and else the child is split.

ghost use Rattle.std.specs.Prelude.{◌≡◌, ◌<◌, ◌≤◌, ◌⊎◌, ◌+◌, ◌-◌, ◌*◌, ◌/◌, ℕ, Bool, true, false, Some, List};
ghost use Rattle.std.specs.Prelude.{length, slice_index_or, IfErr, IfOk, IfSome, IsSome, OnOk};
ghost use Rattle.block_bytes.specs.Numbers.{number_at};
ghost use Rattle.page_file.specs.Fault.{IsDamage, IsOfDevice};
ghost use Rattle.page_cache.specs.Cache.{Grows, IsHonest, IsLive, IsPageMap, given, pages, touched_of};
ghost use Rattle.page_cache.specs.Calls.{Asks, Changes};
ghost use Rattle.node_page.specs.Faults.{IsNoDamage};
ghost use Rattle.id_page.specs.Fork.{ForkContent, Link};
ghost use Rattle.id_page.specs.Leaf.{most_objects};
ghost use Rattle.id_words.specs.Damage.{MayBreakAt};
ghost use Rattle.id_tree.specs.Checked.{ComesInTree, Names, NamesChild};
ghost use Rattle.id_tree.specs.Joining.{AreTooMany, HasChildren, LeaveRoom, MayShare, MayShareEach};
ghost use Rattle.id_tree.specs.Joining.{emptier_left};
ghost use Rattle.id_tree.specs.Steps.{MakesRoom, MaySplit};
ghost use Rattle.id_tree.specs.Tree.{HasNode, Row, fork_in, links_of, objects_in};
ghost use Rattle.id_tree.specs.Works.{Works};
ghost use Rattle.page_file.specs.declared.fault.Fault.TheVariants as fault;

use crate::below::Below;
use crate::joining::share;
use crate::looks::{copy_page, count_in};
use crate::pairs::{Pair, look_pair};
use crate::splitting::split;
use block_device::BlockDevice;
use id_page::{MOST_CHILDREN, count_at, objects_that_fit, page_at};
use page_cache::PageCache;
use page_file::Fault;
use std::alloc::Allocator;

// Makes room in the full child in a place of a fork, where an identifier is: a leaf shares with the emptier
// one of its neighbours, where that one has at most four fifths of what fits, and else the child is split.
// Answers the page where the identifier is then, and whether that one is at the edge of the tree.
#[tactic(auto, using(page_cache::specs::Calls::changing))]
pub(crate) fn make_room<const D: usize, B: BlockDevice, A: Allocator + Copy>(
    cache: &mut PageCache<B, A>,
    page: u32,
    level: u8,
    edge: bool,
    below: &Below,
    id: u64,
) -> Result<(u32, bool), Fault>
    requires high { 0 < level }
    ensures changes { Changes cache.old cache.new result }
    ensures makes { IsPageMap cache.old → (row : Row)
        → MaySplit D (pages cache.old) page level edge row id
        below.now.child below.now.place below.now.last → Works D cache.old cache.new result
        (λ r. MakesRoom D (pages cache.old) (pages cache.new) page level edge row id r.0 r.1)
        (IsNoDamage cache.new) }
    ensures grows { Grows 1 cache.old cache.new }
    ensures shares { IsPageMap cache.old → (row : Row)
        → MaySplit D (pages cache.old) page level edge row id
        below.now.child below.now.place below.now.last → level ≡ 1
        → 1 < length (links_of row) → MayShareEach D (level - 1) id row → Grows 0 cache.old cache.new }
    ensures touched { OnOk result (touched_of cache.new ≡ true) }
    ensures damage { IsHonest cache.old → touched_of cache.new ≡ false
        → NamesChild D (given cache.old) page below.now.child
        → IfErr result (λ f. (n : ℕ) → f ≡ fault.Damaged n
        → ComesInTree D (given cache.old) page n ⊎ MayBreakAt cache.old n) }
    ensures other_faults { IfErr result (λ f. IsNoDamage cache.new f ⊎ IsDamage f) }
{
    let roomy = look_roomy::<D, B, A>(cache, page, level, edge, below.place)?;
    let Some(pair) = roomy else {
        return split::<D, B, A>(cache, page, level, below, id);
    };
    share::<D, B, A>(cache, page, level, id, &pair)
}

// The full child in a place of a fork and the emptier one of its neighbours, where both are leaves that may
// share.
#[tactic(auto, using(page_cache::specs::Calls::ends_so))]
fn look_roomy<const D: usize, B: BlockDevice, A: Allocator + Copy>(
    cache: &mut PageCache<B, A>,
    page: u32,
    level: u8,
    edge: bool,
    place: usize,
) -> Result<Option<Pair>, Fault>
    ensures asks { Asks cache.old cache.new result }
    ensures pair { IsHonest cache.old → (id child : ℕ) (last : Bool) (row : Row)
        → MaySplit D (pages cache.old) page level edge row id child place last
        → IfOk result (λ r. IfSome r (λ p.
        MayShare D (pages cache.old) page level edge row id p.fork p.left p.first p.second p.key p.last)) }
    ensures shares { IsHonest cache.old → (id child : ℕ) (last : Bool) (row : Row)
        → MaySplit D (pages cache.old) page level edge row id child place last → level ≡ 1
        → 1 < length (links_of row) → MayShareEach D (level - 1) id row → IfOk result (λ r. IsSome r) }
    ensures within { IfOk result (λ r. IfSome r (λ p. p.left + 1 < number_at 2 2 p.fork)) }
    ensures few { IfOk result (λ r. IfSome r (λ p. number_at 2 2 p.fork ≤ 340)) }
    ensures there { IsHonest cache.old → (id child : ℕ) (last : Bool) (row : Row)
        → MaySplit D (pages cache.old) page level edge row id child place last
        → IfErr result IsOfDevice }
    ensures names { IsHonest cache.old → (c : ForkContent) → fork_in D (given cache.old page) ≡ Some c
        → IfOk result (λ r. IfSome r (λ p. Names c p.first × Names c p.second)) }
    ensures damage { IsHonest cache.old → (c : ForkContent) → fork_in D (given cache.old page) ≡ Some c
        → IfErr result (λ f. (n : ℕ) → f ≡ fault.Damaged n → ComesInTree D (given cache.old) page n) }
    ensures other_faults { IfErr result (λ f. IsOfDevice f ⊎ IsDamage f) }
{
    if level != 1 {
        return Ok(None);
    }
    let beside = look_beside::<D, B, A>(cache, page, place)?;
    let Some(left) = beside else {
        return Ok(None);
    };
    let pair = look_pair::<D, B, A>(cache, page, edge, left)?;
    let share = may_share::<D, B, A>(cache, pair.first, pair.second)?;
    if share {
        return Ok(Some(pair));
    }
    Ok(None)
}

// The place of the first one of two children of a fork: the one in a place, and the emptier one of its
// neighbours, or the one before it where both have as much. There is none where it is alone.
#[tactic(auto, using(page_cache::specs::Calls::ends_so))]
fn look_beside<const D: usize, B: BlockDevice, A: Allocator + Copy>(
    cache: &mut PageCache<B, A>,
    page: u32,
    place: usize,
) -> Result<Option<usize>, Fault>
    ensures asks { Asks cache.old cache.new result }
    ensures beside { IfOk result (λ r. IfSome r (λ left. (left ≤ place) × (place ≤ left + 1))) }
    ensures within { IsHonest cache.old → (c : ForkContent) → fork_in D (pages cache.old page) ≡ Some c
        → IfOk result (λ r. IfSome r (λ left. left + 1 < length c.links)) }
    ensures some { IsHonest cache.old → (c : ForkContent) → fork_in D (pages cache.old page) ≡ Some c
        → 1 < length c.links → place < length c.links → IfOk result (λ r. IsSome r) }
    ensures emptier { IsHonest cache.old → (c : ForkContent) (other : Link) (before behind : List ℕ)
        → fork_in D (pages cache.old page) ≡ Some c → 0 < place → place + 1 < length c.links
        → pages cache.old (slice_index_or c.links (place - 1) other).1 ≡ Some before
        → pages cache.old (slice_index_or c.links (place + 1) other).1 ≡ Some behind
        → IfOk result (λ r. r ≡ Some (emptier_left place before behind)) }
    ensures there { IsHonest cache.old → (c : ForkContent) → fork_in D (pages cache.old page) ≡ Some c
        → HasChildren (pages cache.old) c.links → IfErr result IsOfDevice }
    ensures damage { IsHonest cache.old → (c : ForkContent) → fork_in D (given cache.old page) ≡ Some c
        → IfErr result (λ f. (n : ℕ) → f ≡ fault.Damaged n → ComesInTree D (given cache.old) page n) }
    ensures other_faults { IfErr result (λ f. IsOfDevice f ⊎ IsDamage f) }
{
    let fork = copy_page(cache, page)?;
    let count = count_at(&fork);
    if count > MOST_CHILDREN {
        return Err(Fault::Damaged(page));
    }
    if count < 2 {
        return Ok(None);
    }
    if place == 0 {
        return Ok(Some(0));
    }
    if place >= count {
        return Ok(None);
    }
    if place == count - 1 {
        return Ok(Some(place - 1));
    }
    let before = page_at(&fork, place - 1);
    let behind = page_at(&fork, place + 1);
    let more = has_more(cache, before, behind)?;
    if more {
        return Ok(Some(place));
    }
    Ok(Some(place - 1))
}

// Whether the node at a page says that it has more than that at another one, in a look at each.
#[tactic(auto, using(page_cache::specs::Calls::turns))]
fn has_more<B: BlockDevice, A: Allocator + Copy>(
    cache: &mut PageCache<B, A>,
    first: u32,
    second: u32,
) -> Result<bool, Fault>
    ensures asks { Asks cache.old cache.new result }
    ensures more { IsHonest cache.old → (one two : List ℕ) → pages cache.old first ≡ Some one
        → pages cache.old second ≡ Some two
        → IfOk result (λ more. more ≡ true → number_at 2 2 two < number_at 2 2 one) }
    ensures less { IsHonest cache.old → (one two : List ℕ) → pages cache.old first ≡ Some one
        → pages cache.old second ≡ Some two
        → IfOk result (λ more. more ≡ false → number_at 2 2 one ≤ number_at 2 2 two) }
    ensures there { IsHonest cache.old → IsLive cache.old first → IsLive cache.old second
        → IfErr result IsOfDevice }
    ensures damage { IsHonest cache.old → IfErr result (λ f. (n : ℕ) → f ≡ fault.Damaged n
        → (n ≡ first) ⊎ (n ≡ second)) }
    ensures other_faults { IfErr result (λ f. IsOfDevice f ⊎ IsDamage f) }
{
    let one = count_in(cache, first)?;
    let two = count_in(cache, second)?;
    Ok(one > two)
}

// Whether what the leaves at two pages have is too much for one page, and so little that both have room once
// they share it, in a look at each.
#[tactic(auto, using(page_cache::specs::Calls::turns))]
fn may_share<const D: usize, B: BlockDevice, A: Allocator + Copy>(
    cache: &mut PageCache<B, A>,
    first: u32,
    second: u32,
) -> Result<bool, Fault>
    ensures asks { Asks cache.old cache.new result }
    ensures many { IsHonest cache.old → (level : ℕ) (one two : Row) → level ≡ 0
        → HasNode D (pages cache.old) first level one → HasNode D (pages cache.old) second level two
        → IfOk result (λ share. share ≡ true → AreTooMany D level one two) }
    ensures room { IsHonest cache.old → (level : ℕ) (one two : Row) → level ≡ 0
        → HasNode D (pages cache.old) first level one → HasNode D (pages cache.old) second level two
        → IfOk result (λ share. share ≡ true → LeaveRoom D level one two) }
    ensures accepts { IsHonest cache.old → (level : ℕ) (one two : Row) → level ≡ 0
        → HasNode D (pages cache.old) first level one → HasNode D (pages cache.old) second level two
        → AreTooMany D level one two
        → length (objects_in one) + length (objects_in two) ≤ most_objects D + most_objects D * 4 / 5
        → IfOk result (λ share. share ≡ true) }
    ensures there { IsHonest cache.old → IsLive cache.old first → IsLive cache.old second
        → IfErr result IsOfDevice }
    ensures damage { IsHonest cache.old → IfErr result (λ f. (n : ℕ) → f ≡ fault.Damaged n
        → (n ≡ first) ⊎ (n ≡ second)) }
    ensures other_faults { IfErr result (λ f. IsOfDevice f ⊎ IsDamage f) }
{
    let one = count_in(cache, first)?;
    let two = count_in(cache, second)?;
    Ok(are_few(one, two, objects_that_fit::<D>()))
}

// Whether so many and so many fit into a page each and not into one together, and are at most what fits into
// one and four fifths of that: so many as a full leaf and one that is four fifths full.
fn are_few(one: usize, two: usize, most: usize) -> bool
    requires few { most ≤ 340 }
    ensures many { result ≡ true → most < one + two }
    ensures few { result ≡ true → one + two ≤ most + most * 4 / 5 }
    ensures accepts { one ≤ most → two ≤ most → most < one + two → one + two ≤ most + most * 4 / 5
        → result ≡ true }
{
    if one > most {
        return false;
    }
    if two > most {
        return false;
    }
    if one + two <= most {
        return false;
    }
    one + two <= most + most * 4 / 5
}
