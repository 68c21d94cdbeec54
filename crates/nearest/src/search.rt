//! The search for the objects nearest to a point: what is nearest is taken first.

ghost use Rattle.std.specs.Prelude.{◌≡◌, ◌⊎◌, ℕ, ◌+◌, ◌^◌, ◌<◌, ◌≤◌, ◌++◌, Some, [], ◌∷◌};
ghost use Rattle.std.specs.Prelude.{List, All, slice_index_or, map, length, IsPermutation};
ghost use Rattle.std.specs.Prelude.{IfOk, IfErr, IfSome, IfNone, OnOk};
ghost use Rattle.block_device.specs.Device.{one_more};
ghost use Rattle.box_math.specs.Measures.{point_dist2_of};
ghost use Rattle.page_file.specs.Fault.{IsDamage, IsOfDevice};
ghost use Rattle.page_file.specs.declared.fault.Fault.TheVariants as fault;
ghost use Rattle.page_cache.specs.Cache.{IsHonest, given, looks_of, pages};
ghost use Rattle.page_cache.specs.Calls.{Asks};
ghost use Rattle.tree_node.specs.Nodes.{NodeContent};
ghost use Rattle.tree_node.specs.Searches.{admitted, counted};
ghost use Rattle.tree_node.specs.Trees.{Tree};
ghost use Rattle.node_page.specs.Checked.{ComesTo, Names};
ghost use Rattle.node_page.specs.Rooted.{IsTreeAt};
ghost use Rattle.node_page.specs.Standing.{node_in};
ghost use Rattle.nearest.specs.Candidates.{Appends, IsAsFar, Past, candidate_at, offered};
ghost use Rattle.nearest.specs.Candidates.{row_at, work_in};
ghost use Rattle.nearest.specs.Nearest.{is_searched, nearest_rows};
ghost use Rattle.nearest.specs.declared.candidate.Candidate.{Candidate};

use crate::best::Best;
use crate::candidate::Candidate;
use crate::children::append_children;
use crate::objects::offer_objects;
use crate::queue::Queue;
use block_device::BlockDevice;
use node_page::{Root, view_node};
use page_cache::PageCache;
use page_file::Fault;
use std::alloc::Allocator;

// So many new candidates are moved into the queue before more are read.
const MANY: usize = 128;

/// The k objects of a tree that are nearest to the point, or all of fewer: each by its identifier and the
/// square of the distance from the point to its box, by that distance and then by identifier.
///
/// On an honest device, where the tree stands in the pages with the shape of an R-tree, a refusal is `Memory`
/// or `Device`, and each node is looked at whose box is no farther than the last of k answers, and no other
/// but the root. On other pages a refusal may be `Damaged` too, with the number of a page that a walk down
/// the nodes comes to. Map and gate stay, also after a refusal.
pub fn nearest<const D: usize, B: BlockDevice, A: Allocator + Copy, H: Allocator + Copy>(
    alloc: H,
    cache: &mut PageCache<B, A>,
    root: Root,
    point: &[i32; D],
    k: usize,
) -> Result<Vec<(u64, u128), H>, Fault>
    requires some { 1 ≤ k }
    ensures asks { Asks cache.old cache.new result }
    ensures rows { IsHonest cache.old → (t : Tree) (most : ℕ) → IsTreeAt D most (pages cache.old) root t →
        IfOk result (λ rows. rows.items ≡ nearest_rows D k point.now t) }
    ensures looks { IsHonest cache.old → (t : Tree) (most : ℕ) → IsTreeAt D most (pages cache.old) root t →
        OnOk result (looks_of cache.new ≡ counted (looks_of cache.old)
        (admitted (is_searched D k point.now (nearest_rows D k point.now t)) t)) }
    ensures stands { IsHonest cache.old → (t : Tree) (most : ℕ) → IsTreeAt D most (pages cache.old) root t →
        IfErr result IsOfDevice }
    ensures damage { IsHonest cache.old
        → IfErr result (λ f. (n : ℕ) → f ≡ fault.Damaged n → ComesTo D (given cache.old) root.page n) }
    ensures other_faults { IfErr result (λ f. IsOfDevice f ⊎ IsDamage f) }
{
    let mut best = Best::new(alloc, k)?;
    let mut queue = Queue::new(alloc)?;
    let mut fresh = Vec::with_capacity(alloc, MANY + 100)?;
    queue.push(Candidate {
        distance: 0,
        page: root.page,
        level: root.level,
    })?;
    while let Some(first) = take_within(&mut queue, &best, k) {
        if first.level == 0 {
            look_at_objects::<D, B, A, H>(cache, first.page, point, k, &mut best)?;
            settle(&mut fresh, &best, k, &mut queue)?;
        } else {
            settle_many(&mut fresh, &best, k, &mut queue)?;
            look_at_children::<D, B, A, H>(cache, first, point, k, &best, &mut fresh)?;
            push_nearest(&mut fresh, &mut queue)?;
        }
    }
    best.into_rows(alloc)
}

// Takes the nearest node out, if it is no farther than the k best.
fn take_within<H: Allocator>(queue: &mut Queue<H>, best: &Best<H>, k: usize) -> Option<Candidate>
    requires some { 1 ≤ k }
    requires few { length best.now ≤ k }
    ensures some { IfSome result (λ first. IsPermutation queue.old (first ∷ queue.new)) }
    ensures first { IfSome result (λ first. All (IsAsFar first.distance) queue.new) }
    ensures within { IfSome result (λ first. Past first.distance k best.now → ⊥) }
    ensures none { IfNone result (All (λ c. Past c.distance k best.now) queue.old) }
{
    let first = queue.pop()?;
    if best.are_nearer(first.distance, k) {
        return None;
    }
    Some(first)
}

// Reads a leaf, and offers its objects, but for those that are too far when it is read.
fn look_at_objects<const D: usize, B: BlockDevice, A: Allocator + Copy, H: Allocator>(
    cache: &mut PageCache<B, A>,
    page: u32,
    point: &[i32; D],
    k: usize,
    best: &mut Best<H>,
) -> Result<(), Fault>
    requires some { 1 ≤ k }
    requires few { length best.old ≤ k }
    ensures asks { Asks cache.old cache.new result }
    ensures best { IsHonest cache.old → (c : NodeContent) → node_in D (pages cache.old page) ≡ Some c
        → c.level ≡ 0 → OnOk result (best.new
        ≡ offered k best.old (map (row_at (λ b. point_dist2_of D b point.now)) c.entries)) }
    ensures few { OnOk result (length best.new ≤ k) }
    ensures looks { OnOk result (looks_of cache.new ≡ one_more (looks_of cache.old)) }
    ensures there { IsHonest cache.old → (c : NodeContent) → node_in D (pages cache.old page) ≡ Some c
        → c.level ≡ 0 → IfErr result IsOfDevice }
    ensures faults { IsHonest cache.old → IfErr result (λ f. IsOfDevice f ⊎ (f ≡ fault.Damaged page)) }
    ensures other_faults { IfErr result (λ f. IsOfDevice f ⊎ IsDamage f) }
{
    let view = view_node::<D, B, A>(cache, page, 0)?;
    offer_objects(&view, point, k, best)
}

// Reads a node above the leaves, and appends its children, but for those that are too far when it is read.
fn look_at_children<const D: usize, B: BlockDevice, A: Allocator + Copy, H: Allocator>(
    cache: &mut PageCache<B, A>,
    node: Candidate,
    point: &[i32; D],
    k: usize,
    best: &Best<H>,
    fresh: &mut Vec<Candidate, H>,
) -> Result<(), Fault>
    requires above { 0 < node.level }
    requires some { 1 ≤ k }
    requires few { length best.now ≤ k }
    ensures asks { Asks cache.old cache.new result }
    ensures children { IsHonest cache.old → (c : NodeContent) → node_in D (pages cache.old node.page) ≡ Some c
        → c.level ≡ node.level → OnOk result (Appends k best.now
        (map (candidate_at (λ b. point_dist2_of D b point.now) node.level) c.entries)
        fresh.old.items fresh.new.items) }
    ensures named { IsHonest cache.old → OnOk result ((c : NodeContent)
        × (node_in D (given cache.old node.page) ≡ Some c) × (children : List Candidate)
        × (fresh.new.items ≡ fresh.old.items ++ children) × All (λ child. Names c child.page) children) }
    ensures work { OnOk result (work_in fresh.new.items < work_in fresh.old.items + 101 ^ node.level) }
    ensures looks { OnOk result (looks_of cache.new ≡ one_more (looks_of cache.old)) }
    ensures there { IsHonest cache.old → (c : NodeContent) → node_in D (pages cache.old node.page) ≡ Some c
        → c.level ≡ node.level → IfErr result IsOfDevice }
    ensures faults { IsHonest cache.old → IfErr result (λ f. IsOfDevice f ⊎ (f ≡ fault.Damaged node.page)) }
    ensures other_faults { IfErr result (λ f. IsOfDevice f ⊎ IsDamage f) }
{
    let view = view_node::<D, B, A>(cache, node.page, node.level)?;
    append_children(&view, node.level, point, k, best, fresh)
}

// Moves the nearest of the new candidates into the queue. What is no farther than those there is no farther
// than the others then, so they can wait until the next node was read: most are too far by then.
fn push_nearest<H: Allocator>(
    fresh: &mut Vec<Candidate, H>,
    queue: &mut Queue<H>,
) -> Result<(), Fault>
    ensures all { OnOk result (IsPermutation (queue.old ++ fresh.old.items) (queue.new ++ fresh.new.items)) }
    ensures led { OnOk result ((d : ℕ) → All (IsAsFar d) queue.new → All (IsAsFar d) fresh.new.items) }
    ensures memory { IfErr result (λ f. f ≡ fault.Memory) }
{
    if fresh.is_empty() {
        return Ok(());
    }
    let place = nearest_place(fresh.as_slice());
    queue.push(fresh.swap_remove(place))?;
    Ok(())
}

// The place of the nearest candidate.
fn nearest_place(candidates: &[Candidate]) -> usize
    requires { 0 < length candidates.now }
    ensures within { result < length candidates.now }
    ensures nearest { (d : Candidate) →
        All (IsAsFar (slice_index_or candidates.now result d).distance) candidates.now }
{
    let mut place = 0;
    let mut least = candidates[0].distance;
    for other in 1..candidates.len() {
        let distance = candidates[other].distance;
        if distance < least {
            place = other;
            least = distance;
        }
    }
    place
}

// Does as `settle`, where there are so many new candidates that it would take long to find the nearest. Fewer
// wait until a leaf was read: most are too far by then.
fn settle_many<H: Allocator>(
    fresh: &mut Vec<Candidate, H>,
    best: &Best<H>,
    k: usize,
    queue: &mut Queue<H>,
) -> Result<(), Fault>
    requires some { 1 ≤ k }
    requires few { length best.now ≤ k }
    ensures all { OnOk result ((gone : List Candidate)
        × IsPermutation (queue.old ++ fresh.old.items) ((queue.new ++ fresh.new.items) ++ gone)
        × All (λ c. Past c.distance k best.now) gone) }
    ensures memory { IfErr result (λ f. f ≡ fault.Memory) }
{
    if fresh.len() < MANY {
        return Ok(());
    }
    settle(fresh, best, k, queue)
}

// Moves the new candidates into the queue, but for those that are farther than the k best.
fn settle<H: Allocator>(
    fresh: &mut Vec<Candidate, H>,
    best: &Best<H>,
    k: usize,
    queue: &mut Queue<H>,
) -> Result<(), Fault>
    requires some { 1 ≤ k }
    requires few { length best.now ≤ k }
    ensures none_left { OnOk result (fresh.new.items ≡ []) }
    ensures all { OnOk result ((gone : List Candidate)
        × IsPermutation (queue.old ++ fresh.old.items) (queue.new ++ gone)
        × All (λ c. Past c.distance k best.now) gone) }
    ensures memory { IfErr result (λ f. f ≡ fault.Memory) }
{
    while let Some(candidate) = fresh.pop() {
        if !best.are_nearer(candidate.distance, k) {
            queue.push(candidate)?;
        }
    }
    Ok(())
}
