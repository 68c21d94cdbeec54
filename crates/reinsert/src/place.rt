//! An entry placed below a node, and the nodes above settled.

ghost use Rattle.std.specs.Prelude.{◌≡◌, ◌+◌, ◌<◌, ◌≤◌, ◌++◌, ◌∷◌, [], ⊤, None, All, length};
ghost use Rattle.std.specs.Prelude.{IfOk, IfErr, IfSome, IsTrue, OnOk, ℕ};
ghost use Rattle.arrayvec.specs.ArrayVec.{array_vec_len};
ghost use Rattle.page_file.specs.declared.fault.Fault.TheVariants as fault;
ghost use Rattle.page_cache.specs.Cache.{Grows, IsPageMap, given, pages};
ghost use Rattle.page_cache.specs.Calls.{Changes};
ghost use Rattle.tree_node.specs.Nodes.{item_of};
ghost use Rattle.tree_node.specs.Rows.{item_in};
ghost use Rattle.tree_node.specs.Trees.{Row, Branch};
ghost use Rattle.node_page.specs.Checked.{ComesTo};
ghost use Rattle.node_bytes.specs.Layout.{IsOfLevel};
ghost use Rattle.node_page.specs.Faults.{IsChangeFault, IsNoDamage};
ghost use Rattle.reinsert.specs.Placed.{CanPlace, HasFewEntries, PlacesTo, items_after, measure_of};
ghost use Rattle.reinsert.specs.Steps.{HasLower, ReadsFitting, SettlesThere};

use crate::settle::settle;
use crate::settled::{Limits, Settled};
use crate::waiting::Waiting;
use crate::way::{Way, way_down};
use arrayvec::ArrayVec;
use block_device::BlockDevice;
use node_page::{add_entry, enlarge_entry, read_into};
use page_cache::PageCache;
use page_file::Fault;
use std::alloc::Allocator;
use tree_node::{Entry, Fanout, Node, Root};

// Puts the entry into the node on its level that the choice leads to from this node down. In a sound map
// `Damaged` names a page that a walk down the nodes, as they were, comes to.
pub(crate) fn place<const D: usize, B: BlockDevice, A: Allocator + Copy>(
    cache: &mut PageCache<B, A>,
    at: Root,
    entry: &Entry<D>,
    target: u8,
    limits: Limits,
    waiting: &mut Waiting<D>,
) -> Result<Settled<D>, Fault>
    requires levels { (target ≤ at.level) × (at.level ≤ limits.top) × (limits.top ≤ 40) }
    requires refers { IsOfLevel target entry.now.reference entry.now.tag }
    ensures changes { Changes cache.old cache.new result }
    ensures grows { Grows (at.level + 1) cache.old cache.new }
    ensures measure { measure_of waiting.new ≤ measure_of waiting.old }
    ensures beside { IfOk result (λ s. IfSome s.beside (λ e. IsOfLevel (at.level + 1) e.reference e.tag)) }
    ensures placed { IsPageMap cache.old → (row : Row) (branch : Branch) → item_in branch ≡ item_of entry.now
        → CanPlace D (pages cache.old) at.page at.level target row branch →
        IfOk result (λ s. IsPageMap cache.new
        × PlacesTo D limits.fanout.most limits.top at.level target waiting.old.called branch row
        (pages cache.old)
        (pages cache.new)
        at.page s waiting.old.waits.items waiting.new.waits.items waiting.new.called) }
    ensures faults { IsPageMap cache.old → (row : Row) (branch : Branch) → item_in branch ≡ item_of entry.now
        → CanPlace D (pages cache.old) at.page at.level target row branch → HasFewEntries D limits.fanout.most
        row →
        IfErr result (IsNoDamage cache.new) }
    ensures sound { IsPageMap cache.old → OnOk result (IsPageMap cache.new) }
    ensures damage { IsPageMap cache.old
        → IfErr result (λ f. (n : ℕ) → f ≡ fault.Damaged n → ComesTo D (given cache.old) at.page n) }
    ensures other_faults { IfErr result (IsChangeFault cache.new) }
{
    if at.level == target {
        return put_here(cache, at, entry, limits, waiting);
    }
    let way = way_down(cache, at, &entry.bounds, limits.fanout)?;
    let below = Root {
        page: way.page,
        level: at.level - 1,
    };
    let lower = place(cache, below, entry, target, limits, waiting)?;
    if keeps_entries(&way, &lower) {
        return Ok(Settled {
            bounds: way.least,
            beside: None,
        });
    }
    put_above(cache, at, way.place, lower, limits, waiting)
}

// Adds the entry to a node, and settles it. The node is decoded only where it has no room, or no entry yet.
fn put_here<const D: usize, B: BlockDevice, A: Allocator + Copy>(
    cache: &mut PageCache<B, A>,
    at: Root,
    entry: &Entry<D>,
    limits: Limits,
    waiting: &mut Waiting<D>,
) -> Result<Settled<D>, Fault>
    requires top { (at.level ≤ limits.top) × (limits.top ≤ 40) }
    requires refers { IsOfLevel at.level entry.now.reference entry.now.tag }
    ensures { SettlesThere limits.fanout.most limits.top at (λ items. ⊤)
        (λ items. items ++ item_of entry.now ∷ [])
        cache.old cache.new waiting.old waiting.new result }
{
    let most = limits.fanout.entries();
    if let Some(bounds) = add_entry(cache, at.page, at.level, entry, most)? {
        return Ok(Settled {
            bounds,
            beside: None,
        });
    }
    let mut node = Node {
        level: at.level,
        entries: ArrayVec::new(),
    };
    read_fitting(cache, at, limits.fanout, &mut node)?;
    node.entries.push(*entry);
    settle(cache, at.page, &node, limits, waiting)
}

// Reads a node of at most the most entries.
fn read_fitting<const D: usize, B: BlockDevice, A: Allocator + Copy>(
    cache: &mut PageCache<B, A>,
    at: Root,
    fanout: Fanout,
    node: &mut Node<D>,
) -> Result<(), Fault>
    ensures { ReadsFitting fanout.most at cache.old cache.new node.new result }
{
    read_into(cache, at.page, at.level, node)?;
    if node.entries.len() > fanout.entries() {
        return Err(Fault::Damaged(at.page));
    }
    Ok(())
}

// Whether a node keeps its entries where the chosen child has settled so: it kept its box, and nothing was
// split off.
fn keeps_entries<const D: usize>(way: &Way<D>, lower: &Settled<D>) -> bool
    ensures { IsTrue result → (lower.now.beside ≡ None) × (lower.now.bounds ≡ way.now.bounds) }
{
    lower.beside.is_none() && lower.bounds == way.bounds
}

// Settles a node whose child at the place has settled. A box that only grew is written where it lies.
fn put_above<const D: usize, B: BlockDevice, A: Allocator + Copy>(
    cache: &mut PageCache<B, A>,
    at: Root,
    place: usize,
    lower: Settled<D>,
    limits: Limits,
    waiting: &mut Waiting<D>,
) -> Result<Settled<D>, Fault>
    requires top { (at.level ≤ limits.top) × (limits.top ≤ 40) }
    requires beside { IfSome lower.beside (λ e. IsOfLevel at.level e.reference e.tag) }
    ensures { SettlesThere limits.fanout.most limits.top at (λ items. place < length items)
        (λ items. items_after items place lower.entry) cache.old cache.new waiting.old waiting.new result }
{
    if lower.beside.is_some() {
        return put_anew(cache, at, place, lower, limits, waiting);
    }
    let most = limits.fanout.entries();
    if let Some(bounds) = enlarge_entry(cache, at.page, at.level, place, &lower.bounds, most)? {
        return Ok(Settled {
            bounds,
            beside: None,
        });
    }
    put_anew(cache, at, place, lower, limits, waiting)
}

// Reads a node whose child at the place has settled, and settles it.
fn put_anew<const D: usize, B: BlockDevice, A: Allocator + Copy>(
    cache: &mut PageCache<B, A>,
    at: Root,
    place: usize,
    lower: Settled<D>,
    limits: Limits,
    waiting: &mut Waiting<D>,
) -> Result<Settled<D>, Fault>
    requires top { (at.level ≤ limits.top) × (limits.top ≤ 40) }
    requires beside { IfSome lower.beside (λ e. IsOfLevel at.level e.reference e.tag) }
    ensures { SettlesThere limits.fanout.most limits.top at (λ items. place < length items)
        (λ items. items_after items place lower.entry) cache.old cache.new waiting.old waiting.new result }
{
    let mut node = Node {
        level: at.level,
        entries: ArrayVec::new(),
    };
    read_fitting(cache, at, limits.fanout, &mut node)?;
    if place >= node.entries.len() {
        return Err(Fault::Damaged(at.page));
    }
    put_lower(&mut node, place, lower);
    settle(cache, at.page, &node, limits, waiting)
}

// Puts what the child at a place has handed up into a node: the child's box, and what was split off.
fn put_lower<const D: usize>(node: &mut Node<D>, at: usize, lower: Settled<D>)
    requires within { at < array_vec_len node.old.entries }
    requires few { array_vec_len node.old.entries ≤ 100 }
    requires refers { All (λ e. IsOfLevel node.old.level e.reference e.tag) node.old.entries.items }
    requires beside { IfSome lower.beside (λ e. IsOfLevel node.old.level e.reference e.tag) }
    ensures level { node.new.level ≡ node.old.level }
    ensures entries { HasLower node.old.level node.old.entries.items at lower.entry node.new.entries.items }
{
    let Settled { bounds, beside } = lower;
    node.entries[at].bounds = bounds;
    if let Some(entry) = beside {
        node.entries.push(entry);
    }
}
