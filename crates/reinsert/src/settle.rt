//! A node that may have one entry too many is written, its far set waits again, or it is split.

ghost use Rattle.std.specs.Prelude.{◌≡◌, ◌^◌, ◌+◌, ◌<◌, ◌≤◌, true, false, ℕ, Bool, List, None, Some, All};
ghost use Rattle.std.specs.Prelude.{map, IfOk, OnOk};
ghost use Rattle.std.specs.Prelude.{IfErr, IfSome};
ghost use Rattle.arrayvec.specs.ArrayVec.{array_vec_len};
ghost use Rattle.page_cache.specs.Cache.{Grows, IsLive, IsPageMap, pages};
ghost use Rattle.page_cache.specs.Calls.{Changes};
ghost use Rattle.tree_node.specs.Nodes.{content_of, item_of};
ghost use Rattle.node_bytes.specs.Layout.{IsOfLevel, IsSpellable};
ghost use Rattle.node_page.specs.Standing.{PageMap, node_in};
ghost use Rattle.reinsert.specs.Called.{is_called};
ghost use Rattle.reinsert.specs.Far;
ghost use Rattle.node_page.specs.Faults.{IsChangeFault, IsNoDamage};
ghost use Rattle.reinsert.specs.Placed.{SplitsOff, measure_of};
ghost use Rattle.reinsert.specs.Steps.{SettlesAt, SettlesNode};
ghost use Rattle.reinsert.specs.declared.waiting.Wait.{Wait};

use crate::far::farthest;
use crate::settled::{Limits, Settled};
use crate::waiting::Waiting;
use block_device::BlockDevice;
use node_page::write_node;
use page_cache::PageCache;
use page_file::Fault;
use rstar_split::split;
use std::alloc::Allocator;
use tree_node::{Entry, Fanout, Node, least};

// How many entries a far set has: 30 in a hundred.
fn far_count(fanout: Fanout) -> usize
    ensures value { result ≡ Far.far_count fanout.most }
    ensures few { (1 ≤ result) × (result ≤ 30) × (result + 1 ≤ fanout.most) }
{
    (3 * fanout.entries() / 10).max(1)
}

// Writes a node that may have one entry too many.
pub(crate) fn settle<const D: usize, B: BlockDevice, A: Allocator + Copy>(
    cache: &mut PageCache<B, A>,
    page: u32,
    node: &Node<D>,
    limits: Limits,
    waiting: &mut Waiting<D>,
) -> Result<Settled<D>, Fault>
    requires top { (node.now.level ≤ limits.top) × (limits.top ≤ 40) }
    requires some { 0 < array_vec_len node.now.entries }
    requires few { array_vec_len node.now.entries ≤ limits.fanout.most + 1 }
    requires refers { All (λ e. IsOfLevel node.now.level e.reference e.tag) node.now.entries.items }
    ensures { SettlesAt limits.fanout.most limits.top page node.now.level (map item_of node.now.entries.items)
        cache.old cache.new waiting.old waiting.new result }
{
    if node.entries.len() <= limits.fanout.entries() {
        return write_fitting(cache, page, node);
    }
    if node.level < limits.top && !waiting.is_called(node.level) {
        return take_out_far(cache, page, node, limits.fanout, waiting);
    }
    split_off(cache, page, node, limits.fanout, waiting)
}

// Writes a node of at most the most entries.
fn write_fitting<const D: usize, B: BlockDevice, A: Allocator + Copy>(
    cache: &mut PageCache<B, A>,
    page: u32,
    node: &Node<D>,
) -> Result<Settled<D>, Fault>
    requires some { 0 < array_vec_len node.now.entries }
    requires few { array_vec_len node.now.entries ≤ 100 }
    requires refers { All (λ e. IsOfLevel node.now.level e.reference e.tag) node.now.entries.items }
    ensures changes { Changes cache.old cache.new result }
    ensures grows { Grows 0 cache.old cache.new }
    ensures alone { IfOk result (λ s. s.beside ≡ None) }
    ensures settled { IsPageMap cache.old
        → (most top : ℕ) (called : List Bool) (waits : List (Wait D)) → array_vec_len node.now.entries ≤ most
        → SettlesNode most top page node.now.level (map item_of node.now.entries.items) cache.old cache.new
        waits called waits called result }
    ensures sound { IsPageMap cache.old → IsLive cache.old page → OnOk result (IsPageMap cache.new) }
    ensures faults { IsPageMap cache.old → IsLive cache.old page → IfErr result (IsNoDamage cache.new) }
    ensures other_faults { IfErr result (IsChangeFault cache.new) }
{
    let bounds = least(node.entries.as_slice());
    write_node(cache, page, node)?;
    Ok(Settled {
        bounds,
        beside: None,
    })
}

// Takes the far set out of a node of one entry too many, which waits again, and writes the rest.
fn take_out_far<const D: usize, B: BlockDevice, A: Allocator + Copy>(
    cache: &mut PageCache<B, A>,
    page: u32,
    node: &Node<D>,
    fanout: Fanout,
    waiting: &mut Waiting<D>,
) -> Result<Settled<D>, Fault>
    requires level { node.now.level < 41 }
    requires many { array_vec_len node.now.entries ≡ fanout.most + 1 }
    requires refers { All (λ e. IsOfLevel node.now.level e.reference e.tag) node.now.entries.items }
    requires first { is_called waiting.old.called node.now.level ≡ false }
    ensures changes { Changes cache.old cache.new result }
    ensures grows { Grows 0 cache.old cache.new }
    ensures measure { measure_of waiting.new ≤ measure_of waiting.old }
    ensures alone { IfOk result (λ s. s.beside ≡ None) }
    ensures settled { IsPageMap cache.old → (top : ℕ) → node.now.level < top
        → SettlesNode fanout.most top page node.now.level (map item_of node.now.entries.items) cache.old
        cache.new
        waiting.old.waits.items waiting.old.called waiting.new.waits.items waiting.new.called result }
    ensures sound { IsPageMap cache.old → IsLive cache.old page → OnOk result (IsPageMap cache.new) }
    ensures faults { IsPageMap cache.old → IsLive cache.old page → IfErr result (IsNoDamage cache.new) }
    ensures other_faults { IfErr result (IsChangeFault cache.new) }
{
    let level = node.level;
    let (near, far) = farthest(&node.entries, far_count(fanout));
    let bounds = least(near.as_slice());
    waiting.wait_again(&far, level);
    let rest = Node {
        level,
        entries: near,
    };
    write_node(cache, page, &rest)?;
    Ok(Settled {
        bounds,
        beside: None,
    })
}

// Splits a node of one entry too many over its page and one that was not live.
fn split_off<const D: usize, B: BlockDevice, A: Allocator + Copy>(
    cache: &mut PageCache<B, A>,
    page: u32,
    node: &Node<D>,
    fanout: Fanout,
    waiting: &mut Waiting<D>,
) -> Result<Settled<D>, Fault>
    requires level { node.now.level < 41 }
    requires many { array_vec_len node.now.entries ≡ fanout.most + 1 }
    requires refers { All (λ e. IsOfLevel node.now.level e.reference e.tag) node.now.entries.items }
    ensures changes { Changes cache.old cache.new result }
    ensures grows { Grows 1 cache.old cache.new }
    ensures measure { measure_of waiting.new ≤ measure_of waiting.old }
    ensures beside { IfOk result
        (λ s. IfSome s.beside (λ e. IsOfLevel (node.now.level + 1) e.reference e.tag)) }
    ensures settled { IsPageMap cache.old
        → (top : ℕ) → (node.now.level < top → is_called waiting.old.called node.now.level ≡ true)
        → SettlesNode fanout.most top page node.now.level (map item_of node.now.entries.items) cache.old
        cache.new
        waiting.old.waits.items waiting.old.called waiting.new.waits.items waiting.new.called result }
    ensures sound { IsPageMap cache.old → IsLive cache.old page → OnOk result (IsPageMap cache.new) }
    ensures faults { IsPageMap cache.old → IsLive cache.old page → IfErr result (IsNoDamage cache.new) }
    ensures other_faults { IfErr result (IsChangeFault cache.new) }
{
    let level = node.level;
    waiting.call(level);
    let (first, second) = split(&node.entries, fanout);
    let bounds = least(first.as_slice());
    let other = least(second.as_slice());
    let first = Node {
        level,
        entries: first,
    };
    let second = Node {
        level,
        entries: second,
    };
    let number = write_both(cache, page, &first, &second)?;
    let beside = Entry {
        bounds: other,
        reference: u64::from(number),
        tag: 0,
    };
    Ok(Settled {
        bounds,
        beside: Some(beside),
    })
}

// Writes two nodes, the second into a page that was not live, and gives the number of that.
fn write_both<const D: usize, B: BlockDevice, A: Allocator + Copy>(
    cache: &mut PageCache<B, A>,
    page: u32,
    first: &Node<D>,
    second: &Node<D>,
) -> Result<u32, Fault>
    requires first { IsSpellable (content_of first.now) }
    requires second { IsSpellable (content_of second.now) }
    ensures changes { Changes cache.old cache.new result }
    ensures grows { Grows 1 cache.old cache.new }
    ensures number { IfOk result (λ n. (3 ≤ n) × (n < 2 ^ 31)) }
    ensures written { IsPageMap cache.old → IsLive cache.old page →
        IfOk result (λ n. IsPageMap cache.new
        × SplitsOff D (pages cache.old) (pages cache.new) page n (content_of first.now)
        (content_of second.now)) }
    ensures faults { IsPageMap cache.old → IsLive cache.old page → IfErr result (IsNoDamage cache.new) }
    ensures other_faults { IfErr result (IsChangeFault cache.new) }
{
    let number = cache.allocate()?;
    write_node(cache, number, second)?;
    write_node(cache, page, first)?;
    Ok(number)
}
