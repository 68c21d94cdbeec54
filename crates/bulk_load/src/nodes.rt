//! Nodes of a packed tree: each in a page of its own that was not live.

ghost use Rattle.std.specs.Prelude.{◌≡◌, ◌^◌, ◌<◌, ◌≤◌, All, IfErr, IfOk, None, Some, length};
ghost use Rattle.box_math.specs.Bounds.{IsDims};
ghost use Rattle.page_file.specs.Pages.{SameBut};
ghost use Rattle.page_cache.specs.Cache.{Grows, IsPageMap, pages};
ghost use Rattle.page_cache.specs.Calls.{Changes};
ghost use Rattle.tree_node.specs.Boxes.{least_box};
ghost use Rattle.tree_node.specs.Nodes.{items_of};
ghost use Rattle.node_bytes.specs.Layout.{IsOfLevel, IsSpellable};
ghost use Rattle.node_page.specs.Standing.{node_in};
ghost use Rattle.node_page.specs.Faults.{IsChangeFault, IsNoDamage};

use arrayvec::ArrayVec;
use block_device::BlockDevice;
use node_page::{Entry, Node, write_node};
use page_cache::PageCache;
use page_file::Fault;
use std::alloc::Allocator;
use tree_node::least;

// The node of these entries.
fn node_of<const D: usize>(entries: &[Entry<D>], level: u8) -> Node<D>
    requires dims { IsDims D }
    requires few { length entries.now ≤ 100 }
    ensures level { result.level ≡ level }
    ensures entries { result.entries.items ≡ entries.now }
{
    let mut held = ArrayVec::new();
    'entries: for place in 0..entries.len() {
        held.push(entries[place]);
    }
    Node {
        level,
        entries: held,
    }
}

/// Writes a node of these entries into a page that was not live, and answers its number. After a refusal one
/// page that was not live may be another; all others are as before.
pub(crate) fn write_new<const D: usize, B: BlockDevice, A: Allocator + Copy>(
    cache: &mut PageCache<B, A>,
    entries: &[Entry<D>],
    level: u8,
) -> Result<u32, Fault>
    requires dims { IsDims D }
    requires spellable { IsSpellable (record { level = level; entries = items_of entries.now }) }
    ensures changes { Changes cache.old cache.new result }
    ensures sound { IsPageMap cache.old → IsPageMap cache.new }
    ensures number { IfOk result (λ n. (3 ≤ n) × (n < 2 ^ 31)) }
    ensures fresh { IsPageMap cache.old → IfOk result (λ n. pages cache.old n ≡ None) }
    ensures node { IsPageMap cache.old → IfOk result (λ n. node_in D (pages cache.new n)
        ≡ Some (record { level = level; entries = items_of entries.now })) }
    ensures others { IsPageMap cache.old → IfOk result (λ n. SameBut n (pages cache.old) (pages cache.new)) }
    ensures grows { Grows 1 cache.old cache.new }
    ensures faults { IsPageMap cache.old → IfErr result (IsNoDamage cache.new) }
    ensures other_faults { IfErr result (IsChangeFault cache.new) }
{
    let node = node_of(entries, level);
    let page = cache.allocate()?;
    write_node(cache, page, &node)?;
    Ok(page)
}

/// Writes a node of these entries, at least one, in the same way, and answers the entry for it: its least
/// box, and its page.
pub(crate) fn write_parent<const D: usize, B: BlockDevice, A: Allocator + Copy>(
    cache: &mut PageCache<B, A>,
    entries: &[Entry<D>],
    level: u8,
) -> Result<Entry<D>, Fault>
    requires dims { IsDims D }
    requires sized { (1 ≤ length entries.now) × (length entries.now ≤ 100) }
    requires refers { All (λ item. IsOfLevel level item.reference item.tag) (items_of entries.now) }
    ensures changes { Changes cache.old cache.new result }
    ensures sound { IsPageMap cache.old → IsPageMap cache.new }
    ensures number { IfOk result (λ parent. (3 ≤ parent.reference) × (parent.reference < 2 ^ 31)
        × (parent.tag ≡ 0)) }
    ensures least { IfOk result (λ parent. parent.bounds ≡ least_box D (items_of entries.now)) }
    ensures fresh { IsPageMap cache.old → IfOk result (λ parent. pages cache.old parent.reference ≡ None) }
    ensures node { IsPageMap cache.old → IfOk result (λ parent. node_in D (pages cache.new parent.reference)
        ≡ Some (record { level = level; entries = items_of entries.now })) }
    ensures others { IsPageMap cache.old
        → IfOk result (λ parent. SameBut parent.reference (pages cache.old) (pages cache.new)) }
    ensures grows { Grows 1 cache.old cache.new }
    ensures faults { IsPageMap cache.old → IfErr result (IsNoDamage cache.new) }
    ensures other_faults { IfErr result (IsChangeFault cache.new) }
{
    let page = write_new(cache, entries, level)?;
    Ok(Entry {
        bounds: least(entries),
        reference: u64::from(page),
        tag: 0,
    })
}
