//! How the nodes of a pair are opened.

ghost use Rattle.std.specs.Prelude.{◌≡◌, ◌⊎◌, ◌+◌, ◌-◌, ◌<◌, ◌≤◌, ◌^◌, ℕ, Some, None, IfOk, IfErr, OnOk};
ghost use Rattle.std.specs.Prelude.{length};
ghost use Rattle.box_math.specs.Bounds.{IsDims};
ghost use Rattle.page_file.specs.Fault.{IsDamage, IsOfDevice};
ghost use Rattle.page_file.specs.declared.fault.Fault.TheVariants as fault;
ghost use Rattle.page_cache.specs.Cache.{IsHonest, given, looks_of, pages};
ghost use Rattle.page_cache.specs.Calls.{Asks};
ghost use Rattle.tree_node.specs.Nodes.{content_of};
ghost use Rattle.tree_node.specs.Trees.{Row, row_items};
ghost use Rattle.node_page.specs.Checked.{ComesBelow, ComesTo};
ghost use Rattle.node_page.specs.Standing.{StandsAt};
ghost use Rattle.spatial_join.specs.Opening.{HasPages, node_box, lone, opened, opened_level, opened_root};

use arrayvec::ArrayVec;
use block_device::BlockDevice;
use box_math::BBox;
use node_page::{Entry, Node, Root, read_node};
use page_cache::PageCache;
use page_file::Fault;
use std::alloc::Allocator;
use tree_node::least;

/// Opens a node with its box, beside one on another level: the node itself where it is no lower, in one look,
/// and else one above it that has it as the only entry.
pub(crate) fn open<const D: usize, B: BlockDevice, A: Allocator + Copy>(
    cache: &mut PageCache<B, A>,
    node: Root,
    bounds: &BBox<D>,
    other: u8,
) -> Result<Node<D>, Fault>
    requires { IsDims D }
    ensures asks { Asks cache.old cache.new result }
    ensures level { IfOk result (λ opening. opening.level ≡ opened_level node.level other) }
    ensures entries { IsHonest cache.old → (row : Row) → StandsAt D (pages cache.old) node.page node.level row
        → IfOk result (λ opening.
        row_items (opened node.level other bounds.now node.page row) ≡ (content_of opening).entries) }
    ensures walks { IsHonest cache.old → IfOk result (λ opening. (n : ℕ)
        → ComesBelow D (given cache.old) (content_of opening) n → ComesTo D (given cache.old) node.page n) }
    ensures references { IfOk result (λ opening. HasPages (content_of opening)) }
    ensures few { IfOk result (λ opening. length opening.entries.items ≤ 100) }
    ensures looks { OnOk result (looks_of cache.new ≤ looks_of cache.old + 1) }
    ensures stands { IsHonest cache.old → (row : Row) → StandsAt D (pages cache.old) node.page node.level row
        → IfErr result IsOfDevice }
    ensures faults { IsHonest cache.old → IfErr result (λ f. IsOfDevice f ⊎ (f ≡ fault.Damaged node.page)) }
    ensures other_faults { IfErr result (λ f. IsOfDevice f ⊎ IsDamage f) }
{
    if other <= node.level {
        return read_node::<D, B, A>(cache, node.page, node.level);
    }
    Ok(above::<D>(node, Some(*bounds)))
}

/// Opens a root, in one look. Its box, where the other root is higher, is that of its entries; an empty one
/// has none.
pub(crate) fn open_root<const D: usize, B: BlockDevice, A: Allocator + Copy>(
    cache: &mut PageCache<B, A>,
    root: Root,
    other: u8,
) -> Result<Node<D>, Fault>
    requires { IsDims D }
    ensures asks { Asks cache.old cache.new result }
    ensures level { IfOk result (λ opening. opening.level ≡ opened_level root.level other) }
    ensures entries { IsHonest cache.old → (row : Row) → StandsAt D (pages cache.old) root.page root.level row
        → IfOk result (λ opening.
        row_items (opened_root D root.level other root.page row) ≡ (content_of opening).entries) }
    ensures walks { IsHonest cache.old → IfOk result (λ opening. (n : ℕ)
        → ComesBelow D (given cache.old) (content_of opening) n → ComesTo D (given cache.old) root.page n) }
    ensures references { IfOk result (λ opening. HasPages (content_of opening)) }
    ensures few { IfOk result (λ opening. length opening.entries.items ≤ 100) }
    ensures looks { OnOk result (looks_of cache.new ≤ looks_of cache.old + 1) }
    ensures stands { IsHonest cache.old → (row : Row) → StandsAt D (pages cache.old) root.page root.level row
        → IfErr result IsOfDevice }
    ensures faults { IsHonest cache.old → IfErr result (λ f. IsOfDevice f ⊎ (f ≡ fault.Damaged root.page)) }
    ensures other_faults { IfErr result (λ f. IsOfDevice f ⊎ IsDamage f) }
{
    let node = read_node::<D, B, A>(cache, root.page, root.level)?;
    if other <= root.level {
        return Ok(node);
    }
    Ok(above(root, node_box(&node)))
}

// A node above the given one, which has it as its only entry, or none if it has no box.
fn above<const D: usize>(node: Root, bounds: Option<BBox<D>>) -> Node<D>
    requires dims { IsDims D }
    requires level { node.level < 255 }
    ensures level { result.level ≡ node.level + 1 }
    ensures entries { (content_of result).entries ≡ lone bounds.entry node.page }
    ensures few { length result.entries.items ≤ 1 }
{
    let mut entries = ArrayVec::new();
    if let Some(bounds) = bounds {
        entries.push(Entry {
            bounds,
            reference: u64::from(node.page),
            tag: 0,
        });
    }
    Node {
        level: node.level + 1,
        entries,
    }
}

// The least box of a node's entries, none of an empty one.
fn node_box<const D: usize>(node: &Node<D>) -> Option<BBox<D>>
    ensures { result ≡ node_box D (content_of node.now).entries }
{
    if node.entries.is_empty() {
        return None;
    }
    Some(least(node.entries.as_slice()))
}
