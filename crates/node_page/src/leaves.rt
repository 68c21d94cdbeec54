//! The leaves of a tree of pages, from left to right.

ghost use Rattle.std.specs.Prelude.{◌≡◌, ◌⊎◌, ◌++◌, ◌∷◌, [], ℕ, IfOk, IfErr, OnOk};
ghost use Rattle.box_math.specs.Bounds.{IsDims};
ghost use Rattle.page_file.specs.Fault.{IsDamage, IsOfDevice};
ghost use Rattle.page_file.specs.declared.fault.Fault.TheVariants as fault;
ghost use Rattle.page_cache.specs.Cache.{IsHonest, IsPageMap, given, looks_of, pages};
ghost use Rattle.page_cache.specs.Calls.{Asks};
ghost use Rattle.tree_node.specs.Nodes.{content_of, references_of};
ghost use Rattle.node_page.specs.Checked.{ComesToNone};
ghost use Rattle.node_page.specs.Lists.{AddsLeavesAt, AreLeavesAt, lists_of};
ghost use Rattle.tree_node.specs.Trees.{Row, Tree, leaf_ids};
ghost use Rattle.node_page.specs.Standing.{StandsAt, Stands};

use crate::nodes::read_node;
use block_device::BlockDevice;
use page_cache::PageCache;
use page_file::Fault;
use std::alloc::Allocator;
use tree_node::{Node, Root};

/// The identifiers of each leaf of a tree, by position, and the leaves from left to right. It has one list
/// for a root that is a leaf, be it empty.
///
/// On an honest device it answers so only where the nodes of a tree, be it with a page twice, stand at that
/// page and level, each of which it looks at once; else it is `Damaged` with the number of a page that a walk
/// down the nodes comes to, and that spells no node of the level that is left there. Where they do, a refusal
/// is `Memory` or `Device`. Map and gate stay, also after a refusal.
pub fn leaf_lists<const D: usize, B: BlockDevice, A: Allocator + Copy, H: Allocator + Copy>(
    alloc: H,
    cache: &mut PageCache<B, A>,
    root: Root,
) -> Result<Vec<Vec<u64, H>, H>, Fault>
    requires { IsDims D }
    ensures asks { Asks cache.old cache.new result }
    ensures lists { IsHonest cache.old → (t : Tree) → t.page ≡ root.page → t.level ≡ root.level
        → Stands D (pages cache.old) t →
        IfOk result (λ lists. lists_of lists ≡ leaf_ids t.level t.row) }
    ensures found { IsPageMap cache.old →
        IfOk result (λ lists. AreLeavesAt D (pages cache.old) root.page root.level
        (lists_of lists) (looks_of cache.old) (looks_of cache.new)) }
    ensures given_found { IsHonest cache.old → IfOk result (λ lists. AreLeavesAt D (given cache.old) root.page
        root.level (lists_of lists) (looks_of cache.old) (looks_of cache.new)) }
    ensures stands { IsHonest cache.old → (t : Tree) → t.page ≡ root.page → t.level ≡ root.level
        → Stands D (pages cache.old) t →
        IfErr result IsOfDevice }
    ensures damage { IsHonest cache.old
        → IfErr result (λ f. (n : ℕ) → f ≡ fault.Damaged n
        → ComesToNone D (given cache.old) root.page root.level n) }
    ensures other_faults { IfErr result (λ f. IsOfDevice f ⊎ IsDamage f) }
{
    let mut lists = Vec::new(alloc);
    add_leaves::<D, B, A, H>(alloc, cache, root, &mut lists)?;
    Ok(lists)
}

// Appends the identifiers of each leaf below a node.
fn add_leaves<const D: usize, B: BlockDevice, A: Allocator + Copy, H: Allocator + Copy>(
    alloc: H,
    cache: &mut PageCache<B, A>,
    root: Root,
    lists: &mut Vec<Vec<u64, H>, H>,
) -> Result<(), Fault>
    requires { IsDims D }
    ensures asks { Asks cache.old cache.new result }
    ensures found { IsHonest cache.old → OnOk result (AddsLeavesAt D (given cache.old) root.page root.level
        (lists_of lists.old) (lists_of lists.new) (looks_of cache.old) (looks_of cache.new)) }
    ensures stands { IsHonest cache.old → (row : Row) → StandsAt D (given cache.old) root.page root.level row
        → IfErr result IsOfDevice }
    ensures damage { IsHonest cache.old
        → IfErr result (λ f. (n : ℕ) → f ≡ fault.Damaged n
        → ComesToNone D (given cache.old) root.page root.level n) }
    ensures other_faults { IfErr result (λ f. IsOfDevice f ⊎ IsDamage f) }
{
    let node = read_node::<D, B, A>(cache, root.page, root.level)?;
    if root.level == 0 {
        return add_leaf(alloc, &node, lists);
    }
    for entry in node.entries.as_slice() {
        let below = Root {
            page: entry.reference as u32,
            level: root.level - 1,
        };
        add_leaves::<D, B, A, H>(alloc, cache, below, lists)?;
    }
    Ok(())
}

// Appends the identifiers of a leaf.
fn add_leaf<const D: usize, H: Allocator + Copy>(
    alloc: H,
    leaf: &Node<D>,
    lists: &mut Vec<Vec<u64, H>, H>,
) -> Result<(), Fault>
    ensures lists { OnOk result
        (lists_of lists.new ≡ lists_of lists.old ++ references_of (content_of leaf.now) ∷ []) }
    ensures memory { IfErr result (λ f. f ≡ fault.Memory) }
{
    lists.push(ids_of(alloc, leaf)?)?;
    Ok(())
}

// The references of a leaf, which are its identifiers, by position.
fn ids_of<const D: usize, H: Allocator + Copy>(
    alloc: H,
    leaf: &Node<D>,
) -> Result<Vec<u64, H>, Fault>
    ensures ids { IfOk result (λ ids. ids.items ≡ references_of (content_of leaf.now)) }
    ensures memory { IfErr result (λ f. f ≡ fault.Memory) }
{
    let mut ids = Vec::new(alloc);
    for entry in leaf.entries.as_slice() {
        ids.push(entry.reference)?;
    }
    Ok(ids)
}
