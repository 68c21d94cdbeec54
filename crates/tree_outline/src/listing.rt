//! The walk over the nodes of a tree.

ghost use Rattle.std.specs.Prelude.{◌≡◌, ◌⊎◌, ◌++◌, ◌∷◌, [], ℕ, ◌+◌, Some, IfOk, IfErr, OnOk};
ghost use Rattle.block_device.specs.Device.{one_more};
ghost use Rattle.box_math.specs.Bounds.{IsDims};
ghost use Rattle.page_file.specs.Fault.{IsDamage, IsOfDevice};
ghost use Rattle.page_file.specs.declared.fault.Fault.TheVariants as fault;
ghost use Rattle.page_cache.specs.Cache.{IsHonest, given, looks_of, pages};
ghost use Rattle.page_cache.specs.Calls.{Asks};
ghost use Rattle.tree_node.specs.Nodes.{NodeContent, content_of};
ghost use Rattle.tree_node.specs.Searches.{counted, nodes_in};
ghost use Rattle.tree_node.specs.Trees.{Row, Tree};
ghost use Rattle.node_page.specs.Checked.{ComesTo};
ghost use Rattle.node_bytes.specs.Layout.{IsSpellable};
ghost use Rattle.node_page.specs.Standing.{Stands, StandsAt, node_in};
ghost use Rattle.tree_outline.specs.Outlines.{outline_at, outline_of, outlined};

use crate::node::{NodeOutline, outline_node};
use block_device::BlockDevice;
use node_page::read_node;
use page_cache::PageCache;
use page_file::Fault;
use std::alloc::Allocator;
use tree_node::{Node, Root};

/// The nodes of a tree, the root first, each node before those below it, and siblings by position: page,
/// level, count of entries and box.
///
/// On an honest device, where the nodes of a tree stand at that page and level, a refusal is `Memory` or
/// `Device`, and each node is looked at once. On other pages a refusal may be `Damaged` too, with the number
/// of a page that a walk down the nodes comes to. Map and gate stay, also after a refusal.
pub fn outline<const D: usize, B: BlockDevice, A: Allocator + Copy, H: Allocator>(
    alloc: H,
    cache: &mut PageCache<B, A>,
    root: Root,
) -> Result<Vec<NodeOutline<D>, H>, Fault>
    requires { IsDims D }
    ensures asks { Asks cache.old cache.new result }
    ensures rows { IsHonest cache.old → (t : Tree) → t.page ≡ root.page → t.level ≡ root.level
        → Stands D (pages cache.old) t → IfOk result (λ rows. rows.items ≡ outline_of t) }
    ensures looks { IsHonest cache.old → (t : Tree) → t.page ≡ root.page → t.level ≡ root.level
        → Stands D (pages cache.old) t
        → OnOk result (looks_of cache.new ≡ counted (looks_of cache.old) (nodes_in t)) }
    ensures stands { IsHonest cache.old → (t : Tree) → t.page ≡ root.page → t.level ≡ root.level
        → Stands D (pages cache.old) t → IfErr result IsOfDevice }
    ensures damage { IsHonest cache.old
        → IfErr result (λ f. (n : ℕ) → f ≡ fault.Damaged n → ComesTo D (given cache.old) root.page n) }
    ensures other_faults { IfErr result (λ f. IsOfDevice f ⊎ IsDamage f) }
{
    let mut rows = Vec::new(alloc);
    add_nodes::<D, B, A, H>(cache, root, &mut rows)?;
    Ok(rows)
}

// Appends the outlines of a node and of those below it.
fn add_nodes<const D: usize, B: BlockDevice, A: Allocator + Copy, H: Allocator>(
    cache: &mut PageCache<B, A>,
    root: Root,
    rows: &mut Vec<NodeOutline<D>, H>,
) -> Result<(), Fault>
    requires { IsDims D }
    ensures asks { Asks cache.old cache.new result }
    ensures rows { IsHonest cache.old → (row : Row) → StandsAt D (given cache.old) root.page root.level row
        → OnOk result (rows.new.items ≡ rows.old.items ++ outline_at root.page root.level row) }
    ensures looks { IsHonest cache.old → (row : Row) → StandsAt D (given cache.old) root.page root.level row
        → OnOk result (looks_of cache.new
        ≡ counted (looks_of cache.old)
        (nodes_in (record { page = root.page; level = root.level; row = row }))) }
    ensures stands { IsHonest cache.old → (row : Row) → StandsAt D (given cache.old) root.page root.level row
        → IfErr result IsOfDevice }
    ensures damage { IsHonest cache.old
        → IfErr result (λ f. (n : ℕ) → f ≡ fault.Damaged n → ComesTo D (given cache.old) root.page n) }
    ensures other_faults { IfErr result (λ f. IsOfDevice f ⊎ IsDamage f) }
{
    let node = add_node::<D, B, A, H>(cache, root, rows)?;
    if root.level == 0 {
        return Ok(());
    }
    for entry in node.entries.as_slice() {
        let below = Root {
            page: entry.reference as u32,
            level: root.level - 1,
        };
        add_nodes::<D, B, A, H>(cache, below, rows)?;
    }
    Ok(())
}

// Appends the outline of a node, which is answered.
fn add_node<const D: usize, B: BlockDevice, A: Allocator + Copy, H: Allocator>(
    cache: &mut PageCache<B, A>,
    root: Root,
    rows: &mut Vec<NodeOutline<D>, H>,
) -> Result<Node<D>, Fault>
    requires { IsDims D }
    ensures asks { Asks cache.old cache.new result }
    ensures given_node { IsHonest cache.old
        → IfOk result (λ node. node_in D (given cache.old root.page) ≡ Some (content_of node)) }
    ensures level { IfOk result (λ node. node.level ≡ root.level) }
    ensures spellable { IfOk result (λ node. IsSpellable (content_of node)) }
    ensures rows { IfOk result (λ node. rows.new.items
        ≡ rows.old.items ++ outlined root.page (content_of node) ∷ []) }
    ensures looks { OnOk result (looks_of cache.new ≡ one_more (looks_of cache.old)) }
    ensures given_there { IsHonest cache.old → (c : NodeContent)
        → node_in D (given cache.old root.page) ≡ Some c → c.level ≡ root.level → IfErr result IsOfDevice }
    ensures faults { IsHonest cache.old → IfErr result (λ f. IsOfDevice f ⊎ (f ≡ fault.Damaged root.page)) }
    ensures other_faults { IfErr result (λ f. IsOfDevice f ⊎ IsDamage f) }
{
    let node = read_node::<D, B, A>(cache, root.page, root.level)?;
    rows.push(outline_node(root.page, &node))?;
    Ok(node)
}
