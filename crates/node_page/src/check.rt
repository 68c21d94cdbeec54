//! Trees of pages checked: whether one stands, of the shape of an R-tree.

ghost use Rattle.std.specs.Prelude.{◌≡◌, ◌⊎◌, ◌++◌, ◌+◌, ◌<◌, ◌≤◌, ◌↔◌, ℕ, All, IfErr, IfOk, OnOk, IsTrue};
ghost use Rattle.std.specs.Prelude.{length};
ghost use Rattle.box_math.specs.Bounds.{IsBox, IsDims};
ghost use Rattle.page_file.specs.Fault.{IsDamage, IsOfDevice};
ghost use Rattle.page_file.specs.declared.fault.Fault.TheVariants as fault;
ghost use Rattle.page_cache.specs.Cache.{IsHonest, IsPageMap, given, looks_of, next_of, pages};
ghost use Rattle.page_cache.specs.Calls.{Asks};
ghost use Rattle.tree_node.specs.Boxes.{least_box};
ghost use Rattle.tree_node.specs.Nodes.{content_of};
ghost use Rattle.tree_node.specs.Shape.{HasShape, RowHasShape, least_entries};
ghost use Rattle.tree_node.specs.Trees.{Row, Tree, occurs, row_items};
ghost use Rattle.node_page.specs.Checked.{AddsTree, ComesBelow, ComesTo, IsCheckedTree, pairs_of};
ghost use Rattle.node_bytes.specs.Layout.{IsSpellable};
ghost use Rattle.node_page.specs.Standing.{RowStands, Stands};
ghost use Rattle.node_page.specs.Visits.{times_in};

use crate::nodes::read_node;
use crate::visits::Visits;
use block_device::BlockDevice;
use box_math::BBox;
use page_cache::PageCache;
use page_file::Fault;
use std::alloc::Allocator;
use tree_node::{Node, Root, least, least_entries};

/// What a tree holds.
#[derive(Drop)]
pub struct TreeFacts<const D: usize, H: Allocator> {
    /// The identifier, the box and the tag of each object, the leaves from left to right.
    pub pairs: Vec<(u64, (BBox<D>, u32)), H>,
    /// The pages of its nodes.
    pub pages: Vec<u32, H>,
}

/// Checks the tree at a root, each of whose nodes has at most `fanout` entries, and answers what it holds.
///
/// On an honest device it answers so only where a tree of that shape stands at the root, no page of it twice;
/// else it is `Damaged` with the number of a page that a walk down the nodes comes to. Where such a tree
/// stands, a refusal is `Memory` or `Device`. It makes no more looks than the file's next number, whatever
/// the pages are. Map and gate stay, also after a refusal.
pub fn check_tree<const D: usize, B: BlockDevice, A: Allocator + Copy, H: Allocator + Copy>(
    alloc: H,
    cache: &mut PageCache<B, A>,
    root: Root,
    fanout: u8,
) -> Result<TreeFacts<D, H>, Fault>
    requires { IsDims D }
    ensures asks { Asks cache.old cache.new result }
    ensures tree { IsPageMap cache.old →
        IfOk result (λ facts. IsCheckedTree D fanout (pages cache.old) root.page
        root.level facts.pairs.items facts.pages.items) }
    ensures given_tree { IsHonest cache.old →
        IfOk result (λ facts. IsCheckedTree D fanout (given cache.old) root.page
        root.level facts.pairs.items facts.pages.items) }
    ensures stands { IsHonest cache.old → (t : Tree) → t.page ≡ root.page → t.level ≡ root.level
        → Stands D (pages cache.old) t → HasShape D fanout t → IfErr result IsOfDevice }
    ensures looks { looks_of cache.new ≤ looks_of cache.old + next_of cache.old }
    ensures damage { IsHonest cache.old
        → IfErr result (λ f. (n : ℕ) → f ≡ fault.Damaged n → ComesTo D (given cache.old) root.page n) }
    ensures other_faults { IfErr result (λ f. IsOfDevice f ⊎ IsDamage f) }
{
    let mut visits = Visits::new(alloc, cache.next_number())?;
    let mut pairs = Vec::new(alloc);
    visits.visit(root.page)?;
    let node = read_node::<D, B, A>(cache, root.page, root.level)?;
    if !is_root_count(node.entries.len(), root.level, fanout) {
        return Err(Fault::Damaged(root.page));
    }
    add_below::<D, B, A, H>(cache, &node, fanout, &mut visits, &mut pairs)?;
    let pages = visits.into_pages();
    Ok(TreeFacts { pairs, pages })
}

// Whether a root of the level may have so many entries: at most `fanout`, and at least two above the leaves.
fn is_root_count(count: usize, level: u8, fanout: u8) -> bool
    ensures { IsTrue result ↔ ((count ≤ fanout) × (0 < level → 2 ≤ count)) }
{
    count <= usize::from(fanout) && (level == 0 || count >= 2)
}

// Whether a node fits below an entry with the box: it has the least to the most entries, and the box is the
// least round theirs.
fn fits_below<const D: usize>(node: &Node<D>, bounds: &BBox<D>, fanout: u8) -> bool
    ensures { IsTrue result ↔ ((least_entries fanout ≤ length (content_of node.now).entries)
        × (length (content_of node.now).entries ≤ fanout)
        × (bounds.now ≡ least_box D (content_of node.now).entries)) }
{
    let most = usize::from(fanout);
    let count = node.entries.len();
    if count < least_entries(fanout) || count > most {
        return false;
    }
    *bounds == least(node.entries.as_slice())
}

// Checks the trees below a node, and adds their objects and their pages.
fn add_below<const D: usize, B: BlockDevice, A: Allocator + Copy, H: Allocator + Copy>(
    cache: &mut PageCache<B, A>,
    node: &Node<D>,
    fanout: u8,
    visits: &mut Visits<H>,
    pairs: &mut Vec<(u64, (BBox<D>, u32)), H>,
) -> Result<(), Fault>
    requires spellable { IsSpellable (content_of node.now) }
    requires boxes { All (λ item. IsBox D item.bounds) (content_of node.now).entries }
    requires numbers { length visits.old.marks.items ≡ next_of cache.old }
    ensures asks { Asks cache.old cache.new result }
    ensures found { IsHonest cache.old → OnOk result (AddsTree D fanout (given cache.old)
        (content_of node.now) pairs.old.items pairs.new.items visits.old.pages.items visits.new.pages.items) }
    ensures stands { IsHonest cache.old → (row : Row) → row_items row ≡ (content_of node.now).entries
        → RowStands D (given cache.old) node.now.level row → RowHasShape D fanout row
        → ((n : ℕ) → times_in n visits.old.pages.items + occurs n row ≤ 1) → IfErr result IsOfDevice }
    ensures numbers { length visits.new.marks.items ≡ length visits.old.marks.items }
    ensures looks { looks_of cache.new + length visits.old.pages.items
        ≤ looks_of cache.old + length visits.new.pages.items }
    ensures damage { IsHonest cache.old → IfErr result (λ f. (n : ℕ) → f ≡ fault.Damaged n
        → ComesBelow D (given cache.old) (content_of node.now) n) }
    ensures other_faults { IfErr result (λ f. IsOfDevice f ⊎ IsDamage f) }
{
    if node.level == 0 {
        return add_pairs(node, pairs);
    }
    for entry in node.entries.as_slice() {
        let page = entry.reference as u32;
        visits.visit(page)?;
        let below = read_node::<D, B, A>(cache, page, node.level - 1)?;
        if !fits_below(&below, &entry.bounds, fanout) {
            return Err(Fault::Damaged(page));
        }
        add_below::<D, B, A, H>(cache, &below, fanout, visits, pairs)?;
    }
    Ok(())
}

// Appends the objects of a leaf.
fn add_pairs<const D: usize, H: Allocator + Copy>(
    leaf: &Node<D>,
    pairs: &mut Vec<(u64, (BBox<D>, u32)), H>,
) -> Result<(), Fault>
    ensures pairs { OnOk result
        (pairs.new.items ≡ pairs.old.items ++ pairs_of (content_of leaf.now).entries) }
    ensures memory { IfErr result (λ f. f ≡ fault.Memory) }
{
    for entry in leaf.entries.as_slice() {
        pairs.push((entry.reference, (entry.bounds, entry.tag)))?;
    }
    Ok(())
}
