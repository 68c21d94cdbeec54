//! The join of given rows with a tree.

ghost use Rattle.std.specs.Prelude.{◌≡◌, ◌⊎◌, ℕ, ◌+◌, ◌^◌, ◌<◌, ◌≤◌, Some, All, map, length, IfOk, IfErr, OnOk};
ghost use Rattle.std.specs.List.{filter};
ghost use Rattle.block_device.specs.Device.{one_more};
ghost use Rattle.box_math.specs.Bounds.{IsDims};
ghost use Rattle.box_math.specs.Measures.{near_test};
ghost use Rattle.page_file.specs.Fault.{IsDamage, IsOfDevice};
ghost use Rattle.page_file.specs.declared.fault.Fault.TheVariants as fault;
ghost use Rattle.page_cache.specs.Cache.{IsHonest, given, looks_of, pages};
ghost use Rattle.page_cache.specs.Calls.{Asks};
ghost use Rattle.tree_node.specs.Boxes.{least_box};
ghost use Rattle.tree_node.specs.Nodes.{NodeContent, content_of, item_of, items_of};
ghost use Rattle.tree_node.specs.Searches.{reached};
ghost use Rattle.tree_node.specs.Trees.{Row, Tree};
ghost use Rattle.node_page.specs.Checked.{ComesTo, Names, pairs_of as objects_of};
ghost use Rattle.node_page.specs.Rooted.{IsTreeAt};
ghost use Rattle.node_page.specs.Standing.{StandsAt, node_in};
ghost use Rattle.spatial_join.specs.Opening.{Encloses, HasRow};
ghost use Rattle.spatial_join.specs.Pairs.{GainsPairs};
ghost use Rattle.spatial_join.specs.Rows.{GainsRows, IsRowsAnswer, looks_beside};

use crate::columns::{NodeInColumns, columns_of, next_place};
use crate::leaves::add_leaf_pairs;
use crate::pairs::add_pairs;
use crate::reach::Reach;
use arrayvec::ArrayVec;
use block_device::BlockDevice;
use box_math::BBox;
use node_page::{Entry, Node, Root, read_node, view_node};
use page_cache::PageCache;
use page_file::Fault;
use std::alloc::Allocator;
use tree_node::least;

// So many rows go down the tree together.
const GROUP: usize = 64;

/// All pairs of one of the rows and an object of a tree whose boxes have at most this squared distance, by the
/// row's identifier and then by the object's. Within 0 are boxes that meet, also where they only touch. Rows
/// that lie near one another are best given one after another, since 64 in turn go down the tree together.
///
/// On an honest device, where the tree stands in the pages with the shape of an R-tree, a refusal is `Memory`
/// or `Device`, and for each 64 rows in turn at most the root is looked at, and each other node whose box is
/// that near to the least box of them all. On other pages a refusal may be `Damaged` too, with the number of a
/// page that a walk down the nodes comes to. Map and gate stay, also after a refusal.
pub fn join_rows<const D: usize, B: BlockDevice, A: Allocator + Copy, H: Allocator>(
    alloc: H,
    cache: &mut PageCache<B, A>,
    rows: &[Entry<D>],
    root: Root,
    within: u64,
) -> Result<Vec<(u64, u64), H>, Fault>
    requires { IsDims D }
    ensures asks { Asks cache.old cache.new result }
    ensures pairs { IsHonest cache.old → (t : Tree) (most : ℕ) → IsTreeAt D most (pages cache.old) root t
        → IfOk result (λ pairs. IsRowsAnswer D within (objects_of (items_of rows.now)) t pairs.items) }
    ensures looks { IsHonest cache.old → (t : Tree) (most : ℕ) → IsTreeAt D most (pages cache.old) root t
        → OnOk result (looks_of cache.new
        ≤ looks_of cache.old + looks_beside D within (objects_of (items_of rows.now)) t) }
    ensures stands { IsHonest cache.old → (t : Tree) (most : ℕ) → IsTreeAt D most (pages cache.old) root t
        → IfErr result IsOfDevice }
    ensures damage { IsHonest cache.old
        → IfErr result (λ f. (n : ℕ) → f ≡ fault.Damaged n → ComesTo D (given cache.old) root.page n) }
    ensures other_faults { IfErr result (λ f. IsOfDevice f ⊎ IsDamage f) }
{
    let reach = Reach::of(within);
    let mut pairs = Vec::new(alloc);
    let mut from = 0;
    'group: while from < rows.len() {
        let to = rows.len().min(from + GROUP);
        add_pairs_of_group::<D, B, A, H>(cache, &rows[from..to], root, reach, &mut pairs)?;
        from = to;
    }
    pairs.sort_unstable();
    Ok(pairs)
}

// Appends the pairs of one of so few rows and an object of the tree whose boxes are in the reach of each other.
fn add_pairs_of_group<const D: usize, B: BlockDevice, A: Allocator + Copy, H: Allocator>(
    cache: &mut PageCache<B, A>,
    rows: &[Entry<D>],
    root: Root,
    reach: Reach,
    pairs: &mut Vec<(u64, u64), H>,
) -> Result<(), Fault>
    requires dims { IsDims D }
    requires some { 0 < length rows.now }
    requires few { length rows.now ≤ 64 }
    ensures asks { Asks cache.old cache.new result }
    ensures pairs { IsHonest cache.old → (row : Row) → StandsAt D (pages cache.old) root.page root.level row
        → Encloses D row → OnOk result (GainsRows D reach.limit (objects_of (items_of rows.now)) row
        pairs.old.items pairs.new.items) }
    ensures looks { IsHonest cache.old → (row : Row) → StandsAt D (pages cache.old) root.page root.level row
        → OnOk result (looks_of cache.new ≤ looks_of cache.old
        + (1 + reached (near_test D reach.limit (least_box D (items_of rows.now))) row)) }
    ensures stands { IsHonest cache.old → (row : Row) → StandsAt D (pages cache.old) root.page root.level row
        → IfErr result IsOfDevice }
    ensures damage { IsHonest cache.old
        → IfErr result (λ f. (n : ℕ) → f ≡ fault.Damaged n → ComesTo D (given cache.old) root.page n) }
    ensures other_faults { IfErr result (λ f. IsOfDevice f ⊎ IsDamage f) }
{
    let group = leaf_of(rows);
    if root.level == 0 {
        return add_pairs_with_leaf::<D, B, A, H>(cache, &group, root.page, reach, pairs);
    }
    let columns = columns_of(&group);
    let bounds = least(group.entries.as_slice());
    add_pairs_below::<D, B, A, H>(cache, &columns, &bounds, root, reach, pairs)
}

// A leaf with these rows.
fn leaf_of<const D: usize>(rows: &[Entry<D>]) -> Node<D>
    requires dims { IsDims D }
    requires few { length rows.now ≤ 100 }
    ensures level { result.level ≡ 0 }
    ensures entries { items_of result.entries.items ≡ items_of rows.now }
    ensures count { length result.entries.items ≡ length rows.now }
{
    let mut entries = ArrayVec::new();
    for row in rows {
        entries.push(*row);
    }
    Node { level: 0, entries }
}

// Appends the pairs of an object of a leaf and of one of the leaf at the page whose boxes are in the reach of
// each other, in one look.
fn add_pairs_with_leaf<const D: usize, B: BlockDevice, A: Allocator + Copy, H: Allocator>(
    cache: &mut PageCache<B, A>,
    left: &Node<D>,
    page: u32,
    reach: Reach,
    pairs: &mut Vec<(u64, u64), H>,
) -> Result<(), Fault>
    requires leaf { left.now.level ≡ 0 }
    ensures asks { Asks cache.old cache.new result }
    ensures pairs { IsHonest cache.old → (s t : Row) → HasRow D (pages cache.old) (content_of left.now) s
        → StandsAt D (pages cache.old) page 0 t
        → OnOk result (GainsPairs D reach.limit s t pairs.old.items pairs.new.items) }
    ensures looks { IsHonest cache.old → (t : Row) → StandsAt D (pages cache.old) page 0 t
        → OnOk result (looks_of cache.new ≤ looks_of cache.old + 1) }
    ensures stands { IsHonest cache.old → (t : Row) → StandsAt D (pages cache.old) page 0 t
        → IfErr result IsOfDevice }
    ensures damage { IsHonest cache.old
        → IfErr result (λ f. (n : ℕ) → f ≡ fault.Damaged n → ComesTo D (given cache.old) page n) }
    ensures other_faults { IfErr result (λ f. IsOfDevice f ⊎ IsDamage f) }
{
    let leaf = read_node::<D, B, A>(cache, page, 0)?;
    add_pairs::<D, B, A, H>(cache, left, &leaf, reach, pairs)
}

// Appends the pairs of an object of the leaf, whose least box is the given one, and of an object below a node
// above the leaves, whose boxes are in the reach of each other.
fn add_pairs_below<const D: usize, B: BlockDevice, A: Allocator + Copy, H: Allocator>(
    cache: &mut PageCache<B, A>,
    left: &NodeInColumns<D>,
    bounds: &BBox<D>,
    right: Root,
    reach: Reach,
    pairs: &mut Vec<(u64, u64), H>,
) -> Result<(), Fault>
    requires above { 0 < right.level }
    requires leaf { left.now.node.now.level ≡ 0 }
    requires bounds { bounds.now ≡ least_box D (items_of left.now.node.now.entries.items) }
    ensures asks { Asks cache.old cache.new result }
    ensures pairs { IsHonest cache.old → (s t : Row) →
        HasRow D (pages cache.old) (content_of left.now.node.now) s
        → StandsAt D (pages cache.old) right.page right.level t → Encloses D t
        → OnOk result (GainsPairs D reach.limit s t pairs.old.items pairs.new.items) }
    ensures looks { IsHonest cache.old → (t : Row) → StandsAt D (pages cache.old) right.page right.level t
        → OnOk result (looks_of cache.new
        ≤ looks_of cache.old + (1 + reached (near_test D reach.limit bounds.now) t)) }
    ensures stands { IsHonest cache.old → (t : Row) → StandsAt D (pages cache.old) right.page right.level t
        → IfErr result IsOfDevice }
    ensures damage { IsHonest cache.old
        → IfErr result (λ f. (n : ℕ) → f ≡ fault.Damaged n → ComesTo D (given cache.old) right.page n) }
    ensures other_faults { IfErr result (λ f. IsOfDevice f ⊎ IsDamage f) }
{
    let mut children = ArrayVec::new();
    find_near::<D, B, A>(cache, right, bounds, reach, &mut children)?;
    for child in children.as_slice() {
        let below = Root {
            page: child.reference as u32,
            level: right.level - 1,
        };
        if below.level == 0 {
            add_leaf_pairs::<D, B, A, H>(cache, left, below.page, &child.bounds, reach, pairs)?;
            continue;
        }
        add_pairs_below::<D, B, A, H>(cache, left, bounds, below, reach, pairs)?;
    }
    Ok(())
}

// Writes down the children of a node whose boxes are in the reach of the given one, by position. They are
// answered in place: there is room for a hundred, which would be moved.
fn find_near<const D: usize, B: BlockDevice, A: Allocator + Copy>(
    cache: &mut PageCache<B, A>,
    node: Root,
    bounds: &BBox<D>,
    reach: Reach,
    children: &mut ArrayVec<Entry<D>, 100>,
) -> Result<(), Fault>
    requires above { 0 < node.level }
    ensures asks { Asks cache.old cache.new result }
    ensures children { IsHonest cache.old → (c : NodeContent) → node_in D (pages cache.old node.page) ≡ Some c
        → c.level ≡ node.level → OnOk result (map item_of children.new.items
        ≡ filter (λ item. near_test D reach.limit bounds.now item.bounds) c.entries) }
    ensures named { IsHonest cache.old → OnOk result ((c : NodeContent)
        × (node_in D (given cache.old node.page) ≡ Some c)
        × All (λ item. Names c item.reference) (map item_of children.new.items)) }
    ensures fit { OnOk result (All (λ item. item.reference < 2 ^ 32) (map item_of children.new.items)) }
    ensures looks { OnOk result (looks_of cache.new ≡ one_more (looks_of cache.old)) }
    ensures there { IsHonest cache.old → (c : NodeContent) → node_in D (pages cache.old node.page) ≡ Some c
        → c.level ≡ node.level → IfErr result IsOfDevice }
    ensures faults { IsHonest cache.old → IfErr result (λ f. IsOfDevice f ⊎ (f ≡ fault.Damaged node.page)) }
    ensures other_faults { IfErr result (λ f. IsOfDevice f ⊎ IsDamage f) }
{
    let view = view_node::<D, B, A>(cache, node.page, node.level)?;
    let mask = reach.mask_in(&view, bounds);
    children.clear();
    let mut from = 0;
    'entry: while let Some(place) = next_place(mask, from) {
        from = place + 1;
        children.push(view.entry(place));
    }
    Ok(())
}
