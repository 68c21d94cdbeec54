//! The descent of a range query into the nodes that it admits.

ghost use Rattle.std.specs.Prelude.{◌≡◌, ◌⊎◌, ℕ, ◌+◌, ◌++◌, ◌<◌, Some, All, map, IfErr, IfOk, OnOk};
ghost use Rattle.block_device.specs.Device.{one_more};
ghost use Rattle.page_file.specs.Fault.{IsDamage, IsOfDevice};
ghost use Rattle.page_file.specs.declared.fault.Fault.TheVariants as fault;
ghost use Rattle.page_cache.specs.Cache.{IsHonest, given, looks_of, pages};
ghost use Rattle.page_cache.specs.Calls.{Asks};
ghost use Rattle.tree_node.specs.Nodes.{NodeContent, item_of};
ghost use Rattle.tree_node.specs.Searches.{counted, objects_reached, reached};
ghost use Rattle.tree_node.specs.Trees.{Row};
ghost use Rattle.node_page.specs.Checked.{ComesTo, Names};
ghost use Rattle.node_page.specs.Standing.{StandsAt, node_in};
ghost use Rattle.range_query.specs.Entries.{object_of, passing_entries, reference_of, wanted, wanted_entries};
ghost use Rattle.box_math.specs.Queries.{admits, seeks};
ghost use Rattle.box_math.specs.Objects.{has_tag};
ghost use Rattle.range_query.specs.Queries.{having};

use arrayvec::ArrayVec;
use block_device::BlockDevice;
use box_math::{BBox, Query};
use node_page::{Entry, Root, next_set, view_node};
use page_cache::PageCache;
use page_file::Fault;
use std::alloc::Allocator;

/// Appends the objects below a node that are sought and have the tag, if one is asked for, and that are
/// reached through admitted boxes, from left to right. `Damaged` names a page that a walk down the nodes
/// comes to.
pub(crate) fn descend<const D: usize, B: BlockDevice, A: Allocator + Copy, H: Allocator>(
    cache: &mut PageCache<B, A>,
    root: Root,
    query: &Query<D>,
    tag: Option<u32>,
    rows: &mut Vec<(u64, (BBox<D>, u32)), H>,
) -> Result<(), Fault>
    ensures asks { Asks cache.old cache.new result }
    ensures rows { IsHonest cache.old → (row : Row) → StandsAt D (pages cache.old) root.page root.level row
        → OnOk result (rows.new.items
        ≡ rows.old.items ++ having tag (objects_reached (admits query.now) (seeks query.now) row)) }
    ensures looks { IsHonest cache.old → (row : Row) → StandsAt D (pages cache.old) root.page root.level row
        → OnOk result (looks_of cache.new
        ≡ counted (looks_of cache.old) (1 + reached (admits query.now) row)) }
    ensures stands { IsHonest cache.old → (row : Row) → StandsAt D (pages cache.old) root.page root.level row
        → IfErr result IsOfDevice }
    ensures damage { IsHonest cache.old
        → IfErr result (λ f. (n : ℕ) → f ≡ fault.Damaged n → ComesTo D (given cache.old) root.page n) }
    ensures other_faults { IfErr result (λ f. IsOfDevice f ⊎ IsDamage f) }
{
    if root.level == 0 {
        return add_sought::<D, B, A, H>(cache, root.page, query, tag, rows);
    }
    let mut children = ArrayVec::new();
    find_children::<D, B, A>(cache, root, query, &mut children)?;
    for page in children.as_slice() {
        let below = Root {
            page: *page,
            level: root.level - 1,
        };
        descend::<D, B, A, H>(cache, below, query, tag, rows)?;
    }
    Ok(())
}

// Appends the objects of a leaf that are sought and have the tag, if one is asked for, by position.
fn add_sought<const D: usize, B: BlockDevice, A: Allocator + Copy, H: Allocator>(
    cache: &mut PageCache<B, A>,
    page: u32,
    query: &Query<D>,
    tag: Option<u32>,
    rows: &mut Vec<(u64, (BBox<D>, u32)), H>,
) -> Result<(), Fault>
    ensures asks { Asks cache.old cache.new result }
    ensures rows { IsHonest cache.old → (c : NodeContent) → node_in D (pages cache.old page) ≡ Some c →
        c.level ≡ 0
        → OnOk result (rows.new.items
        ≡ rows.old.items ++ map object_of (wanted_entries (seeks query.now) tag c.entries)) }
    ensures looks { OnOk result (looks_of cache.new ≡ one_more (looks_of cache.old)) }
    ensures there { IsHonest cache.old → (c : NodeContent) → node_in D (pages cache.old page) ≡ Some c →
        c.level ≡ 0
        → IfErr result IsOfDevice }
    ensures faults { IsHonest cache.old → IfErr result (λ f. IsOfDevice f ⊎ (f ≡ fault.Damaged page)) }
    ensures other_faults { IfErr result (λ f. IsOfDevice f ⊎ IsDamage f) }
{
    let leaf = view_node::<D, B, A>(cache, page, 0)?;
    let mask = leaf.mask(&query.reach());
    let count = leaf.len();
    let mut place = next_set(mask, 0);
    'entries: while place < count {
        let entry = leaf.entry(place);
        place = next_set(mask, place + 1);
        if !is_wanted(query, tag, &entry) {
            continue;
        }
        rows.push((entry.reference, (entry.bounds, entry.tag)))?;
    }
    Ok(())
}

// Whether an object is sought and has the tag, if one is asked for.
#[inline]
fn is_wanted<const D: usize>(query: &Query<D>, tag: Option<u32>, entry: &Entry<D>) -> bool
    ensures { result ≡ wanted (seeks query.now) tag (item_of entry.now) }
{
    query.seeks(&entry.bounds) && is_tagged(tag, entry)
}

// Whether an object has the tag that is asked for, if one is.
#[inline]
fn is_tagged<const D: usize>(asked: Option<u32>, entry: &Entry<D>) -> bool
    ensures { result ≡ has_tag asked (entry.now.bounds, entry.now.tag) }
{
    match asked {
        Some(asked) => entry.tag == asked,
        None => true,
    }
}

// Writes down the pages of the children of a node that are admitted, by position. They are answered in
// place: there is room for a hundred, which would be moved.
fn find_children<const D: usize, B: BlockDevice, A: Allocator + Copy>(
    cache: &mut PageCache<B, A>,
    root: Root,
    query: &Query<D>,
    children: &mut ArrayVec<u32, 100>,
) -> Result<(), Fault>
    requires above { 0 < root.level }
    ensures asks { Asks cache.old cache.new result }
    ensures children { IsHonest cache.old → (c : NodeContent) → node_in D (pages cache.old root.page) ≡ Some c
        → c.level ≡ root.level
        → OnOk result (children.new.items ≡ map reference_of (passing_entries (admits query.now) c.entries)) }
    ensures named { IsHonest cache.old → OnOk result ((c : NodeContent)
        × (node_in D (given cache.old root.page) ≡ Some c) × All (Names c) children.new.items) }
    ensures looks { OnOk result (looks_of cache.new ≡ one_more (looks_of cache.old)) }
    ensures there { IsHonest cache.old → (c : NodeContent) → node_in D (pages cache.old root.page) ≡ Some c
        → c.level ≡ root.level → IfErr result IsOfDevice }
    ensures faults { IsHonest cache.old → IfErr result (λ f. IsOfDevice f ⊎ (f ≡ fault.Damaged root.page)) }
    ensures other_faults { IfErr result (λ f. IsOfDevice f ⊎ IsDamage f) }
{
    let node = view_node::<D, B, A>(cache, root.page, root.level)?;
    let mask = node.mask(&query.reach());
    children.clear();
    let count = node.len();
    let mut place = next_set(mask, 0);
    'entries: while place < count {
        let entry = node.entry(place);
        place = next_set(mask, place + 1);
        if !query.admits(&entry.bounds) {
            continue;
        }
        children.push(entry.reference as u32);
    }
    Ok(())
}
