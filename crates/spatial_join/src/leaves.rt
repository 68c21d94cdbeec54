//! The pairs of objects of two leaves whose boxes are near enough.

ghost use Rattle.std.specs.Prelude.{◌≡◌, ◌⊎◌, ◌++◌, ◌≤◌, Some, All, IfErr, OnOk, length};
ghost use Rattle.block_device.specs.Device.{one_more};
ghost use Rattle.box_math.specs.Bounds.{IsBox, Within};
ghost use Rattle.page_file.specs.Fault.{IsDamage, IsOfDevice};
ghost use Rattle.page_file.specs.declared.fault.Fault.TheVariants as fault;
ghost use Rattle.page_cache.specs.Cache.{IsHonest, looks_of, pages};
ghost use Rattle.page_cache.specs.Calls.{Asks};
ghost use Rattle.tree_node.specs.Nodes.{NodeContent, item_of, items_of};
ghost use Rattle.node_page.specs.Standing.{node_in};
ghost use Rattle.node_bytes.specs.Views.{content_in};
ghost use Rattle.spatial_join.specs.Pairs.{GainsItems, pairs_of};

use crate::columns::{NodeInColumns, next_place};
use crate::reach::Reach;
use block_device::BlockDevice;
use box_math::BBox;
use node_page::{Entry, NodeView, view_node};
use page_cache::PageCache;
use page_file::Fault;
use std::alloc::Allocator;

/// Appends the pairs of an object of a leaf and of one of the leaf at the page whose boxes are in the reach
/// of each other, in one look. Where the boxes of the other leaf lie in the given one, those of the first
/// that are not in its reach are passed over.
pub(crate) fn add_leaf_pairs<const D: usize, B: BlockDevice, A: Allocator + Copy, H: Allocator>(
    cache: &mut PageCache<B, A>,
    left: &NodeInColumns<D>,
    page: u32,
    bounds: &BBox<D>,
    reach: Reach,
    pairs: &mut Vec<(u64, u64), H>,
) -> Result<(), Fault>
    ensures asks { Asks cache.old cache.new result }
    ensures pairs { IsHonest cache.old → (c : NodeContent) → node_in D (pages cache.old page) ≡ Some c
        → c.level ≡ 0 → All (λ item. Within D item.bounds bounds.now) c.entries
        → OnOk result (GainsItems D reach.limit (items_of left.now.node.now.entries.items) c.entries
        pairs.old.items pairs.new.items) }
    ensures looks { OnOk result (looks_of cache.new ≡ one_more (looks_of cache.old)) }
    ensures there { IsHonest cache.old → (c : NodeContent) → node_in D (pages cache.old page) ≡ Some c
        → c.level ≡ 0 → IfErr result IsOfDevice }
    ensures faults { IsHonest cache.old → IfErr result (λ f. IsOfDevice f ⊎ (f ≡ fault.Damaged page)) }
    ensures other_faults { IfErr result (λ f. IsOfDevice f ⊎ IsDamage f) }
{
    let right = view_node::<D, B, A>(cache, page, 0)?;
    push_near(left, &right, bounds, reach, pairs)?;
    Ok(())
}

// Appends those pairs of an object of a node and of one of the right leaf, whose boxes lie in the given one.
fn push_near<const D: usize, H: Allocator>(
    left: &NodeInColumns<D>,
    right: &NodeView<D>,
    bounds: &BBox<D>,
    reach: Reach,
    pairs: &mut Vec<(u64, u64), H>,
) -> Result<(), Fault>
    requires right_few { length (content_in right.now).entries ≤ 100 }
    requires right_boxes { All (λ item. IsBox D item.bounds) (content_in right.now).entries }
    ensures pairs { All (λ item. Within D item.bounds bounds.now) (content_in right.now).entries
        → OnOk result (GainsItems D reach.limit (items_of left.now.node.now.entries.items)
        (content_in right.now).entries pairs.old.items pairs.new.items) }
    ensures memory { IfErr result (λ f. f ≡ fault.Memory) }
{
    let near = reach.mask(left, bounds);
    let mut from = 0;
    'object: while let Some(place) = next_place(near, from) {
        from = place + 1;
        push_pairs_with(&left.node.entries[place], right, reach, pairs)?;
    }
    Ok(())
}

// Appends the pairs of an object and those of the right leaf whose boxes are in its reach.
fn push_pairs_with<const D: usize, H: Allocator>(
    entry: &Entry<D>,
    right: &NodeView<D>,
    reach: Reach,
    pairs: &mut Vec<(u64, u64), H>,
) -> Result<(), Fault>
    requires few { length (content_in right.now).entries ≤ 100 }
    requires boxes { All (λ item. IsBox D item.bounds) (content_in right.now).entries }
    ensures pairs { OnOk result (pairs.new.items
        ≡ pairs.old.items ++ pairs_of D reach.limit (content_in right.now).entries (item_of entry.now)) }
    ensures memory { IfErr result (λ f. f ≡ fault.Memory) }
{
    let mask = reach.mask_in(right, &entry.bounds);
    let mut from = 0;
    'other: while let Some(place) = next_place(mask, from) {
        from = place + 1;
        let other = right.entry(place);
        pairs.push((entry.reference, other.reference))?;
    }
    Ok(())
}
