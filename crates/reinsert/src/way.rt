//! The way of a box down from a node: the child that it goes to, as the node's page tells it.

ghost use Rattle.std.specs.Prelude.{◌≡◌, ◌⊎◌, ◌<◌, ◌≤◌, Some, IfErr, IfOk, length};
ghost use Rattle.page_file.specs.Fault.{IsDamage, IsOfDevice};
ghost use Rattle.page_file.specs.declared.fault.Fault.TheVariants as fault;
ghost use Rattle.page_cache.specs.Cache.{IsHonest, given, pages};
ghost use Rattle.page_cache.specs.Calls.{Asks};
ghost use Rattle.tree_node.specs.Nodes.{NodeContent};
ghost use Rattle.node_page.specs.Checked.{Names};
ghost use Rattle.node_page.specs.Standing.{node_in};
ghost use Rattle.reinsert.specs.Placed.{IsWay};

use block_device::BlockDevice;
use box_math::BBox;
use choose_subtree::choose;
use node_page::view_node;
use page_cache::PageCache;
use page_file::Fault;
use std::alloc::Allocator;
use tree_node::{Fanout, Root};

/// The child of a node that a box goes to, and what the node is where that child stays as it is.
#[derive(Clone, Copy)]
pub(crate) struct Way<const D: usize> {
    /// The child's place in the node.
    pub(crate) place: usize,
    /// Its page.
    pub(crate) page: u32,
    /// Its box.
    pub(crate) bounds: BBox<D>,
    /// The least box round the node's entries.
    pub(crate) least: BBox<D>,
}

/// The way of a box down from a node above the leaves, which has at most the most entries.
pub(crate) fn way_down<const D: usize, B: BlockDevice, A: Allocator + Copy>(
    cache: &mut PageCache<B, A>,
    at: Root,
    bounds: &BBox<D>,
    fanout: Fanout,
) -> Result<Way<D>, Fault>
    requires above { 0 < at.level }
    ensures asks { Asks cache.old cache.new result }
    ensures way { IsHonest cache.old → (c : NodeContent) → node_in D (pages cache.old at.page) ≡ Some c
        → c.level ≡ at.level → IfOk result (IsWay D fanout.most at.level c.entries bounds.now) }
    ensures faults { IsHonest cache.old → (c : NodeContent) → node_in D (pages cache.old at.page) ≡ Some c
        → c.level ≡ at.level → length c.entries ≤ fanout.most → IfErr result IsOfDevice }
    ensures named { IsHonest cache.old → IfOk result (λ way. (c : NodeContent)
        × (node_in D (given cache.old at.page) ≡ Some c) × Names c way.page) }
    ensures damaged { IsHonest cache.old → IfErr result (λ f. IsOfDevice f ⊎ (f ≡ fault.Damaged at.page)) }
    ensures other_faults { IfErr result (λ f. IsOfDevice f ⊎ IsDamage f) }
{
    let node = view_node::<D, B, A>(cache, at.page, at.level)?;
    if node.len() > fanout.entries() {
        return Err(Fault::Damaged(at.page));
    }
    let place = choose(&node, bounds);
    let child = node.entry(place);
    Ok(Way {
        place,
        page: child.reference as u32,
        bounds: child.bounds,
        least: node.least(),
    })
}
