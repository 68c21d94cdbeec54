//! A node above the leaves, looked into for children that may have an object.

ghost use Rattle.std.specs.Prelude.{◌<◌, ◌≤◌, ℕ, length};
ghost use Rattle.box_math.specs.Bounds.{Within};
ghost use Rattle.tree_node.specs.Boxes.{box_at};
ghost use Rattle.node_bytes.specs.Views.{content_in};
ghost use Rattle.condense.specs.Steps.{FindsNext};

use crate::hand::Next;
use block_device::BlockDevice;
use box_math::BBox;
use node_page::{NodeView, next_set, view_node};
use page_cache::PageCache;
use page_file::Fault;
use std::alloc::Allocator;
use tree_node::Root;

// The first place from one on where the entry's box encloses the object's, or one past all entries where
// there is none.
fn next_enclosing<const D: usize>(node: &NodeView<D>, bounds: &BBox<D>, from: usize) -> usize
    requires { from < 128 }
    ensures within { from ≤ result }
    ensures none { (k : ℕ) → from ≤ k → k < result → k < length (content_in node.now).entries
        → ¬ Within D bounds.now (box_at (content_in node.now).entries k) }
    ensures encloses { result < length (content_in node.now).entries
        → Within D bounds.now (box_at (content_in node.now).entries result) }
{
    let _ = bounds.low();
    let mask = node.mask(bounds);
    let mut place = next_set(mask, from);
    'entries: while place < node.len() {
        if node.entry(place).bounds.encloses(bounds) {
            return place;
        }
        place = next_set(mask, place + 1);
    }
    place
}

// The next child of a node above the leaves, from a place on, whose box encloses the object's. The page is
// only viewed.
pub(crate) fn next_child<const D: usize, B: BlockDevice, A: Allocator + Copy>(
    cache: &mut PageCache<B, A>,
    at: Root,
    bounds: &BBox<D>,
    from: usize,
) -> Result<Option<Next>, Fault>
    requires above { 0 < at.level }
    requires from { from ≤ 100 }
    ensures { FindsNext D from at bounds.now cache.old cache.new result }
{
    let node = view_node::<D, B, A>(cache, at.page, at.level)?;
    let place = next_enclosing(&node, bounds, from);
    if place >= node.len() {
        return Ok(None);
    }
    Ok(Some(Next {
        place,
        below: Root {
            page: node.entry(place).reference as u32,
            level: at.level - 1,
        },
    }))
}
