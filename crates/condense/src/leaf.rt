//! An object taken out of its leaf.

ghost use Rattle.std.specs.Prelude.{◌≡◌, ◌<◌, ℕ, IfNone, IfSome, length, slice_index_or};
ghost use Rattle.tree_node.specs.Nodes.{Item};
ghost use Rattle.node_bytes.specs.Views.{content_in};
ghost use Rattle.condense.specs.Steps.{FindsHere, TakesOutBelow};
ghost use Rattle.condense.specs.declared.kept.Orphans.{Orphans};

use crate::cut::take_at;
use crate::hand::Became;
use block_device::BlockDevice;
use box_math::BBox;
use node_page::{NodeView, next_set, view_node};
use page_cache::PageCache;
use page_file::Fault;
use std::alloc::Allocator;
use tree_node::{Entry, Fanout, Node, Root};

// Where a leaf has the object first.
fn position_of<const D: usize>(
    leaf: &NodeView<D>,
    id: u64,
    bounds: &BBox<D>,
    tag: u32,
) -> Option<usize>
    ensures within { IfSome result (λ at. at < length (content_in leaf.now).entries) }
    ensures found { IfSome result (λ at. (d : Item) → slice_index_or (content_in leaf.now).entries at d
        ≡ record { bounds = bounds.now; reference = id; tag = tag }) }
    ensures first { IfSome result (λ at. (k : ℕ) → k < at → (d : Item)
        → ¬ (slice_index_or (content_in leaf.now).entries k d
        ≡ record { bounds = bounds.now; reference = id; tag = tag })) }
    ensures none { IfNone result ((at : ℕ) (d : Item) → at < length (content_in leaf.now).entries
        → ¬ (slice_index_or (content_in leaf.now).entries at d
        ≡ record { bounds = bounds.now; reference = id; tag = tag })) }
{
    let _ = bounds.low();
    let mask = leaf.mask(bounds);
    let mut place = next_set(mask, 0);
    'entries: while place < leaf.len() {
        let entry = leaf.entry(place);
        if entry.reference == id && entry.tag == tag && entry.bounds == *bounds {
            return Some(place);
        }
        place = next_set(mask, place + 1);
    }
    None
}

// Where the leaf at a page has the object first.
fn find_here<const D: usize, B: BlockDevice, A: Allocator + Copy>(
    cache: &mut PageCache<B, A>,
    page: u32,
    object: &Entry<D>,
) -> Result<Option<usize>, Fault>
    ensures { FindsHere D page object.now.reference (object.now.bounds, object.now.tag)
        cache.old cache.new result }
{
    let leaf = view_node::<D, B, A>(cache, page, 0)?;
    Ok(position_of(&leaf, object.reference, &object.bounds, object.tag))
}

// Takes the object out of the leaf: what the leaf has become, where it had the object.
pub(crate) fn take_here<const D: usize, B: BlockDevice, A: Allocator + Copy>(
    cache: &mut PageCache<B, A>,
    at: Root,
    object: &Entry<D>,
    fanout: Fanout,
    hand: &mut Node<D>,
) -> Result<Option<Became<D>>, Fault>
    requires leaf { at.level ≡ 0 }
    ensures { (kept : Orphans D) → TakesOutBelow fanout.most at object.now.reference
        (object.now.bounds, object.now.tag) cache.old cache.new kept kept hand.new result }
{
    let Some(place) = find_here(cache, at.page, object)? else {
        return Ok(None);
    };
    let now = take_at(cache, at, place, fanout, hand)?;
    Ok(Some(now))
}
