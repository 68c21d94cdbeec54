//! A node changed where it lies: an entry taken out, or a box made least.

ghost use Rattle.std.specs.Prelude.{◌≡◌, ◌<◌, ◌≤◌, Some, false, true, length};
ghost use Rattle.arrayvec.specs.ArrayVec.{array_vec_len};
ghost use Rattle.page_cache.specs.Cache.{IsHonest, pages};
ghost use Rattle.page_cache.specs.Calls.{Asks};
ghost use Rattle.tree_node.specs.declared.node.Node.{Node};
ghost use Rattle.tree_node.specs.Nodes.{NodeContent};
ghost use Rattle.tree_node.specs.Boxes.{box_at};
ghost use Rattle.node_bytes.specs.Enlarged.{set_box};
ghost use Rattle.node_bytes.specs.Views.{content_in};
ghost use Rattle.node_page.specs.Standing.{node_in};
ghost use Rattle.condense.specs.Steps.{Alters};
ghost use Rattle.condense.specs.Becoming.{IsWrittenWith};
ghost use Rattle.condense.specs.Taken.{items_without};

use crate::hand::Became;
use block_device::BlockDevice;
use box_math::BBox;
use node_page::{NodeView, read_into, set_entry_box, take_entry, view_node};
use page_cache::PageCache;
use page_file::Fault;
use std::alloc::Allocator;
use tree_node::{Fanout, Node, Root};

// Takes the entry in a place out of a node: in its page where enough are left, else in hand.
pub(crate) fn take_at<const D: usize, B: BlockDevice, A: Allocator + Copy>(
    cache: &mut PageCache<B, A>,
    at: Root,
    place: usize,
    fanout: Fanout,
    hand: &mut Node<D>,
) -> Result<Became<D>, Fault>
    ensures { Alters fanout.most place (λ items. items_without items place) at
        cache.old cache.new hand.new result }
{
    let fewest = fanout.least_entries();
    if let Some(least) = take_entry(cache, at.page, at.level, place, fewest)? {
        return Ok(Became::Settled(least));
    }
    read_into(cache, at.page, at.level, hand)?;
    if !has_few(hand, place, fewest) {
        return Err(Fault::Damaged(at.page));
    }
    hand.entries.remove(place);
    Ok(Became::Unwritten)
}

// Whether the node has an entry in the place, and at most so many.
fn has_few<const D: usize>(node: &Node<D>, place: usize, most: usize) -> bool
    ensures yes { result ≡ true → (place < array_vec_len node.now.entries)
        × (array_vec_len node.now.entries ≤ most) }
    ensures no { result ≡ false → place < array_vec_len node.now.entries
        → most < array_vec_len node.now.entries }
{
    place < node.entries.len() && node.entries.len() <= most
}

// Makes this the box of the entry in a place, in the node's page. A page that has it stays.
pub(crate) fn set_least<const D: usize, B: BlockDevice, A: Allocator + Copy>(
    cache: &mut PageCache<B, A>,
    at: Root,
    place: usize,
    least: &BBox<D>,
    fanout: Fanout,
) -> Result<Became<D>, Fault>
    ensures alters { (hand : Node D) → Alters fanout.most place (λ items. set_box items place least.now) at
        cache.old cache.new hand result }
    ensures same { IsHonest cache.old → (c : NodeContent) → node_in D (pages cache.old at.page) ≡ Some c
        → place < length c.entries → box_at c.entries place ≡ least.now → Asks cache.old cache.new result }
{
    let node = view_node::<D, B, A>(cache, at.page, at.level)?;
    let count = node.len();
    if has_box(&node, place, least) {
        return Ok(written(count, &node.least(), fanout));
    }
    let Some(round) = set_entry_box(cache, at.page, at.level, place, least)? else {
        return Err(Fault::Damaged(at.page));
    };
    Ok(written(count, &round, fanout))
}

// Whether the node has an entry of this box in the place.
fn has_box<const D: usize>(node: &NodeView<D>, place: usize, bounds: &BBox<D>) -> bool
    ensures yes { result ≡ true → (place < length (content_in node.now).entries)
        × (box_at (content_in node.now).entries place ≡ bounds.now) }
    ensures no { result ≡ false → place < length (content_in node.now).entries
        → ¬ (box_at (content_in node.now).entries place ≡ bounds.now) }
{
    place < node.len() && node.entry(place).bounds == *bounds
}

// What a node of so many entries has become that its page has, with the least box round them.
fn written<const D: usize>(count: usize, least: &BBox<D>, fanout: Fanout) -> Became<D>
    ensures { IsWrittenWith fanout.most count least.now result }
{
    if count < fanout.least_entries() {
        Became::Few
    } else {
        Became::Settled(*least)
    }
}
