//! The choice among the children of a node.

ghost use Rattle.std.specs.Prelude.{◌≡◌, ℕ, ◌<◌, ◌≤◌, All, length};
ghost use Rattle.box_math.specs.Bounds.{IsBox};
ghost use Rattle.choose_subtree.specs.Choice.{area_key, overlap_key, GrowSoMuch, IsChosenChild};
ghost use Rattle.node_bytes.specs.Views.{content_in};
ghost use Rattle.tree_node.specs.Keys.{IsFirstLeast};

use crate::entries::box_in;
use crate::holder::least_holder;
use crate::key::{at_most, growth_at_least, key_of};
use crate::overlap::{overlap_growth_up_to, whole_overlap_growth};
use box_math::BBox;
use node_page::NodeView;

// How much the area of each entry grows at least, by place. The loop has no branches, so that several are
// measured at once.
fn growths_at_least<const D: usize>(node: &NodeView<D>, new: &BBox<D>) -> [u64; 100]
    ensures { GrowSoMuch D (content_in node.now).entries new.now (length (content_in node.now).entries)
        result }
{
    let mut growths = [0u64; 100];
    for place in 0..node.len() {
        growths[place] = growth_at_least(&box_in(node, place), new);
    }
    growths
}

// The first entry whose area grows least, and of those with equal growth the least. In two axes most are
// passed over by what 64 bits hold.
fn least_area<const D: usize>(node: &NodeView<D>, new: &BBox<D>) -> usize
    requires some { 0 < length (content_in node.now).entries }
    ensures { IsFirstLeast (length (content_in node.now).entries)
        (area_key D (content_in node.now).entries new.now) result }
{
    let growths = growths_at_least(node, new);
    let mut best = key_of(node, new, 0, 0);
    for k in 1..node.len() {
        if D == 2 && best.growth < u128::from(growths[k]) {
            continue;
        }
        let key = key_of(node, new, k, 0);
        if !at_most(&best, &key) {
            best = key;
        }
    }
    best.position
}

// The first entry of the least key. It begins at the entry whose area grows least, which is the answer where
// no overlap grows. A sum that is past the least so far is left off, and begins with this entry, which lies
// near the new box.
fn least_overlap<const D: usize>(node: &NodeView<D>, new: &BBox<D>) -> usize
    requires boxes { All (λ item. IsBox D item.bounds) (content_in node.now).entries }
    requires some { 0 < length (content_in node.now).entries }
    ensures { IsFirstLeast (length (content_in node.now).entries)
        (overlap_key D (content_in node.now).entries new.now) result }
{
    let first = least_area(node, new);
    let overlap = whole_overlap_growth(node, new, first);
    if overlap == 0 {
        return first;
    }
    let mut best = key_of(node, new, first, overlap);
    for k in 0..node.len() {
        if k == first {
            continue;
        }
        if let Some(overlap) = overlap_growth_up_to(node, new, k, first, best.overlap) {
            let key = key_of(node, new, k, overlap);
            if !at_most(&best, &key) {
                best = key;
            }
        }
    }
    best.position
}

/// The place of the child that a new box goes to, of a node above the leaves that has some.
pub fn choose<const D: usize>(node: &NodeView<D>, bounds: &BBox<D>) -> usize
    requires above { 0 < (content_in node.now).level }
    requires some { 0 < length (content_in node.now).entries }
    requires boxes { All (λ item. IsBox D item.bounds) (content_in node.now).entries }
    ensures within { result < length (content_in node.now).entries }
    ensures chosen { IsChosenChild D (content_in node.now).level (content_in node.now).entries bounds.now
        result }
{
    if let Some(place) = least_holder(node, bounds) {
        return place;
    }
    if node.level() == 1 {
        least_overlap(node, bounds)
    } else {
        least_area(node, bounds)
    }
}
