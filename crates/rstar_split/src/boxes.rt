//! The boxes of the first and of the last entries of an order, each named by how many entries are first.

ghost use Rattle.std.specs.Prelude.{◌≡◌, ℕ, ◌<◌, ◌≤◌, length, slice_index};
ghost use Rattle.tree_node.specs.Nodes.{items_of};
ghost use Rattle.rstar_split.specs.Cuts.{front_box, back_box, AreBacks};

use box_math::BBox;
use tree_node::{Entry, box_of};

/// The box of the first so many entries.
pub(crate) fn front_at<const D: usize>(
    entries: &[Entry<D>],
    places: &[usize],
    size: usize,
) -> BBox<D>
    requires size { (0 < size) × (size ≤ length places.now) }
    requires below { (k : ℕ) → k < length places.now → slice_index places.now k < length entries.now }
    ensures { result ≡ front_box D (items_of entries.now) places.now size }
{
    let mut all = box_of(entries, places[0]);
    for k in 1..size {
        all = all.join(&box_of(entries, places[k]));
    }
    all
}

/// The box of the entries after the first so many.
pub(crate) fn back_at<const D: usize>(
    entries: &[Entry<D>],
    places: &[usize],
    size: usize,
) -> BBox<D>
    requires size { size < length places.now }
    requires below { (k : ℕ) → k < length places.now → slice_index places.now k < length entries.now }
    ensures { result ≡ back_box D (items_of entries.now) places.now size }
{
    let last = places.len() - 1;
    let mut all = box_of(entries, places[last]);
    for behind in 1..places.len() - size {
        all = box_of(entries, places[last - behind]).join(&all);
    }
    all
}

/// Writes down the boxes of the entries after the first `least`, and after more.
pub(crate) fn back_boxes<const D: usize>(
    entries: &[Entry<D>],
    places: &[usize],
    least: usize,
    boxes: &mut [BBox<D>; 101],
)
    requires least { least < length places.now }
    requires few { length places.now ≤ 101 }
    requires below { (k : ℕ) → k < length places.now → slice_index places.now k < length entries.now }
    ensures { AreBacks D (items_of entries.now) places.now least (length places.now) boxes.new }
{
    let last = places.len() - 1;
    let mut all = box_of(entries, places[last]);
    boxes[last] = all;
    for behind in 1..places.len() - least {
        all = box_of(entries, places[last - behind]).join(&all);
        boxes[last - behind] = all;
    }
}
