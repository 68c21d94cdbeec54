//! The boxes of a node in columns, as `meet_mask` takes them, and the places that a mask names.

ghost use Rattle.std.specs.Prelude.{◌≡◌, ℕ, ◌<◌, ◌≤◌, true, false, IfSome, IfNone, length};
ghost use Rattle.box_math.specs.Bounds.{meets_test, on_axis};
ghost use Rattle.box_math.specs.Masks.{has_bit};
ghost use Rattle.tree_node.specs.Boxes.{box_at};
ghost use Rattle.tree_node.specs.Nodes.{items_of};
ghost use Rattle.node_bytes.specs.Columns.{cell};
ghost use Rattle.spatial_join.specs.Masks.{HaveBoxes, Tells};

use box_math::{BBox, meet_mask};
use node_page::Node;

/// A node beside its boxes in columns: a column for each axis, with each number in the place of its entry.
#[derive(Drop)]
pub(crate) struct NodeInColumns<'a, const D: usize> {
    pub(crate) node: &'a Node<D>,
    lows: [[i32; 100]; D],
    highs: [[i32; 100]; D],
    ghost few: { length node.now.entries.items ≤ 100 },
    ghost boxes: { HaveBoxes D (items_of node.now.entries.items) },
    ghost low_cells: { (axis place : ℕ) → axis < D → place < length node.now.entries.items
        → cell lows axis place ≡ on_axis (box_at (items_of node.now.entries.items) place).low axis },
    ghost high_cells: { (axis place : ℕ) → axis < D → place < length node.now.entries.items
        → cell highs axis place ≡ on_axis (box_at (items_of node.now.entries.items) place).high axis },
}

impl<'a, const D: usize> NodeInColumns<'a, D> {
    /// Which entries of the node have a box that meets the window, also where they only touch.
    pub(crate) fn mask(&self, window: &BBox<D>) -> u128
        ensures { Tells (meets_test D window.now) result (items_of self.now.node.now.entries.items) }
    {
        meet_mask(&self.lows, &self.highs, self.node.entries.len(), window)
    }
}

/// The node beside its boxes in columns. It has 100 entries at most.
pub(crate) fn columns_of<const D: usize>(node: &Node<D>) -> NodeInColumns<'_, D>
    requires few { length node.now.entries.items ≤ 100 }
    ensures { result.node.now ≡ node.now }
{
    let mut lows = [[0; 100]; D];
    let mut highs = [[0; 100]; D];
    for axis in 0..D {
        lows[axis] = low_column(node, axis);
        highs[axis] = high_column(node, axis);
    }
    NodeInColumns { node, lows, highs }
}

// The lows on one axis.
fn low_column<const D: usize>(node: &Node<D>, axis: usize) -> [i32; 100]
    requires axis { axis < D }
    requires few { length node.now.entries.items ≤ 100 }
    ensures boxes { HaveBoxes D (items_of node.now.entries.items) }
    ensures lows { (place : ℕ) → place < length node.now.entries.items
        → on_axis result place ≡ on_axis (box_at (items_of node.now.entries.items) place).low axis }
{
    let mut column = [0; 100];
    for place in 0..node.entries.len() {
        column[place] = node.entries[place].bounds.low()[axis];
    }
    column
}

// The highs on one axis.
fn high_column<const D: usize>(node: &Node<D>, axis: usize) -> [i32; 100]
    requires axis { axis < D }
    requires few { length node.now.entries.items ≤ 100 }
    ensures { (place : ℕ) → place < length node.now.entries.items
        → on_axis result place ≡ on_axis (box_at (items_of node.now.entries.items) place).high axis }
{
    let mut column = [0; 100];
    for place in 0..node.entries.len() {
        column[place] = node.entries[place].bounds.high()[axis];
    }
    column
}

/// The first place from one on whose bit is set.
pub(crate) fn next_place(mask: u128, from: usize) -> Option<usize>
    requires { from < 128 }
    ensures set { IfSome result (λ place. (from ≤ place) × (place < 128) × (has_bit mask place ≡ true)) }
    ensures first { IfSome result (λ place. (k : ℕ) → from ≤ k → k < place → has_bit mask k ≡ false) }
    ensures none { IfNone result ((k : ℕ) → from ≤ k → has_bit mask k ≡ false) }
{
    let rest = mask >> from;
    if rest == 0 {
        return None;
    }
    Some(from + rest.trailing_zeros() as usize)
}
