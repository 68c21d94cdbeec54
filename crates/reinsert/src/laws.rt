//! What the order of the farthest means, and what lawful insertions keep: each law is the contract of a
//! function that does nothing.

ghost use Rattle.std.specs.Prelude.{◌≡◌, ℕ, ◌<◌, ◌↔◌, List, length};
ghost use Rattle.tree_node.specs.Nodes.{Item};
ghost use Rattle.tree_node.specs.Orders.{In, Ascends};
ghost use Rattle.reinsert.specs.Far.{farther, far_order};
ghost use Rattle.reinsert.specs.Kept.{InsertionEnds, InsertionKeepsLooseShape, InsertionKeepsObjects};
ghost use Rattle.reinsert.specs.Kept.{InsertionKeepsShape, PlacingKeepsLooseShape, ShapeBoundsLevel};

/// The order of the farthest ascends, and no other list of the same positions does.
pub fn far_order_is_the_only_one()
    ensures ascends { (dims : ℕ) (items : List Item) → Ascends (farther dims items) (far_order dims items) }
    ensures unique { (dims : ℕ) (items : List Item) (places : List ℕ) → Ascends (farther dims items) places
        → ((q : ℕ) → In q places ↔ (q < length items)) → places ≡ far_order dims items }
{}

/// The new tree has the objects of the old one and those of the entry, each as often.
pub fn an_insertion_keeps_the_objects()
    ensures { InsertionKeepsObjects }
{}

/// A tree of loose shape keeps it: nodes below the root have from the least to the most entries and least
/// boxes, a root that is no leaf at least one entry.
pub fn an_insertion_keeps_loose_shape()
    ensures { InsertionKeepsLooseShape }
{}

/// A tree of the shape of an R-tree keeps that shape.
pub fn an_insertion_keeps_shape()
    ensures { InsertionKeepsShape }
{}

/// An insertion has at most one placing, and as many more as a far set has entries for each level of the old
/// tree below its root's.
pub fn an_insertion_ends()
    ensures { InsertionEnds }
{}

/// Between two placings the tree has loose shape, and so has what waits for it.
pub fn a_placing_keeps_loose_shape()
    ensures { PlacingKeepsLooseShape }
{}

/// No tree of loose shape in pages below 2^31, none of them twice, has a level above 32.
pub fn shape_bounds_the_level()
    ensures { ShapeBoundsLevel }
{}
