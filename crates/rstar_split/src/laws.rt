//! What the order of a sort means.

ghost use Rattle.std.specs.Prelude.{◌≡◌, ℕ, ◌<◌, ◌↔◌, List, length};
ghost use Rattle.tree_node.specs.Nodes.{Item};
ghost use Rattle.tree_node.specs.Orders.{In, Ascends};
ghost use Rattle.rstar_split.specs.declared.sorting.Bound.{Bound};
ghost use Rattle.rstar_split.specs.Cuts.{before, order_of};

/// The order of a sort ascends, and no other list of the same positions does.
pub fn order_is_the_only_one()
    ensures ascends { (items : List Item) (axis : ℕ) (bound : Bound)
        → Ascends (before items axis bound) (order_of items axis bound) }
    ensures unique { (items : List Item) (axis : ℕ) (bound : Bound) (places : List ℕ)
        → Ascends (before items axis bound) places
        → ((q : ℕ) → In q places ↔ (q < length items)) → places ≡ order_of items axis bound }
{}
