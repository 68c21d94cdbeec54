//! What an outline is, each law the contract of a function that does nothing.

ghost use Rattle.tree_outline.specs.Laws.{BoxesAreAbove, HasEachNode, HasEachPage};

/// An outline has as many rows as the tree has nodes, and each page as often as the tree does.
#[tactic(auto, using(crate::proofs::OutlineLemmas::outline_laws))]
pub fn an_outline_has_all_nodes()
    ensures nodes { HasEachNode }
    ensures pages { HasEachPage }
{}

/// In a tree of the shape of an R-tree the box of each node below the root is the one that the node above has
/// of it.
#[tactic(auto, using(crate::proofs::OutlineLemmas::outline_laws))]
pub fn boxes_are_those_above()
    ensures { BoxesAreAbove }
{}
