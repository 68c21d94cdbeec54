//! What is counted in an outline, told of the tree, as the contract of a function that does nothing.

ghost use Rattle.tree_statistics.specs.Siblings.{CountsSiblings};

/// In a tree of the shape of an R-tree the overlaps on a level are those of each two children of one node.
#[tactic(auto, using(crate::proofs::SiblingLemmas::counts_siblings))]
pub fn overlaps_are_of_siblings()
    ensures { CountsSiblings }
{}
