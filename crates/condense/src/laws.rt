//! What lawful removals keep: each law is the contract of a function that does nothing.

ghost use Rattle.condense.specs.Removed.{RemovalKeepsObjects, RemovalKeepsShape};

/// The old tree has the objects of the new one and the one that was removed, each as often.
pub fn a_removal_keeps_the_objects()
    ensures { RemovalKeepsObjects }
{}

/// A tree of the shape of an R-tree keeps that shape.
pub fn a_removal_keeps_shape()
    ensures { RemovalKeepsShape }
{}
