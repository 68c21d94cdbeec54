//! What leaf pages spell, as laws of all lists of bytes: each law is the contract of a function that does
//! nothing.

ghost use Rattle.id_page.specs.LeafLaws.{LeavesHaveOnePage, ReadsNamedOfLeaves, ReadsSpelledLeaves};
ghost use Rattle.id_page.specs.LeafLaws.{SpellsBoxes};

/// Reading gives exactly what is spelled, so a page spells at most one leaf.
pub fn what_is_spelled_is_read()
    ensures { ReadsSpelledLeaves }
{}

/// Only the named bytes of a page are read: its head, and the objects below its count.
pub fn named_bytes_are_read()
    ensures { ReadsNamedOfLeaves }
{}

/// Each object of a leaf has a box of 32-bit coordinates, its lows at most its highs.
pub fn objects_have_boxes()
    ensures { SpellsBoxes }
{}

/// A leaf has one page: two that spell it, with zeros in all bytes that it does not name, have the same
/// bytes.
pub fn a_leaf_has_one_page()
    ensures { LeavesHaveOnePage }
{}
