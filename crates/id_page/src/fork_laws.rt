//! What fork pages spell, as laws of all lists of bytes: each law is the contract of a function that does
//! nothing.

ghost use Rattle.id_page.specs.ForkLaws.{ForksHaveOnePage, ReadsNamedOfForks, ReadsSpelledForks};

/// Reading gives exactly what is spelled, so a page spells at most one fork.
pub fn what_is_spelled_is_read()
    ensures { ReadsSpelledForks }
{}

/// Only the named bytes of a page are read: its head, and the children below its count.
pub fn named_bytes_are_read()
    ensures { ReadsNamedOfForks }
{}

/// A fork has one page: two that spell it, with zeros in all bytes that it does not name, have the same
/// bytes.
pub fn a_fork_has_one_page()
    ensures { ForksHaveOnePage }
{}
