//! What the tables of identifiers share: the words for objects by their identifiers in lists and in maps, for
//! those that a check has seen, and for the page that a change may name as damaged; and the objects of entries
//! of leaves.
#![tactic(auto)]

mod objects;

pub use objects::{AT_ONCE, first_objects};
