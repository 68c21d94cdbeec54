//! Lawful removals from trees of pages, and whole trees freed: an entry leaves its leaf, and the entries of
//! each node that has too few are inserted again (Delete and CondenseTree of Guttman 1984; docs/RULES.md,
//! "Removal").
#![tactic(auto)]

mod children;
mod cut;
mod fill;
mod free;
mod hand;
mod kept;
pub mod laws;
mod leaf;
mod look;
mod lower;
mod put;
mod removal;
mod take;

pub use free::free_tree;
pub use kept::Kept;
pub use removal::{remove, remove_with};
