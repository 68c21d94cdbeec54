//! The identifier table of a layer in pages: the box and the tag of each identifier. It is a tree of pages
//! (`id_tree`), or in older layers chains of buckets (`id_chains`); byte 0 of its first page tells which
//! (docs/FORMAT.md, "Identifier tables"). The crates above need not know.
#![tactic(auto)]

mod asking;
mod changing;
mod filling;
mod kind;

pub use asking::{Sought, Spot, TableFacts, check_table, find};
pub use changing::{add, free_all, make, remove, update};
pub use filling::fill;
pub use kind::{TableKind, kind_at};
