//! Nodes of trees as the bytes of pages: read, viewed, written, and changed where they lie (docs/FORMAT.md,
//! "Node pages").
#![tactic(auto)]

mod closing;
mod columns;
mod edits;
mod entries;
mod head;
pub mod laws;
mod masks;
mod page;
mod tags;
mod view;

pub use edits::{drop_where_there, push_where_room, write_box_at};
pub use masks::next_set;
pub use page::{decode, encode};
pub use tree_node::{Entry, Node};
pub use view::{NodeView, spells_node};
