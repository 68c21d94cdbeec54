//! Nodes of trees as pages, read, viewed and written through a cache, and the trees that pages stand for
//! (docs/FORMAT.md, "Node pages", "Trees of pages").
#![tactic(auto)]

mod adding;
mod check;
mod enlarging;
pub mod laws;
mod leaves;
mod lending;
mod nodes;
mod taking;
mod visits;

pub use adding::add_entry;
pub use check::{TreeFacts, check_tree};
pub use enlarging::{enlarge_entry, set_entry_box};
pub use leaves::leaf_lists;
pub use lending::view_node;
pub use node_bytes::{NodeView, decode, encode, next_set};
pub use nodes::{read_into, read_node, write_node};
pub use taking::take_entry;
pub use tree_node::{Entry, Node, Root};
pub use visits::Visits;
