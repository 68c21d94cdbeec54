//! Trees of nodes as values: nodes and their entries, rows of a tree with what lies below them, the shape of
//! a tree, what a search of it finds, and the words of rules that choose among entries. Nothing here speaks
//! of bytes, or of pages that are read.
#![tactic(auto)]

mod entries;
mod fanout;
pub mod laws;
mod node;
mod orders;

pub use entries::{box_of, least, picked, reference_of, see_boxes};
pub use fanout::{Fanout, least_entries};
pub use node::{Entry, Node, Root};
pub use orders::{likely_first, likely_order};
