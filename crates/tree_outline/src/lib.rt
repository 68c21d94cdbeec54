//! The nodes of a tree of pages, one after the other from the root down (docs/FORMAT.md, "Trees of pages").
#![tactic(auto)]

pub mod laws;
mod listing;
mod node;

pub use listing::outline;
pub use node::NodeOutline;
