//! Range queries over trees of pages: windows, boxes inside and around a box, and points (docs/FORMAT.md,
//! "Trees of pages").
#![tactic(auto)]

mod arranging;
mod descent;
mod queries;

pub use queries::{around, inside, point, range, range_in_tree_order, window};
