//! Packed trees: all objects of a layer made into a tree at once (docs/RULES.md, "Packed load").
#![tactic(auto)]

mod hints;
pub mod laws;
mod nodes;
mod packing;
mod sorting;
mod ties;
mod tiling;

pub use packing::load;
pub use tiling::tile;
