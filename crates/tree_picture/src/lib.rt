//! A picture of a layer's tree: the boxes of its nodes level by level, in SVG (docs/COMMANDS.md, "The
//! program").
#![tactic(auto)]

mod frame;
mod legend;
mod picture;

pub use picture::{Drawn, MOST_ENTRIES, draw};
