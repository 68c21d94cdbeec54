//! Corners of boxes, and boxes, at places of a block of 4096 bytes: what nodes keep in columns and buckets
//! keep together.
#![tactic(auto)]

mod boxes;
mod corners;
pub mod laws;

pub use boxes::{read_box, write_box};
pub use corners::{read_corner, write_corner};
