//! Boxes, queries and rows as C has them: numbers in arrays, and structs of plain numbers.
#![tactic(auto)]

mod boxes;
pub mod laws;
mod layers;
mod nodes;
mod numbers;
mod objects;
mod parts;
mod rows;

pub use boxes::{raw_box, raw_point, raw_query};
pub use layers::{Layer, layer_row, write_layers};
pub use nodes::{NodeRow, write_three, write_two};
pub use numbers::{number_of, tell};
pub use objects::objects_of;
pub use parts::{keep_after, keep_with, last_of};
pub use rows::{
    Near, Pair, Row, near_row, object_row, write_ids, write_nearest, write_objects, write_pairs,
};
