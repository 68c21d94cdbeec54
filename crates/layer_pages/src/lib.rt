//! The pages of one layer: its R*-tree and its identifier table over the same objects, changed together
//! (docs/FORMAT.md, "Trees of pages", "Identifier tables").
#![tactic(auto)]

mod checking;
mod freeing;
mod inserting;
pub mod laws;
mod layer;
mod loading;
mod making;
mod removing;
mod replacing;

pub use checking::check;
pub use freeing::free;
pub use inserting::insert;
pub use layer::{Layer, ObjectAt};
pub use loading::load;
pub use making::make;
pub use removing::remove;
pub use replacing::replace;
