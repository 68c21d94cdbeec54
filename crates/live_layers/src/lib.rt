//! The layers of a live store: their records in memory, and their trees and identifier tables in the pages of
//! a cache (docs/FORMAT.md).
#![tactic(auto)]

mod broken;
mod catalog;
mod faults;
pub mod laws;
mod layers;
mod located;
mod names;
mod objects;
mod outlines;
mod repeats;
mod rooms;
mod search;
mod unmade;

pub use faults::as_refusal;
pub use layers::Layers;
pub use outlines::LayerOutline;
pub use rooms::Rooms;
pub use unmade::Unmade;
