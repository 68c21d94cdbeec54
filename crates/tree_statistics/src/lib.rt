//! What one tunes a layer by: its levels, its pages, and how much siblings overlap, counted from the outline
//! of its tree and written as a table or as JSON (docs/COMMANDS.md, "The program").
#![tactic(auto)]

pub mod laws;
mod layers;
mod levels;
mod tables;

pub use layers::{LayerFacts, LayerStatistics};
pub use levels::{LevelStatistics, levels_of};
pub use tables::{write_json, write_table};
