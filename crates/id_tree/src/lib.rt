//! The identifier table of a layer as a tree of pages: the box and the tag of each identifier, in leaves that
//! are found by the keys of forks (docs/FORMAT.md, "Identifier trees"; how it changes: docs/RULES.md).
//!
//! A place that a search found serves the change after it. A refusal after which the cache is not touched
//! (`PageCache::is_touched`) leaves the map of pages as it was.
#![tactic(auto)]

mod adding;
mod below;
mod check;
mod filling;
mod freeing;
mod giving;
mod halving;
mod joining;
pub mod laws;
mod looks;
mod lowering;
mod making;
mod meeting;
mod moving;
mod pairs;
mod parting;
mod pushing;
mod removing;
mod rooting;
mod runs;
mod search;
mod sharing;
mod splitting;
mod updating;

pub use adding::add;
pub use check::{TableFacts, check_table};
pub use filling::fill;
pub use freeing::free_all;
pub use making::make;
pub use removing::remove;
pub use search::{LeafPlace, Sought, find};
pub use updating::update;
