//! The identifier table of a layer in pages: the box and the tag of each identifier, by a directory of chains
//! of buckets (docs/FORMAT.md, "Identifier tables").
//!
//! A refusal after which the cache is not touched (`PageCache::is_touched`) leaves the map of pages as it
//! was.
#![tactic(auto)]

mod adding;
mod bucket;
mod check;
mod directory;
mod filling;
mod freeing;
pub mod laws;
mod making;
mod places;
mod removing;
mod search;
mod updating;

pub use adding::add;
pub use check::{TableFacts, check_table};
pub use filling::fill;
pub use freeing::free_all;
pub use making::make;
pub use removing::remove;
pub use search::get;
pub use updating::update;
