//! A base and a log of commits: a stop leaves the blocks of the last commit, or of the one in progress.
//!
//! A commit writes its blocks into a region of the log, behind those of earlier commits, and copies nothing.
#![tactic(auto)]

mod compaction;
pub mod laws;
mod pair;

pub use compaction::write_newest;
pub use pair::LoggedPair;
