//! A base as it is read through the committed regions of its log, of which neither is written: what readers
//! beside a writer stand on.
//!
//! The index of the regions is read once, and with it what was committed last is fixed. Each read of a block is
//! then one read of the log, or of the base.
#![tactic(auto)]

mod index;
pub mod laws;
mod reader;

pub use reader::SnapshotReader;
