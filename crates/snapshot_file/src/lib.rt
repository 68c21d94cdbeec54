//! A file as it is read beside its writer: its blocks through what its journal has committed, with no write into
//! either (docs/FORMAT.md, "The journal").
//!
//! What is shown is fixed when it is opened: what is committed later is not seen.
#![tactic(auto)]

pub mod laws;
mod open;
mod over;
mod unmarked;
mod untitled;

pub use open::{FileSnapshot, open_snapshot};
pub use over::{Snapshot, snapshot_over};
pub use unmarked::UnmarkedReader;
pub use untitled::UntitledReader;
