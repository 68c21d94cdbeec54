//! The files of a store that are reached by two streams: requests go out on one, and what was read and how it
//! went come in on the other. So a library that may open no file has a file and its journal by streams that
//! its caller serves.
//!
//! As with `file_device::HostFile`, whether a file is kept is a premise on who serves the streams, and
//! nothing is claimed of it here. docs/LIBRARY.md, "The streams", has the requests.
#![tactic(auto)]

mod file;
mod request;

pub use file::StreamFile;
pub use request::{FileSide, JournalWish, LockWish, ask_journal, ask_lock};
