//! Live pages of 4096 bytes on a device, with a gate that tells a stopped file from a closed one.
#![tactic(auto)]

mod blocks;
mod creation;
mod fault;
mod file;
mod gate;
mod header;
pub mod laws;
mod layout;
mod opening;

pub use fault::Fault;
pub use file::{PageFile, create_pages, open_pages};
pub use header::Version;
pub use opening::opening_fault;
