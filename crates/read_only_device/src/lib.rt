//! A device over blocks that are only read: each write fails, and nothing is written.
#![tactic(auto)]

mod device;
mod held;
mod reader;

pub use device::ReadOnlyDevice;
pub use held::HeldBlocks;
pub use reader::BlockReader;
