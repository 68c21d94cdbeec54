//! Two devices of one disk, of which a stop leaves both as they are at one moment, and such a pair in memory.
#![tactic(auto)]

mod fuse;
mod pair;
mod snapshots;
mod two_devices;

pub use fuse::FusePair;
pub use pair::DevicePair;
pub use snapshots::Snapshots;
pub use two_devices::{MemoryPair, TwoDevices};
