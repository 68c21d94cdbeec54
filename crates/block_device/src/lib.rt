//! A device of blocks of 4096 bytes, what may become of it in a stop, one in memory, and one that fails
//! on demand.
#![tactic(auto)]

mod block_list;
mod device;
mod fuse;
pub mod laws;
mod left;
mod log;
mod memory;
mod past;

pub use device::{BlockDevice, DeviceError};
pub use fuse::{FuseDevice, FuseMode};
pub use left::Left;
pub use memory::MemoryDevice;
