//! A device over a base and the log of its commits: a stop leaves the blocks of its last commit, or of the one in
//! progress.
#![tactic(auto)]

mod device;
mod giving_up;
pub mod laws;
mod readers;

pub use committed_log::OpenFault;
pub use device::JournaledDevice;
pub use giving_up::GivesUp;
pub use readers::{Nobody, Readers};
