//! The committed regions of a log over a base: the base as it is read through them, and the blocks of the
//! journal behind them, where the next region is written.
#![tactic(auto)]

mod flag;
pub mod laws;
mod log;
mod slots;

pub use flag::{count_page, flag_page, says_committed};
pub use log::{CommittedLog, HOMES, OpenFault, push_none, region_blocks};
pub use slots::Slots;
