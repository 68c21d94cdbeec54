//! A pair of devices whose base is marked while its journal is needed to read it.
//!
//! While committed blocks are copied into the base, the base alone must not be taken for a closed file. So
//! its gate has a mark on disk from a session's first commit to its clean end, and is shown as a shut gate.
#![tactic(auto)]

pub mod laws;
mod mark;
mod pair;

pub use mark::{MARKED, Mark, SHUT, gate_page, reads_as};
pub use pair::MarkedPair;
