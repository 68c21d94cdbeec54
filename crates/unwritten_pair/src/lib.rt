//! A pair of devices of which nothing is written, to look at files by what opens them.
//!
//! What opens a file and its journal may append to the journal. Over such a pair it does so in memory, and
//! both files stay as they are.
#![tactic(auto)]

pub mod laws;
mod pair;

pub use pair::UnwrittenPair;
