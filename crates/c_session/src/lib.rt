//! A store as who holds it from outside Rattle calls it: each call answers by a number, and what a question
//! answered is kept until it is fetched, by rows of plain numbers.
#![tactic(auto)]

pub mod laws;
mod session;

pub use session::{BAD_NUMBERS, CLOSED, Opening, READ_ONLY, Session};
