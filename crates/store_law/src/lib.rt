//! The law of a store: what it may answer to each request, and what stops may leave of it (docs/COMMANDS.md,
//! docs/FORMAT.md).
//!
//! The law is the definitions in `specs/`; a store's calls promise it by these words. [`laws`] says what
//! follows.
#![tactic(auto)]

pub mod laws;
