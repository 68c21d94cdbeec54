//! The store for C: a static library of plain functions over numbers, slices and one opaque handle.
//!
//! library/rstore.h and library/rstore.c stand over it, with C's habits. Nothing checks a C caller, so what
//! each function asks of one is said at it, and rstore.c tests what can be tested.
#![tactic(auto)]

mod device;
mod exports;
mod files;
mod handle;
mod held;
