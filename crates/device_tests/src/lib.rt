//! Tests of the device in memory, of fuses, and of the allocator that refuses growths, by their public calls.
#![tactic(auto)]

#[cfg(test)]
mod memory;
#[cfg(test)]
mod refusals;
