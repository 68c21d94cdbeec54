//! Tests of trees that are made in pages by insertions, removals and loads, by their public calls: worked
//! rows with their leaves, pages and looks, and changes whose growths and calls of the device are refused in
//! turn. They stand here, and not in the crates below, so that no crate is proved once more with its tests.
//!
//! Each function here is proved too, and what costs is the number of its calls. So tests are rows of tables
//! that a loop goes through, and their helpers have no contracts: one that changes pages opens the gate.
#![tactic(auto)]

#[cfg(test)]
mod boxes;
#[cfg(test)]
mod calls;
#[cfg(test)]
mod refused;
#[cfg(test)]
mod rising;
#[cfg(test)]
mod rows;
#[cfg(test)]
mod runs;
#[cfg(test)]
mod scenes;
#[cfg(test)]
mod steps;
