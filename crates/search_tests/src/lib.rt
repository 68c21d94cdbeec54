//! Tests of the checks and searches of trees whose pages are written by hand: worked rows with their looks,
//! damaged pages, and growths that are refused.
//!
//! Each function here is proved too, and what costs is the number of its calls. So tests are rows of tables
//! that a loop goes through, and their helpers have no contracts: one that changes pages opens the gate.
#![tactic(auto)]

#[cfg(test)]
mod found;
#[cfg(test)]
mod pages;
#[cfg(test)]
mod refused;
#[cfg(test)]
mod scripts;
#[cfg(test)]
mod steps;
