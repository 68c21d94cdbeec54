//! Tests of what a store leaves in its file where it is stopped, of how many blocks a refused command writes,
//! of what is asked of a cache, and of how many nodes queries look at. Files byte by byte and files with damage
//! are tried by the program (tests/images.py, tests/damaged.py).
#![tactic(auto)]

#[cfg(test)]
mod looks;
#[cfg(test)]
mod refused;
#[cfg(test)]
mod stops;
