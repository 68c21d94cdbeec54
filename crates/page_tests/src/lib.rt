//! Tests of files of pages and of the cache over them, by their public calls. They stand here, and not in the
//! crates below, so that no crate is proved once more with its tests.
#![tactic(auto)]

#[cfg(test)]
mod cached;
#[cfg(test)]
mod files;
