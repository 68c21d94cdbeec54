//! Tests of devices in files, by their public calls: in files of the system, in one that fails, and
//! over a device. They stand here, and not in `file_device`, so that no crate is proved once more
//! with its tests.
#![tactic(auto)]

#[cfg(test)]
mod failing;
#[cfg(test)]
mod scripts;
#[cfg(test)]
mod steps;
#[cfg(test)]
mod turns;
