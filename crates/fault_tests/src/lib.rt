//! Tests of the store where memory and the device fail: each growth and each call of the device is refused in
//! turn.
#![tactic(auto)]

#[cfg(test)]
mod commands;
#[cfg(test)]
mod refused;
#[cfg(test)]
mod refused_changes;
#[cfg(test)]
mod scripts;
