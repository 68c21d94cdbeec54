//! Tests of the journaled device over a pair in memory, stopped at each call.
#![tactic(auto)]

#[cfg(test)]
mod beside;
#[cfg(test)]
mod many;
#[cfg(test)]
mod mixed;
#[cfg(test)]
mod session;
#[cfg(test)]
mod stops;
