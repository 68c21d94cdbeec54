//! Tests of what no contract of the shell says and no run of the program shows: how a run ends over readers,
//! writers and devices that fail, and where memory is refused. Lines and their replies are tested by the program
//! (tests/worked_rows.py, tests/lines.py, tests/program.py).
#![tactic(auto)]

#[cfg(test)]
mod breaks;
#[cfg(test)]
mod fakes;
#[cfg(test)]
mod memory;
#[cfg(test)]
mod player;
#[cfg(test)]
mod replies;
#[cfg(test)]
mod runs;
#[cfg(test)]
mod stores;
