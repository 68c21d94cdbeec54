//! The command shell of the store: command lines in, replies out (docs/COMMANDS.md).
//!
//! `run` answers the lines of a reader, and its contract is the theorem of a whole run; `answers_to` has it
//! of a store in memory, with no premise. Its two ends are `command_language`, a line's meaning, and
//! `reply_texts`, a reply's text. `run_and_close` is what the program does, and `run_strictly_and_close` what
//! it does with `--strict`.
#![tactic(auto)]

mod flushing;
mod in_memory;
mod loading;
mod program;
mod session;
mod strict;

pub use flushing::FlushedWrite;
pub use in_memory::answers_to;
pub use program::{Ended, run_and_close};
pub use session::{LinesEnd, RunEnd, run, run_strictly};
pub use strict::{Outcome, Settled, run_strictly_and_close};
