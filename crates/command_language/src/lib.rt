//! The command language: the lines of a text, found in what a reader gives, and what each of them means
//! (docs/COMMANDS.md).
#![tactic(auto)]

mod counted;
mod lines;
mod parse;
mod usage;
mod words;

pub use counted::{CountedRead, CountedReader};
pub use lines::{Found, LineReader};
pub use parse::{Line, MAX_LINE, parse_entry, parse_line};
pub use usage::usage_in;
