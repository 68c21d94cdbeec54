//! The program's words: what they ask for, and what is said of those that do not go together (docs/COMMANDS.md,
//! "The program").
//!
//! They are read beside the store and its shell, which this crate knows nothing of, since `clap` is a large crate.
#![tactic(auto)]

mod greeting;
mod importing;
mod kinds;
mod misuse;
mod options;
mod words;

pub use greeting::{greet, imports, newest_allowed};
pub use importing::{ImportForm, ImportTask, import_task};
pub use kinds::{RunKind, kind_of_run, misuse_of};
pub use misuse::{ImportMisuse, MISUSED, ShowMisuse, show_misuse, tell_misuse};
pub use options::{ImportWords, Limits, Options};
pub use words::read_words;
