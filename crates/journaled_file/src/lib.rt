//! A file with its journal beside it, `FILE-journal`: opened as one device, and ended.
//!
//! The device commits, so a run that is cut short loses nothing that it had closed (docs/FORMAT.md, "The
//! journal"). While a run has committed and has not ended, the file alone is refused by whoever knows no
//! journal.
#![tactic(auto)]

mod end;
mod judging;
pub mod laws;
mod looking;
mod open;
mod pairing;
mod readers;
mod viewed;

pub use end::{end_device, end_journaled, end_session};
pub use judging::{Found, judge};
pub use looking::{Looked, StoreJudge, look};
pub use open::{
    JournaledFile, JournaledOver, OpenedFile, judge_and_finish, open_journaled, open_over,
};
pub use pairing::{JournalSource, pair_up};
pub use readers::FileReaders;
