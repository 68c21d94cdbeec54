//! Replies and refused lines, written as texts (docs/COMMANDS.md).
#![tactic(auto)]

mod refused;
mod replies;
mod reply_line;
mod rows;

pub use refused::{LineFront, RefusedLine, Stop, tell_stop};
pub use replies::{Reply, tell_refusal, write_layers, write_reply};
pub use reply_line::put;
