//! How commands are written, for whom a line of theirs was refused.

ghost use Rattle.std.specs.Prelude.{◌≡◌, ◌≤◌, length};
ghost use Rattle.command_language.specs.Lines.{words_of};
ghost use Rattle.command_language.specs.Usages.{question_usage, usage_in, usage_of};

use crate::words::Words;

// What is said of a line that begins as no command does.
const NO_COMMAND: &[u8] = b"no command begins so";

/// What is said of a bad line that begins so: how the command is written whose name is its first word, or
/// that there is none.
pub fn usage_in(line: &[u8]) -> &'static [u8]
    ensures text { result.now ≡ usage_in (words_of line.now) }
    ensures short { length result.now ≤ 60 }
{
    match Words::new(line).next() {
        None => NO_COMMAND,
        Some(name) => usage(name),
    }
}

// The same of its first word.
fn usage(name: &[u8]) -> &'static [u8]
    ensures text { result.now ≡ usage_of name.now }
    ensures short { length result.now ≤ 60 }
{
    if name == b"create".as_slice() {
        b"usage: create LAYER AXES FANOUT"
    } else if name == b"insert".as_slice() {
        b"usage: insert LAYER ID BOX [tag N]"
    } else if name == b"load".as_slice() {
        b"usage: load LAYER N, and N lines ID BOX [tag N]"
    } else if name == b"move".as_slice() {
        b"usage: move LAYER ID BOX"
    } else if name == b"delete".as_slice() {
        b"usage: delete LAYER ID"
    } else if name == b"drop".as_slice() {
        b"usage: drop LAYER"
    } else if name == b"reopen".as_slice() {
        b"usage: reopen"
    } else {
        question_usage(name)
    }
}

// The same of a word that is the name of a question, or of nothing.
fn question_usage(name: &[u8]) -> &'static [u8]
    ensures text { result.now ≡ question_usage name.now }
    ensures short { length result.now ≤ 60 }
{
    if name == b"get".as_slice() {
        b"usage: get LAYER ID"
    } else if name == b"count".as_slice() {
        b"usage: count LAYER"
    } else if name == b"window".as_slice() {
        b"usage: window LAYER BOX [tag N]"
    } else if name == b"inside".as_slice() {
        b"usage: inside LAYER BOX [tag N]"
    } else if name == b"around".as_slice() {
        b"usage: around LAYER BOX [tag N]"
    } else if name == b"point".as_slice() {
        b"usage: point LAYER POINT [tag N]"
    } else if name == b"nearest".as_slice() {
        b"usage: nearest LAYER N POINT"
    } else if name == b"join".as_slice() {
        b"usage: join LAYER LAYER [N]"
    } else if name == b"layers".as_slice() {
        b"usage: layers"
    } else if name == b"dump".as_slice() {
        b"usage: dump"
    } else if name == b"check".as_slice() {
        b"usage: check"
    } else {
        NO_COMMAND
    }
}
