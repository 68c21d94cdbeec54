//! What a run asks of its words before it begins.
ghost use Rattle.std.specs.Io.KnownBytes.{Appends};
ghost use Rattle.std.specs.Prelude.{ℕ, List};

use crate::options::Options;
use crate::words::read_words;
use page_file::Version;
use std::alloc::Global;
use std::io::Write;

// Parts of the line for a person at a terminal.
const END: &str = "the end of input (Ctrl-D)";

const KEPT: &str = "changes are kept at `reopen` and at the end of input (Ctrl-D)";

const TOLD: &str = "docs/COMMANDS.md tells the commands";

/// Says in a line to a person at a terminal where the store is and when its changes are kept, where the words
/// ask for a run at all. What was said before stays; nothing is said where memory is refused.
pub fn greet<E: Write>(alloc: Global, words: &[&str], errors: &mut E)
    ensures { (said : List ℕ) × Appends (E.contents errors.old) (E.contents errors.new) said }
{
    if let Some(line) = greeting(alloc, words) {
        let _ = errors.write(line.as_bytes());
    }
}

// The line for a person at a terminal.
fn greeting(alloc: Global, words: &[&str]) -> Option<String> {
    let options = options_of(alloc, words)?;
    match options.file {
        Some(path) if options.read_only => {
            format!(in alloc; "rstore: the store in {path} is only read; {TOLD}\n")
        }
        Some(path) => format!(in alloc; "rstore: the store is in {path}; {KEPT}; {TOLD}\n"),
        None => format!(in alloc; "rstore: the store is in memory, and lost at {END}; {TOLD}\n"),
    }
    .ok()
}

/// Whether the words ask for an import.
pub fn imports(alloc: Global, words: &[&str]) -> bool {
    match options_of(alloc, words) {
        Some(options) => options.imports(),
        None => false,
    }
}

/// The newest version that the file may have by the words; none where they are refused, or memory for them is.
pub fn newest_allowed(alloc: Global, words: &[&str]) -> Option<Version> {
    match options_of(alloc, words) {
        Some(options) => Some(options.limits.newest),
        None => None,
    }
}

// What the words ask for, where they are taken. The error of `clap` is let go here alone, which is dear to prove.
fn options_of<'a>(alloc: Global, words: &'a [&'a str]) -> Option<Options<'a>> {
    read_words(alloc, words).ok()
}
