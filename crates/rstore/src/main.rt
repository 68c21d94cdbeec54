//! The program `rstore`: `rstore [--cache N] [--format N] [--create | --read-only] [--strict] [FILE]`, and
//! with `--draw LAYER`, `--stats` or `--import LAYER` in place of lines (docs/COMMANDS.md, "The program").
#![tactic(auto)]

mod laws;

use command_language::CountedReader;
use command_line::{ProgressLine, ProgressReader, serve};
use file_device::OpenError;
use journaled_file::{JournaledFile, OpenedFile, end_journaled, open_journaled};
use journaled_store::OpeningJudge;
use layer_store::{Refusal, Version};
use program_words::{greet, imports, newest_allowed};
use reply_texts::tell_refusal;
use snapshot_file::open_snapshot;
use std::alloc::Global;
use std::cell::Cell;
use std::io::{BufWriter, IsTerminal, Stderr, Write};
use std::process::ExitCode;
use std::{env, io};

// How many pages are cached where a store is opened to see whether it opens.
const JUDGED_PAGES: u32 = 8;

// What is said where the last run over a file was cut short after a closing.
const UNENDED: &[u8] =
    b"rstore: the last run did not end; what changed after its last closing is lost\n";

/// Runs on the words of the command line, standard input and standard output, and ends with the status of the
/// run.
fn main(rt: HostRuntime) -> ExitCode {
    match run(&rt) {
        Ok(status) => ExitCode::from(status),
        Err(error) if error.kind() == io::ErrorKind::OutOfMemory => {
            let _ = tell_refusal(Refusal::Memory, &mut rt.stderr());
            ExitCode::FAILURE
        }
        Err(_) => {
            let _ = rt.stderr().write_all(b"rstore: a word is no text\n");
            ExitCode::from(2)
        }
    }
}

// Where the progress of an import is told: at a terminal.
fn progress(rt: &HostRuntime, alloc: Global, words: &[&str]) -> Option<Stderr> {
    let errors = rt.stderr();
    if errors.is_terminal() && imports(alloc, words) {
        Some(errors)
    } else {
        None
    }
}

// The status of the run. Without memory there is none, and where a word is no text.
fn run(rt: &HostRuntime) -> io::Result<u8> {
    let alloc = rt.alloc();
    let owned: Vec<String> = env::args(rt)?.collect(alloc)?;
    let mut words = Vec::with_capacity(alloc, owned.len())?;
    for word in &owned {
        words.push(word.as_str())?;
    }
    if rt.stdin().is_terminal() {
        greet(alloc, words.as_slice(), &mut rt.stderr());
    }
    serve_files(rt, alloc, words.as_slice())
}

// Serves as the words ask, over files of the system, which are ended when it has.
fn serve_files(rt: &HostRuntime, alloc: Global, words: &[&str]) -> io::Result<u8> {
    let mut errors = rt.stderr();
    let mut output = BufWriter::new(alloc, io::writer(rt))?;
    let mut input = CountedReader::over(ProgressReader::over(
        rt.reader(),
        progress(rt, alloc, words),
    ));
    let mut line = ProgressLine::to(progress(rt, alloc, words));
    let journal = Cell::new(None);
    let ended = Cell::new(true);
    let newest = newest_allowed(alloc, words);
    let open = |path: &str, create: bool| open_file(rt, alloc, path, create, newest, &journal);
    let read = |path: &str| open_snapshot(rt, alloc, path);
    let end = |_path: &str, device| {
        if let Some(name) = journal.take() {
            ended.set(end_journaled(rt, name.as_str(), device).is_ok());
        }
    };
    let status = serve(
        alloc,
        words,
        open,
        read,
        end,
        &mut input,
        &mut output,
        &mut errors,
        &mut line,
    );
    Ok(status_once_ended(status, ended.get(), &mut errors))
}

// Opens or makes the file at a path, of this version at most, and its journal, whose path is kept, and says where
// the last run over it was cut short. Where no version could be told, memory was refused as the words were read.
fn open_file(
    rt: &HostRuntime,
    alloc: Global,
    path: &str,
    create: bool,
    newest: Option<Version>,
    journal: &Cell<Option<String>>,
) -> Result<JournaledFile, OpenError> {
    let Some(newest) = newest else {
        return Err(OpenError::Memory);
    };
    let mut judge = OpeningJudge::of(alloc, JUDGED_PAGES, newest, create);
    let OpenedFile {
        device,
        name,
        unended,
    } = open_journaled(rt, alloc, path, create, &mut judge)?;
    journal.set(name);
    if unended {
        let _ = rt.stderr().write_all(UNENDED);
    }
    Ok(device)
}

// The status of a run whose files were ended, or could not be. One that has failed has said why, and the next
// opening ends it.
fn status_once_ended(status: u8, ended: bool, errors: &mut Stderr) -> u8 {
    if ended || status == 1 {
        return status;
    }
    let _ = tell_refusal(Refusal::Device, errors);
    1
}
