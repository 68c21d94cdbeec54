//! A file of the system and its journal, opened beside a writer.

use crate::{Snapshot, snapshot_over};
use block_bytes::zero_block;
use block_device::DeviceError;
use file_device::{FileReader, HostReader, OpenError, journal_path, open_beside, open_reader};
use marked_pair::{SHUT, gate_page};
use page_file::opening_fault;
use read_only_device::BlockReader;
use std::alloc::{Alloc, Global};
use std::fs::{self, File, Files};

// How often both files are looked at before it is answered what a writer at work may have left for a moment.
const MOST_LOOKS: u32 = 300;

/// A file of the system as it is read beside its writer.
pub type FileSnapshot = Snapshot<FileReader<HostReader>, FileReader<HostReader>>;

/// Opens the file at `path` for reading alone, and shows what was committed last, by its journal.
///
/// Its lock is shared from before the first read until this is closed; the journal is not locked. Neither file is
/// written. What is shown is on disk, so that no stop takes it back: the journal is synced where its log has
/// commits, and the base where it lies beside a journal that has none.
///
/// `NoJournal` and `OtherJournal` come, and a file whose gate or header is not that of a closed store is shown, only
/// where many looks came to the same, since a writer may be at work.
pub fn open_snapshot<R: Files<File = File> + Alloc>(
    rt: &R,
    alloc: Global,
    path: &str,
) -> Result<FileSnapshot, OpenError> {
    for _ in 1..MOST_LOOKS {
        match look(rt, alloc, path) {
            Ok(seen) if seen.opens => return seen.synced(),
            Ok(_) | Err(OpenError::NoJournal | OpenError::OtherJournal) => {}
            Err(error) => return Err(error),
        }
    }
    look(rt, alloc, path)?.synced()
}

// Both files as they were looked at.
#[derive(Drop)]
struct Seen {
    snapshot: FileSnapshot,
    // other handles of both
    base: FileReader<HostReader>,
    journal: Option<FileReader<HostReader>>,
    // whether gate and header are those of a closed store
    opens: bool,
}

impl Seen {
    // What is shown, once what a writer may not have synced yet is synced: the log that it is read from, and where
    // that has no commit beside a journal the base.
    fn synced(self) -> Result<FileSnapshot, OpenError> {
        let Seen {
            snapshot,
            base,
            journal,
            opens: _,
        } = self;
        if let Some(journal) = journal {
            sync_one(&snapshot, &base, &journal)?;
        }
        Ok(snapshot)
    }
}

// Syncs the log where it has commits, and else the base.
fn sync_one(
    snapshot: &FileSnapshot,
    base: &FileReader<HostReader>,
    journal: &FileReader<HostReader>,
) -> Result<(), DeviceError> {
    if snapshot.end() > 0 {
        return journal.sync();
    }
    base.sync()
}

// Looks at both files. The base has at least the blocks that it had when the journal was opened: a region that lies
// in the journal names no others.
fn look<R: Files<File = File> + Alloc>(
    rt: &R,
    alloc: Global,
    path: &str,
) -> Result<Seen, OpenError> {
    let base = open_reader(rt, path)?;
    let name = journal_name(rt, alloc, path)?;
    let journal = open_beside(rt, name.as_str())?;
    let base_handle = base.another_handle()?;
    let journal_handle = other_handle(&journal)?;
    let snapshot = snapshot_over(base.measured()?, journal, alloc)?;
    let opens = opens(&snapshot)?;
    Ok(Seen {
        snapshot,
        base: base_handle,
        journal: journal_handle,
        opens,
    })
}

// The path of the journal of the file that this path leads to.
fn journal_name<R: Files<File = File> + Alloc>(
    rt: &R,
    alloc: Global,
    path: &str,
) -> Result<String, OpenError> {
    match fs::canonicalize(rt, path) {
        Ok(real) => Ok(journal_path(alloc, real.as_str())?),
        Err(_) => Err(OpenError::Refused),
    }
}

// Another handle of a journal.
fn other_handle(
    journal: &Option<FileReader<HostReader>>,
) -> Result<Option<FileReader<HostReader>>, OpenError> {
    match journal {
        Some(journal) => Ok(Some(journal.another_handle()?)),
        None => Ok(None),
    }
}

// Whether gate and header are those of a closed store, of which all pages are there: a writer that began its log
// anew may have committed blocks that were added since the base was measured. What is read through a log has the
// gate that is written for a shut one: a journal that has another, which reads as shut, is none.
fn opens(snapshot: &FileSnapshot) -> Result<bool, OpenError> {
    if snapshot.blocks() < 2 {
        return Ok(false);
    }
    let mut gate = zero_block();
    let mut header = zero_block();
    snapshot.read(0, &mut gate)?;
    snapshot.read(1, &mut header)?;
    if opening_fault(&gate, &header, snapshot.blocks()).is_some() {
        return Ok(false);
    }
    if snapshot.end() > 0 && gate != gate_page(SHUT) {
        return Err(OpenError::NoJournal);
    }
    Ok(true)
}
