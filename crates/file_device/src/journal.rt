//! The file of a journal: where it lies, how it is opened, and how it is removed.
ghost use Rattle.std.specs.Prelude.{◌≡◌, ◌++◌, IfOk, codes, string_bytes};

use crate::open::{are_same_file, folder_of, opened};
use crate::{FileDevice, HostFile, OpenError, open_file};
use std::alloc::{AllocError, Allocator};
use std::fs::{self, File, Files, OpenOptions};
use std::io::{self, ErrorKind};

/// The path of the journal of the file at `path`: it lies beside the file, by the file's name and `-journal`.
pub fn journal_path<A: Allocator>(alloc: A, path: &str) -> Result<String<A>, AllocError>
    ensures { IfOk result (λ name. string_bytes name ≡ path.now ++ codes "-journal") }
{
    format!(in alloc; "{path}-journal")
}

/// The path of the file in which a copy of the journal at `path` is made.
pub fn copy_path<A: Allocator>(alloc: A, path: &str) -> Result<String<A>, AllocError>
    ensures { IfOk result (λ name. string_bytes name ≡ path.now ++ codes "-part") }
{
    format!(in alloc; "{path}-part")
}

/// Opens the journal that lies at a path, and syncs its folder, so that a stop after this doesn't take it away.
/// None where the system opens none.
pub fn open_journal<R: Files<File = File>>(
    rt: &R,
    path: &str,
) -> Result<Option<FileDevice<HostFile<File>>>, OpenError> {
    let journal = match open_file(rt, path, false) {
        Ok(journal) => journal,
        Err(error) if error.is_of_system() => return Ok(None),
        Err(error) => return Err(error),
    };
    let Ok(folder) = File::open(rt, folder_of(path)) else {
        return Err(OpenError::Refused);
    };
    if folder.sync_all().is_err() {
        return Err(OpenError::Refused);
    }
    Ok(Some(journal))
}

/// Removes the journal, which is open, from the path at which it was opened, and syncs its folder, so that a
/// stop after this doesn't bring it back. A stop before leaves it or not.
///
/// So it is for a journal that recovery leaves out: one that is not complete. The folder is opened first:
/// where it can't be, nothing is removed. Nor is it where another file lies at the path.
pub fn remove_journal<R: Files<File = File>>(
    rt: &R,
    path: &str,
    journal: &FileDevice<HostFile<File>>,
) -> io::Result<()> {
    let folder = File::open(rt, folder_of(path))?;
    unlink_journal(rt, path, journal)?;
    folder.sync_all()
}

/// The same without a sync of the folder, for who makes a file at this path next, and syncs the folder then.
pub fn unlink_journal<R: Files<File = File>>(
    rt: &R,
    path: &str,
    journal: &FileDevice<HostFile<File>>,
) -> io::Result<()> {
    match lies_at(rt, path, journal) {
        Err(error) if error.kind() == ErrorKind::NotFound => Ok(()),
        Err(error) => Err(error),
        Ok(false) => Err(io::Error::from(ErrorKind::NotFound)),
        Ok(true) => fs::remove_file(rt, path),
    }
}

/// Gives a copy of the journal, which is open, its path, and syncs its folder: a stop before this leaves the
/// one or the other there, and one after it the copy. Nothing is done where another file lies at the path.
pub fn replace_journal<R: Files<File = File>>(
    rt: &R,
    copy: &str,
    path: &str,
    journal: &FileDevice<HostFile<File>>,
) -> io::Result<()> {
    let folder = File::open(rt, folder_of(path))?;
    if !lies_at(rt, path, journal)? {
        return Err(io::Error::from(ErrorKind::NotFound));
    }
    fs::rename(rt, copy, path)?;
    folder.sync_all()
}

/// Makes an empty file at a path, in the place of one that a run left there which was cut short. A stop may take
/// it away.
pub fn make_anew<R: Files<File = File>>(
    rt: &R,
    path: &str,
) -> Result<FileDevice<HostFile<File>>, OpenError> {
    let _ = fs::remove_file(rt, path); // what can't be removed is found not to be empty
    let file = opened(
        rt,
        path,
        OpenOptions::new().read(true).write(true).create(true),
    )?;
    Ok(FileDevice::over(HostFile::of(file))?)
}

/// Makes an empty file that has no name, and is gone once it is closed.
pub fn make_nameless<R: Files<File = File>>(
    rt: &R,
    path: &str,
) -> Result<FileDevice<HostFile<File>>, OpenError> {
    let file = make_anew(rt, path)?;
    match fs::remove_file(rt, path) {
        Ok(()) => Ok(file),
        Err(_) => Err(OpenError::Refused),
    }
}

// Whether the file that lies at a path is this one, by the numbers that the system has for it.
fn lies_at<R: Files<File = File>>(
    rt: &R,
    path: &str,
    open: &FileDevice<HostFile<File>>,
) -> io::Result<bool> {
    let found = fs::symlink_metadata(rt, path)?;
    let own = open.file().metadata()?;
    Ok(are_same_file(&found, &own))
}
