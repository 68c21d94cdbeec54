//! How a file of the operating system is opened: locked before a byte of it is read.
ghost use Rattle.std.specs.Prelude.{◌≡◌, IfOk, IfSome, OnOk, OnErr};
ghost use Rattle.std.specs.Fd.{file_raw_fd};
ghost use Rattle.file_device.specs.Number.{IsOwnNumber};
ghost use Rattle.file_device.specs.Device.{file_of};
ghost use Rattle.file_device.specs.Host.{number_of, number_read};
ghost use Rattle.file_device.specs.Lock.{number_locked};

use crate::host::{HostFile, HostReader};
use crate::{FileDevice, FileLock, FileReader};
use block_device::{BlockDevice, DeviceError};
use std::alloc::AllocError;
use std::fs::{self, File, Files, Metadata, OpenOptions, TryLockError};
use std::io::{self, ErrorKind};
use std::os::fd::AsRawFd;
use std::os::unix::fs::MetadataExt;
use thiserror::Error;

// How often a lock is asked for that is refused: for some tenths of a second, since nothing here waits.
const MOST_ASKS: u32 = 200_000;

/// Why a file was not opened. It is as it was.
#[derive(Clone, Copy, Debug, PartialEq, Eq, Drop, Error)]
pub enum OpenError {
    /// There is none, or a folder on its path is missing.
    #[error("cannot open FILE: no such file")]
    NotFound,
    /// The system gives no right to open it so.
    #[error("cannot open FILE: permission denied")]
    PermissionDenied,
    /// It is a folder.
    #[error("cannot open FILE: is a directory")]
    IsADirectory,
    /// The system refuses it for another reason, it is no regular file, or it has more than 2^31 blocks of
    /// 4096 bytes.
    #[error("cannot open FILE")]
    Refused,
    /// Another program has locked it.
    #[error("FILE is in use")]
    InUse,
    /// The system has no locks for it.
    #[error("FILE cannot be locked")]
    NoLocks,
    /// It would take the number of a standard stream that is closed.
    #[error("a standard stream is closed")]
    ClosedStream,
    /// The file beside it that has the name of its journal is none, or is missing where it is needed.
    #[error("FILE-journal is missing, or is no journal")]
    NoJournal,
    /// The file beside it is the journal of another file.
    #[error("FILE-journal is the journal of another file")]
    OtherJournal,
    /// Memory was refused.
    #[error("no memory")]
    Memory,
}

impl OpenError {
    /// Whether the system refuses the file itself, or it is none that can be a device.
    pub fn is_of_system(self) -> bool {
        matches!(
            self,
            OpenError::NotFound
                | OpenError::PermissionDenied
                | OpenError::IsADirectory
                | OpenError::Refused
        )
    }

    // What the system says of a file that it doesn't open.
    fn of_system(error: &io::Error) -> Self {
        match error.kind() {
            ErrorKind::NotFound => OpenError::NotFound,
            ErrorKind::PermissionDenied => OpenError::PermissionDenied,
            ErrorKind::IsADirectory => OpenError::IsADirectory,
            _ => OpenError::Refused,
        }
    }
}

impl From<AllocError> for OpenError {
    fn from(_: AllocError) -> Self {
        OpenError::Memory
    }
}

impl From<DeviceError> for OpenError {
    fn from(_: DeviceError) -> Self {
        OpenError::Refused
    }
}

/// Opens the file at `path` for reading and writing, as a device. With `create` an empty one is made where
/// there is none, and its folder is synced, so that a stop doesn't take the file away.
///
/// It is locked before a byte of it is read, right after it was made, and until it is closed: no other lock
/// of it is given meanwhile (docs/STOPS.md, "The lock"). `InUse` comes too where the path no longer leads to the
/// file that was locked: who held it has removed it, or given its path to another. So of those that open one path
/// in turn just one holds the file that lies there. No byte of it is changed. **Its number is none of a
/// standard stream's**, so that nothing that is written to one goes to it.
pub fn open_file<R: Files<File = File>>(
    rt: &R,
    path: &str,
    create: bool,
) -> Result<FileDevice<HostFile<File>>, OpenError>
    ensures no_fault { IfOk result (λ d. ⟦<FileDevice<HostFile<File>> as BlockDevice>⟧.faults d ≡ 0) }
    ensures number { IfOk result (λ d. IsOwnNumber (number_of (file_of d))) }
{
    let file = if create {
        made(rt, path)?
    } else {
        opened(rt, path, OpenOptions::new().read(true).write(true))?
    };
    check_path(rt, path, &file)?;
    Ok(FileDevice::over(HostFile::of(file))?)
}

/// Opens the file at `path` as `open_file` does, beside others: its lock is shared, and given with the device.
///
/// The lock of a file that has several names is held alone for the whole session, since its journal is known by
/// one of them only. `InUse` comes where another program holds the lock alone, asked many times, or holds a lock
/// of a file that has several names. The numbers of both are none of a standard stream's.
pub fn open_shared<R: Files<File = File>>(
    rt: &R,
    path: &str,
    create: bool,
) -> Result<(FileDevice<HostFile<File>>, FileLock), OpenError>
    ensures no_fault { IfOk result (λ r. ⟦<FileDevice<HostFile<File>> as BlockDevice>⟧.faults r.0 ≡ 0) }
    ensures number { IfOk result (λ r. IsOwnNumber (number_of (file_of r.0))) }
    ensures lock_number { IfOk result (λ r. IsOwnNumber (number_locked r.1)) }
{
    let (file, lock) = if create {
        made_shared(rt, path)?
    } else {
        opened_shared(rt, path, OpenOptions::new().read(true).write(true))?
    };
    Ok((FileDevice::over(HostFile::of(file))?, lock))
}

/// Opens the file at `path` for reading alone, which may lack the right to be written.
///
/// Its lock is shared before a byte of it is read and until it is closed: any number of readers hold it, and
/// writers beside them (docs/STOPS.md, "The lock"). `InUse` comes where another program holds it alone, asked
/// many times: a writer does so for the time of a copying. Its number is none of a standard stream's.
pub fn open_reader<R: Files<File = File>>(
    rt: &R,
    path: &str,
) -> Result<FileReader<HostReader>, OpenError>
    ensures number { IfOk result (λ r. IsOwnNumber (number_read r)) }
{
    let file = opened_to_read(rt, path)?;
    share_lock(&file)?;
    Ok(FileReader::over(HostReader::of(file))?)
}

/// Opens the file at `path` for reading alone, without a lock: one that lies beside a file whose lock is held, as
/// its journal does. None where there is none. Its number is none of a standard stream's.
pub fn open_beside<R: Files<File = File>>(
    rt: &R,
    path: &str,
) -> Result<Option<FileReader<HostReader>>, OpenError>
    ensures number { IfOk result (λ r. IfSome r (λ j. IsOwnNumber (number_read j))) }
{
    match opened_to_read(rt, path) {
        Ok(file) => Ok(Some(FileReader::over(HostReader::of(file))?)),
        Err(OpenError::NotFound) => Ok(None),
        Err(error) => Err(error),
    }
}

impl FileReader<HostReader> {
    /// Another handle of the same open file, which shares its lock, with as many blocks as the file has now. Its
    /// number is none of a standard stream's.
    pub fn another_handle(&self) -> Result<FileReader<HostReader>, OpenError>
        ensures { IfOk result (λ r. IsOwnNumber (number_read r)) }
    {
        let Ok(file) = self.file().file().try_clone() else {
            return Err(OpenError::Refused);
        };
        check_number(&file)?;
        Ok(FileReader::over(HostReader::of(file))?)
    }
}

// Made and locked: an empty file where there is none, and in either case its folder is synced. The folder is
// opened first: where it can't be, or would take the number of a standard stream, no file is made.
fn made<R: Files<File = File>>(rt: &R, path: &str) -> Result<File, OpenError>
    ensures { IfOk result (λ f. IsOwnNumber (file_raw_fd f)) }
{
    let folder = opened_folder(rt, path)?;
    let file = opened(
        rt,
        path,
        OpenOptions::new().read(true).write(true).create(true),
    )?;
    sync_folder(&folder)?;
    Ok(file)
}

// The same with a lock that is shared.
fn made_shared<R: Files<File = File>>(rt: &R, path: &str) -> Result<(File, FileLock), OpenError>
    ensures file { IfOk result (λ r. IsOwnNumber (file_raw_fd r.0)) }
    ensures lock { IfOk result (λ r. IsOwnNumber (number_locked r.1)) }
{
    let folder = opened_folder(rt, path)?;
    let both = opened_shared(
        rt,
        path,
        OpenOptions::new().read(true).write(true).create(true),
    )?;
    sync_folder(&folder)?;
    Ok(both)
}

// The folder of a path, with a number that is none of a standard stream's.
fn opened_folder<R: Files<File = File>>(rt: &R, path: &str) -> Result<File, OpenError> {
    let folder = match File::open(rt, folder_of(path)) {
        Ok(folder) => folder,
        Err(error) => return Err(OpenError::of_system(&error)),
    };
    check_number(&folder)?;
    Ok(folder)
}

// Syncs a folder, so that a stop doesn't take away what was made in it.
fn sync_folder(folder: &File) -> Result<(), OpenError> {
    match folder.sync_all() {
        Ok(()) => Ok(()),
        Err(_) => Err(OpenError::Refused),
    }
}

// Opened, and locked alone.
pub(crate) fn opened<R: Files<File = File>>(
    rt: &R,
    path: &str,
    how: &OpenOptions,
) -> Result<File, OpenError>
    ensures { IfOk result (λ f. IsOwnNumber (file_raw_fd f)) }
{
    let file = regular(rt, path, how)?;
    locked(file.try_lock())?;
    Ok(file)
}

// Opened, with a lock that is shared.
fn opened_shared<R: Files<File = File>>(
    rt: &R,
    path: &str,
    how: &OpenOptions,
) -> Result<(File, FileLock), OpenError>
    ensures file { IfOk result (λ r. IsOwnNumber (file_raw_fd r.0)) }
    ensures lock { IfOk result (λ r. IsOwnNumber (number_locked r.1)) }
{
    let file = regular(rt, path, how)?;
    let lock = FileLock::of(&file)?;
    Ok((file, lock))
}

// Opened for reading alone. A pipe is not opened: the system waits for its writer.
fn opened_to_read<R: Files<File = File>>(rt: &R, path: &str) -> Result<File, OpenError>
    ensures { IfOk result (λ f. IsOwnNumber (file_raw_fd f)) }
{
    match fs::metadata(rt, path) {
        Ok(found) => check_regular(&found)?,
        Err(error) => return Err(OpenError::of_system(&error)),
    }
    regular(rt, path, OpenOptions::new().read(true))
}

// Refuses an open file that a path no longer leads to.
fn check_path<R: Files<File = File>>(rt: &R, path: &str, file: &File) -> Result<(), OpenError> {
    let found = match fs::metadata(rt, path) {
        Ok(found) => found,
        Err(error) if error.kind() == ErrorKind::NotFound => return Err(OpenError::InUse),
        Err(error) => return Err(OpenError::of_system(&error)),
    };
    match file.metadata() {
        Ok(own) if are_same_file(&found, &own) => Ok(()),
        Ok(_) => Err(OpenError::InUse),
        Err(error) => Err(OpenError::of_system(&error)),
    }
}

// Whether both are of one file, by the numbers that the system has for it.
pub(crate) fn are_same_file(one: &Metadata, other: &Metadata) -> bool {
    one.dev() == other.dev() && one.ino() == other.ino()
}

// Opened, and no folder, pipe or machine.
fn regular<R: Files<File = File>>(rt: &R, path: &str, how: &OpenOptions) -> Result<File, OpenError>
    ensures { IfOk result (λ f. IsOwnNumber (file_raw_fd f)) }
{
    let file = match how.open(rt, path) {
        Ok(file) => file,
        Err(error) => return Err(OpenError::of_system(&error)),
    };
    check_number(&file)?;
    match file.metadata() {
        Ok(found) => check_regular(&found)?,
        Err(error) => return Err(OpenError::of_system(&error)),
    }
    Ok(file)
}

// Refuses what is no regular file.
fn check_regular(found: &Metadata) -> Result<(), OpenError> {
    if found.is_dir() {
        return Err(OpenError::IsADirectory);
    }
    if !found.is_file() {
        return Err(OpenError::Refused);
    }
    Ok(())
}

// Refuses a file that has the number of a standard stream.
pub(crate) fn check_number(file: &File) -> Result<(), OpenError>
    ensures own { OnOk result (IsOwnNumber (file_raw_fd file.now)) }
    ensures taken { OnErr result (IsOwnNumber (file_raw_fd file.now) → ⊥) }
{
    if file.as_raw_fd() < 3 {
        return Err(OpenError::ClosedStream);
    }
    Ok(())
}

// Shares the lock of a file, and asks for it many times where it is refused.
pub(crate) fn share_lock(file: &File) -> Result<(), OpenError> {
    for _ in 1..MOST_ASKS {
        match locked(file.try_lock_shared()) {
            Err(OpenError::InUse) => {}
            answer => return answer,
        }
    }
    locked(file.try_lock_shared())
}

// What the system answers to the asking for a lock.
pub(crate) fn locked(answer: Result<(), TryLockError>) -> Result<(), OpenError> {
    match answer {
        Ok(()) => Ok(()),
        Err(TryLockError::WouldBlock) => Err(OpenError::InUse),
        Err(TryLockError::Error(_)) => Err(OpenError::NoLocks),
    }
}

// The folder that a path names a file in.
pub(crate) fn folder_of(path: &str) -> &str {
    match path.rsplit_once('/') {
        Some(("", _)) => "/",
        Some((folder, _)) => folder,
        None => ".",
    }
}
