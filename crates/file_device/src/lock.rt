//! The lock of a file that is shared for a session, and held alone for a part of it.
ghost use Rattle.std.specs.Prelude.{◌≡◌, true, IfOk};
ghost use Rattle.file_device.specs.Number.{IsOwnNumber};
ghost use Rattle.file_device.specs.Lock.{is_kept_alone, number_locked};

use crate::OpenError;
use crate::device::BLOCK;
use crate::open::{check_number, locked, share_lock};
use std::fs::File;
use std::os::unix::fs::MetadataExt;

/// The lock of a file that `open_shared` opened, which lasts until this and the device are closed.
///
/// It is shared, and may be taken alone for a time. Of a file that has several names it is held alone for the
/// whole session, since others know its journal by another name.
#[derive(Drop)]
pub struct FileLock {
    // the open file of the device, to which the lock belongs
    file: File,
    // whether it is held alone for the whole session
    alone: bool,
}

impl FileLock {
    // Takes the lock of an open file.
    pub(crate) fn of(file: &File) -> Result<FileLock, OpenError>
        ensures { IfOk result (λ l. IsOwnNumber (number_locked l)) }
    {
        let Ok(handle) = file.try_clone() else {
            return Err(OpenError::Refused);
        };
        check_number(&handle)?;
        share_lock(&handle)?;
        let alone = has_several_names(&handle)?;
        if alone {
            locked(handle.try_lock())?;
        }
        Ok(FileLock {
            file: handle,
            alone,
        })
    }

    /// Asks for the lock alone, without waiting, and tells whether it is held alone now. Where it is refused, it
    /// is shared as before, but for the instant of the asking.
    pub fn take_alone(&self) -> bool
        ensures { is_kept_alone self.now ≡ true → result ≡ true }
    {
        if self.alone {
            return true;
        }
        if self.file.try_lock().is_ok() {
            return true;
        }
        self.share();
        false
    }

    /// Whether the file has so many blocks now. A last block that is cut short counts.
    pub fn has_blocks(&self, count: u32) -> bool {
        match self.file.metadata() {
            Ok(found) => found.len().div_ceil(BLOCK) == u64::from(count),
            Err(_) => false,
        }
    }

    /// Shares the lock again. One that is held alone for the whole session stays so.
    pub fn share(&self) {
        if !self.alone {
            let _ = share_lock(&self.file); // who takes it alone lets go of it again
        }
    }
}

// Whether the file has more names than one.
fn has_several_names(file: &File) -> Result<bool, OpenError> {
    match file.metadata() {
        Ok(found) => Ok(found.nlink() > 1),
        Err(_) => Err(OpenError::Refused),
    }
}
