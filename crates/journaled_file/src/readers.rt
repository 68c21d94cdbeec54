//! Who reads a file beside its writer, by the file's lock.

use file_device::FileLock;
use journaled_device::Readers;

/// The readers of a file, each of which shares its lock. That the system keeps who asks for the lock alone from it
/// while another shares it is a premise on the system, and nothing is claimed of it here.
#[derive(Drop)]
pub struct FileReaders {
    lock: FileLock,
}

impl FileReaders {
    /// Those of the file that has this lock.
    pub fn of(lock: FileLock) -> FileReaders {
        FileReaders { lock }
    }

    /// Whether the file has so many blocks now: no other run has written it since that was told.
    pub(crate) fn has_blocks(&self, count: u32) -> bool {
        self.lock.has_blocks(count)
    }
}

impl Readers for FileReaders {
    ghost somebody_reads = { λ _. ⊥ };

    fn shut_out(&mut self) -> bool {
        self.lock.take_alone()
    }

    fn let_in(&mut self) {
        self.lock.share();
    }
}
