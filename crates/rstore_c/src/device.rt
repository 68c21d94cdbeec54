//! The device that a store of the library lies on.

mod calls;

use crate::files::StreamReaders;
use device_pair::TwoDevices;
use file_device::{FileDevice, OpenError};
use journaled_file::{JournaledOver, open_over};
use std::alloc::Global;
use std::rt::{Stdin, Stdout};
use stream_file::StreamFile;

/// A file or its journal, by streams that C serves.
pub type ByStreams = FileDevice<StreamFile<Stdin, Stdout>>;

/// A file with its journal, as a device.
pub type WithJournal = JournaledOver<TwoDevices<ByStreams, ByStreams>, Global, StreamReaders>;

/// The same under a name of its own, and no more. What is proved above it speaks of this name, and not of the nest of
/// all types below, with which each proof takes several times as long.
#[derive(Drop)]
pub struct LibraryDevice {
    /// The file with its journal.
    pub below: WithJournal,
}

impl LibraryDevice {
    /// The device of a file with its journal, whose readers are known so. With `each_home` a commit is in the file once
    /// it is answered, and not in its journal.
    pub fn over(
        alloc: Global,
        pair: TwoDevices<ByStreams, ByStreams>,
        readers: StreamReaders,
        each_home: bool,
    ) -> Result<LibraryDevice, OpenError> {
        match open_over(pair, alloc, readers, each_home) {
            Ok(below) => Ok(LibraryDevice { below }),
            Err((error, _)) => Err(error),
        }
    }
}
