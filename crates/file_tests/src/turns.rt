//! What is done with a file of the system as data: turns with what they are to come to, and what
//! plays them.
use crate::steps::{Steps, first_other};
use block_device::BlockDevice;
use file_device::{OpenError, open_file, open_reader, open_shared};
use read_only_device::{BlockReader, ReadOnlyDevice};
use std::fs;

/// How a file is opened.
#[derive(Clone, Copy, Debug, PartialEq)]
pub enum How {
    /// For reading and writing, and made where there is none.
    Made,
    /// For reading and writing.
    Changed,
    /// So, beside others.
    Shared,
    /// For reading alone.
    Read,
}

/// How many blocks a file has that is opened, or why it is not.
pub type Opened = Result<u32, OpenError>;

/// What is done while a file is open.
#[derive(Clone, Copy)]
pub enum Turn {
    /// Takes these steps of its device.
    Steps(Steps),
    /// Opens it once more, which comes to this, and closes it again.
    Opening(How, Opened),
    /// It has so many bytes, or there is none by its path.
    Length(Option<u64>),
}

/// A file that is opened, what is done until it is closed, and what that shows.
pub struct Part {
    pub about: &'static str,
    pub path: &'static str,
    pub how: How,
    pub turns: &'static [Turn],
}

/// Opens a file and closes it again.
pub fn opening(rt: &HostRuntime, path: &str, how: How) -> Opened {
    match how {
        How::Read => match open_reader(rt, path) {
            Ok(reader) => Ok(reader.blocks()),
            Err(error) => Err(error),
        },
        How::Shared => match open_shared(rt, path, false) {
            Ok((device, _)) => Ok(device.blocks()),
            Err(error) => Err(error),
        },
        _ => match open_file(rt, path, how == How::Made) {
            Ok(device) => Ok(device.blocks()),
            Err(error) => Err(error),
        },
    }
}

/// Opens the file of a part, takes its turns, up to the first one that comes to something else, and
/// closes the file: the place of that turn, or why the file was not opened.
pub fn played(rt: &HostRuntime, part: &Part) -> Result<Option<usize>, OpenError> {
    match part.how {
        How::Read => read(rt, part),
        How::Shared => shared(rt, part),
        _ => changed(rt, part),
    }
}

// The same of a file that is only read.
fn read(rt: &HostRuntime, part: &Part) -> Result<Option<usize>, OpenError> {
    let reader = open_reader(rt, part.path)?;
    let mut device = ReadOnlyDevice::over(&reader);
    Ok(first_other_turn(rt, part.path, &mut device, part.turns))
}

// The same of a file that may be written.
fn changed(rt: &HostRuntime, part: &Part) -> Result<Option<usize>, OpenError> {
    let mut device = open_file(rt, part.path, part.how == How::Made)?;
    Ok(first_other_turn(rt, part.path, &mut device, part.turns))
}

// The same of one that may be written beside others.
fn shared(rt: &HostRuntime, part: &Part) -> Result<Option<usize>, OpenError> {
    let (mut device, lock) = open_shared(rt, part.path, false)?;
    let other = first_other_turn(rt, part.path, &mut device, part.turns);
    drop(lock);
    Ok(other)
}

// Takes turns, up to the first one that comes to something else.
fn first_other_turn<D: BlockDevice>(
    rt: &HostRuntime,
    path: &str,
    device: &mut D,
    turns: &[Turn],
) -> Option<usize> {
    for (place, &turn) in turns.iter().enumerate() {
        if !comes_to_that(rt, path, device, turn) {
            return Some(place);
        }
    }
    None
}

// Takes a turn.
fn comes_to_that<D: BlockDevice>(rt: &HostRuntime, path: &str, device: &mut D, turn: Turn) -> bool {
    match turn {
        Turn::Steps(steps) => first_other(device, steps).is_none(),
        Turn::Opening(how, want) => opening(rt, path, how) == want,
        Turn::Length(want) => length_of(rt, path) == want,
    }
}

/// How many bytes a file has, if there is one.
pub fn length_of(rt: &HostRuntime, path: &str) -> Option<u64> {
    match fs::metadata(rt, path) {
        Ok(found) => Some(found.len()),
        Err(_) => None,
    }
}
