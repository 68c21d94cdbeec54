//! Steps taken on new files and on those on a device, and the blocks of a device.
use crate::files::steps::Step::{Allocate, Free, Write};
use crate::files::steps::{Answer, DONE, Steps, play};
use block_device::{BlockDevice, MemoryDevice};
use page_file::{Fault, PageFile, Version, create_pages, open_pages};
use std::alloc::Global;

/// What is to become of a file once its steps are taken.
#[derive(Clone, Copy, Debug, PartialEq, Eq)]
pub enum End {
    Closed,
    /// Its device is taken as it is.
    Abandoned,
}

/// The first step of another answer, by its place, and its answer. A file that is not opened answers the
/// first step, and one that is not closed a step behind the last.
pub type Other = Option<(usize, Answer)>;

// Takes the steps on a file, and answers its device.
fn played<D: BlockDevice>(file: PageFile<D>, alloc: Global, steps: Steps, end: End) -> (D, Other) {
    let mut file = file;
    let other = play(&mut file, alloc, steps);
    if other.is_some() || end == End::Abandoned {
        return (file.abandon(), other);
    }
    match file.close() {
        Ok(device) => (device, None),
        Err((fault, device)) => (device, Some((steps.len(), Err(fault)))),
    }
}

/// Takes the steps on the file on a device.
pub fn reopened<D: BlockDevice>(device: D, alloc: Global, steps: Steps, end: End) -> (D, Other) {
    match open_pages(device, Version::Three) {
        Ok(file) => played(file, alloc, steps, end),
        Err((fault, device)) => (device, Some((0, Err(fault)))),
    }
}

/// Takes the steps on a new file.
pub fn created(alloc: Global, steps: Steps, end: End) -> (MemoryDevice, Other) {
    match create_pages(MemoryDevice::new(alloc)) {
        Ok(file) => played(file, alloc, steps, end),
        Err((fault, device)) => (device, Some((0, Err(fault)))),
    }
}

/// Page 3 is given out and filled with sevens, and page 4 is free.
pub const FREED: Steps = &[
    (Allocate, Ok(3)),
    (Allocate, Ok(4)),
    (Write(3, 7), DONE),
    (Free(4), DONE),
];

/// The device of such a file.
pub fn freed(alloc: Global) -> Result<MemoryDevice, Fault> {
    match created(alloc, FREED, End::Closed) {
        (device, None) => Ok(device),
        (_, Some((_, Ok(_)))) => Err(Fault::NoPages),
        (_, Some((_, Err(fault)))) => Err(fault),
    }
}

// The bytes of a block.
fn block_of<D: BlockDevice>(device: &mut D, i: u32) -> Result<[u8; 4096], Fault> {
    let mut block = [0; 4096];
    if i >= device.blocks() {
        return Err(Fault::Damaged(i));
    }
    device.read(i, &mut block)?;
    Ok(block)
}

/// Whether a block begins so.
pub fn begins<D: BlockDevice>(device: &mut D, i: u32, bytes: &[u8]) -> bool {
    let Ok(block) = block_of(device, i) else {
        return false;
    };
    block.starts_with(bytes)
}
