//! Calls of a device as data: steps with the answers that they are to have, and what plays them.
use block_device::{BlockDevice, DeviceError};

/// A call of a device.
#[derive(Clone, Copy)]
pub enum Step {
    /// Answers how many blocks there are.
    Blocks,
    /// Fills the block of this number with this byte, or appends it.
    Write(u32, u8),
    /// Reads the block of this number, and answers the byte that it has throughout, or `MIXED`.
    Read(u32),
    /// Reads the block of this number, and answers the byte that it has so many times, where zeros
    /// follow, or `MIXED`.
    Begin(u32, usize),
    Sync,
}

/// What a step answers, 0 where its call answers nothing. `Memory`, which a device in a file does
/// not answer, says that there is no block of that number, or no place for it.
pub type Answer = Result<u32, DeviceError>;

/// The answer of a step whose call answers nothing.
pub const DONE: Answer = Ok(0);

/// The answer of a step whose call failed.
pub const FAILED: Answer = Err(DeviceError::Failed);

// In place of a byte, where a block has others.
const MIXED: u32 = 256;

/// Steps, each with the answer that it is to have.
pub type Steps = &'static [(Step, Answer)];

/// The first step that has another answer, if there is one: its place, and its answer.
pub type Other = Option<(usize, Answer)>;

/// Takes the steps, up to the first one that has another answer.
pub fn first_other<D: BlockDevice>(device: &mut D, steps: Steps) -> Other {
    for (place, &(step, want)) in steps.iter().enumerate() {
        let answer = take(device, step);
        if answer != want {
            return Some((place, answer));
        }
    }
    None
}

// Takes a step.
fn take<D: BlockDevice>(device: &mut D, step: Step) -> Answer {
    match step {
        Step::Blocks => Ok(device.blocks()),
        Step::Write(i, byte) => write(device, i, byte),
        Step::Read(i) => read(device, i, 4096),
        Step::Begin(i, count) => read(device, i, count),
        Step::Sync => match device.sync() {
            Ok(()) => DONE,
            Err(error) => Err(error),
        },
    }
}

// Fills a block with a byte, or appends it.
fn write<D: BlockDevice>(device: &mut D, i: u32, byte: u8) -> Answer {
    if i > device.blocks() || i >= 1 << 31 {
        return Err(DeviceError::Memory);
    }
    match device.write(i, &[byte; 4096]) {
        Ok(()) => DONE,
        Err(error) => Err(error),
    }
}

// The byte that a block has so many times, where zeros follow.
fn read<D: BlockDevice>(device: &mut D, i: u32, count: usize) -> Answer {
    let mut bytes = [9; 4096];
    if i >= device.blocks() {
        return Err(DeviceError::Memory);
    }
    match device.read(i, &mut bytes) {
        Ok(()) => Ok(byte_of(&bytes, count)),
        Err(error) => Err(error),
    }
}

// The byte that is there so many times, where zeros follow.
fn byte_of(bytes: &[u8; 4096], count: usize) -> u32 {
    let first = bytes[0];
    for (k, &byte) in bytes.iter().enumerate() {
        if byte != (if k < count { first } else { 0 }) {
            return MIXED;
        }
    }
    u32::from(first)
}
