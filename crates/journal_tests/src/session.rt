//! A session of three commits, and what each of them leaves; behind the second one changes are given up.
ghost use Rattle.std.specs.Prelude.{◌<◌, ◌-◌, ◌^◌};

use block_bytes::{write_u8, write_u16, write_u32, write_u64};
use block_device::{BlockDevice, DeviceError, FuseMode};
use device_pair::{FusePair, MemoryPair};
use journaled_device::{GivesUp, JournaledDevice, Nobody};
use std::alloc::Global;

/// More calls than a session makes.
pub const ALL: u64 = 1 << 40;

// The ASCII texts RSTARGAT and RSTARHDR.
const GATE_TEXT: u64 = 0x5253_5441_5247_4154;

const HEADER_TEXT: u64 = 0x5253_5441_5248_4452;

/// Block i of a file of at least three blocks: a gate that is shut or not, a header in which nothing but the
/// catalog was given out, or a page. What is left of it is full of a byte.
pub fn block(i: u32, byte: u8, shut: bool) -> [u8; 4096] {
    let mut bytes = [byte; 4096];
    if i == 0 {
        write_u64(&mut bytes, 0, GATE_TEXT);
        write_u8(&mut bytes, 8, u8::from(shut));
    }
    if i == 1 {
        write_u64(&mut bytes, 0, HEADER_TEXT);
        write_u16(&mut bytes, 8, 2);
        write_u32(&mut bytes, 12, 3);
        write_u32(&mut bytes, 16, 0);
        write_u32(&mut bytes, 20, 0);
    }
    bytes
}

// Writes block i full of a byte, as a gate that is shut or not where it is block 0.
fn put<D: BlockDevice>(device: &mut D, i: u32, byte: u8, shut: bool) -> Result<(), DeviceError> {
    if i > device.blocks() || i >= 1 << 31 {
        return Err(DeviceError::Failed);
    }
    device.write(i, &block(i, byte, shut))
}

// Whether block i is full of a byte, and the gate shut where it is block 0.
fn is_full<D: BlockDevice>(device: &mut D, i: u32, byte: u8) -> bool {
    if i >= device.blocks() {
        return false;
    }
    let mut into = [0; 4096];
    if device.read(i, &mut into).is_err() {
        return false;
    }
    into == block(i, byte, true)
}

/// Whether the device's first blocks are full of these bytes.
pub fn begins<D: BlockDevice>(device: &mut D, bytes: &[u8]) -> bool {
    let mut i = 0;
    for byte in bytes {
        if !is_full(device, i, *byte) {
            return false;
        }
        i = i.saturating_add(1);
    }
    true
}

/// Makes three commits, and gives up what is changed behind the second. Counts those that were begun, and those
/// that were finished.
pub fn session<D: GivesUp>(
    device: &mut D,
    begun: &mut u32,
    ended: &mut u32,
) -> Result<(), DeviceError> {
    first(device)?;
    *begun = 1;
    device.sync()?;
    *ended = 1;
    second(device)?;
    *begun = 2;
    device.sync()?;
    *ended = 2;
    given_up(device)?;
    third(device)?;
    *begun = 3;
    device.sync()?;
    *ended = 3;
    put(device, 0, 40, false)?;
    put(device, 5, 45, true)
}

fn first<D: BlockDevice>(device: &mut D) -> Result<(), DeviceError> {
    put(device, 0, 10, false)?;
    device.sync()?;
    put(device, 1, 11, false)?;
    put(device, 2, 12, false)?;
    put(device, 1, 13, false)?;
    device.sync()?;
    put(device, 0, 10, true)
}

fn second<D: BlockDevice>(device: &mut D) -> Result<(), DeviceError> {
    put(device, 0, 19, false)?;
    device.sync()?;
    put(device, 1, 21, false)?;
    put(device, 3, 23, false)?;
    put(device, 1, 24, false)?;
    put(device, 4, 25, false)?;
    put(device, 3, 26, false)?;
    put(device, 0, 20, true)
}

// Changes that are given up, of blocks that were there and of such that are appended.
fn given_up<D: GivesUp>(device: &mut D) -> Result<(), DeviceError> {
    put(device, 0, 50, false)?;
    device.sync()?;
    put(device, 1, 51, false)?;
    put(device, 5, 55, false)?;
    put(device, 6, 56, false)?;
    device.give_up()?;
    put(device, 3, 53, false)?;
    device.give_up()?;
    if begins(device, committed(2)) {
        Ok(())
    } else {
        Err(DeviceError::Failed)
    }
}

fn third<D: BlockDevice>(device: &mut D) -> Result<(), DeviceError> {
    put(device, 0, 29, false)?;
    put(device, 4, 34, false)?;
    put(device, 2, 32, false)?;
    put(device, 0, 30, true)
}

/// What is committed after so many commits.
pub fn committed(n: u32) -> &'static [u8] {
    match n {
        0 => &[],
        1 => &[10, 13, 12],
        2 => &[20, 24, 12, 26, 25],
        _ => &[30, 24, 32, 26, 34],
    }
}

/// The pair that is left where the calls from number `passes` on fail, and how many commits were begun and
/// ended.
pub fn stopped(alloc: Global, passes: u64) -> (MemoryPair, u32, u32, bool)
    requires { passes < 2 ^ 64 - 1 }
{
    let mut begun = 0;
    let mut ended = 0;
    let pair = FusePair::new(MemoryPair::new(alloc), passes, FuseMode::Onward);
    match JournaledDevice::open(pair, alloc, Nobody, false) {
        Err((_, pair)) => (pair.into_inner(), 0, 0, false),
        Ok(device) => {
            let mut device = device;
            let done = session(&mut device, &mut begun, &mut ended).is_ok();
            (device.into_parts().0.into_inner(), begun, ended, done)
        }
    }
}
