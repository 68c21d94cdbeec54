//! Stops that leave block by block: each block that was not synced as it was at the sync, as written, or full
//! of a byte.
ghost use Rattle.std.specs.Prelude.{◌<◌, ◌-◌, ◌^◌};

use crate::session::{ALL, stopped};
use crate::stops::gives_a_commit;
use block_device::{DeviceError, Left};
use device_pair::{DevicePair, MemoryPair};
use std::alloc::Global;

// What a choice makes of a block that was not synced: as it was then, as it was written, or full of a byte.
fn chosen(choice: u32, synced: &[u8; 4096], written: &[u8; 4096]) -> [u8; 4096] {
    match choice % 3 {
        0 => *synced,
        1 => *written,
        _ => [0xEE; 4096],
    }
}

// Writes into the base of `left` what the choices make of its unsynced blocks. Gives the choices that are
// left over.
fn mix_base<P: DevicePair>(
    left: &mut P,
    written: &mut P,
    choices: u32,
) -> Result<u32, DeviceError> {
    let mut choices = choices;
    let mut was = [0; 4096];
    let mut is = [0; 4096];
    for i in 0..written.base_blocks() {
        if i >= written.base_blocks() || i > left.base_blocks() || i >= 1 << 31 {
            return Err(DeviceError::Failed);
        }
        written.read_base(i, &mut is)?;
        if i == left.base_blocks() {
            if choices % 3 == 0 {
                break;
            }
        } else {
            left.read_base(i, &mut was)?;
            if was == is {
                continue;
            }
        }
        if i <= left.base_blocks() {
            left.write_base(i, &chosen(choices, &was, &is))?;
        }
        choices /= 3;
    }
    left.sync_base()?;
    Ok(choices)
}

// The same of the journal.
fn mix_journal<P: DevicePair>(
    left: &mut P,
    written: &mut P,
    choices: u32,
) -> Result<u32, DeviceError> {
    let mut choices = choices;
    let mut was = [0; 4096];
    let mut is = [0; 4096];
    for i in 0..written.journal_blocks() {
        if i >= written.journal_blocks() || i > left.journal_blocks() || i >= 1 << 31 {
            return Err(DeviceError::Failed);
        }
        written.read_journal(i, &mut is)?;
        if i == left.journal_blocks() {
            if choices % 3 == 0 {
                break;
            }
        } else {
            left.read_journal(i, &mut was)?;
            if was == is {
                continue;
            }
        }
        if i <= left.journal_blocks() {
            left.write_journal(i, &chosen(choices, &was, &is))?;
        }
        choices /= 3;
    }
    left.sync_journal()?;
    Ok(choices)
}

// The pair that a stop leaves after so many calls by these choices, and the commits that were begun and
// ended.
fn left_by(alloc: Global, passes: u64, choices: u32) -> Result<(MemoryPair, u32, u32), DeviceError>
    requires { passes < 2 ^ 64 - 1 }
{
    let (pair, begun, ended, _) = stopped(alloc, passes);
    let mut left = pair.after_stop(Left::Synced, Left::Synced);
    let (pair, _, _, _) = stopped(alloc, passes);
    let mut written = pair.after_stop(Left::Written, Left::Written);
    let choices = mix_journal(&mut left, &mut written, choices)?;
    mix_base(&mut left, &mut written, choices)?;
    Ok((left, begun, ended))
}

#[test]
fn a_stop_that_leaves_block_by_block_leaves_a_commit(rt: HostRuntime) {
    let alloc = rt.alloc();
    let (_, _, _, done) = stopped(alloc, ALL);
    assert!(rt; done);
    for passes in 0..100u64 {
        for choices in 0..27u32 {
            match left_by(alloc, passes, choices) {
                Ok((left, begun, ended)) => {
                    assert!(rt;
                        gives_a_commit(alloc, left, begun, ended),
                        "{choices} after {passes} calls"
                    );
                }
                Err(_) => panic!(rt; "a call failed"),
            }
        }
        let (_, _, _, done) = stopped(alloc, passes);
        if done {
            break;
        }
    }
}
