//! Many blocks changed in a scattered order, and growths of the index of changed blocks refused.
ghost use Rattle.std.specs.Prelude.{◌<◌};

use crate::session::block;
use block_bytes::write_u32;
use block_device::{BlockDevice, DeviceError, Left};
use device_pair::{DevicePair, MemoryPair};
use journaled_device::{JournaledDevice, Nobody};
use refusing::Refusing;
use std::alloc::{Allocator, Global};
use std::test::Fail;

const MANY: u32 = 3000;

const FEW: u32 = 40;

// Block i as it is written in a round. Each but the first two has its number.
fn page(i: u32, round: u8) -> [u8; 4096] {
    let mut bytes = block(i, round, true);
    if i > 1 {
        write_u32(&mut bytes, 100, i);
    }
    bytes
}

// Number k of so many blocks in a scattered order.
fn scattered(k: u32, count: u32) -> u32
    requires { 0 < count }
    ensures { result < count }
{
    k.wrapping_mul(1013) % count
}

fn put<D: BlockDevice>(device: &mut D, i: u32, round: u8) -> Result<(), DeviceError> {
    if i > device.blocks() || i >= 1 << 31 {
        return Err(DeviceError::Failed);
    }
    device.write(i, &page(i, round))
}

// Changes so many blocks in a scattered order.
fn put_all<D: BlockDevice>(device: &mut D, count: u32, round: u8) -> Result<(), DeviceError> {
    for k in 0..count {
        put(device, scattered(k, count), round)?;
    }
    Ok(())
}

// A device of so many blocks, committed as they are written in round 1.
fn made<A: Allocator + Copy>(
    alloc: Global,
    index: A,
    count: u32,
) -> Result<JournaledDevice<MemoryPair, A>, DeviceError> {
    let mut device = match JournaledDevice::open(MemoryPair::new(alloc), index, Nobody, false) {
        Ok(device) => device,
        Err(_) => return Err(DeviceError::Failed),
    };
    for i in 0..count {
        put(&mut device, i, 1)?;
    }
    device.sync()?;
    Ok(device)
}

// Whether block i is read as it is written in a round.
fn is_of<D: BlockDevice>(device: &mut D, i: u32, round: u8) -> bool {
    let mut into = [0; 4096];
    i < device.blocks() && device.read(i, &mut into).is_ok() && into == page(i, round)
}

// Whether so many blocks are read as they are written in a round.
fn all_are<D: BlockDevice>(device: &mut D, count: u32, round: u8) -> bool {
    for i in 0..count {
        if !is_of(device, i, round) {
            return false;
        }
    }
    true
}

// The same of the base of a pair.
fn base_is<P: DevicePair>(pair: &mut P, count: u32, round: u8) -> bool {
    let mut into = [0; 4096];
    for i in 0..count {
        if i >= pair.base_blocks()
            || pair.read_base(i, &mut into).is_err()
            || into != page(i, round)
        {
            return false;
        }
    }
    true
}

#[test]
fn many_changed_blocks_are_found(rt: HostRuntime) {
    let alloc = rt.alloc();
    let Ok(mut device) = made(alloc, alloc, MANY) else {
        panic!(rt; "the device was not made");
    };
    for round in 2..4u8 {
        assert!(rt; put_all(&mut device, MANY, round).is_ok());
        assert!(rt; all_are(&mut device, MANY, round), "round {round}");
    }
    assert!(rt; device.sync().is_ok());
    assert!(rt; all_are(&mut device, MANY, 3));
    let left = device.into_parts().0.after_stop(Left::Synced, Left::Synced);
    let Ok(mut device) = JournaledDevice::open(left, alloc, Nobody, false) else {
        panic!(rt; "the device was not opened");
    };
    assert!(rt; device.bring_home().is_ok());
    let mut left = device.into_parts().0.after_stop(Left::Synced, Left::Synced);
    assert!(rt; base_is(&mut left, MANY, 3));
}

// Whether each of a few blocks is read as it is written in its round.
fn each_is<D: BlockDevice>(device: &mut D, rounds: &[u8; FEW as usize]) -> bool {
    for i in 0..FEW {
        if !is_of(device, i, rounds[i as usize]) {
            return false;
        }
    }
    true
}

// Changes each of a few blocks, and commits. A call that is refused has to say so and to change nothing, and is
// tried again where memory is there. Tells whether one was refused, or answers None.
fn changes<D: BlockDevice>(device: &mut D, heap: &Refusing<Global>) -> Option<bool> {
    let mut rounds = [1; FEW as usize];
    let mut refused = false;
    for k in 0..FEW {
        let i = scattered(k, FEW);
        if let Err(fault) = put(device, i, 2) {
            if fault != DeviceError::Memory || !heap.relent() || !each_is(device, &rounds) {
                return None;
            }
            refused = true;
            put(device, i, 2).ok()?;
        }
        rounds[i as usize] = 2;
    }
    if let Err(fault) = device.sync() {
        if fault != DeviceError::Memory || !heap.relent() || !each_is(device, &rounds) {
            return None;
        }
        refused = true;
        device.sync().ok()?;
    }
    if !each_is(device, &rounds) {
        return None;
    }
    Some(refused)
}

#[test]
fn a_refused_growth_changes_nothing(rt: HostRuntime) -> Result<(), Fail> {
    let mut refused = true;
    for from in 0..1000u32 {
        let heap = Refusing::new(rt.alloc());
        let Ok(mut device) = made(rt.alloc(), &heap, FEW) else {
            panic!(rt; "the device was not made");
        };
        heap.refuse_from(from);
        match changes(&mut device, &heap) {
            None => panic!(rt; "growth {from} of the index"),
            Some(again) => refused = again,
        }
        assert!(rt; all_are(&mut device, FEW, 2));
        if !refused {
            assert!(rt; from > 20);
            break;
        }
    }
    assert!(rt; !refused);
    Ok(())
}
