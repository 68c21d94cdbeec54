//! Tests of what no clause says: that calls succeed, and worked cases of a stop and of a fuse.
ghost use Rattle.std.specs.Prelude.{◌≡◌, ◌≤◌, ◌<◌, length};

use block_device::{BlockDevice, DeviceError, FuseDevice, FuseMode, Left, MemoryDevice};
use refusing::Refusing;
use std::alloc::Global;

// The byte of which block i is full, and None where a call fails or there is no such block.
fn byte_of<D: BlockDevice>(device: &mut D, i: u32) -> Option<u8> {
    if i >= device.blocks() {
        return None;
    }
    let mut into = [0; 4096];
    device.read(i, &mut into).ok()?;
    if into == [into[0]; 4096] {
        Some(into[0])
    } else {
        None
    }
}

// Fills block i with a byte, where that is at most one block more.
fn put<D: BlockDevice>(device: &mut D, i: u32, byte: u8) -> Result<(), DeviceError> {
    if i > device.blocks() || i >= 1 << 31 {
        return Err(DeviceError::Failed);
    }
    device.write(i, &[byte; 4096])
}

// Two blocks that are synced, and then the second one again and a third.
fn scene(alloc: Global) -> Result<MemoryDevice, DeviceError> {
    let mut device = MemoryDevice::new(alloc);
    put(&mut device, 0, 1)?;
    put(&mut device, 1, 2)?;
    device.sync()?;
    put(&mut device, 1, 3)?;
    put(&mut device, 2, 4)?;
    put(&mut device, 1, 5)?;
    Ok(device)
}

#[test]
fn a_device_gives_what_was_written(rt: HostRuntime) {
    let mut device = MemoryDevice::new(rt.alloc());
    assert_eq!(rt; device.blocks(), 0);
    assert_eq!(rt; device.sync(), Ok(()));
    let mut last = [7; 4096];
    last[4095] = 8;
    assert_eq!(rt; put(&mut device, 0, 1), Ok(()));
    assert_eq!(rt; put(&mut device, 1, 2), Ok(()));
    assert_eq!(rt; device.blocks(), 2);
    assert_eq!(rt; device.write(1, &last), Ok(()));
    assert_eq!(rt; device.sync(), Ok(()));
    assert_eq!(rt; device.writes(), 3);
    assert_eq!(rt; byte_of(&mut device, 0), Some(1));
    assert_eq!(rt; byte_of(&mut device, 2), None);
    assert_eq!(rt; device.blocks(), 2);
    let mut into = [0; 4096];
    assert_eq!(rt; device.read(1, &mut into), Ok(()));
    assert!(rt; into == last);
}

#[test]
fn a_refused_growth_leaves_the_blocks_as_they_were(rt: HostRuntime) {
    let heap = Refusing::new(rt.alloc());
    let mut device = MemoryDevice::new(&heap);
    assert_eq!(rt; put(&mut device, 0, 1), Ok(()));
    assert_eq!(rt; device.sync(), Ok(()));
    // What grows is an append, also of zeros, of which nothing is written, and the first write of a block since
    // the sync.
    for (block, byte) in [
        (1, 2),
        (0, 3),
        (2, 0),
        (3, 0),
        (4, 0),
        (5, 0),
        (6, 0),
        (7, 0),
        (8, 0),
        (9, 4),
    ] {
        let blocks = device.blocks();
        let writes = device.writes();
        let first = byte_of(&mut device, 0);
        for k in 0..100 {
            heap.refuse_from(k);
            let answer = put(&mut device, block, byte);
            if !heap.relent() {
                assert_eq!(rt; answer, Ok(()));
                break;
            }
            assert_eq!(rt; answer, Err(DeviceError::Memory));
            assert_eq!(rt; device.blocks(), blocks);
            assert_eq!(rt; device.writes(), writes);
            assert_eq!(rt; byte_of(&mut device, 0), first);
        }
        assert_eq!(rt; byte_of(&mut device, block), Some(byte));
    }
    // behind zeros, and among them
    assert_eq!(rt; put(&mut device, 5, 6), Ok(()));
    assert_eq!(rt; byte_of(&mut device, 4), Some(0));
    assert_eq!(rt; byte_of(&mut device, 5), Some(6));
    assert_eq!(rt; byte_of(&mut device, 8), Some(0));
}

#[test]
fn a_stop_leaves_what_it_is_told(rt: HostRuntime) {
    let table = [
        (Left::Written, [Some(1), Some(5), Some(4), None]),
        (Left::Synced, [Some(1), Some(2), None, None]),
        (Left::Filled(9), [Some(1), Some(9), Some(9), None]),
    ];
    for (left, want) in table {
        let device = scene(rt.alloc()).expect(&rt, "memory");
        assert_eq!(rt; device.writes(), 5);
        let mut device = device.after_stop(left);
        assert_eq!(rt; device.writes(), 0);
        for (i, byte) in want.into_iter().enumerate() {
            assert_eq!(rt; byte_of(&mut device, i as u32), byte, "block {i}");
        }
        // nothing is unsynced, and the next writes are
        let mut device = device.after_stop(Left::Filled(7));
        assert_eq!(rt; byte_of(&mut device, 1), want[1]);
        assert_eq!(rt; put(&mut device, 0, 6), Ok(()));
        let mut device = device.after_stop(Left::Synced);
        assert_eq!(rt; byte_of(&mut device, 0), Some(1));
    }
}

#[test]
fn a_fuse_blows_at_its_call(rt: HostRuntime) {
    for (mode, third) in [
        (FuseMode::Once, Ok(())),
        (FuseMode::Onward, Err(DeviceError::Failed)),
    ] {
        let mut device = FuseDevice::new(MemoryDevice::new(rt.alloc()), 1, mode);
        assert_eq!(rt; put(&mut device, 0, 1), Ok(()));
        assert_eq!(rt; device.sync(), Err(DeviceError::Failed));
        assert_eq!(rt; put(&mut device, 0, 2), third);
        assert_eq!(rt; device.calls(), 3);
        assert_eq!(rt; device.blocks(), 1);
        let mut inner = device.into_inner();
        assert_eq!(rt; inner.writes(), if third.is_ok() { 2 } else { 1 });
        assert_eq!(rt;
            byte_of(&mut inner, 0),
            Some(if third.is_ok() { 2 } else { 1 })
        );
    }
}
