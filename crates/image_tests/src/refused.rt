//! What no run of the program shows: how many blocks a refused command writes, and how many pages may be
//! cached.

use block_device::{BlockDevice, MemoryDevice};
use layer_store::{RawBox, Refusal};
use std::alloc::Global;
use std::test::Fail;
use store_commands::{Command, PLANE, answer, closed, device_of, new_store, opened};

// The root of the layer `a`, of one object.
const ROOT: u32 = 3;

// A command, why it is refused, and how many blocks are written by the closing: none, but for the gate, the
// header and the gate again in a change that met damage before it changed a page.
const REFUSED: [(Command, Refusal, u64); 5] = [
    (Command::Window(b"a", PLANE), Refusal::Damaged(ROOT), 0),
    (Command::Check, Refusal::Damaged(ROOT), 0),
    (Command::Get(b"a", 2), Refusal::NoObject, 0),
    (Command::Insert(b"a", 1, PLANE), Refusal::Duplicate, 0),
    (Command::Delete(b"a", 1), Refusal::Damaged(ROOT), 3),
];

// The closed device of a store of one object, whose root is no node.
fn damaged(alloc: Global) -> Result<MemoryDevice, Fail> {
    let mut store = new_store(alloc, 8)?;
    answer(alloc, &mut store, Command::Create(b"a", 2, 4))?;
    answer(alloc, &mut store, Command::Insert(b"a", 1, PLANE))?;
    let mut device = device_of(store)?;
    if ROOT < device.blocks() {
        device.write(ROOT, &[0; 4096])?;
    }
    Ok(device)
}

#[test]
fn a_refused_command_writes_no_page(rt: HostRuntime) -> Result<(), Fail> {
    let alloc = rt.alloc();
    for (command, refusal, most) in REFUSED {
        let device = damaged(alloc)?;
        let before = device.writes();
        let mut store = opened(alloc, device, 8)?;
        assert_eq!(rt; answer(alloc, &mut store, command), Err(refusal));
        let (end, device) = closed(store);
        assert_eq!(rt; end, None);
        let written = device.writes().wrapping_sub(before);
        assert!(rt; written <= most, "{command:?}: {written} blocks");
    }
    Ok(())
}

#[test]
fn a_cache_holds_8_to_4096_pages(rt: HostRuntime) -> Result<(), Fail> {
    let alloc = rt.alloc();
    for (cache, refusal) in [
        (0, Some(Refusal::BadCache)),
        (7, Some(Refusal::BadCache)),
        (8, None),
        (4096, None),
        (4097, Some(Refusal::BadCache)),
        (u32::MAX, Some(Refusal::BadCache)),
    ] {
        let device = device_of(new_store(alloc, 8)?)?;
        let answer = opened(alloc, device, cache).err();
        assert_eq!(rt; answer, refusal, "{cache} pages");
        assert_eq!(rt; new_store(alloc, cache).err(), refusal, "{cache} pages");
    }
    // the cache is looked at before the blocks
    let answer = opened(alloc, MemoryDevice::new(alloc), 7).err();
    assert_eq!(rt; answer, Some(Refusal::BadCache));
    Ok(())
}
