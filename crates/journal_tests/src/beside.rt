//! Readers beside a writer: who has read the log up to the end of a region sees the same blocks from then on, at each
//! call of the writer, its gate aside, which a reader keeps as it found it.
ghost use Rattle.std.specs.Prelude.{⊤, ◌<◌, ◌≤◌, ◌-◌, ◌^◌};

use crate::session::session;
use block_device::{DeviceError, FuseMode};
use device_pair::{DevicePair, FusePair, MemoryPair};
use journaled_device::{JournaledDevice, Readers};
use read_only_device::{BlockReader, HeldBlocks};
use snapshot_reader::SnapshotReader;
use std::alloc::{AllocError, Global};

// More calls than the session makes.
const CALLS: u64 = 120;

// Somebody who reads all the time.
#[derive(Drop)]
struct Somebody;

impl Readers for Somebody {
    ghost somebody_reads = { λ _. ⊤ };

    fn shut_out(&mut self) -> bool {
        false
    }

    fn let_in(&mut self) {}
}

// What the session has written by its call number `passes`, and how many commits it has finished.
fn written_by(alloc: Global, passes: u64) -> (MemoryPair, u32)
    requires { passes < 2 ^ 64 - 1 }
{
    let mut begun = 0;
    let mut ended = 0;
    let pair = FusePair::new(MemoryPair::new(alloc), passes, FuseMode::Onward);
    match JournaledDevice::open(pair, alloc, Somebody, false) {
        Err((_, pair)) => (pair.into_inner(), 0),
        Ok(device) => {
            let mut device = device;
            let _ = session(&mut device, &mut begun, &mut ended);
            (device.into_parts().0.into_inner(), ended)
        }
    }
}

// A block of the base.
fn base_block(pair: &mut MemoryPair, i: u32) -> Result<[u8; 4096], DeviceError> {
    let mut into = [0; 4096];
    if i >= pair.base_blocks() {
        return Err(DeviceError::Failed);
    }
    pair.read_base(i, &mut into)?;
    Ok(into)
}

// A block of the journal.
fn journal_block(pair: &mut MemoryPair, i: u32) -> Result<[u8; 4096], DeviceError> {
    let mut into = [0; 4096];
    if i >= pair.journal_blocks() {
        return Err(DeviceError::Failed);
    }
    pair.read_journal(i, &mut into)?;
    Ok(into)
}

// The blocks of the base.
fn base_of(alloc: Global, pair: &mut MemoryPair) -> Result<Vec<[u8; 4096]>, DeviceError> {
    let mut blocks = Vec::new(alloc);
    for i in 0..pair.base_blocks() {
        blocks.push(base_block(pair, i)?)?;
    }
    Ok(blocks)
}

// The first blocks of the journal.
fn journal_of(
    alloc: Global,
    pair: &mut MemoryPair,
    count: u32,
) -> Result<Vec<[u8; 4096]>, DeviceError> {
    let mut blocks = Vec::new(alloc);
    for i in 0..pair.journal_blocks().min(count) {
        blocks.push(journal_block(pair, i)?)?;
    }
    Ok(blocks)
}

// A block that a reader sees.
fn seen_block<R: BlockReader>(reader: &R, i: u32) -> Result<[u8; 4096], DeviceError> {
    let mut into = [0; 4096];
    if i >= reader.blocks() {
        return Err(DeviceError::Failed);
    }
    reader.read(i, &mut into)?;
    Ok(into)
}

// What a reader sees of the first blocks of the base behind its gate, by so many blocks of the log, and where the
// regions end.
fn seen(
    alloc: Global,
    pair: &mut MemoryPair,
    log: u32,
    count: u32,
) -> Result<(Vec<[u8; 4096]>, u32), DeviceError> {
    let base = HeldBlocks::over(base_of(alloc, pair)?).ok_or(DeviceError::Failed)?;
    let journal = HeldBlocks::over(journal_of(alloc, pair, log)?).ok_or(DeviceError::Failed)?;
    let Ok(reader) = SnapshotReader::open(base, journal, alloc) else {
        return Err(DeviceError::Failed);
    };
    let mut blocks = Vec::new(alloc);
    for i in 1..reader.blocks().min(count) {
        blocks.push(seen_block(&reader, i)?)?;
    }
    Ok((blocks, reader.end() as u32))
}

// A reader: where the regions ended when it began, how many blocks the base had, and what it saw.
#[derive(Drop)]
struct Reader {
    end: u32,
    count: u32,
    blocks: Vec<[u8; 4096]>,
}

// Whether each of the readers sees of this pair what it saw first.
fn each_sees_the_same(alloc: Global, pair: &mut MemoryPair, readers: &Vec<Reader>) -> bool {
    for reader in readers {
        let Ok((blocks, end)) = seen(alloc, pair, reader.end, reader.count) else {
            return false;
        };
        if end != reader.end || blocks.as_slice() != reader.blocks.as_slice() {
            return false;
        }
    }
    true
}

// One reader more, where the regions end behind those that the others have read.
fn begins(
    alloc: Global,
    pair: &mut MemoryPair,
    readers: &mut Vec<Reader>,
) -> Result<(), DeviceError> {
    let count = pair.base_blocks();
    let (blocks, end) = seen(alloc, pair, u32::MAX, count)?;
    if readers.last().is_some_and(|last| last.end >= end) {
        return Ok(());
    }
    readers.push(Reader { end, count, blocks })?;
    Ok(())
}

#[test]
fn each_reader_sees_the_same_at_each_later_call(rt: HostRuntime) {
    let alloc = rt.alloc();
    let mut readers = Vec::new(alloc);
    for call in 0..CALLS {
        let (mut pair, ended) = written_by(alloc, call);
        assert!(rt;
            each_sees_the_same(alloc, &mut pair, &readers),
            "call {call}"
        );
        if ended > 0 {
            assert!(rt;
                begins(alloc, &mut pair, &mut readers).is_ok(),
                "call {call}"
            );
        }
    }
    assert!(rt; readers.len() == 3, "{}", readers.len());
    let (_, ended) = written_by(alloc, CALLS);
    assert!(rt; ended == 3);
}
