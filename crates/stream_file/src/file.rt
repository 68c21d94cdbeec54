//! A file by its streams.
ghost use Rattle.std.specs.Prelude.{◌≡◌, ◌<◌, ◌≤◌, ◌+◌, ◌-◌, ◌^◌, ◌∷◌, ◌++◌, [], None, Some, true, false};
ghost use Rattle.std.specs.Prelude.{max, min};
ghost use Rattle.std.specs.Prelude.{IsErr, IfOk, IfSome, OnOk};
ghost use Rattle.stream_file.specs.Requests.{Exchanges, TellsSize, read_letter, request_bytes, sync_letter};
ghost use Rattle.stream_file.specs.Requests.{write_letter};

use crate::request::{FileSide, outcome, send};
use file_device::DiskFile;
use std::io::{self, ErrorKind, Read, Write};

/// A file of a store, or its journal, by the streams of who serves both.
///
/// A file of `only_read` is never written: it takes two blocks behind its end, which read as zeros and are
/// forgotten with it. So the opening of a log finds the first blocks of a region behind it. A file of `none` is
/// one that has two blocks of zeros, for which no stream is asked: so a store that is only read has a journal
/// that can be opened and has no entry.
#[derive(Drop)]
pub struct StreamFile<I, O> {
    input: I,
    output: O,
    side: FileSide,
    size: u64,
    // of a file that is only read: how many bytes are there; what is behind them reads as zeros
    there: Option<u64>,
    // how many blocks it takes then, and forgets
    room: u8,
    // whether a sync has failed
    lost: bool,
    // whether nothing was written since a sync
    synced: bool,
}

impl<I: Read + Drop, O: Write + Drop> StreamFile<I, O> {
    /// The file that the streams serve on a side, whose size is asked for.
    pub fn over(input: I, output: O, side: FileSide) -> io::Result<StreamFile<I, O>>
        ensures begins { IfOk result (λ file.
            (file.lost ≡ false) × (file.synced ≡ false) × (file.there ≡ None) × (file.side ≡ side)) }
        ensures asked { IfOk result (λ file. TellsSize side file.size (O.contents output)
            (O.contents file.output) (I.remaining input) (I.remaining file.input)) }
    {
        let mut file = StreamFile {
            input,
            output,
            side,
            size: 0,
            there: None,
            room: 0,
            lost: false,
            synced: false,
        };
        file.size = file.asked_size()?;
        Ok(file)
    }

    /// The same of a file that is only read.
    pub fn only_read(input: I, output: O, side: FileSide) -> io::Result<StreamFile<I, O>>
        ensures begins { IfOk result (λ file.
            (file.there ≡ Some file.size) × (file.room ≡ 2) × (file.side ≡ side)) }
        ensures asked { IfOk result (λ file. TellsSize side file.size (O.contents output)
            (O.contents file.output) (I.remaining input) (I.remaining file.input)) }
    {
        let mut file = StreamFile::over(input, output, side)?;
        file.there = Some(file.size);
        file.room = 2;
        Ok(file)
    }

    /// The journal of a store that is only read and has none.
    pub fn none(input: I, output: O) -> StreamFile<I, O>
        ensures none { result.there ≡ Some 0 }
        ensures size { result.size ≡ 8192 }
        ensures room { result.room ≡ 2 }
        ensures quiet { (result.input ≡ input) × (result.output ≡ output) }
    {
        StreamFile {
            input,
            output,
            side: FileSide::Journal,
            size: 8192,
            there: Some(0),
            room: 2,
            lost: false,
            synced: false,
        }
    }

    // Asks for the size.
    fn asked_size(&mut self) -> io::Result<u64>
        ensures lost { self.new.lost ≡ self.old.lost }
        ensures synced { self.new.synced ≡ self.old.synced }
        ensures there { self.new.there ≡ self.old.there }
        ensures side { self.new.side ≡ self.old.side }
        ensures asked { IfOk result (λ size. TellsSize self.old.side size (O.contents self.old.output)
            (O.contents self.new.output) (I.remaining self.old.input) (I.remaining self.new.input)) }
    {
        send(&mut self.output, b's', self.side, 0)?;
        let mut bytes = [0; 8];
        self.input.read_exact(&mut bytes)?;
        outcome(&mut self.input)?;
        Ok(u64::from_le_bytes(bytes))
    }

    // Asks for 4096 bytes.
    fn get(&mut self, at: u64, into: &mut [u8; 4096]) -> io::Result<()>
        ensures lost { self.new.lost ≡ self.old.lost }
        ensures asked { OnOk result (Exchanges (request_bytes read_letter self.old.side at)
            (into.new ++ 0 ∷ []) (O.contents self.old.output)
            (O.contents self.new.output) (I.remaining self.old.input)
            (I.remaining self.new.input)) }
    {
        send(&mut self.output, b'r', self.side, at)?;
        self.input.read_exact(into)?;
        outcome(&mut self.input)
    }

    // Asks for 4096 bytes to be written.
    fn put(&mut self, at: u64, from: &[u8; 4096]) -> io::Result<()>
        ensures lost { self.new.lost ≡ self.old.lost }
        ensures synced { self.new.synced ≡ self.old.synced }
        ensures size { self.new.size ≡ self.old.size }
        ensures asked { OnOk result (Exchanges (request_bytes write_letter self.old.side at ++ from.now)
            (0 ∷ []) (O.contents self.old.output) (O.contents self.new.output) (I.remaining self.old.input)
            (I.remaining self.new.input)) }
    {
        send(&mut self.output, b'w', self.side, at)?;
        self.output.write_all(from)?;
        outcome(&mut self.input)
    }

    // Nor is anything written after it, which no sync would follow.
    fn write_unless_lost(&mut self, at: u64, from: &[u8; 4096]) -> io::Result<()>
        ensures lost { self.old.lost ≡ true → IsErr result × (self.new ≡ self.old) }
        ensures stays { self.new.lost ≡ self.old.lost }
        ensures unsynced { self.old.lost ≡ false → self.new.synced ≡ false }
        ensures size { OnOk result (self.new.size ≡ max self.old.size (min (at + 4096) (2 ^ 64 - 1))) }
        ensures asked { OnOk result (Exchanges (request_bytes write_letter self.old.side at ++ from.now)
            (0 ∷ []) (O.contents self.old.output) (O.contents self.new.output) (I.remaining self.old.input)
            (I.remaining self.new.input)) }
    {
        if self.lost {
            return Err(io::Error::from(ErrorKind::BrokenPipe));
        }
        self.synced = false;
        self.write(at, from)
    }

    // Has 4096 bytes written. A write that failed may have made the file longer, so its size is asked for.
    fn write(&mut self, at: u64, from: &[u8; 4096]) -> io::Result<()>
        ensures lost { self.new.lost ≡ self.old.lost }
        ensures synced { self.new.synced ≡ self.old.synced }
        ensures size { OnOk result (self.new.size ≡ max self.old.size (min (at + 4096) (2 ^ 64 - 1))) }
        ensures asked { OnOk result (Exchanges (request_bytes write_letter self.old.side at ++ from.now)
            (0 ∷ []) (O.contents self.old.output) (O.contents self.new.output) (I.remaining self.old.input)
            (I.remaining self.new.input)) }
    {
        let answer = self.put(at, from);
        if answer.is_ok() {
            self.size = self.size.max(at.saturating_add(4096));
        } else if let Ok(size) = self.asked_size() {
            self.size = size;
        }
        answer
    }

    // Whether nothing is there of a block, in a file that is only read.
    fn lacks(&self, at: u64) -> bool
        ensures lacks { result ≡ true → IfSome self.now.there (λ size. size ≤ at) }
        ensures has { result ≡ false → IfSome self.now.there (λ size. at < size) }
    {
        match self.there {
            Some(size) => at >= size,
            None => false,
        }
    }

    // Takes a block at the end of a file that is only read, where it has room.
    fn forget(&mut self, at: u64) -> io::Result<()>
        ensures stays { self.new.there ≡ self.old.there }
        ensures lost { self.new.lost ≡ self.old.lost }
        ensures at_end { OnOk result ((self.old.size ≤ at) × (at < self.old.size + 4096)) }
        ensures size { OnOk result (self.new.size ≡ min (at + 4096) (2 ^ 64 - 1)) }
        ensures room { OnOk result (self.new.room + 1 ≡ self.old.room) }
        ensures refused { IsErr result → self.new ≡ self.old }
        ensures quiet { (self.new.input ≡ self.old.input) × (self.new.output ≡ self.old.output) }
    {
        if at < self.size {
            return Err(io::Error::from(ErrorKind::ReadOnlyFilesystem));
        }
        if at - self.size >= 4096 {
            return Err(io::Error::from(ErrorKind::ReadOnlyFilesystem));
        }
        if self.room == 0 {
            return Err(io::Error::from(ErrorKind::ReadOnlyFilesystem));
        }
        self.room -= 1;
        self.size = at.saturating_add(4096);
        Ok(())
    }

    // Has the disk take what was written.
    fn ask_sync(&mut self) -> io::Result<()>
        ensures { OnOk result (Exchanges (request_bytes sync_letter self.old.side 0) (0 ∷ [])
            (O.contents self.old.output) (O.contents self.new.output) (I.remaining self.old.input)
            (I.remaining self.new.input)) }
    {
        send(&mut self.output, b'y', self.side, 0)?;
        outcome(&mut self.input)
    }

    // A sync that failed may have lost what was written, so each one after it fails. Where nothing was written
    // since one, none is asked for.
    fn sync_unless_lost(&mut self) -> io::Result<()>
        ensures lost { self.old.lost ≡ true → IsErr result }
        ensures loses { IsErr result → self.new.lost ≡ true }
        ensures asked { self.old.synced ≡ false → OnOk result (Exchanges
            (request_bytes sync_letter self.old.side 0) (0 ∷ []) (O.contents self.old.output)
            (O.contents self.new.output) (I.remaining self.old.input) (I.remaining self.new.input)) }
    {
        if self.lost {
            return Err(io::Error::from(ErrorKind::BrokenPipe));
        }
        if self.synced {
            return Ok(());
        }
        let answer = self.ask_sync();
        self.lost = answer.is_err();
        self.synced = answer.is_ok();
        answer
    }
}

impl<I: Read + Drop, O: Write + Drop> DiskFile for StreamFile<I, O> {
    ghost bytes = { λ _. [] };

    ghost is_kept = { λ _. ⊥ };

    ghost may_leave = { λ _ _. ⊥ };

    ghost moment = { λ _. 0 };

    ghost left_since = { λ _ _ _. ⊥ };

    fn size(&self) -> io::Result<u64> {
        Ok(self.size)
    }

    fn read_at(&mut self, at: u64, into: &mut [u8; 4096]) -> io::Result<()> {
        if self.lacks(at) {
            *into = [0; 4096];
            return Ok(());
        }
        self.get(at, into)
    }

    fn write_at(&mut self, at: u64, from: &[u8; 4096]) -> io::Result<()> {
        if self.there.is_some() {
            return self.forget(at);
        }
        self.write_unless_lost(at, from)
    }

    fn sync(&mut self) -> io::Result<()> {
        if self.there.is_some() {
            return Ok(());
        }
        self.sync_unless_lost()
    }

    ghost bytes_fit = { λ _ _ never. absurd never };

    ghost shown_counts = { λ _ _ never. absurd never };

    ghost no_longer = { λ _ _ _ never. absurd never };

    ghost whole = { λ _ _ never. absurd never };

    ghost counts_now = { λ _ _ _ never. absurd never };

    ghost only_now = { λ _ _ never. absurd never };

    ghost since_earlier = { λ _ _ _ _ never. absurd never };
}
