//! A reader and a writer that are slow, or fail.

ghost use Rattle.std.specs.Io.{ReadsAtMost};

use std::cell::Cell;
use std::io;
use std::io::{ErrorKind, Read, Write};

/// What a reader gives next.
#[derive(Clone, Copy)]
pub enum Part<'a> {
    Bytes(&'a [u8]),
    /// A call that fails.
    Fails(ErrorKind),
}

/// Gives parts, and nothing after the last. It fails where bytes were not flushed before a call.
#[derive(Drop)]
pub struct Source<'a> {
    pub parts: &'a [Part<'a>],
    /// How many parts were given, and how many bytes of the next one.
    pub place: usize,
    pub given: usize,
    /// How many bytes a call gives at most.
    pub pace: usize,
    /// How many bytes the writer took and did not flush.
    pub unflushed: &'a Cell<usize>,
}

impl Source<'_> {
    fn end_part(&mut self) {
        self.place = self.place.saturating_add(1);
        self.given = 0;
    }

    // Gives some of what was not given of these bytes, which are those of the next part.
    fn give(&mut self, bytes: &[u8], buffer: &mut [u8]) -> io::Result<usize>
        ensures { ReadsAtMost result buffer.new }
    {
        let (_, rest) = bytes.split_at(self.given.min(bytes.len()));
        let count = rest.len().min(buffer.len()).min(self.pace);
        let (mut front, left) = rest.split_at(count);
        if left.is_empty() {
            self.end_part();
        } else {
            self.given = self.given.saturating_add(count);
        }
        front.read(buffer)
    }
}

impl Read for Source<'_> {
    fn read(&mut self, buffer: &mut [u8]) -> io::Result<usize> {
        if self.unflushed.get() > 0 {
            return Err(io::Error::from(ErrorKind::Other));
        }
        let Some(part) = self.parts.get(self.place) else {
            return Ok(0);
        };
        match *part {
            Part::Bytes(bytes) => self.give(bytes, buffer),
            Part::Fails(kind) => {
                self.end_part();
                Err(io::Error::from(kind))
            }
        }
    }
}

/// What a writer takes.
#[derive(Clone, Copy)]
pub enum Room {
    All,
    /// At most two bytes a call, so many in all, and then nothing.
    Stuck(usize),
    /// The same, and then it fails.
    Full(usize),
    /// All, but that the call after so many is interrupted.
    Interrupted(usize),
    /// All, but that only so many flushes pass.
    Flushes(usize),
}

/// Keeps what it has room for.
#[derive(Drop)]
pub struct Sink<'a> {
    pub written: Vec<u8>,
    pub room: Room,
    /// How many bytes it took and did not flush.
    pub unflushed: &'a Cell<usize>,
}

// How many of so many bytes there is room for, which they take.
fn take_room(room: &mut Room, count: usize) -> io::Result<usize> {
    match *room {
        Room::All | Room::Flushes(_) => Ok(count),
        Room::Full(0) => Err(io::Error::from(ErrorKind::Other)),
        Room::Full(left) => {
            let taken = count.min(left).min(2);
            *room = Room::Full(left - taken);
            Ok(taken)
        }
        Room::Stuck(left) => {
            let taken = count.min(left).min(2);
            *room = Room::Stuck(left - taken);
            Ok(taken)
        }
        Room::Interrupted(0) => {
            *room = Room::All;
            Err(io::Error::from(ErrorKind::Interrupted))
        }
        Room::Interrupted(passes) => {
            *room = Room::Interrupted(passes.saturating_sub(1));
            Ok(count)
        }
    }
}

impl Write for Sink<'_> {
    fn write(&mut self, bytes: &[u8]) -> io::Result<usize> {
        let count = take_room(&mut self.room, bytes.len())?.min(bytes.len());
        match self.written.extend_from_slice(&bytes[..count]) {
            Ok(()) => {
                self.unflushed
                    .set(self.unflushed.get().saturating_add(count));
                Ok(count)
            }
            Err(_) => Err(io::Error::from(ErrorKind::OutOfMemory)),
        }
    }

    fn flush(&mut self) -> io::Result<()> {
        match self.room {
            Room::Flushes(0) => return Err(io::Error::from(ErrorKind::Other)),
            Room::Flushes(passes) => self.room = Room::Flushes(passes.saturating_sub(1)),
            _ => {}
        }
        self.unflushed.set(0);
        Ok(())
    }
}
