//! The lines of a reader, found in one buffer.

ghost use Rattle.std.specs.Prelude.{◌≡◌, ℕ, ◌+◌, ◌<◌, ◌≤◌, ◌++◌, []};
ghost use Rattle.std.specs.Prelude.{length, take, drop, MatchOption, MatchResult, OnOk, OnErr, IfOk, IfSome};
ghost use Rattle.command_language.specs.Lines.{IsOneLine};
ghost use Rattle.command_language.specs.Reading.{buffer_size, most_calls, BeginsLine, IsReadersFault, ReadsTo};
ghost use Rattle.std.specs.Io.KnownBytes.{IsAtEnd, Keeps};

use crate::counted::CountedRead;
use crate::parse::MAX_LINE;
use memchr::memchr;
use std::io;
use std::io::{ErrorKind, Write};

// The size of the buffer, in bytes. It has room for the longest line and its newline, and for many lines a
// read.
const CAPACITY: usize = 65536;

// How many read calls a reader makes at most.
const MOST_CALLS: u64 = 1 << 62;

/// What comes next in a text.
#[derive(Clone, Copy)]
pub enum Found {
    /// A line of so many bytes, and then its newline.
    Line(usize),
    /// The rest of the text, which is so many bytes and has no newline.
    Last(usize),
    /// A line that was too long, and is passed.
    TooLong,
    /// A rest of the text that was too long, and is passed.
    LastTooLong,
    /// Nothing.
    End,
}

/// Reads lines through a buffer. Bytes that were read and not taken are pending.
#[derive(Drop)]
pub struct LineReader {
    buffer: [u8; CAPACITY],
    // What is pending stands from `start` to `end`.
    start: usize,
    end: usize,
    calls: u64,
    ghost ordered: { start ≤ end },
    ghost in_range: { end ≤ buffer_size },
    ghost few: { calls ≤ most_calls },
}

impl LineReader {
    ghost use Rattle.command_language.specs.Pending.{AreCounted, pending, Finds, work_left, work_done};

    /// A reader with nothing pending.
    pub fn new() -> Self
        ensures pending { pending result ≡ [] }
        ensures uncounted { result.calls ≡ 0 }
    {
        LineReader {
            buffer: [0; CAPACITY],
            start: 0,
            end: 0,
            calls: 0,
        }
    }

    // Reads once, after what is pending. It answers how many bytes came, none only at the end.
    fn fill<R: CountedRead>(&mut self, reader: &mut R) -> io::Result<usize>
        requires { length (pending self.old) < CAPACITY }
        ensures ok { IfOk result (λ n. ReadsTo (R.remaining reader.old) (R.remaining reader.new)
            (λ more. (length more ≡ n) × (pending self.new ≡ pending self.old ++ more))) }
        ensures end { IfOk result (λ n. n ≡ 0 → IsAtEnd (R.remaining reader.new)) }
        ensures err { OnErr result (Keeps (R.remaining reader.old) (R.remaining reader.new)) }
        ensures fewer { OnOk result (work_left self.new < work_left self.old) }
        ensures counted { AreCounted self.old (R.calls reader.old) →
            AreCounted self.new (R.calls reader.new) }
        ensures blamed { AreCounted self.old (R.calls reader.old) →
            OnErr result (IsReadersFault (R.is_failing reader.new) (R.calls reader.new)) }
    {
        if self.calls == MOST_CALLS {
            return Err(io::Error::from(ErrorKind::Other));
        }
        self.calls += 1;
        self.make_room();
        let end = self.end;
        let count = reader.read_once(&mut self.buffer[end..])?;
        self.end += count;
        Ok(count)
    }

    // Moves what is pending to the front.
    fn make_room(&mut self)
        ensures pending { pending self.new ≡ pending self.old }
        ensures front { self.new.start ≡ 0 }
        ensures calls { self.new.calls ≡ self.old.calls }
    {
        self.buffer.copy_within(self.start..self.end, 0);
        self.end -= self.start;
        self.start = 0;
    }

    /// What is pending.
    pub fn pending(&self) -> &[u8]
        ensures { result.now ≡ pending self.now }
    {
        &self.buffer[self.start..self.end]
    }

    /// The length of the next line, if it is pending with its newline.
    pub fn line(&self) -> Option<usize>
        ensures { MatchOption result (IsOneLine (pending self.now)) (BeginsLine (pending self.now)) }
    {
        self.newline(0)
    }

    /// The same; where there is none, the writer is flushed, so that who waits for a reply before the next line
    /// is sent has it. Nothing is written.
    pub fn line_or_flush<W: Write>(&self, output: &mut W) -> io::Result<Option<usize>>
        ensures line { IfOk result (λ line.
            MatchOption line (IsOneLine (pending self.now)) (BeginsLine (pending self.now))) }
        ensures none { OnErr result (IsOneLine (pending self.now)) }
        ensures kept { Keeps (W.contents output.old) (W.contents output.new) }
    {
        let line = self.line();
        if line.is_none() {
            output.flush()?;
        }
        Ok(line)
    }

    /// The first bytes that are pending.
    pub fn front(&self, len: usize) -> &[u8]
        requires { len ≤ length (pending self.now) }
        ensures { result.now ≡ take len (pending self.now) }
    {
        &self.pending()[..len]
    }

    /// Takes bytes that are pending.
    pub fn take(&mut self, count: usize)
        requires { count ≤ length (pending self.old) }
        ensures pending { pending self.new ≡ drop count (pending self.old) }
        ensures fewer { work_left self.new + count ≡ work_left self.old }
        ensures calls { self.new.calls ≡ self.old.calls }
    {
        self.start += count;
    }

    /// Finds the next line, which is so long where it is known to be pending. It stays pending, unless it was
    /// too long. It reads only where no whole line is pending; where a read fails no newline was read.
    ///
    /// A line is known to be too long once more than `MAX_LINE` bytes of it are pending and no newline is. A
    /// line whose newline is pending is given whatever its length.
    pub fn find<R: CountedRead>(&mut self, line: Option<usize>, reader: &mut R) -> io::Result<Found>
        requires { IfSome line (BeginsLine (pending self.old)) }
        ensures found { MatchResult result
            (λ found. ReadsTo (R.remaining reader.old) (R.remaining reader.new) (λ more.
            Finds (IsAtEnd (R.remaining reader.new)) found (pending self.old ++ more) (pending self.new)))
            (λ _. ReadsTo (R.remaining reader.old) (R.remaining reader.new)
            (λ more. IsOneLine (pending self.old ++ more))) }
        ensures lazy { (n : ℕ) → BeginsLine (pending self.old) n → reader.new ≡ reader.old }
        ensures fewer { IfOk result (λ found. work_left self.new + work_done found ≤ work_left self.old) }
        ensures counted { AreCounted self.old (R.calls reader.old) →
            AreCounted self.new (R.calls reader.new) }
        ensures blamed { AreCounted self.old (R.calls reader.old) →
            OnErr result (IsReadersFault (R.is_failing reader.new) (R.calls reader.new)) }
    {
        match line {
            Some(len) => Ok(Found::Line(len)),
            None => self.read_line(reader),
        }
    }

    // Finds the next line by looking for it, and by reading where it is not pending.
    fn read_line<R: CountedRead>(&mut self, reader: &mut R) -> io::Result<Found>
        ensures found { MatchResult result
            (λ found. ReadsTo (R.remaining reader.old) (R.remaining reader.new) (λ more.
            Finds (IsAtEnd (R.remaining reader.new)) found (pending self.old ++ more) (pending self.new)))
            (λ _. ReadsTo (R.remaining reader.old) (R.remaining reader.new)
            (λ more. IsOneLine (pending self.old ++ more))) }
        ensures lazy { (n : ℕ) → BeginsLine (pending self.old) n → reader.new ≡ reader.old }
        ensures fewer { IfOk result (λ found. work_left self.new + work_done found ≤ work_left self.old) }
        ensures counted { AreCounted self.old (R.calls reader.old) →
            AreCounted self.new (R.calls reader.new) }
        ensures blamed { AreCounted self.old (R.calls reader.old) →
            OnErr result (IsReadersFault (R.is_failing reader.new) (R.calls reader.new)) }
    {
        let mut seen = 0;
        loop {
            if let Some(at) = self.newline(seen) {
                return Ok(Found::Line(at));
            }
            seen = self.pending().len();
            if seen > MAX_LINE {
                return self.pass_line(reader);
            }
            if self.fill(reader)? == 0 {
                return Ok(if seen == 0 {
                    Found::End
                } else {
                    Found::Last(seen)
                });
            }
        }
    }

    // Where the first newline that is pending stands. The first `seen` bytes are known to have none.
    fn newline(&self, seen: usize) -> Option<usize>
        requires within { seen ≤ length (pending self.now) }
        requires none_seen { IsOneLine (take seen (pending self.now)) }
        ensures { MatchOption result (IsOneLine (pending self.now)) (BeginsLine (pending self.now)) }
    {
        let (_, rest) = self.pending().split_at(seen);
        match memchr(b'\n', rest) {
            None => None,
            Some(at) => Some(seen + at),
        }
    }

    // Takes the rest of a line that is too long.
    fn pass_line<R: CountedRead>(&mut self, reader: &mut R) -> io::Result<Found>
        requires long { MAX_LINE < length (pending self.old) }
        requires line { IsOneLine (pending self.old) }
        ensures found { MatchResult result
            (λ found. ReadsTo (R.remaining reader.old) (R.remaining reader.new) (λ more.
            Finds (IsAtEnd (R.remaining reader.new)) found (pending self.old ++ more) (pending self.new)))
            (λ _. ReadsTo (R.remaining reader.old) (R.remaining reader.new)
            (λ more. IsOneLine (pending self.old ++ more))) }
        ensures fewer { IfOk result (λ found. work_left self.new + work_done found ≤ work_left self.old) }
        ensures counted { AreCounted self.old (R.calls reader.old) →
            AreCounted self.new (R.calls reader.new) }
        ensures blamed { AreCounted self.old (R.calls reader.old) →
            OnErr result (IsReadersFault (R.is_failing reader.new) (R.calls reader.new)) }
    {
        let len = self.pending().len();
        self.take(len);
        while self.fill(reader)? > 0 {
            if let Some(at) = self.newline(0) {
                self.take(at + 1);
                return Ok(Found::TooLong);
            }
            let len = self.pending().len();
            self.take(len);
        }
        Ok(Found::LastTooLong)
    }
}
