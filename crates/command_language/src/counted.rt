//! Readers that tell how often they were called, and whether the last call failed.

ghost use Rattle.std.specs.Prelude.{◌≡◌, ◌≤◌, ◌+◌, ℕ, Bool, min};
ghost use Rattle.std.specs.Result.{is_err};
ghost use Rattle.std.specs.Io.{ReadsAtMost};
ghost use Rattle.std.specs.Io.KnownBytes.{ReadConsumes};
ghost use Rattle.command_language.specs.Reading.{most_calls};

use std::io;
use std::io::Read;

/// A reader that tells how often it was called and whether the last call failed, so that it is blamed only
/// where it did.
pub trait CountedRead: Read {
    ghost calls: { Self → ℕ };

    ghost is_failing: { Self → Bool };

    /// Reads once, as `read` does. The count of calls stays at 2^62.
    fn read_once(&mut self, buf: &mut [u8]) -> io::Result<usize>
        ensures bound { ReadsAtMost result buf.new }
        ensures bytes { ReadConsumes (Self.remaining self.old) (Self.remaining self.new) result buf.new }
        ensures counted { calls self.new ≡ min (calls self.old + 1) most_calls }
        ensures failing { is_failing self.new ≡ is_err result };

    /// Whether the last call failed.
    fn has_failed(&self) -> bool
        ensures { result ≡ is_failing self.now };
}

/// Any reader, whose calls are counted here.
#[derive(Drop)]
pub struct CountedReader<R> {
    reader: R,
    calls: u64,
    is_failing: bool,
    ghost few: { calls ≤ most_calls },
}

impl<R: Read> CountedReader<R> {
    /// A reader that was not called.
    pub fn over(reader: R) -> Self
        ensures inner { result.reader ≡ reader }
        ensures uncalled { result.calls ≡ 0 }
    {
        CountedReader {
            reader,
            calls: 0,
            is_failing: false,
        }
    }
}

impl<R: Read> Read for CountedReader<R> {
    ghost remaining = { λ c. R.remaining c.reader };

    fn read(&mut self, buf: &mut [u8]) -> io::Result<usize> {
        self.read_once(buf)
    }
}

impl<R: Read> CountedRead for CountedReader<R> {
    ghost calls = { λ c. c.calls };

    ghost is_failing = { λ c. c.is_failing };

    fn read_once(&mut self, buf: &mut [u8]) -> io::Result<usize> {
        self.calls = if self.calls < (1 << 62) {
            self.calls + 1
        } else {
            1 << 62
        };
        let read = self.reader.read(buf);
        self.is_failing = read.is_err();
        read
    }

    fn has_failed(&self) -> bool {
        self.is_failing
    }
}
