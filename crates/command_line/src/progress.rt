//! Lines of progress at a terminal.
ghost use Rattle.std.specs.Prelude.{◌≡◌};

use layer_import::PutProgress;
use std::io::{self, Read, Write};

// How many bytes are read from one line of progress to the next.
const STEP: u64 = 1 << 20;

/// A reader that tells now and then how much was read of it, in a line that is written over and ends with the
/// text; or nothing, where it is given no one to tell.
#[derive(Drop)]
pub struct ProgressReader<R, E> {
    reader: R,
    errors: Option<E>,
    bytes: u64,
    told: u64,
}

impl<R: Read, E: Write> ProgressReader<R, E> {
    /// A reader of which nothing was read.
    pub fn over(reader: R, errors: Option<E>) -> Self
        ensures { result.reader ≡ reader }
    {
        ProgressReader {
            reader,
            errors,
            bytes: 0,
            told: 0,
        }
    }

    // So many bytes more were read, none where the text has ended. Faults of the line are passed over.
    fn note(&mut self, more: usize)
        ensures { self.new.reader ≡ self.old.reader }
    {
        self.bytes = self.bytes.saturating_add(more as u64);
        let Some(errors) = &mut self.errors else {
            return;
        };
        if more == 0 && self.told > 0 {
            let _ = errors.write_all(b"\n");
            self.told = 0;
        }
        if self.bytes.saturating_sub(self.told) >= STEP && more > 0 {
            let _ = write!(errors, "\rrstore: {} MB read", self.bytes >> 20);
            self.told = self.bytes;
        }
    }
}

impl<R: Read, E: Write> Read for ProgressReader<R, E> {
    ghost remaining = { λ p. R.remaining p.reader };

    fn read(&mut self, buf: &mut [u8]) -> io::Result<usize> {
        let read = self.reader.read(buf);
        if let Ok(len) = &read {
            self.note(*len);
        }
        read
    }
}

// How many objects are put in from one line of progress to the next.
const OBJECTS: usize = 1 << 15;

/// Tells now and then how many objects an import has put in, where they are many, in a line that is written
/// over and ends with them; or nothing, where it is given no one to tell.
#[derive(Drop)]
pub struct ProgressLine<E> {
    errors: Option<E>,
    all: usize,
    done: usize,
    told: Option<usize>,
}

impl<E: Write> ProgressLine<E> {
    /// A line of which nothing was told.
    pub fn to(errors: Option<E>) -> Self {
        ProgressLine {
            errors,
            all: 0,
            done: 0,
            told: None,
        }
    }

    // Tells how many objects were put in. Faults of the line are passed over.
    fn tell(&mut self) {
        if let Some(errors) = &mut self.errors {
            let _ = write!(
                errors,
                "\rrstore: {} of {} objects put in",
                self.done, self.all
            );
            self.told = Some(self.done);
        }
    }
}

impl<E: Write> PutProgress for ProgressLine<E> {
    fn begin(&mut self, all: usize) {
        self.all = all;
        self.done = 0;
        if all >= OBJECTS {
            self.tell();
        }
    }

    fn put(&mut self, more: usize) {
        self.done = self.done.saturating_add(more);
        let Some(told) = self.told else {
            return;
        };
        if self.done == self.all || self.done.saturating_sub(told) >= OBJECTS {
            self.tell();
        }
    }

    fn end(&mut self) {
        let Some(_) = self.told else {
            return;
        };
        self.told = None;
        if let Some(errors) = &mut self.errors {
            let _ = errors.write_all(b"\n");
        }
    }
}
