//! A reader that gives no more than a line at a time, and counts the lines.

ghost use Rattle.std.specs.Prelude.{◌≤◌, length};

use std::io::{self, BufRead, Read};

/// Reads from `input`, and counts the lines that it has begun to give.
#[derive(Drop)]
pub(crate) struct LineReader<R: BufRead> {
    input: R,
    lines: u64,
    // Whether the next byte begins a line.
    is_at_start: bool,
}

impl<R: BufRead> LineReader<R> {
    /// A reader that has given nothing.
    pub fn new(input: R) -> LineReader<R> {
        LineReader {
            input,
            lines: 0,
            is_at_start: true,
        }
    }

    /// How many lines it has begun to give.
    pub fn lines(&self) -> u64 {
        self.lines
    }
}

impl<R: BufRead> Read for LineReader<R> {
    fn read(&mut self, buf: &mut [u8]) -> io::Result<usize> {
        let len = first_line(self.input.fill_buf()?, buf);
        self.input.consume(len);
        if len == 0 {
            return Ok(0);
        }
        if self.is_at_start {
            self.lines = self.lines.saturating_add(1);
        }
        self.is_at_start = buf[len - 1] == b'\n';
        Ok(len)
    }
}

// Copies what there is of the first line, as far as there is room, and answers how much that is.
fn first_line(text: &[u8], room: &mut [u8]) -> usize
    ensures { result ≤ length room.old }
{
    let most = text.len().min(room.len());
    let len = match text[..most].iter().position(|byte| *byte == b'\n') {
        Some(at) => at + 1,
        None => most,
    };
    room[..len].copy_from_slice(&text[..len]);
    len
}
