//! JSON in a line, read from the front. It takes no memory.

ghost use Rattle.std.specs.Prelude.{◌≤◌, length};

use crate::json_text::{number_len, string_len};
use arrayvec::ArrayVec;

// How deep values that are passed over may be nested.
const MOST_OPEN: usize = 64;

/// What stands behind a member of an object, or in front of the first.
#[derive(Clone, Copy)]
pub(crate) enum Member<'a> {
    /// A member of this name.
    Named(&'a [u8]),
    /// The end of the object.
    End,
}

/// What is left of a line.
#[derive(Clone, Copy, Drop)]
pub(crate) struct Json<'a> {
    rest: &'a [u8],
}

impl<'a> Json<'a> {
    /// A whole line.
    pub fn new(line: &'a [u8]) -> Json<'a> {
        Json { rest: line }
    }

    /// What is left.
    pub fn rest(&self) -> &'a [u8] {
        self.rest
    }

    /// The next byte that is no blank.
    pub fn peek(&mut self) -> Option<u8> {
        let blanks = blank_len(self.rest);
        let (_, rest) = self.rest.split_at(blanks);
        self.rest = rest;
        rest.first().copied()
    }

    /// Takes the next byte that is no blank, if it is this one.
    pub fn take(&mut self, byte: u8) -> bool {
        if self.peek() != Some(byte) {
            return false;
        }
        match self.rest.split_first() {
            Some((_, rest)) => {
                self.rest = rest;
                true
            }
            None => false,
        }
    }

    // Takes so many bytes.
    fn cut(&mut self, len: usize) -> &'a [u8]
        requires { len ≤ length self.old.rest.now }
    {
        let (first, rest) = self.rest.split_at(len);
        self.rest = rest;
        first
    }

    /// Whether nothing but blanks is left.
    pub fn is_done(&mut self) -> bool {
        self.peek().is_none()
    }

    /// Takes a string, and gives what is between its quotes.
    pub fn string(&mut self) -> Option<&'a [u8]> {
        if !self.take(b'"') {
            return None;
        }
        let len = string_len(self.rest)?;
        let string = self.cut(len);
        if self.take(b'"') { Some(string) } else { None }
    }

    /// Takes a number, and gives its text.
    pub fn number(&mut self) -> Option<&'a [u8]> {
        let _first = self.peek();
        let len = number_len(self.rest)?;
        Some(self.cut(len))
    }

    /// Takes a word, as `null`.
    pub fn word(&mut self, word: &[u8]) -> bool {
        let _first = self.peek();
        match self.rest.strip_prefix(word) {
            Some(rest) => {
                self.rest = rest;
                true
            }
            None => false,
        }
    }

    /// Takes the name of a member, with the colon behind it.
    pub fn key(&mut self) -> Option<&'a [u8]> {
        let name = self.string()?;
        if self.take(b':') { Some(name) } else { None }
    }

    /// Takes what stands between the members of an object, behind its `{` or behind a member: the name of the
    /// next member with its colon, or the end of the object.
    pub fn member(&mut self, is_first: bool) -> Option<Member<'a>> {
        if self.take(b'}') {
            return Some(Member::End);
        }
        if !is_first && !self.take(b',') {
            return None;
        }
        Some(Member::Named(self.key()?))
    }

    /// Takes what stands between the items of an array, behind its `[` or behind an item, and answers whether
    /// an item follows.
    pub fn item(&mut self, is_first: bool) -> Option<bool> {
        if self.take(b']') {
            return Some(false);
        }
        (is_first || self.take(b',')).then_some(true)
    }

    /// Takes a value, and gives its text. It is refused where values are nested more than 64 deep.
    pub fn value(&mut self) -> Option<&'a [u8]> {
        let _first = self.peek();
        let whole = self.rest;
        let mut open: ArrayVec<u8, MOST_OPEN> = ArrayVec::new();
        for _ in 0..whole.len() {
            if !self.begin(&mut open)? && !self.end(&mut open)? {
                let len = whole.len().checked_sub(self.rest.len())?;
                return whole.get(..len);
            }
        }
        None
    }

    // Takes a value that has no others in it, or the beginning of one that has, and answers which.
    fn begin(&mut self, open: &mut ArrayVec<u8, MOST_OPEN>) -> Option<bool> {
        match self.peek()? {
            b'{' => {
                let _taken = self.take(b'{');
                if self.take(b'}') {
                    return Some(false);
                }
                open.try_push(b'}').ok()?;
                self.key()?;
                Some(true)
            }
            b'[' => {
                let _taken = self.take(b'[');
                if self.take(b']') {
                    return Some(false);
                }
                open.try_push(b']').ok()?;
                Some(true)
            }
            b'"' => self.string().map(|_| false),
            b't' => self.word(b"true").then_some(false),
            b'f' => self.word(b"false").then_some(false),
            b'n' => self.word(b"null").then_some(false),
            _ => self.number().map(|_| false),
        }
    }

    // Takes what is behind a value: the ends of those that it is in, and a comma. It answers whether a value
    // follows.
    fn end(&mut self, open: &mut ArrayVec<u8, MOST_OPEN>) -> Option<bool> {
        'closing: while let Some(closing) = open.pop() {
            if self.take(b',') {
                open.try_push(closing).ok()?;
                if closing == b'}' {
                    self.key()?;
                }
                return Some(true);
            }
            if !self.take(closing) {
                return None;
            }
        }
        Some(false)
    }
}

// How many blanks stand in front.
fn blank_len(bytes: &[u8]) -> usize
    ensures { result ≤ length bytes.now }
{
    bytes
        .iter()
        .take_while(|byte| matches!(**byte, b' ' | b'\t' | b'\r' | b'\n'))
        .count()
}
