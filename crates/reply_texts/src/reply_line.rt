//! One line of a reply, built before it is written.
#![tactic(auto, using(crate::proofs::WriteLemmas::writing))]

ghost use Rattle.std.specs.Prelude.{◌≡◌, ◌+◌, ◌*◌, ◌≤◌, ◌++◌, ◌∷◌, [], length, decimal, map};
ghost use Rattle.plain_table.specs.Boxes.{shown_bounds};
ghost use Rattle.command_language.specs.Lines.{newline};
ghost use Rattle.reply_texts.specs.Refused.{told_byte};
ghost use Rattle.reply_texts.specs.Texts.{space, coordinate_text, coordinates_text, bounds_text, tag_text};
ghost use Rattle.reply_texts.specs.Writing.{Writes};

use arrayvec::ArrayVec;
use plain_table::AnyBox;
use std::io;
use std::io::{ErrorKind, Write};
use std::marker::Model;

// Every line fits: a name has at most 24 bytes, a number 20 digits, a box six coordinates of 12 bytes, and a
// tag 15 bytes with its word.
const CAPACITY: usize = 144;

/// The bytes of a line so far, without its newline. Contracts see the list of them.
#[derive(Drop)]
pub struct ReplyLine {
    text: ArrayVec<u8, CAPACITY>,
}

impl Model for ReplyLine {
    ghost use Rattle.std.specs.Prelude.{List, ℕ};

    ghost Value = { List ℕ };

    ghost view = { λ line. line.text.items };
}

impl ReplyLine {
    /// An empty line.
    pub fn new() -> Self
        ensures { result ≡ [] }
    {
        ReplyLine {
            text: ArrayVec::new(),
        }
    }

    /// Appends bytes.
    pub fn push(&mut self, bytes: &[u8])
        requires { length self.old + length bytes.now ≤ CAPACITY }
        ensures { self.new ≡ self.old ++ bytes.now }
    {
        self.text.try_extend_from_slice(bytes).unwrap();
    }

    /// Appends a number in decimal.
    pub fn push_number(&mut self, number: u64)
        requires { length self.old ≤ 100 }
        ensures text { self.new ≡ self.old ++ decimal number }
        ensures room { length self.new ≤ length self.old + 20 }
    {
        self.push(itoa::Buffer::new().format(number).as_bytes());
    }

    /// Appends the number that some refusals have after their names.
    pub fn push_detail(&mut self, detail: u64)
        requires { length self.old ≤ 90 }
        ensures text { self.new ≡ self.old ++ space ∷ decimal detail }
        ensures room { length self.new ≤ length self.old + 21 }
    {
        self.push(b" ");
        self.push_number(detail);
    }

    /// Appends a squared distance.
    pub fn push_distance(&mut self, distance: u128)
        requires { length self.old ≤ 60 }
        ensures text { self.new ≡ self.old ++ space ∷ decimal distance }
        ensures room { length self.new ≤ length self.old + 41 }
    {
        self.push(b" ");
        self.push(itoa::Buffer::new().format(distance).as_bytes());
    }

    /// Appends the lows of a box, and then its highs.
    pub fn push_box(&mut self, bounds: &AnyBox)
        requires { length self.old ≤ 55 }
        ensures text { self.new ≡ self.old ++ bounds_text (shown_bounds bounds.now) }
        ensures room { length self.new ≤ length self.old + 72 }
    {
        match bounds {
            AnyBox::Two(bounds) => self.push_corners(&bounds.low(), &bounds.high()),
            AnyBox::Three(bounds) => self.push_corners(&bounds.low(), &bounds.high()),
        }
    }

    /// Appends the tag of an object behind its box: a space, the word and the number, or nothing where it is
    /// 0.
    pub fn push_tag(&mut self, tag: u32)
        requires { length self.old ≤ 127 }
        ensures text { self.new ≡ self.old ++ tag_text tag }
        ensures room { length self.new ≤ length self.old + 15 }
    {
        if tag == 0 {
            return;
        }
        self.push(b" tag ");
        self.push(itoa::Buffer::new().format(tag).as_bytes());
    }

    fn push_corners(&mut self, low: &[i32], high: &[i32])
        requires few { (length low.now ≤ 3) × (length high.now ≤ 3) }
        requires room { length self.old ≤ 55 }
        ensures text { self.new ≡ self.old ++ coordinates_text low.now ++ coordinates_text high.now }
        ensures room { length self.new ≤ length self.old + 72 }
    {
        self.push_coordinates(low);
        self.push_coordinates(high);
    }

    fn push_coordinates(&mut self, coordinates: &[i32])
        requires few { length coordinates.now ≤ 3 }
        requires room { length self.old ≤ 91 }
        ensures text { self.new ≡ self.old ++ coordinates_text coordinates.now }
        ensures room { length self.new ≤ length self.old + 12 * length coordinates.now }
    {
        for coordinate in coordinates {
            self.push_coordinate(*coordinate);
        }
    }

    fn push_coordinate(&mut self, coordinate: i32)
        requires { length self.old ≤ 115 }
        ensures text { self.new ≡ self.old ++ coordinate_text coordinate }
        ensures room { length self.new ≤ length self.old + 12 }
    {
        self.push(b" ");
        self.push(itoa::Buffer::new().format(coordinate).as_bytes());
    }

    /// Appends bytes as they are told: a question mark in the place of each that can't be printed.
    pub fn push_told(&mut self, bytes: &[u8])
        requires { length self.old + length bytes.now ≤ CAPACITY }
        ensures { self.new ≡ self.old ++ map told_byte bytes.now }
    {
        for byte in bytes {
            self.push(&[printable(*byte)]);
        }
    }

    /// Writes the line so far, without a newline.
    pub fn write_part<W: Write>(self, writer: &mut W) -> io::Result<()>
        ensures { Writes (W.contents writer.old) (W.contents writer.new) result self }
    {
        put(writer, &self.text)
    }

    /// Writes the line and its newline. The line is lent: to move it would copy it whole.
    pub fn write<W: Write>(&mut self, writer: &mut W) -> io::Result<()>
        requires { length self.old ≤ 143 }
        ensures { Writes (W.contents writer.old) (W.contents writer.new) result (self.old ++ newline ∷ []) }
    {
        self.push(b"\n");
        put(writer, &self.text)
    }
}

// A byte as it is told.
fn printable(byte: u8) -> u8
    ensures { result ≡ told_byte byte }
{
    if byte < 32 || byte > 126 { b'?' } else { byte }
}

/// Writes all bytes. As `write_all`, but what a fault leaves is known.
pub fn put<W: Write>(writer: &mut W, text: &[u8]) -> io::Result<()>
    ensures { Writes (W.contents writer.old) (W.contents writer.new) result text.now }
{
    let mut done = 0;
    while done < text.len() {
        match writer.write(&text[done..])? {
            0 => return Err(io::Error::from(ErrorKind::WriteZero)),
            count => done += count,
        }
    }
    Ok(())
}
