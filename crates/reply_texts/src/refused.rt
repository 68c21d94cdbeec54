//! Refused lines, and how they are told.
#![tactic(auto, using(crate::proofs::WriteLemmas::writing))]

ghost use Rattle.std.specs.Prelude.{◌≡◌, ◌<◌, ◌≤◌, ◌+◌, ◌++◌, ◌∷◌, [], List, None, ℕ, codes, length};
ghost use Rattle.command_language.specs.Entries.{first_bad};
ghost use Rattle.command_language.specs.Lines.{newline};
ghost use Rattle.command_language.specs.Meanings.{longest_line};
ghost use Rattle.reply_texts.specs.Refused.{IsFrontOf, fault_text, line_fault, reason_of, told_front};
ghost use Rattle.reply_texts.specs.Refused.{told_stop};
ghost use Rattle.reply_texts.specs.Writing.{Writes};

use crate::replies::{Reply, write_reply};
use crate::reply_line::ReplyLine;
use arrayvec::ArrayVec;
use command_language::{MAX_LINE, usage_in};
use plain_table::Refusal;
use std::alloc::Global;
use std::io;
use std::io::Write;

// How many bytes of a line are told at most.
const TOLD: usize = 60;

/// What is told of a line: its first 60 bytes, and none of one that is too long; and of a load which of its
/// entry lines is bad.
#[derive(Drop)]
pub struct LineFront {
    /// The bytes.
    pub bytes: ArrayVec<u8, TOLD>,
    /// Whether the line has more.
    pub is_cut: bool,
    /// The place of the first bad one of the entry lines that follow, counted from 1, if there is one.
    pub bad_entry: Option<u64>,
}

/// A line that was refused; of a load, its first one.
#[derive(Drop)]
pub struct RefusedLine {
    /// What it was answered.
    pub refusal: Refusal,
    /// How it begins.
    pub front: LineFront,
}

/// Where a strict run stopped.
#[derive(Drop)]
pub struct Stop {
    /// The number of the refused line, counted from 1, with blank lines, comments and the entry lines of
    /// loads; 2^64 - 1 also where there were more.
    pub line: u64,
    /// The line.
    pub refused: RefusedLine,
}

impl LineFront {
    /// How this line begins.
    pub fn of(line: &[u8]) -> Self
        ensures { IsFrontOf result line.now [] }
    {
        if line.len() > MAX_LINE {
            return LineFront::of_too_long();
        }
        if line.len() > TOLD {
            return LineFront::with(&line[..TOLD], true);
        }
        LineFront::with(line, false)
    }

    // These bytes, of a line that has more or not.
    fn with(bytes: &[u8], is_cut: bool) -> Self
        requires { length bytes.now ≤ TOLD }
        ensures bytes { result.bytes.items ≡ bytes.now }
        ensures is_cut { result.is_cut ≡ is_cut }
        ensures bad_entry { result.bad_entry ≡ None }
    {
        let mut front = ArrayVec::new();
        front.try_extend_from_slice(bytes).unwrap();
        LineFront {
            bytes: front,
            is_cut,
            bad_entry: None,
        }
    }

    /// How a line that is too long begins.
    pub fn of_too_long() -> Self
        ensures { (line : List ℕ) → longest_line < length line → IsFrontOf result line [] }
    {
        LineFront {
            bytes: ArrayVec::new(),
            is_cut: true,
            bad_entry: None,
        }
    }

    /// How a load begins of which this entry line is the first bad one, or none is.
    pub fn with_bad_entry(self, bad_entry: Option<u64>) -> Self
        ensures { (line : List ℕ) (entries : List (List ℕ)) → IsFrontOf self line [] →
            bad_entry ≡ first_bad entries → IsFrontOf result line entries }
    {
        LineFront {
            bytes: self.bytes,
            is_cut: self.is_cut,
            bad_entry,
        }
    }
}

/// Says in a line where a run stopped, and why: the number of the line, how it begins, with a question mark
/// for each byte that can't be printed and `..` where it goes on, and the refusal. Of a bad line it says what
/// is wrong: which entry line is no entry, or how the command is written whose name is its first word.
pub fn tell_stop<E: Write>(stop: &Stop, errors: &mut E) -> io::Result<()>
    ensures { Writes (E.contents errors.old) (E.contents errors.new) result (told_stop stop.now) }
{
    let mut line = ReplyLine::new();
    line.push(b"rstore: line ");
    line.push_number(stop.line);
    line.push(b": ");
    push_front(&mut line, &stop.refused.front);
    line.push(b": ");
    line.write_part(errors)?;
    tell_reason(stop.line, &stop.refused, errors)
}

// Says why the line with this number was refused.
fn tell_reason<E: Write>(number: u64, refused: &RefusedLine, errors: &mut E) -> io::Result<()>
    ensures { Writes (E.contents errors.old) (E.contents errors.new) result
        (reason_of refused.now.refusal number refused.now.front) }
{
    if let Refusal::BadLine = refused.refusal {
        return tell_bad(number, &refused.front, errors);
    }
    write_reply(&Reply::<Global>::Refused(refused.refusal), errors)
}

// Says what is wrong with the bad line of this number.
fn tell_bad<E: Write>(number: u64, front: &LineFront, errors: &mut E) -> io::Result<()>
    ensures { Writes (E.contents errors.old) (E.contents errors.new) result
        (codes "fail 24 BadLine: " ++ fault_text number front.now ++ newline ∷ []) }
{
    let mut line = ReplyLine::new();
    line.push(b"fail 24 BadLine: ");
    push_fault(&mut line, number, front);
    line.write(errors)
}

// Appends what is wrong with the bad line of this number.
fn push_fault(line: &mut ReplyLine, number: u64, front: &LineFront)
    requires { length line.old ≤ 40 }
    ensures text { line.new ≡ line.old ++ fault_text number front.now }
    ensures room { length line.new ≤ length line.old + 60 }
{
    if let Some(place) = front.bad_entry {
        line.push(b"line ");
        line.push_number(number.saturating_add(place));
        line.push(b" is no entry");
        return;
    }
    line.push(fault_in(front));
}

// What is wrong with a bad line that is no load with a bad entry line.
fn fault_in(front: &LineFront) -> &'static [u8]
    ensures text { result.now ≡ line_fault front.now }
    ensures short { length result.now ≤ 60 }
{
    if front.is_cut && front.bytes.is_empty() {
        return b"a line has at most 4096 bytes";
    }
    usage_in(front.bytes.as_slice())
}

// Appends how a line begins.
fn push_front(line: &mut ReplyLine, front: &LineFront)
    requires { length line.old ≤ 40 }
    ensures text { line.new ≡ line.old ++ told_front front.now }
    ensures room { length line.new ≤ length line.old + 62 }
{
    line.push_told(front.bytes.as_slice());
    if front.is_cut {
        line.push(b"..");
    }
}
