//! Replies, and the texts that are written for them.
#![tactic(auto, using(crate::proofs::WriteLemmas::writing))]

ghost use Rattle.std.specs.Prelude.{◌++◌, map};
ghost use Rattle.plain_table.specs.Answers.{line_of_layer};
ghost use Rattle.plain_table.specs.Step.Answer.{Listed};
ghost use Rattle.reply_texts.specs.Texts.{refusal_text, count_text, number_text, told_refusal};
ghost use Rattle.reply_texts.specs.Texts.{answer_text, reply_answer};
ghost use Rattle.reply_texts.specs.Writing.{Writes};

use crate::reply_line::{ReplyLine, put};
use crate::rows::{write_count, write_rows};
use plain_table::{AnyBox, DumpRow, LayerInfo, Refusal};
use std::alloc::{Allocator, Global};
use std::io;
use std::io::Write;

/// What a command line is answered (docs/COMMANDS.md), but for a listing of the layers: `write_layers` writes
/// that where it is, and no reply has room for it.
#[derive(Drop)]
pub enum Reply<A: Allocator = Global> {
    /// A change was made.
    Done,
    /// The line was refused.
    Refused(Refusal),
    /// The object asked for: its identifier, its box and its tag.
    Object(u64, AnyBox, u32),
    /// The objects asked for: their identifiers, boxes and tags.
    Boxes(Vec<(u64, AnyBox, u32), A>),
    /// How many objects there are.
    Count(u64),
    /// The nearest objects: their identifiers and squared distances.
    Distances(Vec<(u64, u128), A>),
    /// The pairs of a join: their identifiers.
    Pairs(Vec<(u64, u64), A>),
    /// The lines of a dump.
    Dump(Vec<DumpRow, A>),
}

/// Writes the reply's text. It takes no memory and fails only where the writer fails, with a front of the
/// text written.
pub fn write_reply<A: Allocator, W: Write>(reply: &Reply<A>, writer: &mut W) -> io::Result<()>
    ensures { Writes (W.contents writer.old) (W.contents writer.new) result
        (answer_text (reply_answer reply.now)) }
{
    match reply {
        Reply::Done => put(writer, b"ok\n"),
        Reply::Refused(refusal) => write_refusal(writer, *refusal),
        Reply::Object(id, bounds, tag) => write_rows(writer, &[(*id, *bounds, *tag)]),
        Reply::Boxes(rows) => write_rows(writer, rows),
        Reply::Count(count) => write_counted(writer, *count),
        Reply::Distances(rows) => write_rows(writer, rows),
        Reply::Pairs(rows) => write_rows(writer, rows),
        Reply::Dump(rows) => write_rows(writer, rows),
    }
}

/// Writes the text of a listing of the layers, as `write_reply` does that of a reply.
pub fn write_layers<W: Write>(layers: &[LayerInfo], writer: &mut W) -> io::Result<()>
    ensures { Writes (W.contents writer.old) (W.contents writer.new) result
        (answer_text (Listed (map line_of_layer layers.now))) }
{
    write_rows(writer, layers)
}

/// Says in a line why a store was refused.
pub fn tell_refusal<E: Write>(refusal: Refusal, errors: &mut E) -> io::Result<()>
    ensures { Writes (E.contents errors.old) (E.contents errors.new) result (told_refusal refusal) }
{
    put(errors, b"rstore: ")?;
    write_reply(&Reply::<Global>::Refused(refusal), errors)
}

// Writes the line of a refusal.
fn write_refusal<W: Write>(writer: &mut W, refusal: Refusal) -> io::Result<()>
    ensures { Writes (W.contents writer.old) (W.contents writer.new) result (refusal_text refusal) }
{
    let mut line = ReplyLine::new();
    line.push(b"fail ");
    line.push_number(u64::from(refusal.number()));
    line.push(b" ");
    line.push(refusal.name().as_bytes());
    match refusal {
        Refusal::DuplicateInLoad(id) => line.push_detail(id),
        Refusal::Damaged(page) => line.push_detail(u64::from(page)),
        Refusal::StoreFailed(cause) => line.push_detail(u64::from(cause)),
        _ => {}
    }
    line.write(writer)
}

// Writes that there is one row, and the row of a number.
fn write_counted<W: Write>(writer: &mut W, count: u64) -> io::Result<()>
    ensures { Writes (W.contents writer.old) (W.contents writer.new) result
        (count_text 1 ++ number_text count) }
{
    write_count(writer, 1)?;
    write_number(writer, count)
}

// Writes the row of a number.
fn write_number<W: Write>(writer: &mut W, number: u64) -> io::Result<()>
    ensures { Writes (W.contents writer.old) (W.contents writer.new) result (number_text number) }
{
    let mut line = ReplyLine::new();
    line.push_number(number);
    line.write(writer)
}
