//! The rows of replies.
#![tactic(auto, using(crate::proofs::WriteLemmas::writing))]

ghost use Rattle.std.specs.Prelude.{◌++◌, length, flat_map};
ghost use Rattle.reply_texts.specs.Texts.{count_text};
ghost use Rattle.reply_texts.specs.Writing.{Writes};

use crate::reply_line::ReplyLine;
use plain_table::{AnyBox, DumpRow, LayerInfo};
use std::io;
use std::io::Write;

/// A row of a reply. Contracts see its text.
pub trait Row {
    ghost use Rattle.std.specs.Prelude.{List, ℕ};

    ghost text: { Self → List ℕ };

    /// Writes its line.
    fn write<W: Write>(&self, writer: &mut W) -> io::Result<()>
        ensures { Writes (W.contents writer.old) (W.contents writer.new) result (text self.now) };
}

// An object: its identifier, its box and its tag.
impl Row for (u64, AnyBox, u32) {
    ghost use Rattle.plain_table.specs.Answers.{row_of};
    ghost use Rattle.reply_texts.specs.Texts.{row_text};

    ghost text = { λ row. row_text (row_of row) };

    fn write<W: Write>(&self, writer: &mut W) -> io::Result<()> {
        let mut line = ReplyLine::new();
        line.push_number(self.0);
        line.push_box(&self.1);
        line.push_tag(self.2);
        line.write(writer)
    }
}

// An object and its squared distance.
impl Row for (u64, u128) {
    ghost use Rattle.reply_texts.specs.Texts.{pair_text};

    ghost text = { pair_text };

    fn write<W: Write>(&self, writer: &mut W) -> io::Result<()> {
        let mut line = ReplyLine::new();
        line.push_number(self.0);
        line.push_distance(self.1);
        line.write(writer)
    }
}

// Two objects.
impl Row for (u64, u64) {
    ghost use Rattle.reply_texts.specs.Texts.{pair_text};

    ghost text = { pair_text };

    fn write<W: Write>(&self, writer: &mut W) -> io::Result<()> {
        let mut line = ReplyLine::new();
        line.push_number(self.0);
        line.push_detail(self.1);
        line.write(writer)
    }
}

// What a listing shows of a layer.
impl Row for LayerInfo {
    ghost use Rattle.plain_table.specs.Answers.{line_of_layer};
    ghost use Rattle.reply_texts.specs.Texts.{layer_text};

    ghost text = { λ layer. layer_text (line_of_layer layer) };

    fn write<W: Write>(&self, writer: &mut W) -> io::Result<()> {
        let mut line = ReplyLine::new();
        line.push(self.name.as_slice());
        line.push_detail(u64::from(self.dims));
        line.push_detail(u64::from(self.fanout));
        line.push_detail(self.count);
        line.write(writer)
    }
}

// A line of a dump.
impl Row for DumpRow {
    ghost use Rattle.plain_table.specs.Answers.{line_of_row};
    ghost use Rattle.reply_texts.specs.Texts.{dump_text};

    ghost text = { λ row. dump_text (line_of_row row) };

    fn write<W: Write>(&self, writer: &mut W) -> io::Result<()> {
        let mut line = ReplyLine::new();
        match self {
            DumpRow::Create(name, dims, fanout) => {
                line.push(b"create ");
                line.push(name.as_slice());
                line.push_detail(u64::from(*dims));
                line.push_detail(u64::from(*fanout));
            }
            DumpRow::Insert(name, id, bounds, tag) => {
                line.push(b"insert ");
                line.push(name.as_slice());
                line.push_detail(*id);
                line.push_box(bounds);
                line.push_tag(*tag);
            }
        }
        line.write(writer)
    }
}

/// Writes how many rows there are, and then the rows.
pub fn write_rows<T: Row, W: Write>(writer: &mut W, rows: &[T]) -> io::Result<()>
    ensures { Writes (W.contents writer.old) (W.contents writer.new) result
        (count_text (length rows.now) ++ flat_map T.text rows.now) }
{
    write_count(writer, rows.len())?;
    write_each(writer, rows)
}

/// Writes the line that says how many rows follow.
pub fn write_count<W: Write>(writer: &mut W, count: usize) -> io::Result<()>
    ensures { Writes (W.contents writer.old) (W.contents writer.new) result (count_text count) }
{
    let mut line = ReplyLine::new();
    line.push(b"ok ");
    line.push_number(count as u64);
    line.write(writer)
}

// Writes the rows.
fn write_each<T: Row, W: Write>(writer: &mut W, rows: &[T]) -> io::Result<()>
    ensures { Writes (W.contents writer.old) (W.contents writer.new) result (flat_map T.text rows.now) }
{
    for row in rows {
        row.write(writer)?;
    }
    Ok(())
}
