//! Statistics as text.

use crate::layers::LayerStatistics;
use crate::levels::LevelStatistics;
use serde_json::to_string;
use std::alloc::Global;
use std::io;
use std::io::Write;

/// Writes the statistics of a layer as a table.
pub fn write_table<W: Write>(layer: &LayerStatistics<'_>, out: &mut W) -> io::Result<()> {
    write!(
        out,
        "layer {}: {} axes, fanout {}, objects {}, height {}\n",
        layer.name, layer.axes, layer.fanout, layer.objects, layer.height
    )?;
    out.write_all(b"   level       nodes     entries   fill %   overlap of siblings\n")?;
    for level in &layer.levels {
        write_level(level, out)?;
    }
    write!(
        out,
        "   pages: {} of the tree, {} of identifiers",
        layer.tree_pages, layer.identifier_pages
    )?;
    match layer.bytes_per_object {
        Some(bytes) => write!(out, "; {bytes} bytes an object\n"),
        None => out.write_all(b"\n"),
    }
}

// Writes the line of a level.
fn write_level<W: Write>(level: &LevelStatistics, out: &mut W) -> io::Result<()> {
    write!(
        out,
        "{:>8}{:>12}{:>12}{:>7}.{}   {}\n",
        level.level,
        level.nodes,
        level.entries,
        level.fill_per_mille / 10,
        level.fill_per_mille % 10,
        level.overlap
    )
}

/// Writes the statistics of a layer as one JSON object on one line, without a newline. Where there is no
/// memory for the line it is an `OutOfMemory` of the writer.
pub fn write_json<W: Write>(
    alloc: Global,
    layer: &LayerStatistics<'_>,
    out: &mut W,
) -> io::Result<()> {
    match to_string(alloc, layer) {
        Ok(text) => out.write_all(text.as_bytes()),
        Err(_) => Err(io::Error::from(io::ErrorKind::OutOfMemory)),
    }
}
