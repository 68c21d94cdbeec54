//! The picture, written line by line.

ghost use Rattle.box_math.specs.Bounds.{IsDims};

use crate::frame::{Frame, MARGIN, Rectangle, WIDTH};
use crate::legend::{LINE, colour_of, shade_of, stroke_of, write_entries, write_level};
use plain_table::AnyBox;
use std::io;
use std::io::Write;
use tree_outline::NodeOutline;
use tree_statistics::LevelStatistics;

/// The boxes of objects are drawn where a layer has at most so many.
pub const MOST_ENTRIES: usize = 20_000;

// Where the map begins, below the title.
const TOP: u64 = 620;

// The lowest map.
const LOW_MAP: u64 = 300;

/// What is drawn of a layer beside the nodes of its tree.
#[derive(Clone, Copy, Debug)]
pub struct Drawn<'a> {
    /// Its name, letters, digits and underscores.
    pub name: &'a str,
    /// How many axes its boxes have. Three are seen from above: the third is left out.
    pub axes: u8,
    /// How many entries a node of its tree has room for.
    pub fanout: u8,
    /// How many objects it has.
    pub objects: u64,
    /// The levels of its tree from the root down.
    pub levels: &'a [LevelStatistics],
    /// The boxes of its objects, or none of them.
    pub entries: &'a [(u64, AnyBox, u32)],
}

/// Writes an SVG picture of the tree whose nodes are these, the root first: the boxes of the objects as
/// hairlines, those of the nodes level by level in a colour of the level's own, the root's last, and below
/// them what each level has. It keeps nothing, and writes line by line.
pub fn draw<const D: usize, W: Write>(
    layer: &Drawn<'_>,
    rows: &[NodeOutline<D>],
    out: &mut W,
) -> io::Result<()>
    requires { IsDims D }
{
    let bounds = match rows.first() {
        Some(root) => root.bounds,
        None => None,
    };
    match bounds {
        Some(bounds) => {
            let frame = Frame::round(&bounds, TOP);
            let below = TOP + frame.height().max(LOW_MAP) + 2 * LINE;
            begin(layer, below, out)?;
            write_extent(layer, &frame, out)?;
            draw_entries(layer.entries, &frame, out)?;
            draw_levels(layer.levels, rows, &frame, out)?;
            end(layer, below, out)
        }
        None => {
            begin(layer, TOP + 2 * LINE, out)?;
            write_note("no objects", out)?;
            end(layer, TOP + 2 * LINE, out)
        }
    }
}

// Begins the picture, whose legend begins at this height.
fn begin<W: Write>(layer: &Drawn<'_>, below: u64, out: &mut W) -> io::Result<()> {
    let lines = (layer.levels.len() as u64).saturating_add(1);
    let height = lines.saturating_mul(LINE).saturating_add(below);
    write!(
        out,
        "<svg xmlns=\"http://www.w3.org/2000/svg\" viewBox=\"0 0 {} {}\" width=\"{}\" height=\"{}\">\n",
        WIDTH,
        height,
        WIDTH / 10,
        height / 10
    )?;
    out.write_all(b"<style>text { font: 140px sans-serif; fill: #222222 }</style>\n")?;
    write!(
        out,
        "<rect width=\"{}\" height=\"{}\" fill=\"#ffffff\"/>\n",
        WIDTH, height
    )?;
    write!(
        out,
        "<text x=\"{}\" y=\"280\" style=\"font-size:200px;font-weight:bold\">{}</text>\n",
        MARGIN, layer.name
    )
}

// Writes a line below the title.
fn write_note<W: Write>(note: &str, out: &mut W) -> io::Result<()> {
    write!(out, "<text x=\"{}\" y=\"500\">{}</text>\n", MARGIN, note)
}

// Writes which part of the plane is seen.
fn write_extent<W: Write>(layer: &Drawn<'_>, frame: &Frame, out: &mut W) -> io::Result<()> {
    let above = if layer.axes == 3 {
        "; seen from above"
    } else {
        ""
    };
    write!(
        out,
        "<text x=\"{}\" y=\"500\">fanout {}; x {} to {}, y {} to {}{}</text>\n",
        MARGIN, layer.fanout, frame.low[0], frame.high[0], frame.low[1], frame.high[1], above
    )
}

// Draws the boxes of objects as hairlines.
fn draw_entries<W: Write>(
    entries: &[(u64, AnyBox, u32)],
    frame: &Frame,
    out: &mut W,
) -> io::Result<()> {
    out.write_all(
        b"<g fill=\"none\" stroke=\"#333333\" stroke-width=\"5\" stroke-opacity=\"0.7\">\n",
    )?;
    for entry in entries {
        let place = match &entry.1 {
            AnyBox::Two(bounds) => frame.place(bounds),
            AnyBox::Three(bounds) => frame.place(bounds),
        };
        draw_rectangle(&place, out)?;
    }
    out.write_all(b"</g>\n")
}

// Draws the boxes of the nodes, the leaves' first.
fn draw_levels<const D: usize, W: Write>(
    levels: &[LevelStatistics],
    rows: &[NodeOutline<D>],
    frame: &Frame,
    out: &mut W,
) -> io::Result<()>
    requires { IsDims D }
{
    for level in levels.iter().rev() {
        draw_level(level.level, rows, frame, out)?;
    }
    Ok(())
}

// Draws the boxes of the nodes of a level.
fn draw_level<const D: usize, W: Write>(
    level: u8,
    rows: &[NodeOutline<D>],
    frame: &Frame,
    out: &mut W,
) -> io::Result<()>
    requires { IsDims D }
{
    let colour = colour_of(level);
    write!(
        out,
        "<g id=\"level{}\" fill=\"{}\" fill-opacity=\"{}\" stroke=\"{}\" stroke-width=\"{}\" \
stroke-opacity=\"0.85\">\n",
        level,
        colour,
        shade_of(level),
        colour,
        stroke_of(level)
    )?;
    for row in rows {
        if row.level == level
            && let Some(bounds) = row.bounds
        {
            draw_rectangle(&frame.place(&bounds), out)?;
        }
    }
    out.write_all(b"</g>\n")
}

// Draws a rectangle.
fn draw_rectangle<W: Write>(place: &Rectangle, out: &mut W) -> io::Result<()> {
    write!(
        out,
        "<rect x=\"{}\" y=\"{}\" width=\"{}\" height=\"{}\"/>\n",
        place.left, place.top, place.width, place.height
    )
}

// Writes the legend, which begins at this height, and ends the picture.
fn end<W: Write>(layer: &Drawn<'_>, below: u64, out: &mut W) -> io::Result<()> {
    let mut top = below;
    let mut name = " (root)";
    for level in layer.levels {
        write_level(level, name, top, out)?;
        top = top.saturating_add(LINE);
        name = "";
    }
    write_entries(layer.entries.len(), layer.objects, MOST_ENTRIES, top, out)?;
    out.write_all(b"</svg>\n")
}
