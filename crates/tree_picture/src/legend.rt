//! The words below the map.

use crate::frame::MARGIN;
use std::io;
use std::io::Write;
use tree_statistics::LevelStatistics;

/// How high a line of the legend is, in units of the picture.
pub(crate) const LINE: u64 = 230;

// The colours of levels, told apart also by who sees few colours (those of Okabe and Ito but the lightest).
const COLOURS: [&str; 6] = [
    "#0072b2", "#d55e00", "#009e73", "#cc79a7", "#8a6d00", "#5a4fcf",
];

/// The colour of a level.
pub(crate) fn colour_of(level: u8) -> &'static str {
    COLOURS[usize::from(level) % 6]
}

/// How thick the lines of a level are: thicker further up.
pub(crate) fn stroke_of(level: u8) -> u64 {
    8 + 7 * u64::from(level).min(5)
}

/// How dense the boxes of a level are filled: leaves more than what lies above them.
pub(crate) fn shade_of(level: u8) -> &'static str {
    if level == 0 { "0.12" } else { "0.03" }
}

/// Writes the line of a level at such a height of the picture.
pub(crate) fn write_level<W: Write>(
    level: &LevelStatistics,
    name: &str,
    top: u64,
    out: &mut W,
) -> io::Result<()> {
    let colour = colour_of(level.level);
    write!(
        out,
        "<rect x=\"{}\" y=\"{}\" width=\"260\" height=\"140\" fill=\"{}\" fill-opacity=\"{}\" \
stroke=\"{}\" stroke-width=\"{}\"/>\n",
        MARGIN,
        top.saturating_sub(120),
        colour,
        shade_of(level.level),
        colour,
        stroke_of(level.level)
    )?;
    write!(
        out,
        "<text x=\"{}\" y=\"{}\">level {}{}: nodes {}, entries {}, fill {}.{} %</text>\n",
        MARGIN + 400,
        top,
        level.level,
        name,
        level.nodes,
        level.entries,
        level.fill_per_mille / 10,
        level.fill_per_mille % 10
    )
}

/// Writes the line of the objects' boxes: how many are drawn of so many.
pub(crate) fn write_entries<W: Write>(
    drawn: usize,
    objects: u64,
    most: usize,
    top: u64,
    out: &mut W,
) -> io::Result<()> {
    write!(
        out,
        "<rect x=\"{}\" y=\"{}\" width=\"260\" height=\"140\" fill=\"none\" stroke=\"#333333\" \
stroke-width=\"5\"/>\n",
        MARGIN,
        top.saturating_sub(120)
    )?;
    if drawn as u64 == objects {
        write!(
            out,
            "<text x=\"{}\" y=\"{}\">boxes of objects: all {}</text>\n",
            MARGIN + 400,
            top,
            objects
        )
    } else {
        write!(
            out,
            "<text x=\"{}\" y=\"{}\">boxes of objects: not drawn, for {} are more than {}</text>\n",
            MARGIN + 400,
            top,
            objects,
            most
        )
    }
}
