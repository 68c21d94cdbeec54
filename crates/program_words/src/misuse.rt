//! Words that are each known and do not go together, and what is said of each mistake: what to do.
ghost use Rattle.std.specs.Prelude.{◌≡◌};

use crate::options::Options;
use std::io::Write;

/// The exit status where words are refused.
pub const MISUSED: u8 = 2;

/// What is wrong with the words of an import.
#[derive(Clone, Copy, Debug, PartialEq, Eq)]
pub enum ImportMisuse {
    /// No file is named.
    NoFile,
    /// How objects are to be read is said, and not that they are to be imported.
    NoImport,
    /// The file is only to be read.
    ReadOnly,
    /// The run is to be strict.
    Strict,
    /// The fanout of the layer is no number.
    Fanout,
    /// The scale is none.
    Scale,
    /// The number of axes is none.
    Axes,
    /// A number of axes is said for CSV.
    AxesOfCsv,
    /// More properties of features are named than an identifier and a tag.
    Properties,
}

impl ImportMisuse {
    /// What is said of it.
    pub fn text(self) -> &'static str {
        match self {
            ImportMisuse::NoFile => "no FILE is named: --import LAYER FILE puts objects into it",
            ImportMisuse::NoImport => {
                "--columns, --scale, --axes and --geojson are for --import LAYER: say it too"
            }
            ImportMisuse::ReadOnly => "--import writes FILE: leave out --read-only",
            ImportMisuse::Strict => "--import puts in all objects or none: leave out --strict",
            ImportMisuse::Fanout => "--import LAYER:FANOUT: FANOUT is a number from 4 to 100",
            ImportMisuse::Scale => "--scale N: N is a number from 1 to 1000000000",
            ImportMisuse::Axes => "--axes N: N is 2 or 3",
            ImportMisuse::AxesOfCsv => {
                "--axes N is for --geojson: the columns of CSV say how many axes there are"
            }
            ImportMisuse::Properties => "--columns LIST: of GeoJSON LIST is ID,TAG and no more",
        }
    }
}

/// What is wrong with words by which something is to be shown.
#[derive(Clone, Copy, Debug, PartialEq, Eq)]
pub enum ShowMisuse {
    /// No file is named.
    NoFile,
    /// The file is to be made.
    Create,
    /// The run is to be strict.
    Strict,
    /// Something is to be imported too.
    Import,
    /// A picture is asked for, and statistics too.
    Both,
    /// JSON is asked for, and no statistics.
    JsonAlone,
}

impl ShowMisuse {
    /// What is said of it.
    pub fn text(self) -> &'static str {
        match self {
            ShowMisuse::NoFile => {
                "no FILE is named: --draw LAYER FILE and --stats FILE show one that is there"
            }
            ShowMisuse::Create =>
                "--draw and --stats show a FILE that is there: leave out --create",
            ShowMisuse::Strict => "--draw and --stats read no line: leave out --strict",
            ShowMisuse::Import => {
                "--draw and --stats put nothing in: leave out the words of an import"
            }
            ShowMisuse::Both => "--draw LAYER and --stats are two runs: leave out one of them",
            ShowMisuse::JsonAlone => "--json is for --stats: say it too",
        }
    }
}

/// Why the words do not ask for one thing of a file that is there, if they do not. (That a file is named is
/// not looked at.)
pub fn show_misuse(options: &Options<'_>) -> Option<ShowMisuse> {
    if options.json && !options.stats {
        return Some(ShowMisuse::JsonAlone);
    }
    if options.stats && options.draw.is_some() {
        return Some(ShowMisuse::Both);
    }
    if options.create {
        return Some(ShowMisuse::Create);
    }
    if options.strict {
        return Some(ShowMisuse::Strict);
    }
    if options.imports() {
        return Some(ShowMisuse::Import);
    }
    None
}

/// What is wrong with words by which lines are to be answered over a file that is only read.
#[derive(Clone, Copy, Debug, PartialEq, Eq)]
pub enum ReadMisuse {
    /// No file is named.
    NoFile,
    /// The file is to be made.
    Create,
}

impl ReadMisuse {
    /// What is said of it.
    pub fn text(self) -> &'static str {
        match self {
            ReadMisuse::NoFile => "no FILE is named: --read-only FILE reads one that is there",
            ReadMisuse::Create => "--create writes FILE: leave out --read-only",
        }
    }
}

/// Says what is wrong with the words, and answers the status.
pub fn tell_misuse<E: Write>(text: &str, errors: &mut E) -> u8
    ensures { result ≡ 2 }
{
    let _ = write!(errors, "rstore: {text}\n");
    MISUSED
}
