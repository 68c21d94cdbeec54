//! How the program is to run.
ghost use Rattle.std.specs.Prelude.{◌≡◌, true};
ghost use Rattle.program_words.specs.Words.{is_cache};

use page_file::Version;

/// The words of an import, as they were given.
#[derive(Clone, Copy, Debug, PartialEq, Eq)]
pub struct ImportWords<'a> {
    /// The layer, with a fanout or not.
    pub layer: Option<&'a str>,
    /// Which columns of CSV are read, or which properties of features.
    pub columns: Option<&'a str>,
    /// What coordinates are multiplied by.
    pub scale: Option<&'a str>,
    /// How many axes of features are read.
    pub axes: Option<&'a str>,
    /// Whether the lines are features of GeoJSON.
    pub geojson: bool,
}

/// What a store is held to that is made or opened.
#[derive(Clone, Copy, Debug, PartialEq, Eq)]
pub struct Limits {
    /// How many pages it caches, 8 to 4096.
    pub cache: u32,
    /// The newest version that its file may have. With `Version::Two` a file of version 3 is refused, each
    /// layer that is made has chains of identifiers, and a file of version 2 stays one; with `Version::Three`
    /// it has a tree of them, and the file is of version 3 from then on. What is there already stays as it is.
    pub newest: Version,
}

/// How the program is to run.
#[derive(Clone, Copy, Debug, PartialEq, Eq)]
pub struct Options<'a> {
    /// What the store is held to.
    pub limits: Limits,
    /// Whether the file is to be made.
    pub create: bool,
    /// Whether the file is only to be read.
    pub read_only: bool,
    /// Whether the first line that is refused ends the run.
    pub strict: bool,
    /// The layer whose tree is to be drawn, if one is.
    pub draw: Option<&'a str>,
    /// Whether the statistics of the layers are to be told.
    pub stats: bool,
    /// Whether they are to be told as JSON.
    pub json: bool,
    /// What is to be imported, if anything is.
    pub import: ImportWords<'a>,
    /// The file, or none for a store in memory.
    pub file: Option<&'a str>,
    pub ghost fit: { is_cache limits.cache ≡ true },
}
