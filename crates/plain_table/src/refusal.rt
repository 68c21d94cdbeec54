//! Why a command, or the making or opening of a store, is refused; and the number and name that replies show.

ghost use Rattle.std.specs.Prelude.{◌≡◌, ◌≤◌, length};
ghost use Rattle.plain_table.specs.Refusals.{refusal_name, refusal_number};

use std::alloc::{AllocError, AllocFailed};
use thiserror::Error;

/// Why a command was refused. Each has a number and a name, which its reply shows (docs/COMMANDS.md).
#[derive(Clone, Copy, PartialEq, Eq, Debug, Error)]
pub enum Refusal {
    /// A layer name is 1 to 24 letters `a-z`, digits and underscores, the first a letter.
    #[error("not a layer name")]
    BadName,
    /// A layer of that name is there.
    #[error("a layer of that name is there")]
    LayerExists,
    /// No layer has that name.
    #[error("no layer of that name")]
    NoLayer,
    /// A layer has two or three axes.
    #[error("a layer has two or three axes")]
    BadDims,
    /// A node has room for 4 to 100 entries.
    #[error("a fanout is 4 to 100")]
    BadFanout,
    /// A store has at most 60 layers.
    #[error("there are 60 layers")]
    TooManyLayers,
    /// A low is above its high.
    #[error("a low is above its high")]
    BadBox,
    /// The box or point has another number of axes than the layer.
    #[error("another number of axes than the layer")]
    WrongDims,
    /// An object of that identifier is there.
    #[error("an object of that identifier is there")]
    Duplicate,
    /// No object has that identifier.
    #[error("no object of that identifier")]
    NoObject,
    /// A store has at most 2^30 objects in all layers together.
    #[error("there would be more than 2^30 objects")]
    TooManyObjects,
    /// Only an empty layer is loaded.
    #[error("the layer has objects")]
    NotEmpty,
    /// This is the least identifier that a load has twice.
    #[error("identifier {0} stands twice in the load")]
    DuplicateInLoad(u64),
    /// The nearest 1 to 1,000,000 objects can be asked for.
    #[error("a count is 1 to 1000000")]
    BadCount,
    /// The two layers have different numbers of axes.
    #[error("the layers have different numbers of axes")]
    DimsDiffer,
    /// Memory was refused. The table is as it was.
    #[error("no memory")]
    Memory,
    /// The device failed in this call. The table is as it was.
    #[error("the device failed")]
    Device,
    /// This page is not what it must be.
    #[error("page {0} is damaged")]
    Damaged(u32),
    /// The store failed half way through a change or a reopening, by the fault of this number, or had failed
    /// before (19).
    #[error("the store failed: {0}")]
    StoreFailed(u8),
    /// The file was not closed.
    #[error("the file was not closed")]
    NotClosed,
    /// The file holds no store.
    #[error("not a store")]
    NotAStore,
    /// The file has a version that is not known.
    #[error("a version that is not known")]
    WrongVersion,
    /// A cache holds 8 to 4096 pages.
    #[error("a cache holds 8 to 4096 pages")]
    BadCache,
    /// The line is none of the language.
    #[error("not a command")]
    BadLine,
    /// Each page number is live, which a sound store never comes to.
    #[error("no page number is left")]
    NoPages,
}

impl Refusal {
    /// Its number, which its reply shows.
    pub fn number(self) -> u8
        ensures { result ≡ refusal_number self }
    {
        match self {
            Refusal::BadName => 1,
            Refusal::LayerExists => 2,
            Refusal::NoLayer => 3,
            Refusal::BadDims => 4,
            Refusal::BadFanout => 5,
            Refusal::TooManyLayers => 6,
            Refusal::BadBox => 7,
            Refusal::WrongDims => 8,
            Refusal::Duplicate => 9,
            Refusal::NoObject => 10,
            Refusal::TooManyObjects => 11,
            Refusal::NotEmpty => 12,
            Refusal::DuplicateInLoad(_) => 13,
            Refusal::BadCount => 14,
            Refusal::DimsDiffer => 15,
            Refusal::Memory => 16,
            Refusal::Device => 17,
            Refusal::Damaged(_) => 18,
            Refusal::StoreFailed(_) => 19,
            Refusal::NotClosed => 20,
            Refusal::NotAStore => 21,
            Refusal::WrongVersion => 22,
            Refusal::BadCache => 23,
            Refusal::BadLine => 24,
            Refusal::NoPages => 25,
        }
    }

    /// Its name, which its reply shows. It has at most 15 bytes.
    pub fn name(self) -> &'static str
        ensures name { result.now ≡ refusal_name self }
        ensures short { length result.now ≤ 15 }
    {
        match self {
            Refusal::BadName => "BadName",
            Refusal::LayerExists => "LayerExists",
            Refusal::NoLayer => "NoLayer",
            Refusal::BadDims => "BadDims",
            Refusal::BadFanout => "BadFanout",
            Refusal::TooManyLayers => "TooManyLayers",
            Refusal::BadBox => "BadBox",
            Refusal::WrongDims => "WrongDims",
            Refusal::Duplicate => "Duplicate",
            Refusal::NoObject => "NoObject",
            Refusal::TooManyObjects => "TooManyObjects",
            Refusal::NotEmpty => "NotEmpty",
            Refusal::DuplicateInLoad(_) => "DuplicateInLoad",
            Refusal::BadCount => "BadCount",
            Refusal::DimsDiffer => "DimsDiffer",
            Refusal::Memory => "Memory",
            Refusal::Device => "Device",
            Refusal::Damaged(_) => "Damaged",
            Refusal::StoreFailed(_) => "StoreFailed",
            Refusal::NotClosed => "NotClosed",
            Refusal::NotAStore => "NotAStore",
            Refusal::WrongVersion => "WrongVersion",
            Refusal::BadCache => "BadCache",
            Refusal::BadLine => "BadLine",
            Refusal::NoPages => "NoPages",
        }
    }
}

impl From<AllocError> for Refusal {
    ghost use Rattle.std.specs.Prelude.{◌≡◌};
    ghost use Rattle.plain_table.specs.declared.refusal.Refusal.TheVariants.{Memory};

    ghost from_gives = { λ _ refusal. refusal ≡ Memory };

    fn from(_: AllocError) -> Self {
        Refusal::Memory
    }
}

impl<T: Drop> From<AllocFailed<T>> for Refusal {
    ghost use Rattle.std.specs.Prelude.{◌≡◌};
    ghost use Rattle.plain_table.specs.declared.refusal.Refusal.TheVariants.{Memory};

    ghost from_gives = { λ _ refusal. refusal ≡ Memory };

    fn from(_: AllocFailed<T>) -> Self {
        Refusal::Memory
    }
}
