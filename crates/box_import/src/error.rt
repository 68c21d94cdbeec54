//! Why an import is refused.

use crate::number::NumberError;
use std::alloc::{AllocError, AllocFailed, Global};
use std::{error, fmt, io};

// How much of a text a refusal shows.
const MOST_SHOWN: usize = 60;

/// What is wrong with a field of a row, or with a member of a feature.
#[derive(Clone, Copy, PartialEq, Eq, Debug)]
pub enum Why {
    /// It is no decimal number.
    NoNumber,
    /// Times the scale it is beyond a whole number of 32 bits.
    OutOfRange,
    /// It is no whole number, and only those are taken.
    NoWhole,
    /// It is no whole number below 2^64.
    NoIdentifier,
    /// It is no whole number below 2^32.
    NoTag,
    /// It is a low, and greater than its high.
    AboveHigh,
    /// It is not there.
    Missing,
    /// It is a field more than the first row has.
    TooMany,
    /// It is no JSON, or JSON that is nested too deep.
    NoJson,
    /// The type of the line is not `Feature`.
    NoFeature,
    /// It is no geometry.
    NoGeometry,
    /// It is no position of enough numbers.
    NoPosition,
    /// It has no position.
    Empty,
    /// It is given twice.
    Twice,
}

impl Why {
    fn text(self) -> &'static str {
        match self {
            Why::NoNumber => "is no number",
            Why::OutOfRange => "is out of range",
            Why::NoWhole => "is no whole number",
            Why::NoIdentifier => "is no identifier",
            Why::NoTag => "is no tag",
            Why::AboveHigh => "is above its high",
            Why::Missing => "is missing",
            Why::TooMany => "is a field too many",
            Why::NoJson => "is no JSON",
            Why::NoFeature => "is no feature",
            Why::NoGeometry => "is no geometry",
            Why::NoPosition => "is no position",
            Why::Empty => "has no position",
            Why::Twice => "is given twice",
        }
    }
}

impl From<NumberError> for Why {
    fn from(error: NumberError) -> Why {
        match error {
            NumberError::NoDecimal => Why::NoNumber,
            NumberError::OutOfRange => Why::OutOfRange,
            NumberError::NoWhole => Why::NoWhole,
        }
    }
}

/// What is wrong with a choice of columns.
#[derive(Clone, Copy, PartialEq, Eq, Debug)]
pub enum ColumnFault {
    /// The header does not name it.
    Missing,
    /// It is named twice.
    Twice,
    /// The list of columns has no length that means anything.
    Count,
}

/// Why an import is refused.
#[derive(Debug, Drop)]
pub enum ImportError {
    /// The columns of a CSV text are not those that are wanted.
    Columns {
        /// The column's name or its number, or the list of columns where its length is wrong.
        column: String,
        /// What is wrong.
        why: ColumnFault,
    },
    /// A row of a CSV text.
    Row {
        /// Its line, counted from 1.
        line: u64,
        /// The column's name, or its number from 1 where there is no header.
        column: String,
        /// The field, up to 60 bytes of it.
        text: String,
        /// What is wrong with it.
        why: Why,
    },
    /// A line of GeoJSON.
    Feature {
        /// The line, counted from 1.
        line: u64,
        /// The member of the feature, or of its geometry or its properties.
        member: String,
        /// What stands there, up to 60 bytes of it.
        text: String,
        /// What is wrong with it.
        why: Why,
    },
    /// The input could not be read.
    Read(io::Error),
    /// Memory was refused.
    Memory,
}

impl fmt::Display for ImportError {
    fn fmt<W: fmt::Write>(&self, f: &mut fmt::Formatter<W>) -> fmt::Result {
        match self {
            ImportError::Columns { column, why } => match why {
                ColumnFault::Missing => write!(f, "no column {column}"),
                ColumnFault::Twice => write!(f, "column {column} is given twice"),
                ColumnFault::Count => write!(f, "{column:?} is no list of columns"),
            },
            ImportError::Row {
                line,
                column,
                text,
                why,
            } => write_fault(f, "column", *line, column.as_str(), text.as_str(), *why),
            ImportError::Feature {
                line,
                member,
                text,
                why,
            } => write_fault(f, "member", *line, member.as_str(), text.as_str(), *why),
            ImportError::Read(error) => write!(f, "the input could not be read: {error}"),
            ImportError::Memory => write!(f, "out of memory"),
        }
    }
}

// What is wrong at a place of a line.
fn write_fault<W: fmt::Write>(
    f: &mut fmt::Formatter<W>,
    kind: &str,
    line: u64,
    place: &str,
    text: &str,
    why: Why,
) -> fmt::Result {
    let reason = why.text();
    if why == Why::Missing {
        write!(f, "line {line}, {kind} {place}: {reason}")
    } else {
        write!(f, "line {line}, {kind} {place}: {text:?} {reason}")
    }
}

impl error::Error for ImportError {}

impl From<AllocError> for ImportError {
    fn from(_error: AllocError) -> ImportError {
        ImportError::Memory
    }
}

impl<T: Drop> From<AllocFailed<T>> for ImportError {
    fn from(_error: AllocFailed<T>) -> ImportError {
        ImportError::Memory
    }
}

impl From<io::Error> for ImportError {
    fn from(error: io::Error) -> ImportError {
        if error.kind() == io::ErrorKind::OutOfMemory {
            ImportError::Memory
        } else {
            ImportError::Read(error)
        }
    }
}

impl From<csv::Error> for ImportError {
    fn from(error: csv::Error) -> ImportError {
        match error.into_kind() {
            csv::ErrorKind::Io(error) => ImportError::from(error),
            _ => ImportError::Memory,
        }
    }
}

/// The beginning of a text, as a refusal shows it.
pub(crate) fn shown(alloc: Global, text: &[u8]) -> Result<String, AllocError> {
    String::from_utf8_lossy(alloc, &text[..text.len().min(MOST_SHOWN)])
}
