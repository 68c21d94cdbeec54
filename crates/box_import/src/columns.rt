//! Which columns of a CSV text are read.

use crate::error::{ColumnFault, ImportError, shown};
use crate::fields::whole_number;
use crate::places::{Named, Places, Role};
use arrayvec::ArrayVec;
use csv::ByteRecord;
use std::alloc::Global;

// How many columns a list has at most.
const MOST_LISTED: usize = 8;

/// Which columns of a CSV text hold an object's identifier, its box and its tag (docs/COMMANDS.md, "Import").
#[derive(Clone, Copy, PartialEq, Eq, Debug)]
pub enum Columns<'a> {
    /// Those that the header names so: `id`, `minx`, `miny`, `maxx`, `maxy`, `tag`, and the like.
    Header,
    /// Those of a list: `id,minx,miny,maxx,maxy,tag`, each by its name in the header or by its number from 1.
    Listed(&'a [u8]),
}

impl Columns<'_> {
    /// Whether the text has a header: all have one but those whose columns are listed by numbers alone.
    pub fn has_header(&self) -> bool {
        match self {
            Columns::Header => true,
            Columns::Listed(list) => list.split(|byte| *byte == b',').any(is_name),
        }
    }

    /// Where the columns stand, in a text with this header.
    pub(crate) fn places(&self, alloc: Global, header: &ByteRecord) -> Result<Places, ImportError> {
        match self {
            Columns::Header => named(alloc, header),
            Columns::Listed(list) => listed(alloc, list, header),
        }
    }
}

// Whether a column is listed by its name.
fn is_name(entry: &[u8]) -> bool {
    let entry = entry.trim_ascii();
    !entry.is_empty() && whole_number(entry).is_none()
}

// A refusal of columns.
fn refused(alloc: Global, column: &[u8], why: ColumnFault) -> ImportError {
    match shown(alloc, column) {
        Ok(column) => ImportError::Columns { column, why },
        Err(_) => ImportError::Memory,
    }
}

// The columns that a header names.
fn named(alloc: Global, header: &ByteRecord) -> Result<Places, ImportError> {
    let mut found = Named::new();
    for place in 0..header.len() {
        let name = header.get(place).unwrap_or_default().trim_ascii();
        if let Some(role) = Role::of(name) {
            if !found.set(role, place) {
                return Err(refused(alloc, name, ColumnFault::Twice));
            }
        }
    }
    match found.places() {
        Ok(places) => Ok(places),
        Err(role) => Err(refused(alloc, role.name().as_bytes(), ColumnFault::Missing)),
    }
}

// The columns that a list names, in a text with this header, which is empty where all are numbers.
// Where the first entry is empty, no column is the identifier.
fn listed(alloc: Global, list: &[u8], header: &ByteRecord) -> Result<Places, ImportError> {
    let mut id = None;
    let mut others: ArrayVec<usize, MOST_LISTED> = ArrayVec::new();
    for (at, entry) in list.split(|byte| *byte == b',').enumerate() {
        let entry = entry.trim_ascii();
        if at == 0 && entry.is_empty() {
            continue;
        }
        let place = place_in(alloc, entry, header)?;
        if at == 0 {
            id = Some(place);
        } else if others.try_push(place).is_err() {
            return Err(refused(alloc, list, ColumnFault::Count));
        }
    }
    let Some(places) = Places::in_order(id, others.as_slice()) else {
        return Err(refused(alloc, list, ColumnFault::Count));
    };
    match places.are_apart() {
        Ok(()) => Ok(places),
        Err(place) => {
            let entry = last_to(place, list, others.as_slice());
            Err(refused(alloc, entry, ColumnFault::Twice))
        }
    }
}

// The last entry of a list that leads to a place. Behind the first entry they lead to the places `others`.
fn last_to<'l>(place: usize, list: &'l [u8], others: &[usize]) -> &'l [u8] {
    let mut last = list;
    let entries = list.split(|byte| *byte == b',').skip(1);
    for (entry, leads_to) in entries.zip(others.iter()) {
        if *leads_to == place {
            last = entry.trim_ascii();
        }
    }
    last
}

// The place of a column that a list names.
fn place_in(alloc: Global, entry: &[u8], header: &ByteRecord) -> Result<usize, ImportError> {
    let place = match whole_number(entry) {
        Some(number) => numbered(number),
        None => place_of(alloc, entry, header)?,
    };
    match place {
        Some(place) => Ok(place),
        None => Err(refused(alloc, entry, ColumnFault::Missing)),
    }
}

// The place of a column by its number from 1.
fn numbered(number: u64) -> Option<usize> {
    usize::try_from(number.checked_sub(1)?).ok()
}

// The place of the column with this name, if the header has it.
fn place_of(alloc: Global, name: &[u8], header: &ByteRecord) -> Result<Option<usize>, ImportError> {
    let mut found = None;
    for place in 0..header.len() {
        let here = header.get(place).unwrap_or_default().trim_ascii();
        if here.eq_ignore_ascii_case(name) {
            if found.is_some() {
                return Err(refused(alloc, name, ColumnFault::Twice));
            }
            found = Some(place);
        }
    }
    Ok(found)
}
