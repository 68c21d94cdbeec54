//! Objects from the rows of a CSV text.

ghost use Rattle.std.specs.Prelude.{IfOk, IfSome};
ghost use Rattle.csv.specs.Records.{fields_of};
ghost use Rattle.box_import.specs.Rows.{IsObjectOf};

use crate::ImportedObject;
use crate::columns::Columns;
use crate::coordinates::{FieldFault, object_of};
use crate::error::{ImportError, Why, shown};
use crate::line_reader::LineReader;
use crate::places::{BoxPlaces, Places};
use crate::scale::Scale;
use csv::{ByteRecord, Reader, ReaderBuilder};
use std::alloc::Global;
use std::io::BufRead;

/// The objects of a CSV text, row by row.
#[derive(Drop)]
pub struct CsvRows<R: BufRead> {
    alloc: Global,
    reader: Reader<LineReader<R>>,
    // The names of the columns, none where the text has no header.
    names: ByteRecord,
    row: ByteRecord,
    // How many fields each row has, once it is known.
    width: Option<usize>,
    places: Places,
    scale: Scale,
    // How many rows were read.
    count: u64,
}

impl<R: BufRead + Drop> CsvRows<R> {
    /// Reads the header of a text, if it has one, and looks for the columns.
    pub fn new(
        alloc: Global,
        input: R,
        columns: &Columns<'_>,
        scale: Scale,
    ) -> Result<CsvRows<R>, ImportError> {
        let mut reader = ReaderBuilder::new()
            .has_headers(false)
            .flexible(true)
            .from_reader(alloc, LineReader::new(input));
        let mut names = ByteRecord::new(alloc);
        let mut width = None;
        if columns.has_header() {
            let _found = reader.read_byte_record(&mut names)?;
            width = Some(names.len());
        }
        let places = columns.places(alloc, &names)?;
        Ok(CsvRows {
            alloc,
            reader,
            names,
            row: ByteRecord::new(alloc),
            width,
            places,
            scale,
            count: 0,
        })
    }

    /// The object of the next row, `None` at the end of the text. Rows of blanks alone are passed over.
    pub fn next(&mut self) -> Result<Option<ImportedObject>, ImportError>
        ensures { IfOk result (λ found. IfSome found (λ o. IsObjectOf (fields_of self.new.row) self.new.places
            self.new.scale.value self.new.count o.0 o.1 o.2)) }
    {
        if !self.read_row()? {
            return Ok(None);
        }
        self.count = self.count.saturating_add(1);
        match self.object() {
            Ok(object) => Ok(Some(object)),
            Err(fault) => Err(self.refusal(fault)),
        }
    }

    /// How many axes the boxes of the objects have.
    pub fn dims(&self) -> u64 {
        match self.places.bounds {
            BoxPlaces::Two(..) => 2,
            BoxPlaces::Three(..) => 3,
        }
    }

    /// How many rows were read.
    pub fn count(&self) -> u64 {
        self.count
    }

    // Reads the next row that is not blank, and answers whether there is one.
    fn read_row(&mut self) -> Result<bool, ImportError> {
        for _ in 0..u64::MAX {
            if !self.reader.read_byte_record(&mut self.row)? {
                return Ok(false);
            }
            if self.row.len() != 1
                || self
                    .row
                    .get(0)
                    .is_some_and(|field| !field.trim_ascii().is_empty())
            {
                return Ok(true);
            }
        }
        Ok(false)
    }

    // The object of the row.
    fn object(&mut self) -> Result<ImportedObject, FieldFault>
        ensures { IfOk result (λ o. IsObjectOf (fields_of self.new.row) self.new.places self.new.scale.value
            self.new.count o.0 o.1 o.2) }
    {
        let width = *self.width.get_or_insert(self.row.len());
        let len = self.row.len();
        if len < width {
            return Err(FieldFault {
                place: len,
                why: Why::Missing,
            });
        }
        if len > width {
            return Err(FieldFault {
                place: width,
                why: Why::TooMany,
            });
        }
        object_of(&self.row, &self.places, self.scale, self.count)
    }

    // The line that the row begins in: that it ends in, less the newlines in its fields.
    fn line(&self) -> u64 {
        let newlines = self
            .row
            .as_slice()
            .iter()
            .filter(|byte| **byte == b'\n')
            .count();
        self.reader
            .get_ref()
            .lines()
            .saturating_sub(newlines as u64)
    }

    // What is said of a fault of the row.
    fn refusal(&self, fault: FieldFault) -> ImportError {
        let FieldFault { place, why } = fault;
        let line = self.line();
        let column = match self.names.get(place) {
            Some(name) => shown(self.alloc, name.trim_ascii()),
            None => format!(in self.alloc; "{}", place.saturating_add(1)),
        };
        let text = shown(
            self.alloc,
            self.row.get(place).unwrap_or_default().trim_ascii(),
        );
        match (column, text) {
            (Ok(column), Ok(text)) => ImportError::Row {
                line,
                column,
                text,
                why,
            },
            _ => ImportError::Memory,
        }
    }
}

/// The objects of a CSV text: an identifier, a box and a tag for each row (docs/COMMANDS.md, "Import").
/// A row is refused by its line, its column and its text.
pub fn read_csv<R: BufRead + Drop>(
    alloc: Global,
    input: R,
    columns: &Columns<'_>,
    scale: Scale,
) -> Result<Vec<ImportedObject>, ImportError> {
    let mut rows = CsvRows::new(alloc, input, columns, scale)?;
    let mut objects = Vec::new(alloc);
    for _ in 0..u64::MAX {
        match rows.next()? {
            Some(object) => objects.push(object)?,
            None => break,
        }
    }
    Ok(objects)
}
