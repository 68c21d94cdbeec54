//! The objects that rows are.

ghost use Rattle.std.specs.Prelude.{◌≡◌, ◌≤ℤ◌, IfOk};
ghost use Rattle.csv.specs.Records.{fields_of};
ghost use Rattle.box_import.specs.declared.places.BoxPlaces.TheVariants as at;
ghost use Rattle.box_import.specs.Rows.{IsFieldText, IsCoordinateOf, IsSpanOf, IsBoxOf, IsNumberAt, IsTagAt};
ghost use Rattle.box_import.specs.Rows.{IsObjectOf};

use crate::ImportedObject;
use crate::error::Why;
use crate::fields::whole_number;
use crate::number::scaled;
use crate::places::{BoxPlaces, Places};
use crate::scale::Scale;
use csv::ByteRecord;
use plain_table::RawBox;

/// What is wrong with a row, and with which of its fields.
#[derive(Clone, Copy, PartialEq, Eq, Debug)]
pub(crate) struct FieldFault {
    pub place: usize,
    pub why: Why,
}

/// The object of a row. Its identifier is `number` where no column has one, and its tag is 0 where no column
/// has one or the field is empty.
pub(crate) fn object_of(
    row: &ByteRecord,
    places: &Places,
    scale: Scale,
    number: u64,
) -> Result<ImportedObject, FieldFault>
    ensures { IfOk result (λ o. IsObjectOf (fields_of row.now) places.now scale.value number o.0 o.1 o.2) }
{
    let id = match places.id {
        Some(place) => number_at(row, place)?,
        None => number,
    };
    let bounds = box_at(row, places.bounds, scale)?;
    let tag = match places.tag {
        Some(place) => tag_at(row, place)?,
        None => 0,
    };
    Ok((id, bounds, tag))
}

// The field of a row, without blanks around it.
fn field(row: &ByteRecord, place: usize) -> Result<&[u8], FieldFault>
    ensures { IfOk result (λ text. IsFieldText (fields_of row.now) place text.now) }
{
    match row.get(place) {
        Some(text) => Ok(text.trim_ascii()),
        None => Err(FieldFault {
            place,
            why: Why::Missing,
        }),
    }
}

// The identifier that a field is.
fn number_at(row: &ByteRecord, place: usize) -> Result<u64, FieldFault>
    ensures { IfOk result (λ number. IsNumberAt (fields_of row.now) place number) }
{
    match whole_number(field(row, place)?) {
        Some(number) => Ok(number),
        None => Err(FieldFault {
            place,
            why: Why::NoIdentifier,
        }),
    }
}

// The tag that a field is, 0 where it is empty.
fn tag_at(row: &ByteRecord, place: usize) -> Result<u32, FieldFault>
    ensures { IfOk result (λ tag. IsTagAt (fields_of row.now) place tag) }
{
    let text = field(row, place)?;
    if text.is_empty() {
        return Ok(0);
    }
    match whole_number(text) {
        Some(number) if number <= u64::from(u32::MAX) => Ok(number as u32),
        _ => Err(FieldFault {
            place,
            why: Why::NoTag,
        }),
    }
}

// The box at these places.
fn box_at(row: &ByteRecord, places: BoxPlaces, scale: Scale) -> Result<RawBox, FieldFault>
    ensures { IfOk result (λ bounds. IsBoxOf (fields_of row.now) places scale.value bounds) }
{
    match places {
        BoxPlaces::Two(low, high) => two_axes(row, low, high, scale),
        BoxPlaces::Three(low, high) => three_axes(row, low, high, scale),
    }
}

// The box of two lows and two highs.
fn two_axes(
    row: &ByteRecord,
    low: [usize; 2],
    high: [usize; 2],
    scale: Scale,
) -> Result<RawBox, FieldFault>
    ensures { IfOk result (λ bounds. IsBoxOf (fields_of row.now) (at.Two low high) scale.value bounds) }
{
    let x = span(row, low[0], high[0], scale)?;
    let y = span(row, low[1], high[1], scale)?;
    Ok(RawBox::Two([x.0, y.0], [x.1, y.1]))
}

// The box of three lows and three highs.
fn three_axes(
    row: &ByteRecord,
    low: [usize; 3],
    high: [usize; 3],
    scale: Scale,
) -> Result<RawBox, FieldFault>
    ensures { IfOk result
        (λ bounds. IsBoxOf (fields_of row.now) (at.Three low high) scale.value bounds) }
{
    let x = span(row, low[0], high[0], scale)?;
    let y = span(row, low[1], high[1], scale)?;
    let z = span(row, low[2], high[2], scale)?;
    Ok(RawBox::Three([x.0, y.0, z.0], [x.1, y.1, z.1]))
}

// The range of an axis: the low rounded down, and the high rounded up.
fn span(row: &ByteRecord, low: usize, high: usize, scale: Scale) -> Result<(i32, i32), FieldFault>
    ensures { IfOk result (λ p. IsSpanOf (fields_of row.now) low high scale.value p.0 p.1) }
{
    let lows = coordinate(row, low, scale)?;
    let highs = coordinate(row, high, scale)?;
    if lows.0 > highs.0 || lows.1 > highs.1 {
        return Err(FieldFault {
            place: low,
            why: Why::AboveHigh,
        });
    }
    Ok((lows.0, highs.1))
}

// The coordinate that a field is, rounded down and rounded up.
fn coordinate(row: &ByteRecord, place: usize, scale: Scale) -> Result<(i32, i32), FieldFault>
    ensures { IfOk result (λ p. IsCoordinateOf (fields_of row.now) place scale.value p.0 p.1) }
{
    match scaled(field(row, place)?, scale) {
        Ok(both) => Ok(both),
        Err(error) => Err(FieldFault {
            place,
            why: Why::from(error),
        }),
    }
}
