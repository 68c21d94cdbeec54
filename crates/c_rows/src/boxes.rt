//! Boxes, points and queries of numbers in a row.
ghost use Rattle.std.specs.Prelude.{◌≡◌};
ghost use Rattle.c_rows.specs.Boxes.{box_query, raw_box, raw_point, raw_query};

use plain_table::{RawBox, RawPoint, RawQuery};

/// The box of 4 or 6 numbers, the lows and then the highs.
pub fn raw_box(numbers: &[i32]) -> Option<RawBox>
    ensures { result ≡ raw_box numbers.now }
{
    match *numbers {
        [a, b, c, d] => Some(RawBox::Two([a, b], [c, d])),
        [a, b, c, d, e, f] => Some(RawBox::Three([a, b, c], [d, e, f])),
        _ => None,
    }
}

/// The point of 2 or 3 numbers.
pub fn raw_point(numbers: &[i32]) -> Option<RawPoint>
    ensures { result ≡ raw_point numbers.now }
{
    match *numbers {
        [x, y] => Some(RawPoint::Two([x, y])),
        [x, y, z] => Some(RawPoint::Three([x, y, z])),
        _ => None,
    }
}

/// The range query of this kind: a window (0), within a box (1), around a box (2), or of a point (3).
pub fn raw_query(kind: u32, numbers: &[i32]) -> Option<RawQuery>
    ensures { result ≡ raw_query kind numbers.now }
{
    if kind == 3 {
        return match raw_point(numbers) {
            Some(point) => Some(RawQuery::Point(point)),
            None => None,
        };
    }
    match raw_box(numbers) {
        Some(bounds) => box_query(kind, bounds),
        None => None,
    }
}

// The query of a box.
fn box_query(kind: u32, bounds: RawBox) -> Option<RawQuery>
    ensures { result ≡ box_query kind bounds }
{
    if kind == 0 {
        return Some(RawQuery::Window(bounds));
    }
    if kind == 1 {
        return Some(RawQuery::Inside(bounds));
    }
    if kind == 2 {
        return Some(RawQuery::Around(bounds));
    }
    None
}
