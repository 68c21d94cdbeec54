//! The least box of positions.

ghost use Rattle.std.specs.Prelude.{◌≡◌, Some, IfOk, IsTrue, option_map};
ghost use Rattle.box_import.specs.Decimals.{is_decimal, IsRoundedOutward};
ghost use Rattle.box_import.specs.Extents.{join, join_ranges, and_position, bounds_of};

use crate::number::{NumberError, scaled};
use crate::scale::Scale;
use plain_table::RawBox;

/// How many axes the boxes of an import have.
#[derive(Clone, Copy, PartialEq, Eq, Debug)]
pub enum Axes {
    /// The first two. Further coordinates of a position are not looked at.
    Two,
    /// Three. A position without a third coordinate is refused.
    Three,
}

/// The range of an axis: the least coordinate rounded down, and the greatest rounded up.
#[derive(Clone, Copy)]
pub(crate) struct Span {
    pub low: i32,
    pub high: i32,
}

impl Span {
    /// The least range of two.
    pub fn join(self, other: Span) -> Span
        ensures { result ≡ join self other }
    {
        Span {
            low: self.low.min(other.low),
            high: self.high.max(other.high),
        }
    }
}

/// A range for each of three axes: that of a position, or of several.
#[derive(Clone, Copy)]
pub(crate) struct Ranges {
    pub x: Span,
    pub y: Span,
    pub z: Span,
}

impl Ranges {
    /// The least ranges of two.
    pub fn join(self, other: Ranges) -> Ranges
        ensures { result ≡ join_ranges self other }
    {
        Ranges {
            x: self.x.join(other.x),
            y: self.y.join(other.y),
            z: self.z.join(other.z),
        }
    }
}

// The ranges of the positions so far, and of one more.
fn and_position(ranges: Option<Ranges>, position: Ranges) -> Ranges
    ensures { result ≡ and_position ranges position }
{
    match ranges {
        None => position,
        Some(ranges) => ranges.join(position),
    }
}

/// The least box of the positions so far.
#[derive(Clone, Copy)]
pub(crate) struct Extent {
    axes: Axes,
    scale: Scale,
    ranges: Option<Ranges>,
}

impl Extent {
    /// That of no position.
    pub fn new(axes: Axes, scale: Scale) -> Extent {
        Extent {
            axes,
            scale,
            ranges: None,
        }
    }

    /// How many coordinates of a position are looked at.
    pub fn dims(&self) -> usize {
        match self.axes {
            Axes::Two => 2,
            Axes::Three => 3,
        }
    }

    /// A coordinate.
    pub fn coordinate(&self, text: &[u8]) -> Result<Span, NumberError>
        ensures { IfOk result (λ span. IsTrue (is_decimal text.now)
            × IsRoundedOutward span.low span.high text.now self.now.scale.value) }
    {
        let (low, high) = scaled(text, self.scale)?;
        Ok(Span { low, high })
    }

    /// Takes in a position.
    pub fn add(&mut self, position: Ranges)
        ensures { self.new ≡ record self.old { ranges = Some (and_position self.old.ranges position) } }
    {
        self.ranges = Some(and_position(self.ranges, position));
    }

    /// The box, if there was a position.
    pub fn bounds(&self) -> Option<RawBox>
        ensures { result ≡ option_map (bounds_of self.now.axes) self.now.ranges }
    {
        let Ranges { x, y, z } = self.ranges?;
        Some(match self.axes {
            Axes::Two => RawBox::Two([x.low, y.low], [x.high, y.high]),
            Axes::Three => RawBox::Three([x.low, y.low, z.low], [x.high, y.high, z.high]),
        })
    }
}
