//! Boxes and points as commands give them, and boxes as answers show them.

use box_math::BBox;

/// A box as a command gives it: the low and the high of each axis, unchecked.
#[derive(Clone, Copy, PartialEq, Eq, Debug)]
pub enum RawBox {
    /// Two axes: the lows, and then the highs.
    Two([i32; 2], [i32; 2]),
    /// Three axes: the lows, and then the highs.
    Three([i32; 3], [i32; 3]),
}

/// A point as a command gives it: a coordinate for each axis.
#[derive(Clone, Copy, PartialEq, Eq, Debug)]
pub enum RawPoint {
    /// Two axes.
    Two([i32; 2]),
    /// Three axes.
    Three([i32; 3]),
}

/// A box of either dimension, each low at most its high.
#[derive(Clone, Copy, PartialEq, Eq, Debug)]
pub enum AnyBox {
    /// Two axes.
    Two(BBox<2>),
    /// Three axes.
    Three(BBox<3>),
}
