//! Where a box goes on the picture.

ghost use Rattle.std.specs.Prelude.{◌≡◌, ◌≤◌, ◌<◌, ◌*◌, ◌/◌};
ghost use Rattle.box_math.specs.Bounds.{IsDims};

use box_math::BBox;

/// The width of the picture in its own units, ten of which are a pixel where it is shown as wide as it says.
pub(crate) const WIDTH: u64 = 10_000;

/// What is left free round the map.
pub(crate) const MARGIN: u64 = 300;

// How wide the map is at most, and how high.
const SIDE: u64 = 9_400;

// A line that has no length would not be drawn.
const LEAST: u64 = 6;

/// A rectangle of the picture, in its units.
#[derive(Clone, Copy, PartialEq, Eq, Debug)]
pub(crate) struct Rectangle {
    pub(crate) left: u64,
    pub(crate) top: u64,
    pub(crate) width: u64,
    pub(crate) height: u64,
}

/// How the plane of the first two axes lies on the picture: one scale for both axes, and the second axis
/// upwards.
#[derive(Clone, Copy, PartialEq, Eq, Debug)]
pub(crate) struct Frame {
    /// The corners of what is seen.
    pub(crate) low: [i32; 2],
    pub(crate) high: [i32; 2],
    // the length in the plane that the side of the map shows
    length: u64,
    left: u64,
    top: u64,
    ghost some: { 0 < length },
}

impl Frame {
    /// The frame that just holds a box seen from above, its map below so much of the picture.
    pub(crate) fn round<const D: usize>(bounds: &BBox<D>, top: u64) -> Frame
        requires { IsDims D }
    {
        let (low, high) = (plane_low(bounds), plane_high(bounds));
        let across = high[0].abs_diff(low[0]);
        let up = high[1].abs_diff(low[1]);
        let length = u64::from(across.max(up).max(1));
        let left = MARGIN + SIDE.saturating_sub(scaled(across, length)) / 2;
        Frame {
            low,
            high,
            length,
            left,
            top,
        }
    }

    /// How high the map is.
    pub(crate) fn height(&self) -> u64
        ensures { result ≤ 9400 }
    {
        scaled(self.high[1].abs_diff(self.low[1]), self.length)
    }

    /// Where a box goes, seen from above. What lies outside the frame goes to its edge.
    pub(crate) fn place<const D: usize>(&self, bounds: &BBox<D>) -> Rectangle
        requires { IsDims D }
    {
        let (low, high) = (plane_low(bounds), plane_high(bounds));
        let left = self.across(low[0]);
        let top = self.down(high[1]);
        Rectangle {
            left: self.left.saturating_add(left),
            top: self.top.saturating_add(top),
            width: self.across(high[0]).saturating_sub(left).max(LEAST),
            height: self.down(low[1]).saturating_sub(top).max(LEAST),
        }
    }

    // How far a coordinate of the first axis lies from the left edge of the map.
    fn across(&self, x: i32) -> u64 {
        scaled(
            x.max(self.low[0]).min(self.high[0]).abs_diff(self.low[0]),
            self.length,
        )
    }

    // How far one of the second axis lies below the upper edge.
    fn down(&self, y: i32) -> u64 {
        scaled(
            y.max(self.low[1]).min(self.high[1]).abs_diff(self.high[1]),
            self.length,
        )
    }
}

// A length of the plane in units of the picture, rounded down, where the side of the map shows so much.
fn scaled(length: u32, whole: u64) -> u64
    requires { 0 < whole }
    ensures value { length ≤ whole → result ≡ length * 9400 / whole }
    ensures within { result ≤ 9400 }
{
    (u64::from(length) * SIDE / whole).min(SIDE)
}

// The corners of a box on the first two axes.
fn plane_low<const D: usize>(bounds: &BBox<D>) -> [i32; 2]
    requires { IsDims D }
{
    let low = bounds.low();
    [low[0], low[1]]
}

fn plane_high<const D: usize>(bounds: &BBox<D>) -> [i32; 2]
    requires { IsDims D }
{
    let high = bounds.high();
    [high[0], high[1]]
}
