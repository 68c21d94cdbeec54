//! Two axes and three: what a layer's dimension makes of boxes and points.

ghost use Rattle.std.specs.Prelude.{◌≡◌, ◌==◌, [], MatchResult, None, Some};
ghost use Rattle.box_math.specs.Bounds.{IsDims};
ghost use Rattle.plain_table.specs.Boxes.{dims_of, given_bounds, given_point, shown_bounds};
ghost use Rattle.plain_table.specs.Step.{box_refusals, first_refusal, point_refusals};

use crate::boxes::{AnyBox, RawBox, RawPoint};
use crate::refusal::Refusal;
use box_math::BBox;

/// The dimensions that a layer may have: `Axes` is `Dimension<2>` and `Dimension<3>`, so that what is written
/// once for `D` axes, with the bound `Axes: Dimension<D>`, serves both.
pub struct Axes;

/// A dimension that a layer may have.
pub trait Dimension<const D: usize> {
    /// Whether a box as a command gives it has so many axes.
    fn has(given: &RawBox) -> bool
        ensures { result ≡ (dims_of given.now == D) };

    /// The box that a command gives. Refused, in this order, by WrongDims and BadBox.
    fn bounds(given: RawBox) -> Result<BBox<D>, Refusal>
        ensures { MatchResult result
            (λ b. (first_refusal (box_refusals D given []) ≡ None) × (b ≡ given_bounds given))
            (λ e. first_refusal (box_refusals D given []) ≡ Some e) };

    /// The point that a command gives. Refused by WrongDims.
    fn point(given: RawPoint) -> Result<[i32; D], Refusal>
        ensures { MatchResult result
            (λ p. (first_refusal (point_refusals D given []) ≡ None) × (p ≡ given_point given))
            (λ e. first_refusal (point_refusals D given []) ≡ Some e) };

    /// The box as a reply shows it.
    fn shown(bounds: BBox<D>) -> AnyBox
        ensures { shown_bounds result ≡ bounds.entry };

    ghost dims: { IsDims D };
}

impl Dimension<2> for Axes {
    ghost use Rattle.std.proofs.Common.{rules};

    fn has(given: &RawBox) -> bool {
        matches!(given, RawBox::Two(..))
    }

    fn bounds(given: RawBox) -> Result<BBox<2>, Refusal> {
        match given {
            RawBox::Two(low, high) => BBox::try_new(low, high).ok_or(Refusal::BadBox),
            RawBox::Three(..) => Err(Refusal::WrongDims),
        }
    }

    fn point(given: RawPoint) -> Result<[i32; 2], Refusal> {
        match given {
            RawPoint::Two(point) => Ok(point),
            RawPoint::Three(_) => Err(Refusal::WrongDims),
        }
    }

    fn shown(bounds: BBox<2>) -> AnyBox
        ensures { shown_bounds result ≡ bounds }
    {
        AnyBox::Two(bounds)
    }

    ghost dims = { Prim.search rules };
}

impl Dimension<3> for Axes {
    ghost use Rattle.std.proofs.Common.{rules};

    fn has(given: &RawBox) -> bool {
        matches!(given, RawBox::Three(..))
    }

    fn bounds(given: RawBox) -> Result<BBox<3>, Refusal> {
        match given {
            RawBox::Two(..) => Err(Refusal::WrongDims),
            RawBox::Three(low, high) => BBox::try_new(low, high).ok_or(Refusal::BadBox),
        }
    }

    fn point(given: RawPoint) -> Result<[i32; 3], Refusal> {
        match given {
            RawPoint::Two(_) => Err(Refusal::WrongDims),
            RawPoint::Three(point) => Ok(point),
        }
    }

    fn shown(bounds: BBox<3>) -> AnyBox
        ensures { shown_bounds result ≡ bounds }
    {
        AnyBox::Three(bounds)
    }

    ghost dims = { Prim.search rules };
}
