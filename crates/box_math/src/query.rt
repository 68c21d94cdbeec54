//! Range queries: which boxes they seek, and which boxes may hold one of those.

ghost use Rattle.std.specs.Prelude.{◌≡◌, true};
ghost use Rattle.box_math.specs.Bounds.{Bounds, meets_test};
ghost use Rattle.box_math.specs.Queries.{admits, seeks};

use crate::bounds::BBox;

/// A range query. What it seeks is told by boxes alone.
#[derive(Clone, Copy, PartialEq, Eq, Debug)]
pub enum Query<const D: usize> {
    /// The boxes that meet this one: the two share at least one point, so boxes that touch meet.
    Window(BBox<D>),
    /// The boxes within this one.
    Inside(BBox<D>),
    /// The boxes that enclose this one.
    Around(BBox<D>),
    /// The boxes that hold this point.
    Point([i32; D]),
}

impl<const D: usize> Query<D> {
    /// Whether it seeks the box.
    pub fn seeks(&self, bounds: &BBox<D>) -> bool
        ensures { result ≡ seeks self.now bounds.now }
    {
        match self {
            Query::Window(window) => bounds.meets(window),
            Query::Inside(window) => bounds.within(window),
            Query::Around(inner) => bounds.encloses(inner),
            Query::Point(point) => bounds.holds_point(point),
        }
    }

    /// Whether a box within this one may be sought.
    pub fn admits(&self, bounds: &BBox<D>) -> bool
        ensures { result ≡ admits self.now bounds.now }
    {
        match self {
            Query::Window(window) | Query::Inside(window) => bounds.meets(window),
            Query::Around(inner) => bounds.encloses(inner),
            Query::Point(point) => bounds.holds_point(point),
        }
    }

    /// A box that each admitted box meets, and so each one that is sought.
    pub fn reach(&self) -> BBox<D>
        ensures { (b : Bounds) → admits self.now b ≡ true → meets_test D b result ≡ true }
    {
        match self {
            Query::Window(window) | Query::Inside(window) => *window,
            Query::Around(inner) => {
                // a box that was looked at is known to be ordered
                let _ = inner.low();
                *inner
            }
            Query::Point(point) => BBox::try_new(*point, *point).unwrap(),
        }
    }
}
