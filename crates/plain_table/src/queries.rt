//! Range queries as commands give them.

ghost use Rattle.std.specs.Prelude.{◌≡◌, MatchResult, None, Some};
ghost use Rattle.plain_table.specs.Nearest.{is_count};
ghost use Rattle.plain_table.specs.Queries.{given_query};
ghost use Rattle.plain_table.specs.Step.{first_refusal, query_refusals};

use crate::axes::{Axes, Dimension};
use crate::boxes::{RawBox, RawPoint};
use crate::limits::MOST_NEAREST;
use crate::refusal::Refusal;
use box_math::Query;

/// A range query as a command gives it, its box or point unchecked.
#[derive(Clone, Copy, PartialEq, Eq, Debug)]
pub enum RawQuery {
    /// The boxes that meet this one: the two share at least one point, so boxes that touch meet.
    Window(RawBox),
    /// The boxes within this one.
    Inside(RawBox),
    /// The boxes that enclose this one.
    Around(RawBox),
    /// The boxes that hold this point.
    Point(RawPoint),
}

/// Whether so many nearest objects may be asked for: 1 to 1,000,000.
pub fn is_count(k: u64) -> bool
    ensures { result ≡ is_count k }
{
    k >= 1 && k <= MOST_NEAREST
}

impl RawQuery {
    /// The query in a layer of `D` axes. Refused, in this order, by WrongDims and BadBox.
    pub fn in_axes<const D: usize>(self) -> Result<Query<D>, Refusal>
    where
        Axes: Dimension<D>,
        ensures { MatchResult result
            (λ query. (first_refusal (query_refusals D self) ≡ None) × (query ≡ given_query self))
            (λ e. first_refusal (query_refusals D self) ≡ Some e) }
    {
        match self {
            RawQuery::Window(window) => Ok(Query::Window(<Axes as Dimension<D>>::bounds(window)?)),
            RawQuery::Inside(window) => Ok(Query::Inside(<Axes as Dimension<D>>::bounds(window)?)),
            RawQuery::Around(inner) => Ok(Query::Around(<Axes as Dimension<D>>::bounds(inner)?)),
            RawQuery::Point(point) => Ok(Query::Point(<Axes as Dimension<D>>::point(point)?)),
        }
    }
}
