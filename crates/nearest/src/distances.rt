//! The squared distances of the boxes of a node from a point.

ghost use Rattle.std.specs.Prelude.{◌≡◌, ◌^◌, ◌<◌, ◌≤◌, IfSome, length, nat_lt, slice_index_or, take};
ghost use Rattle.std.specs.List.{count_by};
ghost use Rattle.box_math.specs.Bounds.{IsDims};
ghost use Rattle.box_math.specs.Measures.{point_dist2_of};
ghost use Rattle.tree_node.specs.Boxes.{no_item};
ghost use Rattle.node_bytes.specs.Views.{content_in};
ghost use Rattle.nearest.specs.Candidates.{AreDistances};

use box_math::BBox;
use node_page::NodeView;

/// The squared distances of the boxes of a node from a point, by place. 64 bits hold them where no box is
/// 2^31 or more away on an axis.
#[derive(Drop)]
pub(crate) struct Distances {
    squares: [u64; 100],
    widest: u32,
}

impl Distances {
    /// No distances, in the place where those of a node are to be measured: to move them would copy 800 bytes.
    pub(crate) fn none() -> Distances {
        Distances {
            squares: [0; 100],
            widest: 0,
        }
    }

    /// Measures those of the boxes of a node. The loop has no branches, so that several boxes are measured at
    /// once.
    pub(crate) fn measure<const D: usize>(&mut self, view: &NodeView<'_, D>, point: &[i32; D])
        ensures { AreDistances (λ b. point_dist2_of D b point.now) (content_in view.now).entries
            self.new.squares self.new.widest }
    {
        let mut widest = 0u32;
        for place in 0..view.len() {
            let (square, gap) = measured(&view.entry(place).bounds, point);
            self.squares[place] = square;
            widest = widest.max(gap);
        }
        self.widest = widest;
    }

    /// That of the box in the place.
    pub(crate) fn at<const D: usize>(
        &self,
        view: &NodeView<'_, D>,
        place: usize,
        point: &[i32; D],
    ) -> u128
        requires within { place < length (content_in view.now).entries }
        requires measured { AreDistances (λ b. point_dist2_of D b point.now) (content_in view.now).entries
            self.now.squares self.now.widest }
        ensures { result
            ≡ point_dist2_of D (slice_index_or (content_in view.now).entries place no_item).bounds point.now }
    {
        if self.widest < 1 << 31 {
            return u128::from(self.squares[place]);
        }
        view.entry(place).bounds.point_dist2(point)
    }

    /// A number than which no fewer than so many of the squares are less, and often not many more: where the
    /// boxes are so many, and no square is too large. The greatest of the first squares is halved as long as
    /// enough are less.
    pub(crate) fn bound(&self, count: usize, many: usize) -> Option<u64>
        requires { count ≤ 100 }
        ensures enough { IfSome result (λ bound.
            many ≤ count_by (λ square. nat_lt square bound) (take count self.now.squares)) }
        ensures exact { IfSome result (λ _. self.now.widest < 2 ^ 31) }
    {
        if self.widest >= 1 << 31 {
            return None;
        }
        let mut bound = self.greatest(count.min(many)).saturating_add(1);
        if self.count_below(count, bound) < many {
            return None;
        }
        'halves: while bound > 1 {
            if self.count_below(count, bound / 2) < many {
                return Some(bound);
            }
            bound /= 2;
        }
        Some(bound)
    }

    // How many of the first squares are less. The loop has no branches.
    fn count_below(&self, count: usize, bound: u64) -> usize
        requires { count ≤ 100 }
        ensures { result ≡ count_by (λ square. nat_lt square bound) (take count self.now.squares) }
    {
        let mut below = 0;
        for place in 0..count {
            below += usize::from(self.squares[place] < bound);
        }
        below
    }

    // The greatest of the first squares.
    fn greatest(&self, count: usize) -> u64
        requires { count ≤ 100 }
    {
        let mut greatest = 0;
        for place in 0..count {
            greatest = greatest.max(self.squares[place]);
        }
        greatest
    }
}

// The squared distance of the box, where it is less than 2^31 away on each axis, and how far it is on one at
// the most.
#[inline]
fn measured<const D: usize>(bounds: &BBox<D>, point: &[i32; D]) -> (u64, u32)
    requires { IsDims D }
    ensures { result.1 < 2 ^ 31 → result.0 ≡ point_dist2_of D bounds.now point.now }
{
    let (low, high) = (bounds.low(), bounds.high());
    let mut square = 0u64;
    let mut widest = 0u32;
    'axes: for axis in 0..D {
        let gap = point[axis].abs_diff(low[axis].max(point[axis].min(high[axis])));
        square = square.wrapping_add(u64::from(gap) * u64::from(gap));
        widest = widest.max(gap);
    }
    (square, widest)
}
