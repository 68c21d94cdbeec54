//! How near two boxes are that a join pairs.

ghost use Rattle.std.specs.Prelude.{◌≡◌, ◌+◌, ◌*◌, ◌<◌, ◌≤◌, All, length};
ghost use Rattle.box_math.specs.Bounds.{IsBox, meets_test, widened_of};
ghost use Rattle.box_math.specs.Measures.{near_test};
ghost use Rattle.tree_node.specs.Nodes.{items_of};
ghost use Rattle.node_bytes.specs.Views.{content_in};
ghost use Rattle.spatial_join.specs.Masks.{Tells};

use crate::columns::{NodeInColumns, next_place};
use box_math::BBox;
use node_page::NodeView;

/// The greatest squared distance of two boxes that are paired, and its root: each gap between such boxes is
/// at most that, so that a box that is widened by it meets them all.
#[derive(Clone, Copy)]
pub(crate) struct Reach {
    pub(crate) limit: u64,
    root: u32,
    ghost enough: { limit < (root + 1) * (root + 1) },
}

impl Reach {
    /// The reach of this squared distance.
    pub(crate) fn of(limit: u64) -> Reach
        ensures { result.limit ≡ limit }
    {
        Reach {
            limit,
            root: limit.isqrt() as u32,
        }
    }

    /// Which entries of a node have a box in this reach of the given one.
    pub(crate) fn mask<const D: usize>(self, columns: &NodeInColumns<D>, bounds: &BBox<D>) -> u128
        ensures { Tells (near_test D self.limit bounds.now) result
            (items_of columns.now.node.now.entries.items) }
    {
        if self.limit == 0 {
            return columns.mask(bounds);
        }
        let named = columns.mask(&bounds.widened(self.root));
        self.nearer(named, columns, bounds)
    }

    // Those of the entries that the mask names whose boxes are in this reach of the given one.
    fn nearer<const D: usize>(
        self,
        named: u128,
        columns: &NodeInColumns<D>,
        bounds: &BBox<D>,
    ) -> u128
        requires named { Tells (λ b. meets_test D (widened_of D self.root bounds.now) b) named
            (items_of columns.now.node.now.entries.items) }
        ensures { Tells (near_test D self.limit bounds.now) result
            (items_of columns.now.node.now.entries.items) }
    {
        let mut near = named;
        let mut from = 0;
        'entry: while let Some(place) = next_place(named, from) {
            from = place + 1;
            if !bounds.is_near(&columns.node.entries[place].bounds, self.limit) {
                near &= !(1u128 << place);
            }
        }
        near
    }

    /// Which entries of a node that is read in its page have a box in this reach of the given one.
    pub(crate) fn mask_in<const D: usize>(self, node: &NodeView<D>, bounds: &BBox<D>) -> u128
        requires few { length (content_in node.now).entries ≤ 100 }
        requires boxes { All (λ item. IsBox D item.bounds) (content_in node.now).entries }
        ensures { Tells (near_test D self.limit bounds.now) result (content_in node.now).entries }
    {
        if self.limit == 0 {
            return node.mask(bounds);
        }
        let named = node.mask(&bounds.widened(self.root));
        self.nearer_in(named, node, bounds)
    }

    // Those of the entries that the mask names whose boxes are in this reach of the given one.
    fn nearer_in<const D: usize>(self, named: u128, node: &NodeView<D>, bounds: &BBox<D>) -> u128
        requires few { length (content_in node.now).entries ≤ 100 }
        requires boxes { All (λ item. IsBox D item.bounds) (content_in node.now).entries }
        requires named { Tells (λ b. meets_test D (widened_of D self.root bounds.now) b) named
            (content_in node.now).entries }
        ensures { Tells (near_test D self.limit bounds.now) result (content_in node.now).entries }
    {
        let mut near = named;
        let mut from = 0;
        'entry: while let Some(place) = next_place(named, from) {
            from = place + 1;
            let other = node.entry(place);
            if !bounds.is_near(&other.bounds, self.limit) {
                near &= !(1u128 << place);
            }
        }
        near
    }
}
