//! What a removal works in, and the entries that it keeps to insert them again: their types, and what their
//! fields keep.

ghost use Rattle.std.specs.Prelude.{All};
ghost use Rattle.box_math.specs.Bounds.{IsDims};
ghost use Rattle.node_bytes.specs.Layout.{IsOfLevel};

mod list;

use crate::hand::InHand;
use arrayvec::ArrayVec;
use reinsert::Waiting;
use tree_node::Entry;

/// An entry of a node that has left its parent, and the level of that node.
#[derive(Clone, Copy, Debug, Default)]
pub(crate) struct Orphan<const D: usize> {
    pub(crate) entry: Entry<D>,
    pub(crate) level: u8,
}

/// All entries that a removal keeps: at most 39 of each of 40 levels.
#[derive(Drop)]
pub(crate) struct Orphans<const D: usize> {
    // the first to be inserted is the last
    list: ArrayVec<Orphan<D>, 1560>,
    pub ghost dims: { IsDims D },
    ghost refers: { All (λ o. IsOfLevel o.level o.entry.reference o.entry.tag) list.items },
}

/// Room for what a removal keeps to insert it again, for what waits meanwhile, and for the node that it has in
/// hand. It serves one removal after the other, and insertions between them (`waiting`). It has no allocator:
/// no removal takes memory for what it keeps or for what waits.
#[derive(Drop)]
pub struct Kept<const D: usize> {
    pub(crate) orphans: Orphans<D>,
    pub(crate) hand: InHand<D>,
    /// What waits in an insertion.
    pub waiting: Waiting<D>,
    pub ghost dims: { IsDims D },
}
