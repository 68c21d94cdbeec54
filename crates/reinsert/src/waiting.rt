//! What waits in an insertion, and which levels are called: its types, and what their fields keep.

ghost use Rattle.std.specs.Prelude.{◌+◌, ◌*◌, ◌≤◌, All};
ghost use Rattle.arrayvec.specs.ArrayVec.{array_vec_len};
ghost use Rattle.box_math.specs.Bounds.{IsDims};
ghost use Rattle.node_bytes.specs.Layout.{IsOfLevel};
ghost use Rattle.reinsert.specs.Called.{free_levels};

mod queue;

use arrayvec::ArrayVec;
use tree_node::Entry;

/// An entry that waits for a node of a level.
#[derive(Clone, Copy, Debug, Default)]
pub(crate) struct Wait<const D: usize> {
    pub(crate) entry: Entry<D>,
    pub(crate) level: u8,
}

/// Room for all that waits in an insertion: at most 30 entries for each level below the root's, of which there
/// are 40 at most. It serves one insertion after the other, whatever the levels of their roots are, and has no
/// allocator: no insertion takes memory for what waits.
#[derive(Drop)]
pub struct Waiting<const D: usize> {
    // the first to be placed is the last
    waits: ArrayVec<Wait<D>, 1200>,
    // for each level whether its nodes give no far set: one has overflowed, or it is not below the root's
    called: [bool; 41],
    pub ghost dims: { IsDims D },
    ghost room: { array_vec_len waits + 30 * free_levels called ≤ 1200 },
    ghost refers: { All (λ w. IsOfLevel w.level w.entry.reference w.entry.tag) waits.items },
}
