//! What a node has become, and the way down to its children.

use box_math::BBox;
use tree_node::{Node, Root};

/// What a node has become below which an object was taken out.
#[derive(Clone, Copy)]
pub(crate) enum Became<const D: usize> {
    /// Its page has it, with the least count of entries at least. The box is the least round them.
    Settled(BBox<D>),
    /// Its page has it, with too few entries.
    Few,
    /// It has too few entries, and is in hand. Its page is as it was.
    Unwritten,
}

/// A child of a node: its place in the node, and the root of the tree below.
#[derive(Clone, Copy)]
pub(crate) struct Next {
    pub(crate) place: usize,
    pub(crate) below: Root,
}

/// A step down: a node, and the child of it that is next.
#[derive(Clone, Copy)]
pub(crate) struct Descent {
    pub(crate) at: Root,
    pub(crate) next: Next,
}

/// What the root has become, unless it is settled: its page has it then.
#[derive(Drop)]
pub(crate) struct InHand<const D: usize> {
    pub(crate) node: Node<D>,
    pub(crate) settled: bool,
}

impl<const D: usize> Became<D> {
    ghost use Rattle.std.specs.Prelude.{◌≡◌};
    ghost use Rattle.condense.specs.Becoming.{is_written};

    /// Whether the node's page has it.
    pub(crate) fn is_written(&self) -> bool
        ensures { result ≡ is_written self.now }
    {
        !matches!(self, Became::Unwritten)
    }
}
