//! What waits in a search: nodes that were not read yet.

ghost use Rattle.std.specs.Prelude.{◌≡◌, ◌^◌, ◌<◌, ◌-◌};
ghost use Rattle.tree_node.specs.Nodes.{item_of};

use node_page::Entry;

/// A node at the squared distance of its box from the point. They are taken by distance.
#[derive(Clone, Copy, PartialEq, Eq, PartialOrd, Ord, Debug)]
pub(crate) struct Candidate {
    pub(crate) distance: u128,
    pub(crate) page: u32,
    pub(crate) level: u8,
}

/// An object at the squared distance of its box from the point, by which they are ordered, and then by
/// identifier.
#[derive(Clone, Copy, PartialEq, Eq, PartialOrd, Ord, Debug)]
pub(crate) struct Object {
    pub(crate) distance: u128,
    pub(crate) identifier: u64,
}

/// The child that an entry of a node on the level names, at the distance.
pub(crate) fn child_of<const D: usize>(entry: &Entry<D>, level: u8, distance: u128) -> Candidate
    requires page { (item_of entry.now).reference < 2 ^ 32 }
    ensures { result
        ≡ record { distance = distance; page = (item_of entry.now).reference; level = level - 1 } }
{
    Candidate {
        distance,
        page: entry.reference as u32,
        level: level.saturating_sub(1),
    }
}

/// The object that an entry of a leaf names, at the distance.
pub(crate) fn object_of<const D: usize>(entry: &Entry<D>, distance: u128) -> Object
    ensures { result ≡ record { distance = distance; identifier = (item_of entry.now).reference } }
{
    Object {
        distance,
        identifier: entry.reference,
    }
}
