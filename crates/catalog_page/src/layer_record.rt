//! What the catalog says of a layer.

use arrayvec::ArrayVec;

/// The record of a layer. Which names, dimensions, fanouts, levels and pages are good, and in which order
/// layers stand, is not its business.
#[derive(PartialEq, Eq, Debug, Default, Drop)]
pub struct LayerRecord {
    /// The bytes of its name. A page has names of 1 to 24 bytes.
    pub name: ArrayVec<u8, 24>,
    /// How many axes its boxes have.
    pub dims: u8,
    /// How many entries a node has at most.
    pub fanout: u8,
    /// The level of the root of its tree.
    pub level: u8,
    /// The page of the root of its tree.
    pub root: u32,
    /// The first page of its identifier table.
    pub ids_root: u32,
    /// How many objects it has.
    pub count: u64,
}
