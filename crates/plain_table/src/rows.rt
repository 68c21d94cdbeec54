//! What a listing of the layers and a dump of all objects show.

use crate::boxes::AnyBox;
use arrayvec::ArrayVec;

/// The name of a layer, which has at most 24 bytes.
pub type LayerName = ArrayVec<u8, 24>;

/// What a listing shows of a layer.
#[derive(PartialEq, Eq, Debug, Default, Drop)]
pub struct LayerInfo {
    /// Its name.
    pub name: LayerName,
    /// How many axes its boxes have.
    pub dims: u8,
    /// How many entries a node of its tree may have.
    pub fanout: u8,
    /// How many objects it has.
    pub count: u64,
}

/// A line of a dump, which is the command that makes again what it shows.
#[derive(PartialEq, Eq, Debug, Drop)]
pub enum DumpRow {
    /// `create`: a layer by its name, with so many axes, and so many entries in a node.
    Create(LayerName, u8, u8),
    /// `insert`: an object of the layer of that name, its identifier, its box and its tag.
    Insert(LayerName, u64, AnyBox, u32),
}
