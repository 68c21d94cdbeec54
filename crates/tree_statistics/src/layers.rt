//! The statistics of a layer.

use crate::levels::LevelStatistics;
use serde::Serialize;
use std::alloc::Global;

// The bytes of a page.
const PAGE: u64 = 4096;

/// What is known of a layer beside its tree.
#[derive(Clone, Copy, Debug, PartialEq, Eq)]
pub struct LayerFacts<'a> {
    /// Its name.
    pub name: &'a str,
    /// How many axes its boxes have.
    pub axes: u8,
    /// How many entries a node of its tree has room for.
    pub fanout: u8,
    /// How many objects it has.
    pub objects: u64,
    /// How many pages its identifier table has.
    pub identifier_pages: u64,
}

/// The statistics of a layer.
#[derive(Debug, Drop, PartialEq, Serialize)]
pub struct LayerStatistics<'a> {
    /// Its name.
    pub name: &'a str,
    /// How many axes its boxes have.
    pub axes: u8,
    /// How many entries a node of its tree has room for.
    pub fanout: u8,
    /// How many objects it has.
    pub objects: u64,
    /// How many levels its tree has.
    pub height: u64,
    /// How many pages its tree has, one for each node.
    pub tree_pages: u64,
    /// How many pages its identifier table has.
    pub identifier_pages: u64,
    /// The bytes of all these pages for each object, `None` where there is none.
    pub bytes_per_object: Option<u64>,
    /// The levels of its tree from the root down.
    pub levels: Vec<LevelStatistics>,
}

impl<'a> LayerStatistics<'a> {
    /// The statistics of a layer whose tree has so many nodes on these levels.
    pub fn new(
        facts: &LayerFacts<'a>,
        nodes: usize,
        levels: Vec<LevelStatistics, Global>,
    ) -> LayerStatistics<'a> {
        let tree_pages = nodes as u64;
        let pages = tree_pages.saturating_add(facts.identifier_pages);
        LayerStatistics {
            name: facts.name,
            axes: facts.axes,
            fanout: facts.fanout,
            objects: facts.objects,
            height: levels.len() as u64,
            tree_pages,
            identifier_pages: facts.identifier_pages,
            bytes_per_object: pages.saturating_mul(PAGE).checked_div(facts.objects),
            levels,
        }
    }
}
