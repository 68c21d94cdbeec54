//! The calls that ask for the pages of layers.
ghost use Rattle.std.specs.Prelude.{◌≡◌};
ghost use Rattle.c_rows.specs.Nodes.{node_of};
ghost use Rattle.c_session.specs.Fetching.{Fetches};
ghost use Rattle.c_session.specs.Outlining.{CountsIdPagesBy, FetchesNodes, OutlinesBy, nodes_of};

use crate::session::{CLOSED, Session};
use block_device::BlockDevice;
use c_rows::{NodeRow, tell, write_three, write_two};
use live_layers::LayerOutline;
use std::alloc::Allocator;
use tree_outline::NodeOutline;

impl<D: BlockDevice, A: Allocator + Copy> Session<D, A> {
    /// Asks for the nodes of the tree of a layer, the root first, each before those below it, and keeps them.
    pub fn outline(&mut self, layer: &[u8]) -> u32
        ensures { OutlinesBy self.old self.new layer.now result }
    {
        let Some(store) = &mut self.store else {
            return CLOSED;
        };
        match store.outline(layer) {
            Ok(outline) => {
                self.outline = outline;
                0
            }
            Err(refusal) => tell(refusal, &mut self.detail),
        }
    }

    /// How many pages the identifier table of a layer has.
    pub fn id_pages(&mut self, layer: &[u8], count: &mut u64) -> u32
        ensures { CountsIdPagesBy self.old self.new layer.now count.old count.new result }
    {
        let Some(store) = &mut self.store else {
            return CLOSED;
        };
        match store.id_pages(layer) {
            Ok(pages) => {
                *count = pages;
                0
            }
            Err(refusal) => tell(refusal, &mut self.detail),
        }
    }

    /// How many nodes the last outline has.
    pub fn outline_len(&self) -> usize
        ensures { result ≡ nodes_of self.now.outline }
    {
        match &self.outline {
            LayerOutline::Two(nodes) => nodes.len(),
            LayerOutline::Three(nodes) => nodes.len(),
        }
    }

    /// Writes the nodes of the last outline from the given one on into an array, as many as it has room for, and
    /// says how many.
    pub fn fetch_nodes(&self, from: usize, out: &mut [NodeRow]) -> usize
        ensures { FetchesNodes self.now.outline from out.old out.new result }
    {
        match &self.outline {
            LayerOutline::Two(nodes) => fetch_two(nodes.as_slice(), from, out),
            LayerOutline::Three(nodes) => fetch_three(nodes.as_slice(), from, out),
        }
    }
}

// Writes nodes of a layer of two axes from the given one on.
fn fetch_two(nodes: &[NodeOutline<2>], from: usize, out: &mut [NodeRow]) -> usize
    ensures { Fetches node_of nodes.now from out.old out.new result }
{
    if from > nodes.len() {
        return 0;
    }
    write_two(&nodes[from..], out)
}

// The same of a layer of three.
fn fetch_three(nodes: &[NodeOutline<3>], from: usize, out: &mut [NodeRow]) -> usize
    ensures { Fetches node_of nodes.now from out.old out.new result }
{
    if from > nodes.len() {
        return 0;
    }
    write_three(&nodes[from..], out)
}
