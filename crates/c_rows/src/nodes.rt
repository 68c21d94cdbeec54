//! Nodes of the tree of a layer.
ghost use Rattle.std.specs.Prelude.{◌≡◌, ◌++◌, length, min, map, take, drop};
ghost use Rattle.c_rows.specs.Nodes.{corner_of, node_of};

use box_math::BBox;
use tree_outline::NodeOutline;

/// A node. Of two axes the third low and high are 0, and of a node without entries, as a root may be, all are.
#[repr(C)]
#[derive(Clone, Copy)]
pub struct NodeRow {
    /// How many entries it has.
    pub count: u64,
    /// Its page.
    pub page: u32,
    /// Its level, 0 for a leaf.
    pub level: u32,
    /// The low on each axis of the least box round its entries.
    pub low: [i32; 3],
    /// The high on each axis.
    pub high: [i32; 3],
}

// The corners of a box of two axes, if there is one.
fn two_corners(bounds: &Option<BBox<2>>) -> ([i32; 3], [i32; 3])
    ensures low { result.0 ≡ corner_of bounds.now (λ b. b.low) }
    ensures high { result.1 ≡ corner_of bounds.now (λ b. b.high) }
{
    match bounds {
        None => ([0; 3], [0; 3]),
        Some(bounds) => {
            let [a, b] = bounds.low();
            let [c, d] = bounds.high();
            ([a, b, 0], [c, d, 0])
        }
    }
}

// The same of three.
fn three_corners(bounds: &Option<BBox<3>>) -> ([i32; 3], [i32; 3])
    ensures low { result.0 ≡ corner_of bounds.now (λ b. b.low) }
    ensures high { result.1 ≡ corner_of bounds.now (λ b. b.high) }
{
    match bounds {
        None => ([0; 3], [0; 3]),
        Some(bounds) => (bounds.low(), bounds.high()),
    }
}

// A node of a layer of two axes as C has it.
fn two_row(node: &NodeOutline<2>) -> NodeRow
    ensures { result ≡ node_of node.now }
{
    let (low, high) = two_corners(&node.bounds);
    NodeRow {
        count: node.count as u64,
        page: node.page,
        level: u32::from(node.level),
        low,
        high,
    }
}

// One of a layer of three.
fn three_row(node: &NodeOutline<3>) -> NodeRow
    ensures { result ≡ node_of node.now }
{
    let (low, high) = three_corners(&node.bounds);
    NodeRow {
        count: node.count as u64,
        page: node.page,
        level: u32::from(node.level),
        low,
        high,
    }
}

/// Writes nodes of a layer of two axes into an array, as many as it has room for, and says how many.
pub fn write_two(nodes: &[NodeOutline<2>], out: &mut [NodeRow]) -> usize
    ensures count { result ≡ min (length nodes.now) (length out.old) }
    ensures rows { out.new ≡ map node_of (take result nodes.now) ++ drop result out.old }
{
    let count = nodes.len().min(out.len());
    for k in 0..count {
        out[k] = two_row(&nodes[k]);
    }
    count
}

/// The same of a layer of three.
pub fn write_three(nodes: &[NodeOutline<3>], out: &mut [NodeRow]) -> usize
    ensures count { result ≡ min (length nodes.now) (length out.old) }
    ensures rows { out.new ≡ map node_of (take result nodes.now) ++ drop result out.old }
{
    let count = nodes.len().min(out.len());
    for k in 0..count {
        out[k] = three_row(&nodes[k]);
    }
    count
}
