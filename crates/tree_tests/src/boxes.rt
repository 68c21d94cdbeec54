//! Objects, and whether a tree has them.

use block_device::BlockDevice;
use box_math::BBox;
use node_page::{Entry, Root, check_tree};
use page_cache::PageCache;
use page_file::Fault;
use std::alloc::{Allocator, Global};
use tree_node::Fanout;

/// Whether a tree of the shape stands at the root, with these objects, whose references ascend.
pub fn is_whole<B: BlockDevice, A: Allocator + Copy>(
    cache: &mut PageCache<B, A>,
    alloc: Global,
    root: Root,
    objects: &[Entry<2>],
    fanout: Fanout,
) -> Result<bool, Fault> {
    let mut facts = check_tree::<2, _, _, _>(alloc, cache, root, fanout.most)?;
    facts.pairs.sort_unstable_by_key(|pair| pair.0);
    Ok(are_rows(facts.pairs.as_slice(), objects))
}

// Whether a row is that of the object.
fn is_row(row: Option<&(u64, (BBox<2>, u32))>, object: &Entry<2>) -> bool {
    match row {
        Some(&(id, (bounds, tag))) => {
            id == object.reference && bounds == object.bounds && tag == object.tag
        }
        None => false,
    }
}

// Whether the rows are the objects, in the order of the list.
fn are_rows(rows: &[(u64, (BBox<2>, u32))], objects: &[Entry<2>]) -> bool {
    for (place, object) in objects.iter().enumerate() {
        if !is_row(rows.get(place), object) {
            return false;
        }
    }
    rows.len() == objects.len()
}

/// The box of two axes from (x, y) to (u, v), with a reference and the tag 0.
pub fn object(reference: u64, [x, y, u, v]: [i32; 4]) -> Entry<2> {
    Entry {
        bounds: BBox::try_new([x, y], [u, v]).unwrap_or_default(),
        reference,
        tag: 0,
    }
}

/// The point (x, y), with a reference and the tag 0.
pub fn point(reference: u64, x: i32, y: i32) -> Entry<2> {
    object(reference, [x, y, x, y])
}
