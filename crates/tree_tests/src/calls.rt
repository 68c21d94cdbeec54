//! Calls that change the pages of trees of two axes. Each opens the gate first.

ghost use Rattle.std.specs.Prelude.{◌≡◌, ◌^◌, ◌<◌, ◌≤◌, IfOk};

use arrayvec::ArrayVec;
use block_device::BlockDevice;
use bulk_load::load;
use condense::{Kept, remove_with};
use node_page::{Entry, Node, Root, write_node};
use page_cache::PageCache;
use page_file::Fault;
use reinsert::{Waiting, insert_with};
use std::alloc::{Allocator, Global};
use tree_node::Fanout;

/// Four entries to a node.
pub const FOUR: Fanout = Fanout { most: 4 };

/// A root whose page a node can refer to, and whose tree is not too tall.
pub fn checked(root: Root) -> Result<Root, Fault>
    ensures { IfOk result (λ root. (root.level ≤ 40) × (3 ≤ root.page) × (root.page < 2 ^ 31)) }
{
    if root.level > 40 {
        return Err(Fault::NoPages);
    }
    if root.page < 3 {
        return Err(Fault::NoPages);
    }
    if root.page >= 1 << 31 {
        return Err(Fault::NoPages);
    }
    Ok(root)
}

/// Adds a tree without objects.
pub fn add_tree<B: BlockDevice, A: Allocator + Copy>(
    cache: &mut PageCache<B, A>,
) -> Result<Root, Fault> {
    cache.begin_change()?;
    let page = cache.allocate()?;
    let leaf: Node<2> = Node {
        level: 0,
        entries: ArrayVec::new(),
    };
    match write_node(cache, page, &leaf) {
        Ok(()) => Ok(Root { page, level: 0 }),
        Err(fault) => Err(fault),
    }
}

/// Inserts an object, and answers the new root.
pub fn insert<B: BlockDevice, A: Allocator + Copy>(
    cache: &mut PageCache<B, A>,
    root: Root,
    object: &Entry<2>,
    fanout: Fanout,
    waiting: &mut Waiting<2>,
) -> Result<Root, Fault> {
    let root = checked(root)?;
    cache.begin_change()?;
    insert_with(cache, root, object, 0, fanout, waiting)
}

/// Removes an object, and answers the new root.
pub fn take_out<B: BlockDevice, A: Allocator + Copy>(
    cache: &mut PageCache<B, A>,
    root: Root,
    object: &Entry<2>,
    fanout: Fanout,
    kept: &mut Kept<2>,
) -> Result<Root, Fault> {
    let root = checked(root)?;
    cache.begin_change()?;
    remove_with(cache, root, object, fanout, kept)
}

/// Inserts the objects one after the other.
pub fn insert_all<B: BlockDevice, A: Allocator + Copy>(
    cache: &mut PageCache<B, A>,
    root: Root,
    objects: &[Entry<2>],
    fanout: Fanout,
    waiting: &mut Waiting<2>,
) -> Result<Root, Fault> {
    let mut now = root;
    for object in objects {
        now = insert(cache, now, object, fanout, waiting)?;
    }
    Ok(now)
}

/// Adds a tree, and inserts these objects into it.
pub fn insert_tree<B: BlockDevice, A: Allocator + Copy>(
    cache: &mut PageCache<B, A>,
    alloc: A,
    objects: &[Entry<2>],
    fanout: Fanout,
) -> Result<Root, Fault> {
    let mut waiting = Waiting::make(alloc)?;
    let root = add_tree(cache)?;
    insert_all(cache, root, objects, fanout, &mut waiting)
}

/// Loads these objects into a tree.
pub fn load_tree<B: BlockDevice, A: Allocator + Copy>(
    cache: &mut PageCache<B, A>,
    alloc: Global,
    objects: &mut [Entry<2>],
    fanout: Fanout,
) -> Result<Root, Fault> {
    cache.begin_change()?;
    load(alloc, cache, objects, fanout)
}
