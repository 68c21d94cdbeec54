//! A lawful insertion: placings, one after the other, until nothing waits.

ghost use Rattle.std.specs.Prelude.{◌≡◌, ◌^◌, ◌<◌, ◌≤◌, Err};
ghost use Rattle.box_math.specs.Bounds.{IsDims};
ghost use Rattle.page_file.specs.declared.fault.Fault.TheVariants as fault;
ghost use Rattle.page_cache.specs.Cache.{IsUnchanged};
ghost use Rattle.node_bytes.specs.Layout.{IsOfLevel};
ghost use Rattle.reinsert.specs.Steps.{Inserts, PlacesOne};

use crate::grow::grow;
use crate::place::place;
use crate::settled::{Limits, Settled};
use crate::waiting::{Wait, Waiting};
use block_device::BlockDevice;
use page_cache::PageCache;
use page_file::Fault;
use std::alloc::Allocator;
use tree_node::{Entry, Fanout, Root};

/// Inserts an entry at a level of the tree at that root (docs/RULES.md): on level 0 an object, above it a
/// child, which refers to a page from 3 to 2^31 - 1.
///
/// Where the map is sound and the pages stand for a tree at the root, and above level 0 for another at the
/// entry's reference that shares no page with it, they stand after `Ok` for a tree that a lawful insertion
/// leads to. Pages outside these trees stay, and those that come in were not live. The root's level does not
/// fall.
///
/// A refusal after which the cache is not touched (`is_touched`) leaves the map as it was; the room of what
/// waits is taken before the first write. Where the trees have their shape, but that a root may have one
/// entry, a refusal is of memory or of the device, or each page number is live (`NoPages`). A tree of level
/// 40 takes no entry, since it could grow: its root is `Damaged`, and the cache stays. Also after a refusal,
/// at most `most_new_pages` more pages are live.
///
/// Whatever nodes the pages are, a sound map stays sound after `Ok`, and there `Damaged` names a page from 3
/// to 2^31 - 1. Where the cache is not touched after it, that is one that a walk down the nodes comes to;
/// else it may be that of a node that came meanwhile.
pub fn insert_at<const D: usize, B: BlockDevice, A: Allocator + Copy>(
    alloc: A,
    cache: &mut PageCache<B, A>,
    root: Root,
    entry: &Entry<D>,
    level: u8,
    fanout: Fanout,
) -> Result<Root, Fault>
    requires dims { IsDims D }
    requires levels { (level ≤ root.level) × (root.level ≤ 40) }
    requires root { (3 ≤ root.page) × (root.page < 2 ^ 31) }
    requires refers { IsOfLevel level entry.now.reference entry.now.tag }
    ensures { Inserts fanout.most root entry.now level cache.old cache.new result }
{
    let mut waiting = Waiting::make(alloc)?;
    insert_with(cache, root, entry, level, fanout, &mut waiting)
}

/// Inserts an entry as `insert_at` does. The `Waiting` serves again afterwards, also after a refusal. No
/// allocator is given: only the cache asks for memory.
pub fn insert_with<const D: usize, B: BlockDevice, A: Allocator + Copy>(
    cache: &mut PageCache<B, A>,
    root: Root,
    entry: &Entry<D>,
    level: u8,
    fanout: Fanout,
    waiting: &mut Waiting<D>,
) -> Result<Root, Fault>
    requires levels { (level ≤ root.level) × (root.level ≤ 40) }
    requires root { (3 ≤ root.page) × (root.page < 2 ^ 31) }
    requires refers { IsOfLevel level entry.now.reference entry.now.tag }
    ensures inserts { Inserts fanout.most root entry.now level cache.old cache.new result }
    ensures tall { root.level ≡ 40 → (result ≡ Err (fault.Damaged root.page))
        × IsUnchanged cache.old cache.new }
{
    if root.level >= 40 {
        return Err(Fault::Damaged(root.page));
    }
    waiting.begin(root.level);
    let first = Wait {
        entry: *entry,
        level,
    };
    let mut now = place_one(cache, root, &first, fanout, waiting)?;
    'placing: while let Some(wait) = waiting.next() {
        now = place_one(cache, now, &wait, fanout, waiting)?;
    }
    Ok(now)
}

// Places one entry, which waits no longer.
fn place_one<const D: usize, B: BlockDevice, A: Allocator + Copy>(
    cache: &mut PageCache<B, A>,
    root: Root,
    first: &Wait<D>,
    fanout: Fanout,
    waiting: &mut Waiting<D>,
) -> Result<Root, Fault>
    requires level { root.level ≤ 40 }
    requires root { (3 ≤ root.page) × (root.page < 2 ^ 31) }
    requires refers { IsOfLevel first.now.level first.now.entry.reference first.now.entry.tag }
    ensures { PlacesOne fanout.most root first.now cache.old cache.new waiting.old waiting.new result }
{
    if first.level > root.level {
        return Err(Fault::Damaged(root.page));
    }
    let limits = Limits {
        fanout,
        top: root.level,
    };
    let Settled { bounds, beside } = place(
        cache,
        root,
        &first.entry,
        first.level,
        limits,
        waiting,
    )?;
    let Some(beside) = beside else {
        return Ok(root);
    };
    grow(cache, root, bounds, beside)
}
