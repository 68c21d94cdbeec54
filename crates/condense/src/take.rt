//! An object taken out below a node, and the nodes between condensed.

ghost use Rattle.std.specs.Prelude.{◌≡◌, ◌+◌, ◌*◌, ◌≤◌};
ghost use Rattle.arrayvec.specs.ArrayVec.{array_vec_len};
ghost use Rattle.condense.specs.Steps.{TakesOutBelow};

use crate::hand::{Became, Descent};
use crate::kept::Orphans;
use crate::leaf::take_here;
use crate::look::next_child;
use crate::put::put_child;
use block_device::BlockDevice;
use page_cache::PageCache;
use page_file::Fault;
use std::alloc::Allocator;
use tree_node::{Entry, Fanout, Node, Root};

// Takes the object out of the first leaf below this node that has it, and to which boxes lead that enclose
// its box, and condenses the nodes between: what this node has become, where there was one. Where no such
// leaf has the object, nothing is written. Pages are viewed and changed where they lie, and a node is decoded
// into the hand only where it has too few entries. In a sound map `Damaged` names a page that a walk down the
// nodes, as they were, comes to.
pub(crate) fn take_out<const D: usize, B: BlockDevice, A: Allocator + Copy>(
    cache: &mut PageCache<B, A>,
    at: Root,
    object: &Entry<D>,
    fanout: Fanout,
    kept: &mut Orphans<D>,
    hand: &mut Node<D>,
) -> Result<Option<Became<D>>, Fault>
    requires room { array_vec_len kept.old.list + 39 * at.level ≤ 1560 }
    ensures { TakesOutBelow fanout.most at object.now.reference (object.now.bounds, object.now.tag)
        cache.old cache.new kept.old kept.new hand.new result }
{
    if at.level == 0 {
        return take_here(cache, at, object, fanout, hand);
    }
    let mut from = 0;
    'children: loop {
        let Some(next) = next_child(cache, at, &object.bounds, from)? else {
            return Ok(None);
        };
        let Some(became) = take_out(cache, next.below, object, fanout, kept, hand)? else {
            from = next.place + 1;
            continue;
        };
        let now = put_child(cache, Descent { at, next }, &became, fanout, kept, hand)?;
        return Ok(Some(now));
    }
}
