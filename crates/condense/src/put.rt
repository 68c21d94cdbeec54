//! The child of which an object was taken: it leaves its parent where it has too few entries, else its box
//! there is made least.

ghost use Rattle.std.specs.Prelude.{◌≡◌, ◌+◌, ◌<◌, ◌≤◌};
ghost use Rattle.arrayvec.specs.ArrayVec.{array_vec_len};
ghost use Rattle.tree_node.specs.Nodes.{content_of};
ghost use Rattle.tree_node.specs.Shape;
ghost use Rattle.condense.specs.Becoming.{IsFewInHand, IsNext};
ghost use Rattle.condense.specs.Steps.{PutsChild};
ghost use Rattle.condense.specs.Taken.{IsCut};
ghost use Rattle.condense.specs.declared.hand.Became.TheVariants as became;

use crate::cut::{set_least, take_at};
use crate::hand::{Became, Descent};
use crate::kept::Orphans;
use block_device::BlockDevice;
use node_page::read_into;
use page_cache::PageCache;
use page_file::Fault;
use std::alloc::Allocator;
use tree_node::{Fanout, Node};

// Puts a child of a node back, of which the object was taken: what the node has become. Where the child is in
// hand, it is the node in hand, and afterwards this one may be.
pub(crate) fn put_child<const D: usize, B: BlockDevice, A: Allocator + Copy>(
    cache: &mut PageCache<B, A>,
    step: Descent,
    child: &Became<D>,
    fanout: Fanout,
    kept: &mut Orphans<D>,
    hand: &mut Node<D>,
) -> Result<Became<D>, Fault>
    requires is_next { IsNext step.at step.next }
    requires cut { IsFewInHand fanout.most step.next.below.level hand.old child.now }
    requires room { array_vec_len kept.old.list + 39 ≤ 1560 }
    ensures { PutsChild fanout.most step.at step.next child.now cache.old cache.new hand.old hand.new kept.old
        kept.new
        result }
{
    match child {
        Became::Settled(least) => set_least(cache, step.at, step.next.place, least, fanout),
        Became::Few => leave_read(cache, step, fanout, kept, hand),
        Became::Unwritten => leave_out(cache, step, fanout, kept, hand),
    }
}

// A child leaves whose page has too few entries.
fn leave_read<const D: usize, B: BlockDevice, A: Allocator + Copy>(
    cache: &mut PageCache<B, A>,
    step: Descent,
    fanout: Fanout,
    kept: &mut Orphans<D>,
    hand: &mut Node<D>,
) -> Result<Became<D>, Fault>
    requires is_next { IsNext step.at step.next }
    requires room { array_vec_len kept.old.list + 39 ≤ 1560 }
    ensures { PutsChild fanout.most step.at step.next became.Few cache.old cache.new hand.old hand.new
        kept.old kept.new
        result }
{
    read_into(cache, step.next.below.page, step.next.below.level, hand)?;
    if hand.entries.len() >= fanout.least_entries() {
        return Err(Fault::Damaged(step.next.below.page));
    }
    leave_out(cache, step, fanout, kept, hand)
}

// A child leaves that is in hand: its page is freed, its entries are kept, and its entry is taken out of the
// node.
fn leave_out<const D: usize, B: BlockDevice, A: Allocator + Copy>(
    cache: &mut PageCache<B, A>,
    step: Descent,
    fanout: Fanout,
    kept: &mut Orphans<D>,
    hand: &mut Node<D>,
) -> Result<Became<D>, Fault>
    requires is_next { IsNext step.at step.next }
    requires cut { IsCut step.next.below.level (content_of hand.old) }
    requires few { array_vec_len hand.old.entries < Shape.least_entries fanout.most }
    requires room { array_vec_len kept.old.list + 39 ≤ 1560 }
    ensures { PutsChild fanout.most step.at step.next became.Unwritten cache.old cache.new hand.old hand.new
        kept.old kept.new result }
{
    cache.free(step.next.below.page)?;
    kept.keep(&hand.entries, step.next.below.level);
    take_at(cache, step.at, step.next.place, fanout, hand)
}
