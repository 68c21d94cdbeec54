//! The slots of the journal: the block that each holds, and a map from a block to its slot.
ghost use Rattle.committed_log.specs.Buckets.{AreChained};
ghost use Rattle.committed_log.specs.BucketsFact.{chained_is_fact};

mod calls;

use std::alloc::Allocator;

/// The blocks that the slots hold, in order of the slots, and a map from a block to its slot.
///
/// The slots of the blocks of one bucket are chained, the last one first.
#[derive(Drop)]
pub struct Slots<A: Allocator> {
    homes: Vec<u32, A>,
    // for each slot one more than the slot before it in its bucket, or 0
    before: Vec<u32, A>,
    // for each bucket one more than its last slot, or 0
    heads: Vec<u32, A>,
    ghost chained: { AreChained homes.items before.items heads.items } by { chained_is_fact homes.items
        before.items
        heads.items },
}
