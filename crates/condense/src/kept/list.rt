//! What is kept: taken, added to, and begun anew.

ghost use Rattle.std.specs.Prelude.{◌≡◌, ◌+◌, ◌≤◌, ◌<◌, ◌++◌, ◌∷◌, [], All, map, reverse, IsNone, IfSome};
ghost use Rattle.std.specs.Prelude.{IfErr};
ghost use Rattle.arrayvec.specs.ArrayVec.{array_vec_len};
ghost use Rattle.box_math.specs.Bounds.{IsDims};
ghost use Rattle.page_file.specs.declared.fault.Fault.TheVariants as fault;
ghost use Rattle.node_bytes.specs.Layout.{IsOfLevel};
ghost use Rattle.reinsert.specs.Placed.{held_with};
ghost use Rattle.condense.specs.Taken.{held_now, orphan_held};

use crate::hand::InHand;
use crate::kept::{Kept, Orphan, Orphans};
use arrayvec::ArrayVec;
use page_file::Fault;
use reinsert::Waiting;
use std::alloc::Allocator;
use tree_node::{Entry, Node};

impl<const D: usize> Kept<D> {
    /// Takes the memory for all that removals keep and all that waits, at once: a box in which nothing is kept
    /// and nothing waits. A refusal is `Memory`.
    pub fn make<H: Allocator>(alloc: H) -> Result<Box<Kept<D>, H>, Fault>
        requires { IsDims D }
        ensures { IfErr result (λ f. f ≡ fault.Memory) }
    {
        let orphans = Orphans {
            list: ArrayVec::new(),
        };
        let hand = InHand {
            node: Node {
                level: 0,
                entries: ArrayVec::new(),
            },
            settled: false,
        };
        let room = Kept {
            orphans,
            hand,
            waiting: Waiting::new(),
        };
        Ok(Box::new(alloc, room)?)
    }
}

impl<const D: usize> Orphans<D> {
    // Nothing is kept.
    pub(crate) fn begin(&mut self)
        ensures { self.new.list.items ≡ [] }
    {
        self.list.clear();
    }

    // The first to be inserted.
    pub(crate) fn next(&mut self) -> Option<Orphan<D>>
        ensures none { IsNone result → self.old.list.items ≡ [] }
        ensures some { IfSome result (λ o. held_now self.old ≡ held_now self.new ++ orphan_held o ∷ []) }
        ensures refers { IfSome result (λ o. IsOfLevel o.level o.entry.reference o.entry.tag) }
        ensures fewer { IfSome result (λ o. array_vec_len self.new.list < array_vec_len self.old.list) }
    {
        self.list.pop()
    }

    // The entries of a node that leaves are to be inserted before all others.
    pub(crate) fn keep(&mut self, entries: &ArrayVec<Entry<D>, 101>, level: u8)
        requires room { array_vec_len self.old.list + array_vec_len entries.now ≤ 1560 }
        requires refers { All (λ e. IsOfLevel level e.reference e.tag) entries.now.items }
        ensures held { held_now self.new
            ≡ held_now self.old ++ reverse (map (held_with level) entries.now.items) }
        ensures len { array_vec_len self.new.list
            ≡ array_vec_len self.old.list + array_vec_len entries.now }
    {
        for passed in 0..entries.len() {
            let entry = entries[entries.len() - 1 - passed];
            self.list.push(Orphan { entry, level });
        }
    }
}
