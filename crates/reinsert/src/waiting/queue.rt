//! What waits: taken, added to, and begun anew.

ghost use Rattle.std.specs.Prelude.{◌≡◌, ◌+◌, ◌<◌, ◌≤◌, ◌++◌, ◌∷◌, [], All, true, false, map, reverse, set};
ghost use Rattle.std.specs.Prelude.{IsNone, IfSome, IfErr};
ghost use Rattle.arrayvec.specs.ArrayVec.{array_vec_len};
ghost use Rattle.box_math.specs.Bounds.{IsDims};
ghost use Rattle.page_file.specs.declared.fault.Fault.TheVariants as fault;
ghost use Rattle.node_bytes.specs.Layout.{IsOfLevel};
ghost use Rattle.reinsert.specs.Called;
ghost use Rattle.reinsert.specs.Called.{called_from};
ghost use Rattle.reinsert.specs.Placed.{held_of, held_with, measure_of};

use crate::waiting::{Wait, Waiting};
use arrayvec::ArrayVec;
use page_file::Fault;
use std::alloc::Allocator;
use tree_node::Entry;

impl<const D: usize> Waiting<D> {
    /// Room in which nothing waits.
    pub fn new() -> Waiting<D>
        requires { IsDims D }
    {
        Waiting {
            waits: ArrayVec::new(),
            called: [true; 41],
        }
    }

    /// Takes the memory for all that waits in insertions, at once: a box in which nothing waits. A refusal is
    /// `Memory`.
    pub fn make<H: Allocator>(alloc: H) -> Result<Box<Waiting<D>, H>, Fault>
        requires { IsDims D }
        ensures { IfErr result (λ f. f ≡ fault.Memory) }
    {
        Ok(Box::new(alloc, Waiting::new())?)
    }

    // Nothing waits, and of the levels below the root's none is called.
    pub(crate) fn begin(&mut self, top: u8)
        requires { top ≤ 40 }
        ensures waits { self.new.waits.items ≡ [] }
        ensures called { self.new.called ≡ called_from top }
        ensures measure { measure_of self.new ≤ 1200 }
    {
        self.waits.clear();
        self.called = levels_from(top);
    }

    // The first that waits.
    pub(crate) fn next(&mut self) -> Option<Wait<D>>
        ensures none { IsNone result → self.old.waits.items ≡ [] }
        ensures some { IfSome result (λ w. self.old.waits.items ≡ self.new.waits.items ++ w ∷ []) }
        ensures refers { IfSome result (λ w. IsOfLevel w.level w.entry.reference w.entry.tag) }
        ensures called { self.new.called ≡ self.old.called }
        ensures measure { IfSome result (λ w. measure_of self.new < measure_of self.old) }
    {
        self.waits.pop()
    }

    // Whether a node on the level has overflowed.
    pub(crate) fn is_called(&self, level: u8) -> bool
        requires { level < 41 }
        ensures { result ≡ Called.is_called self.now.called level }
    {
        self.called[usize::from(level)]
    }

    // A node on the level has overflowed.
    pub(crate) fn call(&mut self, level: u8)
        requires { level < 41 }
        ensures waits { self.new.waits.items ≡ self.old.waits.items }
        ensures called { self.new.called ≡ set self.old.called level true }
        ensures measure { measure_of self.new ≤ measure_of self.old }
    {
        self.called[usize::from(level)] = true;
    }

    // A node on a level that was not called has overflowed, and its far set waits before all others.
    pub(crate) fn wait_again(&mut self, far: &ArrayVec<Entry<D>, 101>, level: u8)
        requires level { level < 41 }
        requires first { Called.is_called self.old.called level ≡ false }
        requires few { array_vec_len far.now ≤ 30 }
        requires refers { All (λ e. IsOfLevel level e.reference e.tag) far.now.items }
        ensures waits { map held_of self.new.waits.items ≡ map held_of self.old.waits.items ++ reverse
            (map (held_with level) far.now.items) }
        ensures called { self.new.called ≡ set self.old.called level true }
        ensures measure { measure_of self.new ≤ measure_of self.old }
    {
        self.called[usize::from(level)] = true;
        for passed in 0..far.len() {
            let entry = far[far.len() - 1 - passed];
            self.waits.push(Wait { entry, level });
        }
    }
}

// For each level whether it is not below this one.
fn levels_from(top: u8) -> [bool; 41]
    requires { top ≤ 40 }
    ensures { result ≡ called_from top }
{
    let mut called = [true; 41];
    for level in 0..usize::from(top) {
        called[level] = false;
    }
    called
}
