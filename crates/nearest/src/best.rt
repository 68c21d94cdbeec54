//! The nearest of the objects seen so far.

ghost use Rattle.std.specs.Prelude.{◌≡◌, ◌↔◌, ◌≤◌, [], false, length, take, IfOk, IfErr, IsTrue, OnOk};
ghost use Rattle.box_math.specs.Bounds.{Bounds, IsBox, meets_test};
ghost use Rattle.box_math.specs.Measures.{point_dist2_of};
ghost use Rattle.box_math.specs.Nearest.{nearest_first, put_nearest_first};
ghost use Rattle.nearest.specs.Candidates.{Past};
ghost use Rattle.page_file.specs.declared.fault.Fault.TheVariants as fault;

use crate::candidate::Object;
use crate::reach::{box_around, side_of};
use box_math::BBox;
use page_file::Fault;
use std::alloc::Allocator;
use std::collections::BinaryHeap;
use std::marker::Model;

// Memory for so many objects is taken at once.
const FEW: usize = 1024;

/// The k nearest objects so far. Contracts see their identifiers and distances in the order of an answer.
#[derive(Drop)]
pub(crate) struct Best<H: Allocator> {
    heap: BinaryHeap<Object, H>,
}

impl<H: Allocator> Model for Best<H> {
    ghost use Rattle.std.specs.Prelude.{ℕ, List, map};
    ghost use Rattle.std.specs.BinaryHeap.{IsHeap, heap_items};
    ghost use Rattle.box_math.specs.Nearest.{nearest_first};

    ghost Value = { List (ℕ × ℕ) };

    ghost view = { λ b. nearest_first (map (λ o. (o.identifier, o.distance)) (heap_items b.heap)) };

    ghost invariant = { λ b. IsHeap ⟦<Object as Ord>⟧.cmp (heap_items b.heap) };
}

impl<H: Allocator> Best<H> {
    pub(crate) fn new(alloc: H, k: usize) -> Result<Best<H>, Fault>
        ensures none { IfOk result (λ best. best ≡ []) }
        ensures memory { IfErr result (λ f. f ≡ fault.Memory) }
    {
        let heap = BinaryHeap::with_capacity(alloc, k.min(FEW))?;
        Ok(Best { heap })
    }

    /// They are in the order of an answer.
    pub(crate) fn see_order(&self)
        ensures { nearest_first self.now ≡ self.now }
    {
        let _ = &self.heap;
    }

    /// Takes the object in, if it is among the k nearest.
    pub(crate) fn offer(&mut self, object: Object, k: usize) -> Result<(), Fault>
        requires few { length self.old ≤ k }
        requires some { 1 ≤ k }
        ensures ok { OnOk result
            (self.new ≡ take k (put_nearest_first (object.identifier, object.distance) self.old)) }
        ensures memory { IfErr result (λ f. f ≡ fault.Memory) }
    {
        if self.heap.len() < k {
            self.heap.push(object)?;
            return Ok(());
        }
        let comes_first = match self.heap.peek() {
            Some(last) => object.cmp(last).is_lt(),
            None => false,
        };
        if !comes_first {
            return Ok(());
        }
        let Some(mut last) = self.heap.peek_mut() else {
            return Ok(());
        };
        *last = object;
        Ok(())
    }

    /// Whether k objects are known, and all are nearer.
    pub(crate) fn are_nearer(&self, distance: u128, k: usize) -> bool
        requires few { length self.now ≤ k }
        requires some { 1 ≤ k }
        ensures { IsTrue result ↔ Past distance k self.now }
    {
        if self.heap.len() < k {
            return false;
        }
        match self.heap.peek() {
            Some(last) => last.distance < distance,
            None => false,
        }
    }

    /// Whether k objects are known.
    pub(crate) fn is_full(&self, k: usize) -> bool {
        self.heap.len() >= k
    }

    /// A box round the point: where k objects are known, all are nearer than what misses it.
    pub(crate) fn reach<const D: usize>(&self, point: &[i32; D], k: usize) -> BBox<D>
        requires few { length self.now ≤ k }
        requires some { 1 ≤ k }
        ensures { (b : Bounds) → IsBox D b → meets_test D b result ≡ false
            → Past (point_dist2_of D b point.now) k self.now }
    {
        if self.heap.len() < k {
            return box_around(point, u32::MAX);
        }
        match self.heap.peek() {
            Some(last) => box_around(point, side_of(last.distance)),
            None => box_around(point, u32::MAX),
        }
    }

    /// The identifiers and the distances, in order.
    pub(crate) fn into_rows(self, alloc: H) -> Result<Vec<(u64, u128), H>, Fault>
        ensures rows { IfOk result (λ rows. rows.items ≡ self) }
        ensures memory { IfErr result (λ f. f ≡ fault.Memory) }
    {
        let objects = self.heap.into_sorted_vec();
        let mut rows = Vec::with_capacity(alloc, objects.len())?;
        for place in 0..objects.len() {
            let object = objects[place];
            rows.push((object.identifier, object.distance))?;
        }
        Ok(rows)
    }
}
