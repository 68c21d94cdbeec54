//! The objects of a leaf, offered to the k best.

ghost use Rattle.std.specs.Prelude.{◌≡◌, ◌^◌, ◌<◌, ◌≤◌, All, IfErr, OnOk, length, map, nat_lt, take};
ghost use Rattle.std.specs.List.{count_by};
ghost use Rattle.box_math.specs.Bounds.{IsBox};
ghost use Rattle.box_math.specs.Measures.{point_dist2_of};
ghost use Rattle.page_file.specs.declared.fault.Fault.TheVariants as fault;
ghost use Rattle.node_bytes.specs.Views.{content_in};
ghost use Rattle.nearest.specs.Candidates.{AreDistances, offered, row_at};

use crate::best::Best;
use crate::candidate::object_of;
use crate::distances::Distances;
use crate::reach::{near_mask, reach_mask};
use node_page::{NodeView, next_set};
use page_file::Fault;
use std::alloc::Allocator;

/// Offers the objects of a leaf, but for those that are too far.
pub(crate) fn offer_objects<const D: usize, H: Allocator>(
    view: &NodeView<'_, D>,
    point: &[i32; D],
    k: usize,
    best: &mut Best<H>,
) -> Result<(), Fault>
    requires some { 1 ≤ k }
    requires few { length best.old ≤ k }
    requires boxes { All (λ item. IsBox D item.bounds) (content_in view.now).entries }
    requires small { length (content_in view.now).entries ≤ 100 }
    ensures offered { OnOk result (best.new ≡ offered k best.old
        (map (row_at (λ b. point_dist2_of D b point.now)) (content_in view.now).entries)) }
    ensures few { OnOk result (length best.new ≤ k) }
    ensures memory { IfErr result (λ f. f ≡ fault.Memory) }
{
    if best.is_full(k) {
        return offer_near(view, point, k, best);
    }
    offer_all(view, point, k, best)
}

// Offers those that may be among the k nearest, where few objects are known: all are measured at once.
fn offer_all<const D: usize, H: Allocator>(
    view: &NodeView<'_, D>,
    point: &[i32; D],
    k: usize,
    best: &mut Best<H>,
) -> Result<(), Fault>
    requires some { 1 ≤ k }
    requires few { length best.old ≤ k }
    requires boxes { All (λ item. IsBox D item.bounds) (content_in view.now).entries }
    requires small { length (content_in view.now).entries ≤ 100 }
    ensures offered { OnOk result (best.new ≡ offered k best.old
        (map (row_at (λ b. point_dist2_of D b point.now)) (content_in view.now).entries)) }
    ensures few { OnOk result (length best.new ≤ k) }
    ensures memory { IfErr result (λ f. f ≡ fault.Memory) }
{
    let mut distances = Distances::none();
    distances.measure(view, point);
    match distances.bound(view.len(), k) {
        Some(bound) => offer_first(view, &distances, bound, point, k, best),
        None => offer_each(view, &distances, point, k, best),
    }
}

// Offers those in the reach of a square than which k of the distances are less: so many fewer are offered in
// vain.
fn offer_first<const D: usize, H: Allocator>(
    view: &NodeView<'_, D>,
    distances: &Distances,
    bound: u64,
    point: &[i32; D],
    k: usize,
    best: &mut Best<H>,
) -> Result<(), Fault>
    requires some { 1 ≤ k }
    requires few { length best.old ≤ k }
    requires boxes { All (λ item. IsBox D item.bounds) (content_in view.now).entries }
    requires measured { AreDistances (λ b. point_dist2_of D b point.now) (content_in view.now).entries
        distances.now.squares distances.now.widest }
    requires exact { distances.now.widest < 2 ^ 31 }
    requires enough { k ≤ count_by (λ square. nat_lt square bound)
        (take (length (content_in view.now).entries) distances.now.squares) }
    ensures offered { OnOk result (best.new ≡ offered k best.old
        (map (row_at (λ b. point_dist2_of D b point.now)) (content_in view.now).entries)) }
    ensures few { OnOk result (length best.new ≤ k) }
    ensures memory { IfErr result (λ f. f ≡ fault.Memory) }
{
    best.see_order();
    let mask = reach_mask(view, point, bound);
    let count = view.len();
    let mut place = next_set(mask, 0);
    'objects: while place < count {
        let distance = distances.at(view, place, point);
        best.offer(object_of(&view.entry(place), distance), k)?;
        place = next_set(mask, place + 1);
    }
    Ok(())
}

// Offers each.
fn offer_each<const D: usize, H: Allocator>(
    view: &NodeView<'_, D>,
    distances: &Distances,
    point: &[i32; D],
    k: usize,
    best: &mut Best<H>,
) -> Result<(), Fault>
    requires some { 1 ≤ k }
    requires few { length best.old ≤ k }
    requires measured { AreDistances (λ b. point_dist2_of D b point.now) (content_in view.now).entries
        distances.now.squares distances.now.widest }
    ensures offered { OnOk result (best.new ≡ offered k best.old
        (map (row_at (λ b. point_dist2_of D b point.now)) (content_in view.now).entries)) }
    ensures few { OnOk result (length best.new ≤ k) }
    ensures memory { IfErr result (λ f. f ≡ fault.Memory) }
{
    'objects: for place in 0..view.len() {
        let distance = distances.at(view, place, point);
        if best.are_nearer(distance, k) {
            continue;
        }
        best.offer(object_of(&view.entry(place), distance), k)?;
    }
    Ok(())
}

// Offers those in the reach of the k best, which are few.
fn offer_near<const D: usize, H: Allocator>(
    view: &NodeView<'_, D>,
    point: &[i32; D],
    k: usize,
    best: &mut Best<H>,
) -> Result<(), Fault>
    requires some { 1 ≤ k }
    requires few { length best.old ≤ k }
    requires boxes { All (λ item. IsBox D item.bounds) (content_in view.now).entries }
    requires small { length (content_in view.now).entries ≤ 100 }
    ensures offered { OnOk result (best.new ≡ offered k best.old
        (map (row_at (λ b. point_dist2_of D b point.now)) (content_in view.now).entries)) }
    ensures few { OnOk result (length best.new ≤ k) }
    ensures memory { IfErr result (λ f. f ≡ fault.Memory) }
{
    let mask = near_mask(view, point, k, best);
    let count = view.len();
    let mut place = next_set(mask, 0);
    'objects: while place < count {
        let entry = view.entry(place);
        best.offer(object_of(&entry, entry.bounds.point_dist2(point)), k)?;
        place = next_set(mask, place + 1);
    }
    Ok(())
}
