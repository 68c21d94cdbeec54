//! The children of a node, which wait to be read.

ghost use Rattle.std.specs.Prelude.{◌≡◌, ◌<◌, ◌≤◌, All, IfErr, OnOk, length, map};
ghost use Rattle.box_math.specs.Bounds.{IsBox};
ghost use Rattle.box_math.specs.Measures.{point_dist2_of};
ghost use Rattle.page_file.specs.declared.fault.Fault.TheVariants as fault;
ghost use Rattle.node_bytes.specs.Layout.{IsSpellable};
ghost use Rattle.node_bytes.specs.Views.{content_in};
ghost use Rattle.nearest.specs.Candidates.{Appends, candidate_at};

use crate::best::Best;
use crate::candidate::{Candidate, child_of};
use crate::distances::Distances;
use crate::reach::near_mask;
use node_page::{NodeView, next_set};
use page_file::Fault;
use std::alloc::Allocator;

/// Appends the children of a node on the level, but for those that are too far.
pub(crate) fn append_children<const D: usize, H: Allocator>(
    view: &NodeView<'_, D>,
    level: u8,
    point: &[i32; D],
    k: usize,
    best: &Best<H>,
    fresh: &mut Vec<Candidate, H>,
) -> Result<(), Fault>
    requires some { 1 ≤ k }
    requires few { length best.now ≤ k }
    requires boxes { All (λ item. IsBox D item.bounds) (content_in view.now).entries }
    requires spellable { IsSpellable (content_in view.now) }
    requires level { (content_in view.now).level ≡ level }
    requires above { 0 < level }
    ensures appended { OnOk result (Appends k best.now
        (map (candidate_at (λ b. point_dist2_of D b point.now) level) (content_in view.now).entries)
        fresh.old.items fresh.new.items) }
    ensures memory { IfErr result (λ f. f ≡ fault.Memory) }
{
    if best.is_full(k) {
        return append_near(view, level, point, k, best, fresh);
    }
    append_all(view, level, point, k, best, fresh)
}

// Appends each, where few objects are known: all are measured at once.
fn append_all<const D: usize, H: Allocator>(
    view: &NodeView<'_, D>,
    level: u8,
    point: &[i32; D],
    k: usize,
    best: &Best<H>,
    fresh: &mut Vec<Candidate, H>,
) -> Result<(), Fault>
    requires some { 1 ≤ k }
    requires few { length best.now ≤ k }
    requires spellable { IsSpellable (content_in view.now) }
    requires level { (content_in view.now).level ≡ level }
    requires above { 0 < level }
    ensures appended { OnOk result (Appends k best.now
        (map (candidate_at (λ b. point_dist2_of D b point.now) level) (content_in view.now).entries)
        fresh.old.items fresh.new.items) }
    ensures memory { IfErr result (λ f. f ≡ fault.Memory) }
{
    let mut distances = Distances::none();
    distances.measure(view, point);
    'children: for place in 0..view.len() {
        let distance = distances.at(view, place, point);
        if best.are_nearer(distance, k) {
            continue;
        }
        fresh.push(child_of(&view.entry(place), level, distance))?;
    }
    Ok(())
}

// Appends those in the reach of the k best, which are few.
fn append_near<const D: usize, H: Allocator>(
    view: &NodeView<'_, D>,
    level: u8,
    point: &[i32; D],
    k: usize,
    best: &Best<H>,
    fresh: &mut Vec<Candidate, H>,
) -> Result<(), Fault>
    requires some { 1 ≤ k }
    requires few { length best.now ≤ k }
    requires boxes { All (λ item. IsBox D item.bounds) (content_in view.now).entries }
    requires spellable { IsSpellable (content_in view.now) }
    requires level { (content_in view.now).level ≡ level }
    requires above { 0 < level }
    ensures appended { OnOk result (Appends k best.now
        (map (candidate_at (λ b. point_dist2_of D b point.now) level) (content_in view.now).entries)
        fresh.old.items fresh.new.items) }
    ensures memory { IfErr result (λ f. f ≡ fault.Memory) }
{
    let mask = near_mask(view, point, k, best);
    let count = view.len();
    let mut place = next_set(mask, 0);
    'children: while place < count {
        let entry = view.entry(place);
        fresh.push(child_of(&entry, level, entry.bounds.point_dist2(point)))?;
        place = next_set(mask, place + 1);
    }
    Ok(())
}
