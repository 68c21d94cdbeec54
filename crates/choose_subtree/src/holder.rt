//! The choice where some entry holds the new box already.

ghost use Rattle.std.specs.Prelude.{◌≡◌, ◌⊎◌, ◌<◌, ◌≤◌, ℕ, All, IfNone, IfSome, IsTrue, length};
ghost use Rattle.box_math.specs.Bounds.{IsBox, Within};
ghost use Rattle.choose_subtree.specs.Choice.{IsChosenChild, growth_of};
ghost use Rattle.node_bytes.specs.Views.{content_in};
ghost use Rattle.tree_node.specs.Boxes.{box_at};

use crate::entries::{box_in, next_of};
use box_math::BBox;
use node_page::NodeView;

// An entry that holds the new box already.
#[derive(Clone, Copy)]
struct Holder {
    area: u128,
    place: usize,
}

// The lesser of two, of which there may be one; the first where they are equal.
fn lesser(first: Option<Holder>, second: Holder) -> Holder
    ensures alone { IfNone first (result ≡ second) }
    ensures both { IfSome first (λ holder. ((result ≡ holder) × (holder.area ≤ second.area))
        ⊎ ((result ≡ second) × (second.area < holder.area))) }
{
    match first {
        Some(holder) if holder.area <= second.area => holder,
        _ => second,
    }
}

// Whether the new box has a volume, or each entry does: then each entry that does not hold it has to grow.
fn all_grow<const D: usize>(node: &NodeView<D>, new: &BBox<D>) -> bool
    requires boxes { All (λ item. IsBox D item.bounds) (content_in node.now).entries }
    ensures { IsTrue result → (j : ℕ) → j < length (content_in node.now).entries
        → (Within D new.now (box_at (content_in node.now).entries j) → ⊥)
        → 0 < growth_of D (box_at (content_in node.now).entries j) new.now }
{
    let _ = new.low();
    new.volume() != 0 || node.none_is_flat()
}

/// The first least of the entries that hold the box already, which is the chosen one: it does not grow, and
/// each other one does. `None` where none holds it, or an entry may stay as small where it takes the box in.
pub(crate) fn least_holder<const D: usize>(node: &NodeView<D>, new: &BBox<D>) -> Option<usize>
    requires boxes { All (λ item. IsBox D item.bounds) (content_in node.now).entries }
    ensures within { IfSome result (λ place. place < length (content_in node.now).entries) }
    ensures chosen { IfSome result
        (IsChosenChild D (content_in node.now).level (content_in node.now).entries new.now) }
{
    if !all_grow(node, new) {
        return None;
    }
    let _ = new.low();
    let near = node.mask(new);
    let mut least: Option<Holder> = None;
    let mut place = next_of(near, 0, node.len());
    'entries: while place < node.len() {
        let held = box_in(node, place);
        if held.encloses(new) {
            let area = held.volume();
            least = Some(lesser(least, Holder { area, place }));
        }
        place = next_of(near, place + 1, node.len());
    }
    match least {
        Some(holder) => Some(holder.place),
        None => None,
    }
}
