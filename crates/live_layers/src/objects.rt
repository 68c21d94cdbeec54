//! Objects of a load into a layer of so many axes, as they were given.

ghost use Rattle.std.specs.Prelude.{◌≡◌, IfErr, IfOk, map, true};
ghost use Rattle.id_words.specs.Objects.{pairs_in};
ghost use Rattle.plain_table.specs.Loads.{given_object, have_dims};
ghost use Rattle.plain_table.specs.Step.{first_refusal};
ghost use Rattle.live_layers.specs.Faults.{is_plain};
ghost use Rattle.live_layers.specs.Inserting.{IsAllowedOr};
ghost use Rattle.live_layers.specs.Loading.{boxes_refusals};

use node_page::Entry;
use plain_table::{Axes, Dimension, RawBox, Refusal};
use std::alloc::Allocator;

/// The objects as entries of leaves of `D` axes. Refused, in this order, by WrongDims and BadBox.
pub(crate) fn entries_in<const D: usize, A: Allocator>(
    alloc: A,
    objects: &[(u64, RawBox, u32)],
) -> Result<Vec<Entry<D>, A>, Refusal>
where
    Axes: Dimension<D>,
    ensures allowed { IsAllowedOr ⊥ (first_refusal (boxes_refusals D objects.now)) result }
    ensures given { IfOk result (λ entries. pairs_in entries.items ≡ map given_object objects.now) }
    ensures quiet { IfErr result (λ r. is_plain r ≡ true) }
{
    if !have_axes::<D>(objects) {
        return Err(Refusal::WrongDims);
    }
    let mut entries = Vec::with_capacity(alloc, objects.len())?;
    for object in objects {
        let Ok(bounds) = <Axes as Dimension<D>>::bounds(object.1) else {
            return Err(Refusal::BadBox);
        };
        entries.push(Entry {
            bounds,
            reference: object.0,
            tag: object.2,
        })?;
    }
    Ok(entries)
}

// Whether all boxes have `D` axes.
fn have_axes<const D: usize>(objects: &[(u64, RawBox, u32)]) -> bool
where
    Axes: Dimension<D>,
    ensures { result ≡ have_dims D objects.now }
{
    for object in objects {
        if !<Axes as Dimension<D>>::has(&object.1) {
            return false;
        }
    }
    true
}
