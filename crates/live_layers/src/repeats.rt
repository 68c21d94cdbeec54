//! Identifiers that stand twice in a list.

ghost use Rattle.std.specs.Prelude.{◌≡◌, IfOk, None, map, true};
ghost use Rattle.std.specs.List.Sorted.{IsNonDecreasing};
ghost use Rattle.id_words.specs.Objects.{pairs_in};
ghost use Rattle.plain_table.specs.Loads.{least_repeated};
ghost use Rattle.live_layers.specs.Loading.{IsLeastTwice};

use node_page::Entry;
use std::alloc::{AllocError, Allocator};

/// The least identifier that more than one of these entries of leaves has.
pub(crate) fn repeated<const D: usize, A: Allocator + Copy>(
    alloc: A,
    entries: &[Entry<D>],
) -> Result<Option<u64>, AllocError>
    ensures { IfOk result (λ id. id ≡ least_repeated (map (λ object. object.0) (pairs_in entries.now))) }
{
    if are_apart(alloc, entries)? {
        return Ok(None);
    }
    let mut ids = ids_of(alloc, entries)?;
    ids.sort_unstable();
    Ok(first_twice(ids.as_slice()))
}

// How many numbers there may be for an identifier, so that a mark for each number takes no more memory than
// the identifiers in order, and a third of their time.
const MOST_SPREAD: u64 = 8;

// Whether no two of the entries have one identifier, as marks tell where they lie close together. Where it
// says no, two may have.
fn are_apart<const D: usize, A: Allocator>(
    alloc: A,
    entries: &[Entry<D>],
) -> Result<bool, AllocError>
    ensures { IfOk result (λ apart. apart ≡ true
        → IsLeastTwice (map (λ entry. entry.reference) entries.now) None) }
{
    let (least, most) = ends_of(entries);
    let spread = most.saturating_sub(least);
    if spread / MOST_SPREAD >= entries.len() as u64 {
        return Ok(false);
    }
    let mut marks = vec![in alloc; false; spread as usize + 1]?;
    'entries: for place in 0..entries.len() {
        let at = entries[place].reference.saturating_sub(least) as usize;
        if at >= marks.len() {
            return Ok(false);
        }
        if marks[at] {
            return Ok(false);
        }
        marks[at] = true;
    }
    Ok(true)
}

// The least identifier of the entries, and the greatest.
fn ends_of<const D: usize>(entries: &[Entry<D>]) -> (u64, u64) {
    let mut least = u64::MAX;
    let mut most = 0;
    'entries: for place in 0..entries.len() {
        least = least.min(entries[place].reference);
        most = most.max(entries[place].reference);
    }
    (least, most)
}

// The identifiers of the entries, in their order.
fn ids_of<const D: usize, A: Allocator>(
    alloc: A,
    entries: &[Entry<D>],
) -> Result<Vec<u64, A>, AllocError>
    ensures { IfOk result (λ ids. ids.items ≡ map (λ entry. entry.reference) entries.now) }
{
    entries
        .iter()
        .map(
            |entry| -> u64
                ensures { result ≡ entry.entry.now.reference }
            { entry.reference },
        )
        .collect(alloc)
}

// The least number that stands twice in a list that ascends.
fn first_twice(ids: &[u64]) -> Option<u64>
    requires { IsNonDecreasing ids.now }
    ensures { IsLeastTwice ids.now result }
{
    for place in 1..ids.len() {
        if ids[place - 1] == ids[place] {
            return Some(ids[place]);
        }
    }
    None
}
