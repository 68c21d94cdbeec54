//! A fork page looked through: the way to an identifier, and whether a page is a fork.

ghost use Rattle.std.specs.Prelude.{◌≡◌, ℕ, ◌+◌, ◌-◌, ◌<◌, ◌≤◌, ◌⊎◌, Some, length, slice_index_or, IsSome};
ghost use Rattle.std.specs.Prelude.{IsTrue};
ghost use Rattle.block_bytes.specs.Numbers.{number_at};
ghost use Rattle.id_page.specs.Fork.{AreAscending, ForkContent, Link, fork_at, link_at, route, route_place};

use crate::head::count_at;
use crate::links::{has_fork_head, key_at};

/// The place of the child where an identifier is, in a fork page with 1 to 340 children: the one before the
/// first whose key is greater. It is looked for by halves, so the keys have to ascend; in any page it is some
/// child's place.
pub fn place_of_child(page: &[u8; 4096], id: u64) -> usize
    requires some { 1 ≤ number_at 2 2 page.now }
    requires few { number_at 2 2 page.now ≤ 340 }
    ensures within { result < number_at 2 2 page.now }
    ensures from { (result ≡ 0) ⊎ ((link_at page.now result).0 ≤ id) }
    ensures upto { (result + 1 ≡ number_at 2 2 page.now) ⊎ (id < (link_at page.now (result + 1)).0) }
    ensures place { (dims : ℕ) (c : ForkContent) → fork_at dims page.now ≡ Some c → AreAscending c.links
        → result ≡ route_place id c.links }
    ensures route { (dims : ℕ) (c : ForkContent) (other : Link) → fork_at dims page.now ≡ Some c
        → AreAscending c.links → route id c.links ≡ Some (slice_index_or c.links result other).1 }
{
    let mut low = 0;
    let mut high = count_at(page);
    'halves: while high - low > 1 {
        let half = half_of(page, id, low, high);
        low = half.0;
        high = half.1;
    }
    low
}

// The half of the places from `low` to `high` where an identifier is.
fn half_of(page: &[u8; 4096], id: u64, low: usize, high: usize) -> (usize, usize)
    requires two { low + 1 < high }
    requires few { high ≤ 340 }
    ensures some { result.0 < result.1 }
    ensures within { (low ≤ result.0) × (result.1 ≤ high) }
    ensures fewer { result.1 - result.0 < high - low }
    ensures from { (result.0 ≡ low) ⊎ ((link_at page.now result.0).0 ≤ id) }
    ensures upto { (result.1 ≡ high) ⊎ (id < (link_at page.now result.1).0) }
{
    let middle = low + (high - low) / 2;
    if id < key_at(page, middle) {
        return (low, middle);
    }
    (middle, high)
}

/// Whether the page is a fork of that dimension: its kind is 8, its level at least 1, its count at most 340,
/// and its keys ascend strictly from the second on.
pub fn is_fork<const D: usize>(page: &[u8; 4096]) -> bool
    ensures fork { IsTrue result → IsSome (fork_at D page.now) }
    ensures ascending { IsTrue result → (c : ForkContent) → fork_at D page.now ≡ Some c
        → AreAscending c.links }
    ensures accepts { (c : ForkContent) → fork_at D page.now ≡ Some c → AreAscending c.links → IsTrue result }
{
    if !has_fork_head::<D>(page) {
        return false;
    }
    are_ascending(page)
}

// Whether the keys of a fork page ascend strictly from the second on.
fn are_ascending(page: &[u8; 4096]) -> bool
    requires few { number_at 2 2 page.now ≤ 340 }
    ensures ascending { (dims : ℕ) (c : ForkContent) → fork_at dims page.now ≡ Some c → IsTrue result
        → AreAscending c.links }
    ensures accepts { (dims : ℕ) (c : ForkContent) → fork_at dims page.now ≡ Some c → AreAscending c.links
        → IsTrue result }
{
    for place in 2..count_at(page) {
        if key_at(page, place) <= key_at(page, place - 1) {
            return false;
        }
    }
    true
}
