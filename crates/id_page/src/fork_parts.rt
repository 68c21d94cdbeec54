//! Fork pages joined and cut.

ghost use Rattle.std.specs.Prelude.{◌≡◌, ℕ, ◌+◌, ◌-◌, ◌≤◌, Some, ◌++◌, length, take, drop};
ghost use Rattle.block_bytes.specs.Numbers.{number_at};
ghost use Rattle.id_page.specs.Fork.{ForkContent, IsTidyFork, fork_at, with_links};

use crate::fork_edits::{pop_link, push_link};
use crate::head::count_at;
use crate::links::{key_at, page_at};

/// Adds the children of another fork page from a place on, in their order, to a fork page that has room for
/// them.
pub fn append_links(page: &mut [u8; 4096], other: &[u8; 4096], from: usize)
    requires from { from ≤ number_at 2 2 other.now }
    requires few { number_at 2 2 other.now ≤ 340 }
    requires room { number_at 2 2 page.old + (number_at 2 2 other.now - from) ≤ 340 }
    ensures count { number_at 2 2 page.new ≡ number_at 2 2 page.old + (number_at 2 2 other.now - from) }
    ensures appended { (dims : ℕ) (c more : ForkContent) → fork_at dims page.old ≡ Some c
        → fork_at dims other.now ≡ Some more
        → fork_at dims page.new ≡ Some (with_links c (c.links ++ drop from more.links)) }
    ensures tidy { IsTidyFork page.old → IsTidyFork page.new }
{
    for place in from..count_at(other) {
        push_link(page, key_at(other, place), page_at(other, place));
    }
}

/// Keeps the first children of a fork page, and takes all others. Their bytes are zeros then.
pub fn keep_links(page: &mut [u8; 4096], many: usize)
    requires few { number_at 2 2 page.old ≤ 340 }
    ensures count { number_at 2 2 page.new ≤ many }
    ensures kept { (dims : ℕ) (c : ForkContent) → fork_at dims page.old ≡ Some c
        → fork_at dims page.new ≡ Some (with_links c (take many c.links)) }
    ensures tidy { IsTidyFork page.old → IsTidyFork page.new }
{
    let count = count_at(page);
    for place in many..count {
        pop_link(page);
    }
}
