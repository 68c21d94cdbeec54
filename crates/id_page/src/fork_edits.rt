//! A fork page changed where it lies.

ghost use Rattle.std.specs.Prelude.{◌≡◌, ℕ, ◌+◌, ◌-◌, ◌<◌, ◌≤◌, Some, [], ◌∷◌, ◌++◌, length};
ghost use Rattle.std.specs.Prelude.{insert, remove, slice_index_or, slice_set, take};
ghost use Rattle.block_bytes.specs.Numbers.{number_at};
ghost use Rattle.id_page.specs.Fork.{ForkContent, IsTidyFork, Link, fork_at, with_links};

use crate::head::{FORK_KIND, clear_bytes, count_at};
use crate::links::{key_at, link_place, page_at, write_link};
use block_bytes::{write_head, write_u8, write_u16};

/// Makes the page a fork of that dimension and level without children, with zeros in all bytes that it does
/// not name.
pub fn start_fork(page: &mut [u8; 4096], dims: u8, level: u8)
    requires high { 1 ≤ level }
    ensures empty { fork_at dims page.new ≡ Some (record { level = level; links = [] }) }
    ensures count { number_at 2 2 page.new ≡ 0 }
    ensures tidy { IsTidyFork page.new }
{
    write_head(page, FORK_KIND, dims, 0);
    write_u8(page, 4, level);
}

/// Adds a child to a fork page that has room: it is written in the place after the last one, and counted.
pub fn push_link(page: &mut [u8; 4096], key: u64, child: u32)
    requires room { number_at 2 2 page.old < 340 }
    ensures count { number_at 2 2 page.new ≡ number_at 2 2 page.old + 1 }
    ensures pushed { (dims : ℕ) (c : ForkContent) → fork_at dims page.old ≡ Some c
        → fork_at dims page.new ≡ Some (with_links c (c.links ++ (key, child) ∷ [])) }
    ensures tidy { IsTidyFork page.old → IsTidyFork page.new }
{
    let count = count_at(page);
    write_link(page, count, key, child);
    write_u16(page, 2, count as u16 + 1);
}

/// Writes another child into the place of one of a fork page.
pub fn set_link(page: &mut [u8; 4096], place: usize, key: u64, child: u32)
    requires within { place < 340 }
    ensures count { number_at 2 2 page.new ≡ number_at 2 2 page.old }
    ensures replaced { (dims : ℕ) (c : ForkContent) → fork_at dims page.old ≡ Some c → place < length c.links
        → fork_at dims page.new ≡ Some (with_links c (slice_set c.links place (key, child))) }
    ensures tidy { place < number_at 2 2 page.old → IsTidyFork page.old → IsTidyFork page.new }
{
    write_link(page, place, key, child);
}

/// Gives the child in the place of a fork page another key.
pub fn set_key(page: &mut [u8; 4096], place: usize, key: u64)
    requires within { place < 340 }
    ensures count { number_at 2 2 page.new ≡ number_at 2 2 page.old }
    ensures replaced { (dims : ℕ) (c : ForkContent) (other : Link) → fork_at dims page.old ≡ Some c
        → place < length c.links → fork_at dims page.new
        ≡ Some (with_links c (slice_set c.links place (key, (slice_index_or c.links place other).1))) }
    ensures tidy { place < number_at 2 2 page.old → IsTidyFork page.old → IsTidyFork page.new }
{
    let child = page_at(page, place);
    set_link(page, place, key, child);
}

/// Gives the child in the place of a fork page another page.
pub fn set_page(page: &mut [u8; 4096], place: usize, child: u32)
    requires within { place < 340 }
    ensures count { number_at 2 2 page.new ≡ number_at 2 2 page.old }
    ensures replaced { (dims : ℕ) (c : ForkContent) (other : Link) → fork_at dims page.old ≡ Some c
        → place < length c.links → fork_at dims page.new
        ≡ Some (with_links c (slice_set c.links place ((slice_index_or c.links place other).0, child))) }
    ensures tidy { place < number_at 2 2 page.old → IsTidyFork page.old → IsTidyFork page.new }
{
    let key = key_at(page, place);
    set_link(page, place, key, child);
}

/// Takes the last child from a fork page that has one: it is no longer counted, and its bytes are zeros.
pub fn pop_link(page: &mut [u8; 4096])
    requires some { 0 < number_at 2 2 page.old }
    requires few { number_at 2 2 page.old ≤ 340 }
    ensures count { number_at 2 2 page.new + 1 ≡ number_at 2 2 page.old }
    ensures popped { (dims : ℕ) (c : ForkContent) → fork_at dims page.old ≡ Some c
        → fork_at dims page.new ≡ Some (with_links c (take (length c.links - 1) c.links)) }
    ensures tidy { IsTidyFork page.old → IsTidyFork page.new }
{
    let last = count_at(page) - 1;
    clear_bytes(page, link_place(last), 12);
    write_u16(page, 2, last as u16);
}

/// Puts a child into the place of a fork page that has room: those from there on come one place on.
pub fn insert_link(page: &mut [u8; 4096], place: usize, key: u64, child: u32)
    requires within { place ≤ number_at 2 2 page.old }
    requires room { number_at 2 2 page.old < 340 }
    ensures count { number_at 2 2 page.new ≡ number_at 2 2 page.old + 1 }
    ensures inserted { (dims : ℕ) (c : ForkContent) → fork_at dims page.old ≡ Some c
        → fork_at dims page.new ≡ Some (with_links c (insert c.links place (key, child))) }
    ensures tidy { IsTidyFork page.old → IsTidyFork page.new }
{
    let mut moved_key = key;
    let mut moved_child = child;
    for at in place..count_at(page) {
        let next_key = key_at(page, at);
        let next_child = page_at(page, at);
        set_link(page, at, moved_key, moved_child);
        moved_key = next_key;
        moved_child = next_child;
    }
    push_link(page, moved_key, moved_child);
}

/// Takes the child in the place from a fork page: those behind it come one place back, and the bytes of the
/// last one are zeros.
pub fn remove_link(page: &mut [u8; 4096], place: usize)
    requires within { place < number_at 2 2 page.old }
    requires few { number_at 2 2 page.old ≤ 340 }
    ensures count { number_at 2 2 page.new + 1 ≡ number_at 2 2 page.old }
    ensures removed { (dims : ℕ) (c : ForkContent) → fork_at dims page.old ≡ Some c
        → fork_at dims page.new ≡ Some (with_links c (remove c.links place)) }
    ensures tidy { IsTidyFork page.old → IsTidyFork page.new }
{
    for at in place..count_at(page) - 1 {
        let key = key_at(page, at + 1);
        let child = page_at(page, at + 1);
        set_link(page, at, key, child);
    }
    pop_link(page);
}
