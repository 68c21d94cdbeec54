//! The columns of a node page: lows and highs of each axis, and references after them.

ghost use Rattle.std.specs.Prelude.{◌≡◌, ℕ, ◌+◌, ◌*◌, ◌^◌, ◌<◌, ◌≤◌, ◌<ℤ◌, ◌≤ℤ◌, ◌↔◌, pos, IsTrue};
ghost use Rattle.block_bytes.specs.Numbers.{number_at, signed_at};
ghost use Rattle.block_bytes.specs.Places.{first_places};
ghost use Rattle.box_math.specs.Bounds.{IsDims, IsOrdered, on_axis};
ghost use Rattle.tree_node.specs.Boxes.{least_box};
ghost use Rattle.node_bytes.specs.Columns.{IsGreatestOf, IsLeastOf, cell};
ghost use Rattle.node_bytes.specs.Layout.{IsEntry, item_at};

use block_bytes::{read_i32, read_u64};
use box_math::BBox;

/// Whether the first places hold entries of a node on the level: each low is at most its high, and each
/// reference above the leaves is the page of a child. Columns are compared as wholes, which costs a fifth of
/// reading entry by entry.
pub(crate) fn has_entries<const D: usize>(page: &[u8; 4096], level: u8, count: usize) -> bool
    requires dims { IsDims D }
    requires count { count ≤ 100 }
    ensures { IsTrue result ↔ ((place : ℕ) → place < count → IsEntry D level (item_at D page.now place)) }
{
    if level > 0 && !are_references(page, 16 + 800 * D, count) {
        return false;
    }
    for axis in 0..D {
        if !are_ordered(page, 16 + 800 * axis, count) {
            return false;
        }
    }
    true
}

// Whether the references from the byte `first` are pages of children, from 3 on and below 2^31.
fn are_references(page: &[u8; 4096], first: usize, count: usize) -> bool
    requires within { first ≤ 2416 }
    requires count { count ≤ 100 }
    ensures { IsTrue result ↔ ((place : ℕ) → place < count
        → (3 ≤ number_at 8 (first + 8 * place) page.now)
        × (number_at 8 (first + 8 * place) page.now < 2 ^ 31)) }
{
    let mut good = true;
    for place in 0..count {
        let reference = read_u64(page, first + 8 * place);
        good &= reference >= 3;
        good &= reference < 1 << 31;
    }
    good
}

// Whether each low of the column from the byte `first` is at most its high.
fn are_ordered(page: &[u8; 4096], first: usize, count: usize) -> bool
    requires within { first ≤ 1616 }
    requires count { count ≤ 100 }
    ensures { IsTrue result ↔ ((place : ℕ) → place < count
        → signed_at (first + 4 * place) page.now ≤ℤ signed_at (first + 400 + 4 * place) page.now) }
{
    let mut good = true;
    for place in 0..count {
        good &= read_i32(page, first + 4 * place) <= read_i32(page, first + 400 + 4 * place);
    }
    good
}

/// The columns of the axes, the first of which begins at the byte `first`, with zeros after their first
/// numbers.
pub(crate) fn read_columns<const D: usize>(
    page: &[u8; 4096],
    first: usize,
    count: usize,
) -> [[i32; 100]; D]
    requires dims { IsDims D }
    requires within { first ≤ 416 }
    requires count { count ≤ 100 }
    ensures read { (axis place : ℕ) → axis < D → place < count
        → cell result axis place ≡ signed_at (first + 800 * axis + 4 * place) page.now }
    ensures zeros { (axis place : ℕ) → axis < D → count ≤ place → cell result axis place ≡ pos 0 }
{
    let mut columns = [[0i32; 100]; D];
    for axis in 0..D {
        columns[axis] = read_column(page, first + 800 * axis, count);
    }
    columns
}

// The first numbers of the column that begins at the byte `first`, and zeros after them.
fn read_column(page: &[u8; 4096], first: usize, count: usize) -> [i32; 100]
    requires within { first ≤ 2016 }
    requires count { count ≤ 100 }
    ensures read { (place : ℕ) → place < count →
        on_axis result place ≡ signed_at (first + 4 * place) page.now }
    ensures zeros { (place : ℕ) → count ≤ place → on_axis result place ≡ pos 0 }
{
    let mut column = [0i32; 100];
    for place in 0..count {
        column[place] = read_i32(page, first + 4 * place);
    }
    column
}

/// Whether no box in the first places is flat: each low is below its high.
pub(crate) fn none_is_flat<const D: usize>(page: &[u8; 4096], count: usize) -> bool
    requires dims { IsDims D }
    requires count { count ≤ 100 }
    ensures { IsTrue result ↔ ((axis place : ℕ) → axis < D → place < count
        → signed_at (16 + 800 * axis + 4 * place) page.now <ℤ signed_at (16 + 800 * axis + 400 + 4 * place)
        page.now) }
{
    for axis in 0..D {
        if !are_below(page, 16 + 800 * axis, count) {
            return false;
        }
    }
    true
}

// Whether each low of the column from the byte `first` is below its high.
fn are_below(page: &[u8; 4096], first: usize, count: usize) -> bool
    requires within { first ≤ 1616 }
    requires count { count ≤ 100 }
    ensures { IsTrue result ↔ ((place : ℕ) → place < count
        → signed_at (first + 4 * place) page.now <ℤ signed_at (first + 400 + 4 * place) page.now) }
{
    let mut good = true;
    for place in 0..count {
        good &= read_i32(page, first + 4 * place) < read_i32(page, first + 400 + 4 * place);
    }
    good
}

/// The least box round those in so many places from one on, of which there is one.
pub(crate) fn least_in<const D: usize>(page: &[u8; 4096], from: usize, count: usize) -> BBox<D>
    requires dims { IsDims D }
    requires count { (0 < count) × (from + count ≤ 100) }
    requires ordered { (place : ℕ) → from ≤ place → place < from + count
        → IsOrdered D (item_at D page.now place).bounds.low (item_at D page.now place).bounds.high }
    ensures { result ≡ least_box D (first_places (λ k. item_at D page.now (from + k)) count) }
{
    let mut low = [0i32; D];
    let mut high = [0i32; D];
    for axis in 0..D {
        low[axis] = least_of(page, 16 + 800 * axis + 4 * from, count);
        high[axis] = greatest_of(page, 16 + 800 * axis + 400 + 4 * from, count);
    }
    BBox::new(low, high)
}

// The least of the first numbers of the column from the byte `first`.
fn least_of(page: &[u8; 4096], first: usize, count: usize) -> i32
    requires within { first + 4 * count ≤ 4096 }
    requires count { (0 < count) × (count ≤ 100) }
    ensures { IsLeastOf (λ k. signed_at (first + 4 * k) page.now) count result }
{
    let mut least = read_i32(page, first);
    for place in 1..count {
        least = least.min(read_i32(page, first + 4 * place));
    }
    least
}

// The greatest of them.
fn greatest_of(page: &[u8; 4096], first: usize, count: usize) -> i32
    requires within { first + 4 * count ≤ 4096 }
    requires count { (0 < count) × (count ≤ 100) }
    ensures { IsGreatestOf (λ k. signed_at (first + 4 * k) page.now) count result }
{
    let mut greatest = read_i32(page, first);
    for place in 1..count {
        greatest = greatest.max(read_i32(page, first + 4 * place));
    }
    greatest
}
