//! The calls that ask: each answer is one of a lawful step of the store that the handle holds, and the arrays
//! that are written are its rows.
ghost use Rattle.std.specs.Prelude.{◌≡◌, length};
ghost use Rattle.plain_table.specs.Answers.{boxes_answer, count_answer, distances_answer, object_answer};
ghost use Rattle.plain_table.specs.Answers.{pairs_answer};
ghost use Rattle.plain_table.specs.Commands.Command.{Count, Get, Join, Nearest, Range};
ghost use Rattle.c_rows.specs.Boxes.{raw_point, raw_query};
ghost use Rattle.c_rows.specs.Rows.{id_of, near_of, pair_of, row_of};
ghost use Rattle.c_session.specs.Calls.{AsksBy, AsksWith, HasCount, HasObject, TellsBy, tag_of};
ghost use Rattle.c_session.specs.Fetching.{Fetches};
ghost use Rattle.c_session.specs.Keeping.{with_boxes, with_near, with_pairs};

use crate::handle::Handle;
use c_rows::{Near, Pair, Row};

/// How many objects a layer has.
#[unsafe(no_mangle)]
pub extern "C" fn rstore_c_count(handle: &mut Handle, layer: &[u8], count: &mut u64) -> u32
    ensures { TellsBy handle.old.value.session handle.new.value.session (Count layer.now) count_answer
        (HasCount count.old count.new) result }
{
    handle.held().session.count(layer, count)
}

/// An object as a row.
#[unsafe(no_mangle)]
pub extern "C" fn rstore_c_get(handle: &mut Handle, layer: &[u8], id: u64, row: &mut Row) -> u32
    ensures { TellsBy handle.old.value.session handle.new.value.session (Get layer.now id) (object_answer id)
        (HasObject id row.old row.new) result }
{
    handle.held().session.get(layer, id, row)
}

/// The objects that meet a window (0), lie within it (1), enclose it (2), or hold a point (3), where it is
/// tagged only those with the tag. The session keeps them, and how many there are is told.
#[unsafe(no_mangle)]
pub extern "C" fn rstore_c_range(
    handle: &mut Handle,
    layer: &[u8],
    kind: u32,
    numbers: &[i32],
    tagged: bool,
    tag: u32,
    count: &mut usize,
) -> u32
    ensures asks { AsksWith handle.old.value.session handle.new.value.session (raw_query kind numbers.now)
        (λ query. Range layer.now query (tag_of tagged tag)) boxes_answer with_boxes result }
    ensures count { count.new ≡ length handle.new.value.session.boxes.items }
{
    let session = &mut handle.held().session;
    let number = session.range(layer, kind, numbers, tagged, tag);
    *count = session.boxes_len();
    number
}

/// Writes the rows of the last range query from the given one on, as many as there is room for, and says how
/// many.
#[unsafe(no_mangle)]
pub extern "C" fn rstore_c_rows(handle: &mut Handle, from: usize, out: &mut [Row]) -> usize
    ensures rows { Fetches row_of handle.old.value.session.boxes.items from out.old out.new result }
    ensures same { handle.new.value ≡ handle.old.value }
{
    handle.held().session.fetch_boxes(from, out)
}

/// The same of their identifiers alone.
#[unsafe(no_mangle)]
pub extern "C" fn rstore_c_ids(handle: &mut Handle, from: usize, out: &mut [u64]) -> usize
    ensures ids { Fetches id_of handle.old.value.session.boxes.items from out.old out.new result }
    ensures same { handle.new.value ≡ handle.old.value }
{
    handle.held().session.fetch_ids(from, out)
}

/// The k objects nearest to a point, which the session keeps.
#[unsafe(no_mangle)]
pub extern "C" fn rstore_c_nearest(
    handle: &mut Handle,
    layer: &[u8],
    k: u64,
    numbers: &[i32],
    count: &mut usize,
) -> u32
    ensures asks { AsksWith handle.old.value.session handle.new.value.session (raw_point numbers.now)
        (λ p. Nearest layer.now k p) distances_answer with_near result }
    ensures count { count.new ≡ length handle.new.value.session.near.items }
{
    let session = &mut handle.held().session;
    let number = session.nearest(layer, k, numbers);
    *count = session.near_len();
    number
}

/// Writes the rows of the last nearest query, as `rstore_c_rows` does.
#[unsafe(no_mangle)]
pub extern "C" fn rstore_c_near_rows(handle: &mut Handle, from: usize, out: &mut [Near]) -> usize
    ensures rows { Fetches near_of handle.old.value.session.near.items from out.old out.new result }
    ensures same { handle.new.value ≡ handle.old.value }
{
    handle.held().session.fetch_near(from, out)
}

/// The pairs of objects of two layers that are at most this squared distance apart, which the session keeps.
#[unsafe(no_mangle)]
pub extern "C" fn rstore_c_join(
    handle: &mut Handle,
    first: &[u8],
    second: &[u8],
    within: u64,
    count: &mut usize,
) -> u32
    ensures asks { AsksBy handle.old.value.session handle.new.value.session (Join first.now second.now within)
        pairs_answer with_pairs result }
    ensures count { count.new ≡ length handle.new.value.session.pairs.items }
{
    let session = &mut handle.held().session;
    let number = session.join(first, second, within);
    *count = session.pairs_len();
    number
}

/// Writes the rows of the last join, as `rstore_c_rows` does.
#[unsafe(no_mangle)]
pub extern "C" fn rstore_c_pair_rows(handle: &mut Handle, from: usize, out: &mut [Pair]) -> usize
    ensures rows { Fetches pair_of handle.old.value.session.pairs.items from out.old out.new result }
    ensures same { handle.new.value ≡ handle.old.value }
{
    handle.held().session.fetch_pairs(from, out)
}
