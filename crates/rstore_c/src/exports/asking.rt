//! The calls that ask what no command does: a range query in any order, and the join of given rows.
ghost use Rattle.std.specs.Prelude.{◌≡◌, ◌⊎◌, length, map};
ghost use Rattle.c_rows.specs.Boxes.{raw_query};
ghost use Rattle.c_rows.specs.Rows.{object_in};
ghost use Rattle.c_session.specs.Asking.{AsksRows, AsksUnordered};
ghost use Rattle.c_session.specs.Calls.{HasNoMemory, tag_of};

use crate::handle::Handle;
use c_rows::Row;
use std::alloc::Global;

/// Asks as `rstore_c_range` does, for the objects in any order.
#[unsafe(no_mangle)]
pub extern "C" fn rstore_c_range_unordered(
    handle: &mut Handle,
    layer: &[u8],
    kind: u32,
    numbers: &[i32],
    tagged: bool,
    tag: u32,
    count: &mut usize,
) -> u32
    ensures asks { AsksUnordered handle.old.value.session handle.new.value.session layer.now
        (raw_query kind numbers.now) (tag_of tagged tag) result }
    ensures count { count.new ≡ length handle.new.value.session.boxes.items }
{
    let session = &mut handle.held().session;
    let number = session.range_unordered(layer, kind, numbers, tagged, tag);
    *count = session.boxes_len();
    number
}

/// The pairs of given rows, of two axes where `axes` is 2 and else of three, and of the objects of a layer that are at
/// most this squared distance apart, which the session keeps.
#[unsafe(no_mangle)]
pub extern "C" fn rstore_c_join_rows(
    alloc: Global,
    handle: &mut Handle,
    axes: u32,
    rows: &[Row],
    layer: &[u8],
    within: u64,
    count: &mut usize,
) -> u32
    ensures asks { AsksRows handle.old.value.session handle.new.value.session (map (object_in axes) rows.now)
        layer.now within result ⊎ HasNoMemory handle.old.value.session handle.new.value.session result }
    ensures count { count.new ≡ length handle.new.value.session.pairs.items }
{
    let session = &mut handle.held().session;
    let number = session.join_rows(alloc, axes, rows, layer, within);
    *count = session.pairs_len();
    number
}
