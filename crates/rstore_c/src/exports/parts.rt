//! The calls that ask for a part of an answer, and one that gets objects one by one.
ghost use Rattle.std.specs.Prelude.{◌≡◌, length};
ghost use Rattle.plain_table.specs.Commands.Command.{Range};
ghost use Rattle.c_rows.specs.Boxes.{raw_point, raw_query};
ghost use Rattle.c_session.specs.Calls.{tag_of};
ghost use Rattle.c_session.specs.Parts.{AsksAfter, AsksNearRows, TellsLast};

use crate::handle::Handle;

/// The objects that a range query seeks, as of `rstore_c_range`, whose identifiers are greater than this. The session
/// keeps them, and how many there are is told.
#[unsafe(no_mangle)]
pub extern "C" fn rstore_c_range_after(
    handle: &mut Handle,
    layer: &[u8],
    kind: u32,
    numbers: &[i32],
    tagged: bool,
    tag: u32,
    after: u64,
    count: &mut usize,
) -> u32
    ensures asks { AsksAfter handle.old.value.session handle.new.value.session (raw_query kind numbers.now)
        (λ query. Range layer.now query (tag_of tagged tag)) after result }
    ensures count { count.new ≡ length handle.new.value.session.boxes.items }
{
    let session = &mut handle.held().session;
    let number = session.range_after(layer, kind, numbers, tagged, tag, after);
    *count = session.boxes_len();
    number
}

/// The greatest identifier that is at most this of the objects of a layer of so many axes, 2 or 3, if there is one: of
/// those that meet the box of all numbers.
#[unsafe(no_mangle)]
pub extern "C" fn rstore_c_last(
    handle: &mut Handle,
    layer: &[u8],
    axes: u32,
    most: u64,
    id: &mut u64,
    found: &mut bool,
) -> u32
    ensures { TellsLast handle.old.value.session handle.new.value.session layer.now axes most id.old id.new
        found.old found.new result }
{
    handle.held().session.last(layer, axes, most, id, found)
}

/// The k objects nearest to a point, and of these, where it is tagged, those with the tag, got one by one. The session
/// keeps both, as rows of distances and as rows of objects, and how many there are of each is told.
#[unsafe(no_mangle)]
pub extern "C" fn rstore_c_nearest_rows(
    handle: &mut Handle,
    layer: &[u8],
    k: u64,
    numbers: &[i32],
    tagged: bool,
    tag: u32,
    near: &mut usize,
    count: &mut usize,
) -> u32
    ensures asks { AsksNearRows handle.old.value.session handle.new.value.session layer.now k
        (raw_point numbers.now) (tag_of tagged tag) result }
    ensures near { near.new ≡ length handle.new.value.session.near.items }
    ensures count { count.new ≡ length handle.new.value.session.boxes.items }
{
    let session = &mut handle.held().session;
    let number = session.nearest_rows(layer, k, numbers, tagged, tag);
    *near = session.near_len();
    *count = session.boxes_len();
    number
}
