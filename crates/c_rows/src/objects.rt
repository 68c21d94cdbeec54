//! The objects of a load.
ghost use Rattle.std.specs.Prelude.{◌≡◌, map, IfOk};
ghost use Rattle.c_rows.specs.Rows.{object_in};

use crate::rows::Row;
use plain_table::RawBox;
use std::alloc::{AllocError, Allocator};

/// The objects that rows give, of two axes or else of three, whatever their own axes say.
pub fn objects_of<A: Allocator>(
    alloc: A,
    axes: u32,
    rows: &[Row],
) -> Result<Vec<(u64, RawBox, u32), A>, AllocError>
    ensures { IfOk result (λ objects. objects.items ≡ map (object_in axes) rows.now) }
{
    let mut objects = Vec::with_capacity(alloc, rows.len())?;
    for k in 0..rows.len() {
        objects.push((rows[k].id, box_in(axes, &rows[k]), rows[k].tag))?;
    }
    Ok(objects)
}

// The box of a row.
fn box_in(axes: u32, row: &Row) -> RawBox
    ensures { (row.now.id, result, row.now.tag) ≡ object_in axes row.now }
{
    if axes == 2 {
        let [a, b, _] = row.low;
        let [c, d, _] = row.high;
        return RawBox::Two([a, b], [c, d]);
    }
    RawBox::Three(row.low, row.high)
}
