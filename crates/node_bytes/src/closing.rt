//! The places of a node page closed up behind an entry that is taken.

ghost use Rattle.std.specs.Prelude.{◌≡◌, ◌+◌, ◌*◌, ◌<◌, ◌≤◌};
ghost use Rattle.box_math.specs.Bounds.{IsDims};
ghost use Rattle.node_bytes.specs.Layout.{has_tags};
ghost use Rattle.node_bytes.specs.Taken.{AreClosed, IsClosed, IsTakenOut};

/// Takes the entry in a place out of the first ones of a page: those behind it move up by one place, and the
/// bytes of the last place become zeros. All other bytes stay.
pub(crate) fn close_entry<const D: usize>(
    page: &mut [u8; 4096],
    place: usize,
    count: usize,
    tagged: bool,
)
    requires dims { IsDims D }
    requires within { place < count }
    requires few { count ≤ 100 }
    requires tagged { tagged ≡ has_tags page.old }
    ensures { IsTakenOut D tagged place count page.old page.new }
{
    close_columns::<D>(page, place, count);
    close_row(page, 16 + 800 * D + 8 * place, 16 + 800 * D + 8 * count, 8);
    if tagged {
        close_row(
            page,
            816 + 800 * D + 4 * place,
            816 + 800 * D + 4 * count,
            4,
        );
    }
}

// Takes the numbers in a place out of the columns of all axes.
fn close_columns<const D: usize>(page: &mut [u8; 4096], place: usize, count: usize)
    requires dims { IsDims D }
    requires within { place < count }
    requires few { count ≤ 100 }
    ensures { AreClosed (2 * D) place count page.old page.new }
{
    for column in 0..2 * D {
        close_row(
            page,
            16 + 400 * column + 4 * place,
            16 + 400 * column + 4 * count,
            4,
        );
    }
}

// Takes so many bytes out of the row of bytes between two places, at its begin.
fn close_row(page: &mut [u8; 4096], from: usize, to: usize, width: usize)
    requires within { from + width ≤ to }
    requires fits { to ≤ 4096 }
    ensures { IsClosed from to width page.old page.new }
{
    page.copy_within(from + width..to, from);
    page[to - width..to].fill(0);
}
