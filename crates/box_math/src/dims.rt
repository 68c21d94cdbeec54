//! How many axes boxes may have.

ghost use Rattle.std.specs.Prelude.{◌↔◌, IsTrue};
ghost use Rattle.box_math.specs.Bounds.{IsDims};

/// Whether boxes may have so many axes: two or three (our rule).
#[inline]
pub fn is_dims(dims: usize) -> bool
    ensures { IsTrue result ↔ IsDims dims }
{
    dims == 2 || dims == 3
}
