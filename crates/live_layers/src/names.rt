//! The names of layers.

ghost use Rattle.std.specs.Prelude.{◌≡◌, ◌≤◌, length};

use arrayvec::ArrayVec;

/// A name as records and listings have it.
pub fn name_of(name: &[u8]) -> ArrayVec<u8, 24>
    requires { length name.now ≤ 24 }
    ensures { result.items ≡ name.now }
{
    let mut copy = ArrayVec::new();
    copy.try_extend_from_slice(name).unwrap();
    copy
}
