//! What C holds: the address of a session.
ghost use Rattle.std.specs.Ptr.{points_to};
ghost use Rattle.rstore_c.specs.declared.held.Held.{Held};
ghost use Rattle.rstore_c.specs.contracts.held.Held.{the_row as held_row};

mod lends;

use std::marker::Model;

/// The address of a session, which it owns. In C it is a struct of one pointer. `rstore_c_open` gives the
/// address, and after `rstore_c_close` C frees it by `free`.
#[repr(C)]
pub struct Handle {
    at: *mut u8,
    ghost value: { Held } by { held_row.coded },
}

impl Model for Handle {
    ghost also_owns = { λ h. points_to held_row h.at h.value };
}
