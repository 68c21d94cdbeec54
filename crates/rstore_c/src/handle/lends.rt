//! What a handle lends.
ghost use Rattle.std.specs.Prelude.{◌≡◌};
ghost use Rattle.std.specs.Borrow.{sem, Lends};
ghost use Rattle.rstore_c.specs.contracts.held.Held.{the_row as held_row};
ghost use Rattle.rstore_c.specs.contracts.handle.Handle.{the_row as handle_row};

use super::Handle;
use crate::held::Held;

impl Handle {
    /// The session. The handle has what is last written to it.
    pub fn held(&mut self) -> &mut Held
        ensures* writes_back { sem 𝓛
            (Lends handle_row held_row self.entry result (λ w. record self.old { value = w })) }
        ensures value { result.now ≡ self.old.value }
    {
        unsafe { &mut *(self.at as *mut Held) }
    }
}
