//! Changes of pages that broke off.

use page_file::Fault;

/// Why a change of pages broke off, and whether it had touched one: where it had not, the map is as it was,
/// else it may be half changed.
#[derive(Clone, Copy, PartialEq, Eq, Debug, Drop)]
pub struct Broken {
    /// The fault that it met.
    pub cause: Fault,
    /// Whether a page was put, given out or freed.
    pub touched: bool,
}

impl From<Fault> for Broken {
    ghost use Rattle.std.specs.Prelude.{◌≡◌};
    ghost use Rattle.live_layers.specs.Broken.{before};

    ghost from_gives = { λ fault broken. broken ≡ before fault };

    /// A change that met the fault before the cache was asked to change a page.
    fn from(fault: Fault) -> Self {
        Broken {
            cause: fault,
            touched: false,
        }
    }
}
