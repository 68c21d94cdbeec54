//! Changes of layers that were not made.

use page_file::Fault;
use plain_table::Refusal;

/// Why a change of the layers was not made.
#[derive(Clone, Copy, PartialEq, Eq, Debug, Drop)]
pub enum Unmade {
    /// It was refused, and nothing changed.
    Refused(Refusal),
    /// This fault broke it off when pages may have been half changed.
    Broken(Fault),
}
