//! A pair behind a mark.
ghost use Rattle.std.specs.Prelude.{◌≡◌, true};
ghost use Rattle.marked_pair.specs.Behind.{IsBehind, IsSessionOf, LeavesBase};
ghost use Rattle.marked_pair.specs.BehindLaws.{behind_is_fact, last_is_fact, session_is_fact};

mod blocks;
mod calls;
mod quiet;
mod taking;
mod writing;

use crate::Mark;
use device_pair::{DevicePair, Snapshots};

/// A pair whose base has the mark while blocks of it that were there are written.
///
/// A shut gate is written with the mark, and such a gate is shown as a shut one. No other block that was
/// there when the pair was taken over is written but behind a mark that is synced, and the mark is never
/// taken away. So opening refuses the base alone, whatever a stop leaves of it, or none of those blocks but
/// the gate has changed.
///
/// A call that fails here answers `Failed`: a write of such a block where no mark is known, one of another
/// gate where there is the mark, and one of the journal's slots where there was no header and no mark is
/// synced. A base that was not written since it was synced is not synced again.
#[derive(Drop)]
pub struct MarkedPair<P: DevicePair> {
    pair: P,
    mark: Mark,
    // how many blocks the base had when the pair was taken over
    kept: u32,
    // how many calls were refused here
    refusals: u64,
    // no block of the base was written since it was synced
    clean: bool,
    // the pair as it was taken over
    first: Snapshots<P, u32>,
    ghost behind: { P.honest pair → IsBehind mark (P.base pair) (P.may_leave pair) } by { λ p q i h.
        behind_is_fact mark (P.base pair) (P.may_leave pair) (p h) (q h) i },
    ghost last: { P.honest pair → clean ≡ true →
        LeavesBase (P.base pair) (P.may_leave pair) } by { λ p q i h e.
            last_is_fact (P.base pair) (P.may_leave pair) (p h e) (q h e) i },
    ghost session: { P.honest pair →
        IsSessionOf P.base P.moment P.left_since P.may_leave mark kept first.taken pair } by { λ p q i h.
            session_is_fact P.base P.moment P.left_since P.may_leave mark kept first.taken pair (p h) (q h)
            i },
}
