//! A pair whose journal has a title.
ghost use Rattle.titled_pair.specs.Titled.{HasRoom, StaysTitled};
ghost use Rattle.titled_pair.specs.TitleLaws.{room_is_fact, stays_is_fact};

mod calls;
mod taking;

use device_pair::{DevicePair, Snapshots};

/// A pair whose journal is shown behind its first two blocks, its title and its end.
///
/// Neither is written while the pair is held, so that each stop leaves them as they were.
#[derive(Drop)]
pub struct TitledPair<P: DevicePair> {
    pair: P,
    // the pair as it was taken over, beside how many blocks its base had
    first: Snapshots<P, u32>,
    ghost room: { P.honest pair → HasRoom (P.may_leave pair) } by { λ p q i h.
        room_is_fact (P.may_leave pair) (p h) (q h) i },
    ghost titled: { P.honest pair →
        StaysTitled P.journal P.moment P.left_since first.taken pair } by { λ p q i h.
            stays_is_fact P.journal P.moment P.left_since first.taken pair (p h) (q h) i },
}
