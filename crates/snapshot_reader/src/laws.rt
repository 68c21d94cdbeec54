//! What a reader of the first blocks of a log sees, the contract of a function that does nothing.
ghost use Rattle.std.specs.Prelude.{◌≡◌, ℕ, length, take};
ghost use Rattle.block_device.specs.Device.{Blocks};
ghost use Rattle.committed_log.specs.Log.{homes_in, overlaid, recovered};

/// A reader of the first blocks of a log sees what recovery makes if the log ends there: of regions that end at
/// block p, and of whatever stands behind them, `recovered a (take p b)`.
#[tactic(auto, using(crate::specs::ReaderLaws::index_recovers))]
pub fn first_regions_show_what_they_recover()
    ensures { (a b : Blocks) (p : ℕ) → length (homes_in (take p b)) ≡ p →
        overlaid (homes_in (take p b)) b a ≡ recovered a (take p b) }
{}
