//! A base and its journal opened, after a stop or not.
ghost use Rattle.std.specs.Prelude.{◌≡◌, ◌↔◌, IfOk, IfErr, []};
ghost use Rattle.block_device.specs.Device.{Blocks};
ghost use Rattle.device_pair.specs.Pairs.{PairLeaves};
ghost use Rattle.committed_log.specs.Log.{recovered};
ghost use Rattle.committed_log.specs.Opening.{IsMalformed, LeavesOr};
ghost use Rattle.committed_log.specs.declared.log.open.OpenFault.TheVariants as fault;
ghost use Rattle.logged_pair.specs.Standing.{commits_of, homes_of, shown_of, IsHonest};
ghost use Rattle.journaled_device.specs.Journaled.{each_home_of, events_of, inner_of, moment_of, pair_of};
ghost use Rattle.journaled_device.specs.Journaled.{readers_of};

use crate::device::JournaledDevice;
use committed_log::OpenFault;
use device_pair::{DevicePair, Snapshots};
use logged_pair::LoggedPair;
use std::alloc::Allocator;

impl<P: DevicePair, A: Allocator + Copy, G: Drop> JournaledDevice<P, A, G> {
    /// Opens a base and its journal, which may be empty, and copies nothing home. It may be cut short, at any
    /// moment. With `each_home` a sync copies each commit home, for a base that others read without its journal.
    ///
    /// What is then read is what recovery makes of base and journal as they were read. It is the one commit,
    /// and as a plain disk all of it is synced.
    pub fn open(
        pair: P,
        alloc: A,
        readers: G,
        each_home: bool,
    ) -> Result<JournaledDevice<P, A, G>, (OpenFault, P)>
        ensures shown { IfOk result (λ d. P.honest pair →
            shown_of (inner_of d) ≡ recovered (P.base pair) (P.journal pair)) }
        ensures commits { IfOk result (λ d. P.honest pair → (k : Blocks) → commits_of (inner_of d) k →
            k ≡ shown_of (inner_of d)) }
        ensures none { IfOk result (λ d. homes_of (inner_of d) ≡ []) }
        ensures synced { IfOk result (λ d. events_of d ≡ []) }
        ensures each_home { IfOk result (λ d. each_home_of d ≡ each_home) }
        ensures moment { IfOk result (λ d. moment_of d ≡ P.moment (pair_of d)) }
        ensures base { IfOk result (λ d. P.honest pair → P.base (pair_of d) ≡ P.base pair) }
        ensures refused_base { IfErr result (λ e. P.honest pair → P.base e.1 ≡ P.base pair) }

        // A stop leaves what one before the call might have left, or what recovers to these blocks.
        ensures stops { IfOk result (λ d. P.honest pair →
            PairLeaves P.moment P.left_since pair (pair_of d)
            (LeavesOr (P.may_leave pair) (recovered (P.base pair) (P.journal pair)))) }
        ensures refused_stops { IfErr result (λ e. P.honest pair →
            PairLeaves P.moment P.left_since pair e.1
            (LeavesOr (P.may_leave pair) (recovered (P.base pair) (P.journal pair)))) }
        ensures malformed { IfErr result (λ e. P.honest pair → e.0 ≡ fault.Malformed →
            IsMalformed (P.base pair) (P.journal pair)) }
        ensures honest { IfOk result (λ d. P.honest pair ↔ IsHonest (inner_of d)) }
        ensures refused_honest { IfErr result (λ e. P.honest pair ↔ P.honest e.1) }
    {
        let pair = LoggedPair::open(pair, alloc)?;
        Ok(JournaledDevice {
            pair,
            past: Snapshots::new(),
            readers,
            each_home,
        })
    }

    /// Its pair, as it is, and who knows of its readers. What was written since the last commit is given up where
    /// the pair is then opened again.
    pub fn into_parts(self) -> (P, G)
        ensures pair { result.0 ≡ pair_of self }
        ensures readers { result.1 ≡ readers_of self }
    {
        let JournaledDevice {
            pair,
            past: _,
            readers,
            each_home: _,
        } = self;
        (pair.into_pair(), readers)
    }
}
