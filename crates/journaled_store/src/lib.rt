//! The laws of a store over a base and its journal: no stop loses what was closed, and none is refused. And who
//! tells whether such a store opens.
#![tactic(auto)]

mod judge;

ghost use Rattle.block_device.specs.Device.{Blocks};
ghost use Rattle.committed_log.specs.Log.{recovered};
ghost use Rattle.journaled_device.specs.Journaled.{pair_of};
ghost use Rattle.journaled_device.specs.declared.device.JournaledDevice.{JournaledDevice as Journaled};
ghost use Rattle.marked_pair.specs.Mark.{unmarked};
ghost use Rattle.marked_pair.specs.Pair.{pair_of as titled_of};
ghost use Rattle.marked_pair.specs.declared.pair.MarkedPair.{MarkedPair as Marked};
ghost use Rattle.titled_pair.specs.Pair.{pair_of as files_of};
ghost use Rattle.titled_pair.specs.Title.{untitled};
ghost use Rattle.titled_pair.specs.declared.pair.TitledPair.{TitledPair as Titled};
ghost use Rattle.layer_store.specs.Representation.{Represents, device_in};
ghost use Rattle.layer_store.specs.declared.store.Store.{Store};
ghost use Rattle.live_layers.specs.Image.{IsImageOfOne};
ghost use Rattle.page_file.specs.Opening.{IsRefused};
ghost use Rattle.store_law.specs.Sessions.{SessionState};

use block_device::BlockDevice;
use device_pair::DevicePair;
use journaled_device::laws::{recovery_gives_a_commit, stops_of_the_pair_are_found};
use journaled_device::{JournaledDevice, Readers};
pub use judge::OpeningJudge;
use layer_store::laws::a_stop_is_found_to_have_left_a_closed_table;
use marked_pair::MarkedPair;
use std::alloc::Allocator;
use titled_pair::TitledPair;

/// **Whatever a stop leaves of base and journal, recovery makes of it an image of a table that was closed,
/// which opening does not refuse.**
///
/// Of a stop now, between two calls of a store, it is the table that the state of the session keeps: the one
/// that was closed last, or one whose closing was tried since. Of one at any moment since the beginning, also
/// within a call, it is one of those that were kept since. So it is, too, where the store is given up and its
/// pair opened again.
pub fn a_stop_leaves_a_table_that_was_closed<
    P: DevicePair,
    A: Allocator + Copy,
    G: Readers,
    S: Allocator,
>()
    ensures now { (store : Store (Journaled P A G ⟦<P as DevicePair>⟧) S
        ⟦<JournaledDevice<P, A, G> as BlockDevice>⟧)
        (s : SessionState) (a b : Blocks) → Represents store s → P.may_leave (pair_of (device_in store)) a b →
        IsImageOfOne s.stops.kept (recovered a b) }
    ensures so_far { (store : Store (Journaled P A G ⟦<P as DevicePair>⟧) S
        ⟦<JournaledDevice<P, A, G> as BlockDevice>⟧)
        (s : SessionState) (a b : Blocks) → Represents store s →
        P.left_since (pair_of (device_in store)) s.stops.since a b →
        IsImageOfOne s.stops.kept_so_far (recovered a b) }
    ensures given_up { (store : Store (Journaled P A G ⟦<P as DevicePair>⟧) S
        ⟦<JournaledDevice<P, A, G> as BlockDevice>⟧)
        (s : SessionState) → Represents store s → IsImageOfOne s.stops.kept
        (recovered (P.base (pair_of (device_in store))) (P.journal (pair_of (device_in store)))) }
    ensures never_refused { (store : Store (Journaled P A G ⟦<P as DevicePair>⟧) S
        ⟦<JournaledDevice<P, A, G> as BlockDevice>⟧) (s : SessionState) (a b : Blocks) → Represents store s →
        P.left_since (pair_of (device_in store)) s.stops.since a b → IsRefused (recovered a b) → ⊥ }
{
    recovery_gives_a_commit::<P, A, G>();
    stops_of_the_pair_are_found::<P, A, G>();
    a_stop_is_found_to_have_left_a_closed_table::<JournaledDevice<P, A, G>, S>();
}

/// **The same of two files as they lie on disk, the base with its mark and the journal with its title**: what
/// recovery makes of them, as `journaled_file::open_over` opens them, is such a table, now and at any moment
/// since the beginning.
pub fn a_stop_of_both_files_leaves_a_table_that_was_closed<
    P: DevicePair + Drop,
    A: Allocator + Copy,
    G: Readers,
    S: Allocator,
>()
    ensures now { (store : Store
        (Journaled (Marked (Titled P ⟦<P as DevicePair>⟧) ⟦<TitledPair<P> as DevicePair>⟧) A G
        ⟦<MarkedPair<TitledPair<P>> as DevicePair>⟧) S
        ⟦<JournaledDevice<MarkedPair<TitledPair<P>>, A, G> as BlockDevice>⟧) (s : SessionState) (a e : Blocks) →
        Represents store s → P.may_leave (files_of (titled_of (pair_of (device_in store)))) a e →
        IsImageOfOne s.stops.kept (recovered (unmarked a) (untitled e)) }
    ensures so_far { (store : Store
        (Journaled (Marked (Titled P ⟦<P as DevicePair>⟧) ⟦<TitledPair<P> as DevicePair>⟧) A G
        ⟦<MarkedPair<TitledPair<P>> as DevicePair>⟧) S
        ⟦<JournaledDevice<MarkedPair<TitledPair<P>>, A, G> as BlockDevice>⟧) (s : SessionState) (a e : Blocks) →
        Represents store s →
        P.left_since (files_of (titled_of (pair_of (device_in store)))) s.stops.since a e →
        IsImageOfOne s.stops.kept_so_far (recovered (unmarked a) (untitled e)) }
{
    a_stop_leaves_a_table_that_was_closed::<MarkedPair<TitledPair<P>>, A, G, S>();
}
