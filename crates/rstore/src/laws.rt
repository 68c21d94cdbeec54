//! What a run of the program leaves on disk, the contract of a function that does nothing.
ghost use Rattle.std.specs.Prelude.{◌≡◌, ◌≤◌, ℕ, Bool};
ghost use Rattle.block_device.specs.Device.{Blocks};
ghost use Rattle.command_shell.specs.Runs.{FoundSince, RunsToClose, with_last};
ghost use Rattle.command_shell.specs.Serving.{RunState};
ghost use Rattle.journaled_device.specs.Journaled.{inner_of, pair_of};
ghost use Rattle.journaled_device.specs.declared.device.JournaledDevice.{JournaledDevice as Journaled};
ghost use Rattle.journaled_file.specs.Opened.{read_of};
ghost use Rattle.live_layers.specs.Image.{IsImageOfOne};
ghost use Rattle.logged_pair.specs.Standing.{IsHonest};
ghost use Rattle.marked_pair.specs.Pair.{pair_of as titled_of};
ghost use Rattle.marked_pair.specs.declared.pair.MarkedPair.{MarkedPair as Marked};
ghost use Rattle.titled_pair.specs.Pair.{pair_of as files_of};
ghost use Rattle.titled_pair.specs.declared.pair.TitledPair.{TitledPair as Titled};

use block_device::BlockDevice;
use device_pair::DevicePair;
use journaled_device::laws::stops_of_the_pair_are_found;
use journaled_device::{JournaledDevice, Readers};
use marked_pair::MarkedPair;
use std::alloc::Allocator;
use titled_pair::TitledPair;

/// **A run that is cut short at any moment leaves, in FILE and FILE-journal together, a table that was closed, or whose
/// closing was in progress, since the store stood**: what is read of both files once they are opened again is an image of
/// one of the tables that the session kept since moment `t`, or of its last one. That between two calls it is the last
/// of them says `journaled_store::a_stop_of_both_files_leaves_a_table_that_was_closed` (`now`).
///
/// That the run is one, `command_line::serve` promises of the device that it serves (`RunsToClose`, in `HasServed`): so
/// what it promises of a device holds of the two files that the device lies on.
pub fn a_run_that_is_cut_short_leaves_a_closed_table<
    P: DevicePair + Drop,
    A: Allocator + Copy,
    G: Readers,
>()
    ensures { (d : Journaled (Marked (Titled P ⟦<P as DevicePair>⟧) ⟦<TitledPair<P> as DevicePair>⟧) A G
        ⟦<MarkedPair<TitledPair<P>> as DevicePair>⟧) (t u : ℕ) (well : Bool) (before after : RunState)
        (a e : Blocks) → IsHonest (inner_of d) →
        RunsToClose well (⟦<JournaledDevice<MarkedPair<TitledPair<P>>, A, G> as BlockDevice>⟧.shown d)
        (⟦<JournaledDevice<MarkedPair<TitledPair<P>>, A, G> as BlockDevice>⟧.left_since d t)
        (FoundSince ⟦<JournaledDevice<MarkedPair<TitledPair<P>>, A, G> as BlockDevice>⟧.recovery d t)
        (⟦<JournaledDevice<MarkedPair<TitledPair<P>>, A, G> as BlockDevice>⟧.faults d) before after →
        t ≤ u → P.left_since (files_of (titled_of (pair_of d))) u a e →
        IsImageOfOne (with_last after.session.state after.session.stops.kept_so_far) (read_of a e) }
{
    stops_of_the_pair_are_found::<MarkedPair<TitledPair<P>>, A, G>();
}
