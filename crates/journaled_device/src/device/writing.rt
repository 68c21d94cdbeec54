//! A write beside others that read.
ghost use Rattle.std.specs.Prelude.{◌≡◌, ◌≤◌, ◌<◌, ◌^◌, ◌↔◌, length, OnErr, OnOk};
ghost use Rattle.block_device.specs.Device.{Counts, Torn, written};
ghost use Rattle.logged_pair.specs.Snapshots.{KeepsSnapshots};
ghost use Rattle.logged_pair.specs.Standing.{commits_of, pair_of, shown_of, IsHonest, KeepsTo};

use crate::readers::Readers;
use block_device::DeviceError;
use device_pair::DevicePair;
use logged_pair::LoggedPair;
use std::alloc::Allocator;

/// Writes a block, which a commit then makes last. A log that has grown long is copied home before, where nobody
/// reads; where somebody does, each snapshot stays.
pub(crate) fn write_beside<P: DevicePair, A: Allocator + Copy, G: Readers>(
    pair: &mut LoggedPair<P, A>,
    readers: &mut G,
    i: u32,
    bytes: &[u8; 4096],
) -> Result<(), DeviceError>
    requires within { i ≤ length (shown_of pair.old) }
    requires small { i < 2 ^ 31 }
    ensures written { IsHonest pair.old →
        OnOk result (shown_of pair.new ≡ written i bytes.now (shown_of pair.old)) }
    ensures torn { IsHonest pair.old → OnErr result (Torn i (shown_of pair.old) (shown_of pair.new)) }
    ensures keeps { IsHonest pair.old → KeepsTo (commits_of pair.old) pair.old pair.new }
    ensures snapshots { IsHonest pair.old → G.somebody_reads readers.old → KeepsSnapshots pair.old pair.new }
    ensures honest { IsHonest pair.old ↔ IsHonest pair.new }
    ensures faults { Counts (P.faults (pair_of pair.old)) (P.faults (pair_of pair.new)) result }
{
    if !pair.is_long() {
        return pair.write(i, bytes);
    }
    if !readers.shut_out() {
        return pair.write(i, bytes);
    }
    let result = pair.write_alone(i, bytes);
    readers.let_in();
    result
}
