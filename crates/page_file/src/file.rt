//! A file of pages: its type, and what its fields keep.
ghost use Rattle.std.specs.Prelude.{◌≡◌, ◌≤◌, ◌^◌, true, length};
ghost use Rattle.block_device.specs.Device.{Blocks, block_at};
ghost use Rattle.page_file.specs.declared.gate.Gate.TheVariants.{Shut, Open};
ghost use Rattle.page_file.specs.Layout.{IsShutGate, IsHeader};
ghost use Rattle.page_file.specs.Opening.{is_sound};
ghost use Rattle.page_file.specs.Stops.{StopNow, StopsNow-prop};

mod change;
mod open;
mod pages;
mod settle;
mod view;

use crate::gate::Gate;
use crate::header::Header;
use block_device::BlockDevice;
pub use open::{create_pages, open_pages};

/// A file of pages on a device: a map from live page number to 4096 bytes, in which page 2, the catalog,
/// is always live, a gate that is shut, open or unsure, and a version.
///
/// `begin_change`, `settle` and `close` alone change the gate or its moment, and `raise_version` alone the
/// version. On a device that is not honest, and on blocks that stand for no such map, each call is safe and
/// returns.
#[derive(Drop)]
pub struct PageFile<D: BlockDevice> {
    device: D,
    // what the header says, or has to say once the file is settled
    header: Header,
    gate: Gate,
    ghost sound: { is_sound header ≡ true },
    ghost few: { header.next ≤ 2 ^ 31 },
    ghost room: { D.honest device → header.next ≤ length (D.shown device) },
    ghost stop_now: { D.honest device → (c : Blocks) → D.may_leave device c →
        StopNow gate (D.shown device) c } by { λ p q i h.
            StopsNow-prop (D.may_leave device) gate (D.shown device)
            (p h) (q h) i },
    ghost settled: { D.honest device → (gate ≡ Open → ⊥) → IsHeader header (block_at 1 (D.shown device)) },
    ghost shut_reads: { D.honest device → gate ≡ Shut → IsShutGate (block_at 0 (D.shown device)) },
}
