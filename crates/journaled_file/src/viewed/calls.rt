//! The calls of a pair that is only viewed.
ghost use Rattle.std.specs.Prelude.{◌≡◌, ◌<◌, ◌↔◌, ◌^◌, length, OnOk};
ghost use Rattle.std.proofs.Common.{refl};
ghost use Rattle.block_device.specs.Device.{Counts, block_at};
ghost use Rattle.committed_log.specs.Room.{blocks_of};
ghost use Rattle.journaled_file.specs.Gate.{with_gate};
ghost use Rattle.journaled_file.specs.Viewed.{HasSlots, IsHonest, pair_of, recovery_of, seen, shown_of, view_of};
ghost use Rattle.journaled_file.specs.ViewedLaws.{few_seen, one_longer, whole_seen};
ghost use Rattle.titled_pair.specs.Title.{untitled};

use crate::viewed::{View, ViewedPair};
use block_device::{BlockDevice, DeviceError};
use device_pair::DevicePair;
use titled_pair::TITLE_BLOCKS;

impl<P: DevicePair + Drop> ViewedPair<P> {
    /// A pair in a view.
    pub(crate) fn of(pair: P, view: View) -> ViewedPair<P>
        ensures pair { pair_of result ≡ pair }
        ensures view { view_of result ≡ view }
    {
        ViewedPair {
            pair,
            view,
            faults: 0,
        }
    }

    /// The pair.
    pub(crate) fn into_pair(self) -> P
        ensures { result ≡ pair_of self }
    {
        self.pair
    }
}

// Reads a block of a base in a view.
fn read_seen<P: DevicePair>(
    pair: &mut P,
    view: &View,
    i: u32,
    into: &mut [u8; 4096],
) -> Result<(), DeviceError>
    requires { i < length (P.base pair.old) }
    ensures bytes { P.honest pair.old → HasSlots view.now (P.journal pair.old) →
        OnOk result (into.new ≡ block_at i (seen view.now (P.base pair.old) (P.journal pair.old))) }
    ensures base { P.honest pair.old → P.base pair.new ≡ P.base pair.old }
    ensures journal { P.honest pair.old → P.journal pair.new ≡ P.journal pair.old }
    ensures honest { P.honest pair.old ↔ P.honest pair.new }
{
    match view.slots.slot_of(i) {
        Some(k) => read_slot(pair, k, into),
        None => read_own(pair, &view.gate, i, into),
    }
}

// Reads a block of a journal behind its title.
fn read_slot<P: DevicePair>(
    pair: &mut P,
    k: usize,
    into: &mut [u8; 4096],
) -> Result<(), DeviceError>
    ensures bytes { P.honest pair.old → k < length (untitled (P.journal pair.old)) →
        OnOk result (into.new ≡ block_at k (untitled (P.journal pair.old))) }
    ensures base { P.honest pair.old → P.base pair.new ≡ P.base pair.old }
    ensures journal { P.honest pair.old → P.journal pair.new ≡ P.journal pair.old }
    ensures honest { P.honest pair.old ↔ P.honest pair.new }
{
    if k >= pair.journal_blocks() as usize {
        return Err(DeviceError::Failed);
    }
    let at = k as u32 + TITLE_BLOCKS;
    if at >= pair.journal_blocks() {
        return Err(DeviceError::Failed);
    }
    pair.read_journal(at, into)
}

// Reads a block of a base with this gate.
fn read_own<P: DevicePair>(
    pair: &mut P,
    gate: &[u8; 4096],
    i: u32,
    into: &mut [u8; 4096],
) -> Result<(), DeviceError>
    requires { i < length (P.base pair.old) }
    ensures bytes { P.honest pair.old →
        OnOk result (into.new ≡ block_at i (with_gate gate.now (P.base pair.old))) }
    ensures base { P.honest pair.old → P.base pair.new ≡ P.base pair.old }
    ensures journal { P.honest pair.old → P.journal pair.new ≡ P.journal pair.old }
    ensures honest { P.honest pair.old ↔ P.honest pair.new }
{
    if i == 0 {
        *into = *gate;
        return Ok(());
    }
    pair.read_base(i, into)
}

// The count of faults behind an answer.
fn counted(faults: u64, answer: &Result<(), DeviceError>) -> u64
    ensures counts { faults < 2 ^ 64 → Counts faults result answer.now }
{
    match answer {
        Err(DeviceError::Failed) => faults.saturating_add(1),
        _ => faults,
    }
}

impl<P: DevicePair + Drop> BlockDevice for ViewedPair<P> {
    ghost shown = { λ d. shown_of d };

    ghost honest = { λ d. IsHonest d };

    ghost may_leave = { λ d c. c ≡ shown_of d };

    ghost moment = { λ _. 0 };

    ghost left_since = { λ d _ c. c ≡ shown_of d };

    ghost recovery = { recovery_of };

    ghost faults = { λ d. d.faults };

    fn blocks(&self) -> u32 {
        self.pair.base_blocks()
    }

    fn read(&mut self, i: u32, into: &mut [u8; 4096]) -> Result<(), DeviceError> {
        let answer = read_seen(&mut self.pair, &self.view, i, into);
        self.faults = counted(self.faults, &answer);
        answer
    }

    fn write(&mut self, _: u32, _: &[u8; 4096]) -> Result<(), DeviceError> {
        self.faults = self.faults.saturating_add(1);
        Err(DeviceError::Failed)
    }

    // Nothing is written.
    fn sync(&mut self) -> Result<(), DeviceError> {
        Ok(())
    }

    ghost few_blocks = { λ d. few_seen (blocks_of d.view.slots) d.view.gate (P.base (pair_of d))
        (untitled (P.journal (pair_of d))) (P.few_blocks (pair_of d)).0 };

    ghost shown_counts = { λ _ _. refl };

    ghost no_longer = { λ d c _ left. one_longer c (shown_of d) left };

    ghost whole = { λ d c honest left. whole_seen (blocks_of d.view.slots) d.view.gate (P.base (pair_of d))
        (P.journal (pair_of d)) c honest.1 d.view.whole
        (P.whole (pair_of d) (P.base (pair_of d)) (P.journal (pair_of d)) honest.0
        (P.shown_counts (pair_of d) honest.0)) left };

    ghost counts_now = { λ _ _ _ _ _ left. left };

    ghost only_now = { λ _ _ _ left. left };

    ghost since_earlier = { λ _ _ _ _ _ _ left. left };

    ghost brought_now = { λ _ _ _ found. absurd found };

    ghost committed = { λ _ _ _ _ takes _. absurd takes };

    ghost faults_fit = { λ d. d.fit };
}
