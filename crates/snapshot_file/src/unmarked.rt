//! A base whose gate is shown as a shut one.
ghost use Rattle.std.specs.Prelude.{◌≡◌, ◌<◌, length, IfOk};
ghost use Rattle.block_device.specs.Device.{IsBlock, block_at};
ghost use Rattle.marked_pair.specs.Mark.{unmarked, unmarked_gate};
ghost use Rattle.snapshot_file.specs.Gate.{shut, with_gate};
ghost use Rattle.snapshot_file.specs.GateLaws.{few_gated, whole_gated};

use block_bytes::zero_block;
use block_device::DeviceError;
use marked_pair::{MARKED, SHUT, gate_page, reads_as};
use read_only_device::BlockReader;

/// A base whose gate is shown as a shut one, where it has the mark or its session has ended.
///
/// Its block 0 is the one that was shown when this was opened, whatever a writer makes of it.
#[derive(Drop)]
pub struct UnmarkedReader<B: BlockReader> {
    base: B,
    // block 0 as it is shown
    gate: [u8; 4096],
}

impl<B: BlockReader + Drop> UnmarkedReader<B> {
    /// A base, a gate with the mark as a shut one. It fails where the base does.
    pub fn over(base: B) -> Result<UnmarkedReader<B>, DeviceError>
        ensures shown { IfOk result (λ r. B.honest base →
            ⟦<UnmarkedReader<B> as BlockReader>⟧.shown r ≡ unmarked (B.shown base)) }
        ensures many { IfOk result (λ r.
            length (⟦<UnmarkedReader<B> as BlockReader>⟧.shown r) ≡ length (B.shown base)) }
        ensures honest { IfOk result (λ r. B.honest base → ⟦<UnmarkedReader<B> as BlockReader>⟧.honest r) }
    {
        let gate = unmarked_page(read_gate(&base)?);
        Ok(UnmarkedReader { base, gate })
    }

    /// A base whose session has ended: with a shut gate, whatever its block 0 holds.
    pub fn shut(base: B) -> UnmarkedReader<B>
        ensures shown { ⟦<UnmarkedReader<B> as BlockReader>⟧.shown result ≡ shut (B.shown base) }
        ensures honest { B.honest base → ⟦<UnmarkedReader<B> as BlockReader>⟧.honest result }
    {
        UnmarkedReader {
            base,
            gate: gate_page(SHUT),
        }
    }
}

// Block 0 of the base, and zeros where there is none.
fn read_gate<B: BlockReader>(base: &B) -> Result<[u8; 4096], DeviceError>
    ensures { B.honest base.now → IfOk result (λ gate. 0 < length (B.shown base.now) →
        gate ≡ block_at 0 (B.shown base.now)) }
{
    let mut gate = zero_block();
    if base.blocks() == 0 {
        return Ok(gate);
    }
    base.read(0, &mut gate)?;
    Ok(gate)
}

// A gate with the mark as a shut one.
#[tactic(auto, unfolding(marked_pair::specs::Mark::unmarked_gate))]
fn unmarked_page(gate: [u8; 4096]) -> [u8; 4096]
    ensures { result ≡ unmarked_gate gate }
{
    if reads_as(&gate, MARKED) {
        return gate_page(SHUT);
    }
    gate
}

impl<B: BlockReader> BlockReader for UnmarkedReader<B> {
    ghost shown = { λ r. with_gate r.gate (B.shown r.base) };

    ghost honest = { λ r. B.honest r.base × IsBlock r.gate };

    fn blocks(&self) -> u32 {
        self.base.blocks()
    }

    fn read(&self, i: u32, into: &mut [u8; 4096]) -> Result<(), DeviceError> {
        if i == 0 {
            *into = self.gate;
            return Ok(());
        }
        self.base.read(i, into)
    }

    ghost few_blocks = { λ r. few_gated r.gate (B.shown r.base) (B.few_blocks r.base) };

    ghost whole = { λ r honest. whole_gated r.gate (B.shown r.base) honest.1 (B.whole r.base honest.0) };
}
