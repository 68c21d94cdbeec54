//! The mark in the gate's block.
ghost use Rattle.std.specs.Prelude.{◌≡◌, ◌<◌};
ghost use Rattle.page_file.specs.Layout.{gate_block};
ghost use Rattle.marked_pair.specs.Mark as mark;
ghost use Rattle.marked_pair.specs.declared.mark.Mark.TheVariants.{Unknown, Written, Synced};

use block_bytes::{read_u8, read_u64, write_u8, write_u64, zero_block};

// The ASCII text RSTARGAT, with which a gate begins.
const GATE_TEXT: u64 = 0x5253_5441_5247_4154;

/// The gate's byte where it is shut.
pub const SHUT: u8 = 1;

/// The gate's byte from a session's first commit to its clean end. To whoever opens the base alone such a
/// gate is neither open nor shut.
pub const MARKED: u8 = 2;

/// What is known of the mark of a base.
#[derive(Clone, Copy, Debug, PartialEq, Eq, Drop)]
pub enum Mark {
    /// The base may have none.
    Unknown,
    /// It is read there, and may not be synced.
    Written,
    /// It is synced, and block 0 was not written since.
    Synced,
}

impl Mark {
    // What is known of it after a sync of the base.
    pub(crate) fn synced(self) -> Mark
        ensures unknown { self ≡ Unknown → result ≡ Unknown }
        ensures known { ¬ (self ≡ Unknown) → result ≡ Synced }
    {
        match self {
            Mark::Unknown => Mark::Unknown,
            _ => Mark::Synced,
        }
    }

    // What is known of it once it was read.
    pub(crate) fn seen(self) -> Mark
        ensures unknown { self ≡ Unknown → result ≡ Written }
        ensures known { ¬ (self ≡ Unknown) → result ≡ self }
    {
        match self {
            Mark::Unknown => Mark::Written,
            other => other,
        }
    }
}

/// Whether a block reads as a gate of this number.
#[tactic(auto, unfolding(crate::specs::Mark::reads_as))]
pub fn reads_as(page: &[u8; 4096], number: u8) -> bool
    ensures { result ≡ mark.reads_as number page.now }
{
    read_u64(page, 0) == GATE_TEXT && read_u8(page, 8) == number
}

/// The block of a gate with this number.
#[tactic(auto, unfolding(page_file::specs::Layout::gate_block))]
pub fn gate_page(number: u8) -> [u8; 4096]
    ensures { result ≡ gate_block number }
{
    let mut page = zero_block();
    write_u64(&mut page, 0, GATE_TEXT);
    write_u8(&mut page, 8, number);
    page
}

// Makes a gate with the mark a shut one.
#[tactic(auto, unfolding(crate::specs::Mark::unmarked_gate))]
pub(crate) fn unmark(page: &mut [u8; 4096])
    ensures { page.new ≡ mark.unmarked_gate page.old }
{
    if reads_as(page, MARKED) {
        *page = gate_page(SHUT);
    }
}
