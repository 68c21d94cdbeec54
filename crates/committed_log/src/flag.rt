//! The first two blocks of a region: its flag, and the count of its slots.
ghost use Rattle.std.specs.Prelude.{◌≡◌, ◌==◌, ◌<◌};
ghost use Rattle.committed_log.specs.Log.{count_block, flag_block, says};

use block_bytes::{read_u8, read_u64, write_u8, write_u32, write_u64, zero_block};

// The ASCII text RSTARJNL.
const LOG_TEXT: u64 = 0x5253_5441_524A_4E4C;

/// The flag of a region that is not committed (0), or is (1).
#[tactic(auto, unfolding(crate::specs::Log::flag_block))]
pub fn flag_page(committed: u8) -> [u8; 4096]
    ensures { result ≡ flag_block committed }
{
    let mut page = zero_block();
    write_u64(&mut page, 0, LOG_TEXT);
    write_u8(&mut page, 8, committed);
    page
}

/// Whether the flag says that its region is committed.
#[tactic(auto, unfolding(crate::specs::Log::says))]
pub fn says_committed(page: &[u8; 4096]) -> bool
    ensures { result ≡ says page.now }
{
    read_u64(page, 0) == LOG_TEXT && read_u8(page, 8) == 1
}

/// The block that counts the slots of a region.
#[tactic(auto, unfolding(crate::specs::Log::count_block))]
pub fn count_page(n: u32) -> [u8; 4096]
    ensures { result ≡ count_block n }
{
    let mut page = zero_block();
    write_u64(&mut page, 0, LOG_TEXT);
    write_u32(&mut page, 8, n);
    page
}
