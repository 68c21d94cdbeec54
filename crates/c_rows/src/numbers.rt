//! What a call answered, as a number: 0, or the number of a refusal.
ghost use Rattle.std.specs.Prelude.{◌≡◌};
ghost use Rattle.plain_table.specs.Refusals.{refusal_number};
ghost use Rattle.c_rows.specs.Numbers.{detail_after, detail_of, number_of};

use plain_table::Refusal;

/// The number of a refusal, and the one that came with it: an identifier, a page or a fault, and else 0.
pub fn tell(refusal: Refusal, detail: &mut u64) -> u32
    ensures number { result ≡ refusal_number refusal }
    ensures detail { detail.new ≡ detail_of refusal }
{
    *detail = match refusal {
        Refusal::DuplicateInLoad(id) => id,
        Refusal::Damaged(page) => u64::from(page),
        Refusal::StoreFailed(fault) => u64::from(fault),
        _ => 0,
    };
    u32::from(refusal.number())
}

/// The number of what was answered: 0 where it was done.
pub fn number_of(answer: Result<(), Refusal>, detail: &mut u64) -> u32
    ensures number { result ≡ number_of answer }
    ensures detail { detail.new ≡ detail_after answer detail.old }
{
    match answer {
        Ok(()) => 0,
        Err(refusal) => tell(refusal, detail),
    }
}
