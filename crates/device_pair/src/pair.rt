//! Two devices of one disk: a base and its journal, which a stop leaves as they are at one moment.
ghost use Rattle.std.specs.Prelude.{◌≡◌, ◌≤◌, ◌<◌, ◌+◌, ◌^◌, ◌↔◌, ℕ, List, length, Result, OnOk, OnErr, ⊤};
ghost use Rattle.std.specs.List.{All};
ghost use Rattle.block_device.specs.declared.device.DeviceError.{DeviceError};
ghost use Rattle.block_device.specs.Device.{Blocks, IsBlock, Torn, Counts, block_at, written};
ghost use Rattle.device_pair.specs.Pairs.{BaseFollows, JournalFollows, PairsNoMore, PairElapses};

use block_device::DeviceError;

/// Two rows of blocks of 4096 bytes, each as a `BlockDevice` has them, of which a stop leaves both as they
/// are at the same moment.
///
/// Each call is one of the base or one of the journal. The other stays as it is, and so does what a stop
/// leaves of it.
pub trait DevicePair {
    /// The blocks of the base, as a read returns them.
    ghost base: { Self → Blocks };

    /// Those of the journal.
    ghost journal: { Self → Blocks };

    /// Reads give what was last written, and nobody else writes.
    ghost honest: { Self → Type 0 };

    /// What a stop now may leave of base and journal.
    ghost may_leave: { Self → Blocks → Blocks → Type 0 };

    /// The moment, as a number that doesn't fall.
    ghost moment: { Self → ℕ };

    /// What a stop at some moment from that one on might have left.
    ghost left_since: { Self → ℕ → Blocks → Blocks → Type 0 };

    /// How many calls have answered `Failed`.
    ghost faults: { Self → ℕ };

    /// What a pair of this kind says beyond the trait of a read of the base: of the pair, the block's number,
    /// the buffer, the answer, and then the buffer and the pair.
    ghost read_base_gives: { Self → ℕ → List ℕ → Result (Unit {0}) DeviceError → List ℕ →
        Self → Type 0 } = { λ _ _ _ _ _ _. ⊤ };

    /// The same of a read of the journal.
    ghost read_journal_gives: { Self → ℕ → List ℕ → Result (Unit {0}) DeviceError → List ℕ →
        Self → Type 0 } = { λ _ _ _ _ _ _. ⊤ };

    /// The same of a write of the base: of the pair, the block's number, the bytes, the answer and the pair.
    ghost write_base_gives: { Self → ℕ → List ℕ → Result (Unit {0}) DeviceError → Self →
        Type 0 } = { λ _ _ _ _ _. ⊤ };

    /// The same of a write of the journal.
    ghost write_journal_gives: { Self → ℕ → List ℕ → Result (Unit {0}) DeviceError → Self →
        Type 0 } = { λ _ _ _ _ _. ⊤ };

    /// The same of a sync of the base: of the pair, the answer and the pair.
    ghost sync_base_gives: { Self → Result (Unit {0}) DeviceError → Self → Type 0 } = { λ _ _ _. ⊤ };

    /// The same of a sync of the journal.
    ghost sync_journal_gives: { Self → Result (Unit {0}) DeviceError → Self → Type 0 } = { λ _ _ _. ⊤ };

    /// How many blocks the base has, at most 2^31.
    fn base_blocks(&self) -> u32
        ensures is { result ≡ length (base self.now) }
        ensures few { result ≤ 2 ^ 31 };

    /// How many blocks the journal has, at most 2^31.
    fn journal_blocks(&self) -> u32
        ensures is { result ≡ length (journal self.now) }
        ensures few { result ≤ 2 ^ 31 };

    /// Reads a block of the base.
    fn read_base(&mut self, i: u32, into: &mut [u8; 4096]) -> Result<(), DeviceError>
        requires { i < length (base self.old) }
        ensures bytes { honest self.old → OnOk result (into.new ≡ block_at i (base self.old)) }
        ensures base { honest self.old → base self.new ≡ base self.old }
        ensures journal { honest self.old → journal self.new ≡ journal self.old }
        ensures stops { honest self.old → PairsNoMore (may_leave self.old) (may_leave self.new) }
        ensures time { honest self.old →
            PairElapses (moment self.old) (moment self.new) (left_since self.old) (left_since self.new)
            (may_leave self.new) }
        ensures honest { honest self.old ↔ honest self.new }
        ensures faults { Counts (faults self.old) (faults self.new) result }
        ensures gives { read_base_gives self.old i into.old result into.new self.new };

    /// Reads a block of the journal.
    fn read_journal(&mut self, i: u32, into: &mut [u8; 4096]) -> Result<(), DeviceError>
        requires { i < length (journal self.old) }
        ensures bytes { honest self.old → OnOk result (into.new ≡ block_at i (journal self.old)) }
        ensures base { honest self.old → base self.new ≡ base self.old }
        ensures journal { honest self.old → journal self.new ≡ journal self.old }
        ensures stops { honest self.old → PairsNoMore (may_leave self.old) (may_leave self.new) }
        ensures time { honest self.old →
            PairElapses (moment self.old) (moment self.new) (left_since self.old) (left_since self.new)
            (may_leave self.new) }
        ensures honest { honest self.old ↔ honest self.new }
        ensures faults { Counts (faults self.old) (faults self.new) result }
        ensures gives { read_journal_gives self.old i into.old result into.new self.new };

    /// Writes a block of the base, or appends it. Until a sync of the base succeeds, a stop may leave any
    /// bytes in it.
    fn write_base(&mut self, i: u32, bytes: &[u8; 4096]) -> Result<(), DeviceError>
        requires within { i ≤ length (base self.old) }
        requires small { i < 2 ^ 31 }
        ensures written { honest self.old →
            OnOk result (base self.new ≡ written i bytes.now (base self.old)) }
        ensures torn { honest self.old → OnErr result (Torn i (base self.old) (base self.new)) }
        ensures journal { honest self.old → journal self.new ≡ journal self.old }
        ensures stops { honest self.old → BaseFollows (Torn i) (may_leave self.old) (may_leave self.new) }
        ensures time { honest self.old →
            PairElapses (moment self.old) (moment self.new) (left_since self.old) (left_since self.new)
            (may_leave self.new) }
        ensures honest { honest self.old ↔ honest self.new }
        ensures faults { Counts (faults self.old) (faults self.new) result }
        ensures gives { write_base_gives self.old i bytes.now result self.new };

    /// Writes a block of the journal, or appends it.
    fn write_journal(&mut self, i: u32, bytes: &[u8; 4096]) -> Result<(), DeviceError>
        requires within { i ≤ length (journal self.old) }
        requires small { i < 2 ^ 31 }
        ensures written { honest self.old →
            OnOk result (journal self.new ≡ written i bytes.now (journal self.old)) }
        ensures torn { honest self.old → OnErr result (Torn i (journal self.old) (journal self.new)) }
        ensures base { honest self.old → base self.new ≡ base self.old }
        ensures stops { honest self.old → JournalFollows (Torn i) (may_leave self.old) (may_leave self.new) }
        ensures time { honest self.old →
            PairElapses (moment self.old) (moment self.new) (left_since self.old) (left_since self.new)
            (may_leave self.new) }
        ensures honest { honest self.old ↔ honest self.new }
        ensures faults { Counts (faults self.old) (faults self.new) result }
        ensures gives { write_journal_gives self.old i bytes.now result self.new };

    /// Makes what was written of the base last: after an `Ok` a stop leaves it as it is read.
    fn sync_base(&mut self) -> Result<(), DeviceError>
        ensures durable { honest self.old →
            OnOk result ((a b : Blocks) → may_leave self.new a b → a ≡ base self.old) }
        ensures base { honest self.old → base self.new ≡ base self.old }
        ensures journal { honest self.old → journal self.new ≡ journal self.old }
        ensures stops { honest self.old → PairsNoMore (may_leave self.old) (may_leave self.new) }
        ensures time { honest self.old →
            PairElapses (moment self.old) (moment self.new) (left_since self.old) (left_since self.new)
            (may_leave self.new) }
        ensures honest { honest self.old ↔ honest self.new }
        ensures faults { Counts (faults self.old) (faults self.new) result }
        ensures gives { sync_base_gives self.old result self.new };

    /// Makes what was written of the journal last.
    fn sync_journal(&mut self) -> Result<(), DeviceError>
        ensures durable { honest self.old →
            OnOk result ((a b : Blocks) → may_leave self.new a b → b ≡ journal self.old) }
        ensures base { honest self.old → base self.new ≡ base self.old }
        ensures journal { honest self.old → journal self.new ≡ journal self.old }
        ensures stops { honest self.old → PairsNoMore (may_leave self.old) (may_leave self.new) }
        ensures time { honest self.old →
            PairElapses (moment self.old) (moment self.new) (left_since self.old) (left_since self.new)
            (may_leave self.new) }
        ensures honest { honest self.old ↔ honest self.new }
        ensures faults { Counts (faults self.old) (faults self.new) result }
        ensures gives { sync_journal_gives self.old result self.new };

    /// There are at most 2^31 blocks of each.
    ghost few_blocks: { (d : Self) → (length (base d) ≤ 2 ^ 31) × (length (journal d) ≤ 2 ^ 31) };

    /// What is read is one of the outcomes of a stop now.
    ghost shown_counts: { (d : Self) → honest d → may_leave d (base d) (journal d) };

    /// A stop leaves of each at most one block more than is read, one of an append that failed.
    ghost no_longer: { (d : Self) (a b : Blocks) → honest d → may_leave d a b →
        (length a ≤ length (base d) + 1) × (length b ≤ length (journal d) + 1) };

    /// A stop leaves blocks of 4096 bytes, so what is read are such, too.
    ghost whole: { (d : Self) (a b : Blocks) → honest d → may_leave d a b → All IsBlock a × All IsBlock b };

    /// This moment is one of those since an earlier one.
    ghost counts_now: { (d : Self) (t : ℕ) (a b : Blocks) → honest d → t ≤ moment d →
        may_leave d a b → left_since d t a b };

    /// Since this moment there is no other.
    ghost only_now: { (d : Self) (a b : Blocks) → honest d → left_since d (moment d) a b → may_leave d a b };

    /// The moments since one include those since a later one.
    ghost since_earlier: { (d : Self) (t u : ℕ) (a b : Blocks) → honest d → t ≤ u →
        left_since d u a b → left_since d t a b };

    /// The count of faults is a u64.
    ghost faults_fit: { (d : Self) → faults d < 2 ^ 64 };
}
