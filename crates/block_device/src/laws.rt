//! The laws of the device model, each the contract of a function that does nothing.
ghost use Rattle.std.specs.Prelude.{◌≡◌, ◌≤◌, ◌+◌, ◌↔◌, ◌∷◌, ℕ, List, length};
ghost use Rattle.std.specs.List.{All};
ghost use Rattle.block_device.specs.Device.{Blocks, IsBlock, Follows, LeavesNoMore, Only, Torn, block_at};
ghost use Rattle.block_device.specs.Device.{written};
ghost use Rattle.block_device.specs.History.{Event, MayLeave, Synced};
ghost use Rattle.block_device.specs.Laws.{Both};

use crate::BlockDevice;

/// What is read is one of the outcomes of a stop now.
pub fn what_is_read_may_be_left<D: BlockDevice>()
    ensures { (d : D) → D.honest d → D.may_leave d (D.shown d) }
{}

/// A stop leaves at most one block more than is read, one of an append that failed.
pub fn at_most_one_more_is_left<D: BlockDevice>()
    ensures { (d : D) (c : Blocks) → D.honest d → D.may_leave d c → length c ≤ length (D.shown d) + 1 }
{}

/// What is read, and what a stop leaves, are blocks of 4096 bytes.
pub fn each_block_is_whole<D: BlockDevice>()
    ensures shown { (d : D) → D.honest d → All IsBlock (D.shown d) }
    ensures left { (d : D) (c : Blocks) → D.honest d → D.may_leave d c → All IsBlock c }
{}

/// The outcomes since a moment include those since a later one.
pub fn since_a_moment_includes_since_a_later_one<D: BlockDevice>()
    ensures { (d : D) (t u : ℕ) (c : Blocks) → D.honest d → t ≤ u → D.left_since d u c → D.left_since d t c }
{}

/// A stop between two calls is one during no call: since this moment it leaves what it may leave now,
/// and nothing else.
pub fn a_stop_between_calls_is_during_none<D: BlockDevice>()
    ensures { (d : D) (c : Blocks) → D.honest d → D.left_since d (D.moment d) c ↔ D.may_leave d c }
{}

/// A sync makes all outcomes one, and calls that leave no more keep it so.
pub fn a_sync_makes_all_outcomes_one<D: BlockDevice>()
    ensures one { (d : D) (blocks a b : Blocks) → Only blocks (D.may_leave d) → D.may_leave d a →
        D.may_leave d b →
        a ≡ b }
    ensures shown { (d : D) (blocks : Blocks) → D.honest d → Only blocks (D.may_leave d) →
        D.shown d ≡ blocks }
    ensures stays { (d e : D) (blocks : Blocks) → Only blocks (D.may_leave d) →
        LeavesNoMore (D.may_leave d) (D.may_leave e) → Only blocks (D.may_leave e) }
    ensures in_memory { (blocks : Blocks) (es : List Event) (c : Blocks) → All IsBlock blocks →
        MayLeave blocks (Synced ∷ es) c ↔ (c ≡ blocks) }
{}

/// A block that was written is read, and each other one as before.
pub fn a_write_is_read_back()
    ensures there { (i : ℕ) (bytes : List ℕ) (blocks : Blocks) → i ≤ length blocks →
        block_at i (written i bytes blocks) ≡ bytes }
    ensures elsewhere { (i k : ℕ) (bytes : List ℕ) (blocks : Blocks) → i ≤ length blocks → ¬ (k ≡ i) →
        block_at k (written i bytes blocks) ≡ block_at k blocks }
{}

/// A write that is cut short changes no other block, and adds at most one.
pub fn a_torn_write_is_in_one_block()
    ensures elsewhere { (i k : ℕ) (old new : Blocks) → Torn i old new → i ≤ length old → ¬ (k ≡ i) →
        block_at k new ≡ block_at k old }
    ensures length { (i : ℕ) (old new : Blocks) → Torn i old new → (length old ≤ length new) ×
        (length new ≤ length old + 1) }
{}

/// After two writes each outcome is an old one after both, each perhaps cut short.
pub fn writes_join<D: BlockDevice>()
    ensures { (i k : ℕ) (first second third : D) →
        Follows (Torn i) (D.may_leave first) (D.may_leave second) →
        Follows (Torn k) (D.may_leave second) (D.may_leave third) →
        Follows (Both (Torn i) (Torn k)) (D.may_leave first) (D.may_leave third) }
{}
