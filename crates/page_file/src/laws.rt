//! What follows from the promises of the calls, each law the contract of a function that does nothing.
ghost use Rattle.std.specs.Prelude.{◌≡◌, ◌⊎◌, ◌↔◌, ◌≤◌, ◌<◌, ◌^◌, ℕ, List, None, Some, length};
ghost use Rattle.block_bytes.specs.Kinds.{free_kind};
ghost use Rattle.block_device.specs.Device.{Begins, Blocks, IsBlock};
ghost use Rattle.page_file.specs.declared.file.PageFile.{PageFile};
ghost use Rattle.page_file.specs.declared.fault.Fault.TheVariants.{WrongVersion};
ghost use Rattle.page_file.specs.declared.gate.Gate.TheVariants.{Shut, Open};
ghost use Rattle.page_file.specs.declared.header.Version.{Version};
ghost use Rattle.page_file.specs.File.{IsHonest, IsLive, IsNewFile, IsPageMap, KeepsGate, KeepsMap};
ghost use Rattle.page_file.specs.File.{LiesIn, blocks_of};
ghost use Rattle.page_file.specs.File.{device_of, gate_of, given, next_of, pages, version_of};
ghost use Rattle.page_file.specs.Layout.{IsWithin, kind_of, opened_version};
ghost use Rattle.page_file.specs.Opening.{IsRefused, failed_check, failed_check_up_to};
ghost use Rattle.page_file.specs.Stops.{SameButGate, StopSince};

use block_device::BlockDevice;

/// A stop now leaves what the gate allows: the blocks as read where it is shut, blocks that opening refuses
/// where it is open, and the blocks as read but for the gate where it is unsure. Where it is not open, all of
/// the blocks but the gate are left.
#[tactic(auto, using(crate::specs::Laws::laws))]
pub fn a_stop_follows_the_gate<D: BlockDevice>()
    ensures gate { (file : PageFile D ⟦<D as BlockDevice>⟧) (c : Blocks) → IsHonest file →
        D.may_leave (device_of file) c → StopSince (gate_of file) (blocks_of file) c }
    ensures others { (file : PageFile D ⟦<D as BlockDevice>⟧) (c : Blocks) → IsHonest file →
        ¬ (gate_of file ≡ Open) → D.may_leave (device_of file) c → SameButGate c (blocks_of file) }
{}

/// A file whose gate is shut lies in its blocks, and opening finds it there.
#[tactic(auto, using(crate::specs::Laws::a_shut_file_lies_in_its_blocks))]
pub fn a_shut_file_lies_in_its_blocks<D: BlockDevice>()
    ensures { (file : PageFile D ⟦<D as BlockDevice>⟧) → IsHonest file → gate_of file ≡ Shut →
        LiesIn file (blocks_of file) }
{}

/// Of blocks that differ in the gate alone from blocks in which a file lies, or from those of a file whose
/// gate is not open, opening refuses them or finds the same file.
#[tactic(auto, using(crate::specs::Laws::laws))]
pub fn a_gate_aside_is_refused_or_the_same<D: BlockDevice>()
    ensures file { (file : PageFile D ⟦<D as BlockDevice>⟧) (c : Blocks) → IsHonest file →
        ¬ (gate_of file ≡ Open) →
        SameButGate c (blocks_of file) → IsRefused c ⊎ LiesIn file c }
    ensures blocks { (file : PageFile D ⟦<D as BlockDevice>⟧) (blocks c : Blocks) → LiesIn file blocks →
        SameButGate c blocks → IsRefused c ⊎ LiesIn file c }
{}

/// Two files that lie in the same blocks have the same version and the same map: a closed file opened again
/// is the same.
#[tactic(auto, using(crate::specs::Laws::a_file_opened_again_is_the_same))]
pub fn a_file_opened_again_is_the_same<D: BlockDevice>()
    ensures { (old new : PageFile D ⟦<D as BlockDevice>⟧) (blocks : Blocks) → LiesIn old blocks →
        LiesIn new blocks →
        (version_of new ≡ version_of old) × (next_of new ≡ next_of old)
        × ((k : ℕ) → pages new k ≡ pages old k)
        × (IsPageMap old ↔ IsPageMap new) }
{}

/// A live page is one given out, from the catalog on, and the catalog is always live.
#[tactic(auto, using(crate::specs::Laws::laws))]
pub fn a_live_page_was_given_out<D: BlockDevice>()
    ensures given { (file : PageFile D ⟦<D as BlockDevice>⟧) (n : ℕ) → IsLive file n →
        (2 ≤ n) × (n < next_of file) × (next_of file ≤ 2 ^ 31) }
    ensures catalog { (file : PageFile D ⟦<D as BlockDevice>⟧) → IsLive file 2 }
{}

/// The live pages are pages given out, and of those given out all are live that are not of the free pages'
/// kind.
#[tactic(auto, using(crate::specs::Laws::laws))]
pub fn a_live_page_is_given<D: BlockDevice>()
    ensures given { (file : PageFile D ⟦<D as BlockDevice>⟧) (n : ℕ) (page : List ℕ) →
        pages file n ≡ Some page →
        given file n ≡ Some page }
    ensures live { (file : PageFile D ⟦<D as BlockDevice>⟧) (n : ℕ) (page : List ℕ) → IsPageMap file →
        given file n ≡ Some page → ¬ (kind_of page ≡ free_kind) → pages file n ≡ Some page }
{}

/// A page of an honest file is 4096 bytes.
pub fn a_page_is_a_block<D: BlockDevice>()
    ensures given { (file : PageFile D ⟦<D as BlockDevice>⟧) (n : ℕ) (page : List ℕ) → IsHonest file →
        given file n ≡ Some page → IsBlock page }
    ensures live { (file : PageFile D ⟦<D as BlockDevice>⟧) (n : ℕ) (page : List ℕ) → IsHonest file →
        pages file n ≡ Some page → IsBlock page }
{}

/// No call keeps gate and map, and calls in turn do where each does.
#[tactic(auto, using(crate::specs::Laws::laws))]
pub fn gate_and_map_are_kept_in_turn<D: BlockDevice>()
    ensures no_gate { (file : PageFile D ⟦<D as BlockDevice>⟧) → KeepsGate file file }
    ensures gate { (old mid new : PageFile D ⟦<D as BlockDevice>⟧) → KeepsGate old mid → KeepsGate mid new →
        KeepsGate old new }
    ensures no_map { (file : PageFile D ⟦<D as BlockDevice>⟧) → KeepsMap file file }
    ensures map { (old mid new : PageFile D ⟦<D as BlockDevice>⟧) → (IsHonest old → IsHonest mid) →
        KeepsMap old mid → KeepsMap mid new → KeepsMap old new }
{}

/// Each page number that was given out has its block on the device.
#[tactic(auto, using(crate::specs::Laws::a_number_given_out_has_its_block))]
pub fn a_number_given_out_has_its_block<D: BlockDevice>()
    ensures { (file : PageFile D ⟦<D as BlockDevice>⟧) → IsHonest file →
        next_of file ≤ length (blocks_of file) }
{}

/// What begins with blocks that opening takes, it takes too, and finds the same: a sound file, and a new one.
pub fn what_begins_with_a_file_is_the_file<D: BlockDevice>()
    ensures passes { (blocks c : Blocks) → failed_check blocks ≡ None → Begins blocks c →
        failed_check c ≡ None }
    ensures file { (file : PageFile D ⟦<D as BlockDevice>⟧) (blocks c : Blocks) → IsPageMap file →
        LiesIn file blocks → Begins blocks c → LiesIn file c }
    ensures new { (blocks c : Blocks) → IsNewFile blocks → Begins blocks c → IsNewFile c }
{}

/// Of blocks that opening takes where each version is read, it takes those of a version that is none above the
/// newest that is read, and refuses all others as of a version that is not known.
#[tactic(auto, using(crate::specs::Newest::passes_within, crate::specs::Newest::refused_above))]
pub fn no_version_above_the_newest_is_read()
    ensures within { (newest : Version) (blocks : Blocks) → failed_check blocks ≡ None →
        IsWithin newest (opened_version blocks) → failed_check_up_to newest blocks ≡ None }
    ensures above { (newest : Version) (blocks : Blocks) → failed_check blocks ≡ None →
        ¬ (IsWithin newest (opened_version blocks)) → failed_check_up_to newest blocks ≡ Some WrongVersion }
{}
