//! The laws of a file with its journal, each the contract of a function that does nothing.
ghost use Rattle.std.specs.Prelude.{◌≡◌, ◌≤◌, length};
ghost use Rattle.block_bytes.specs.Numbers.{zeros};
ghost use Rattle.block_device.specs.Device.{Blocks, Torn, block_at, written};
ghost use Rattle.journaled_file.specs.Ending.{IsEnding};
ghost use Rattle.journaled_file.specs.Judged.{HasEnded, IsJournal, IsJudged, IsOf};
ghost use Rattle.journaled_file.specs.declared.judging.Found.TheVariants.{Ended, Foreign, Missing, Own};
ghost use Rattle.journaled_file.specs.declared.judging.Found.TheVariants.{Unended};
ghost use Rattle.marked_pair.specs.Behind.{IsLeft};
ghost use Rattle.marked_pair.specs.Mark.{IsMarked};
ghost use Rattle.page_file.specs.Layout.{gate_block};
ghost use Rattle.titled_pair.specs.Title.{untitled, HasTitle};

/// What a session leaves of a base and its journal is opened: where its journal had a title, of the base that
/// it found or beside a base with the mark, the file beside the base is not missing, and not another's.
///
/// What a stop leaves is so by the laws `marked_pair::laws::a_stop_leaves_a_mark_or_the_base_as_it_was` and
/// `titled_pair::laws::a_stop_leaves_the_title`.
pub fn what_a_session_leaves_is_its_own()
    ensures there { (journal a e : Blocks) → IsJournal journal → HasTitle journal e → ¬ IsJudged Missing a e }
    ensures own { (base journal a e : Blocks) → (¬ IsMarked base → IsOf base journal) → HasTitle journal e →
        IsLeft (length base) base a (untitled e) → ¬ IsJudged Foreign a e }
    ensures not_ended { (journal a e : Blocks) → HasTitle journal e → block_at 1 journal ≡ zeros →
        ¬ IsJudged Ended a e }
{}

/// A clean end that is cut short is finished by the next opening: what is left once its end is in the journal
/// is judged to be ended, whatever bytes the gate of its base has, and the gate that is then written makes
/// the base what it was to be. Before that an end that is torn leaves the title, and the journal behind it.
pub fn an_end_that_is_cut_short_is_finished()
    ensures ended { (base a e : Blocks) → IsJournal e → IsEnding base a e → IsJudged Ended a e }
    ensures shut { (base a e : Blocks) → IsEnding base a e →
        written 0 (gate_block 1) a ≡ written 0 (gate_block 1) base }
    ensures torn { (d e : Blocks) → 2 ≤ length d → Torn 1 d e →
        (block_at 0 e ≡ block_at 0 d) × (untitled e ≡ untitled d) }
{}

/// What an opening writes again, before anything rests on it, takes nothing away where it is cut short: a mark
/// that is torn, where the title is of the base, leaves a journal that is judged to be its own, and an end that
/// is torn, beside a mark, one whose session is judged not to have ended, or to have.
pub fn what_is_written_again_is_found_again()
    ensures mark { (base a e : Blocks) → IsJudged Own base e → 2 ≤ length base → IsOf base e →
        Torn 0 base a → IsJudged Own a e }
    ensures end { (base e d : Blocks) → IsJudged Unended base e → Torn 1 e d → ¬ HasEnded base d →
        IsJudged Unended base d }
{}
