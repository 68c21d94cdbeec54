//! The laws of what is shown, each the contract of a function that does nothing.
ghost use Rattle.std.specs.Prelude.{◌≡◌};
ghost use Rattle.block_device.specs.Device.{Blocks};
ghost use Rattle.journaled_file.specs.Judged.{IsJudged};
ghost use Rattle.journaled_file.specs.declared.judging.Found.{Found};
ghost use Rattle.snapshot_file.specs.Shown.{IsShownAs, IsSnapshot};

/// A journal is one thing to a base, and what is shown of both is what that says; so nothing else is shown, and
/// nothing where the journal is missing or another base's.
pub fn what_is_shown_is_one_thing()
    ensures found { (f g : Found) (a e : Blocks) → IsJudged f a e → IsJudged g a e → f ≡ g }
    ensures shown { (f : Found) (a e c : Blocks) → IsJudged f a e → IsSnapshot a e c → IsShownAs f a e c }
    ensures one { (a e c d : Blocks) → IsSnapshot a e c → IsSnapshot a e d → c ≡ d }
{}
