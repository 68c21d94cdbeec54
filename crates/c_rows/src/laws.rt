//! What pages of an answer are together, as the contract of a function that does nothing.
ghost use Rattle.std.specs.Prelude.{ℕ, ◌≡◌, ◌++◌, ◌∷◌, List};
ghost use Rattle.plain_table.specs.declared.boxes.AnyBox.{AnyBox};
ghost use Rattle.c_rows.specs.Parts.{IsAscending, objects_after};

/// **Of an answer that ascends by identifier, what is asked for behind the identifier of an object is exactly what
/// stands behind that object.** So pages that each begin behind the last identifier of the one before leave nothing
/// out, and have nothing twice.
pub fn pages_follow_one_another()
    ensures { (before behind : List (ℕ × AnyBox × ℕ)) (object : ℕ × AnyBox × ℕ) →
        IsAscending (before ++ object ∷ behind) →
        objects_after object.0 (before ++ object ∷ behind) ≡ behind }
{}
