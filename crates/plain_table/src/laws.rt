//! What follows from the definitions: each law is the contract of a function that does nothing.

ghost use Rattle.std.specs.Prelude.{◌≡◌, true, false};
ghost use Rattle.plain_table.specs.Commands.{Command};
ghost use Rattle.plain_table.specs.Step.{after, changes};
ghost use Rattle.plain_table.specs.Table.{Table};

/// A command that changes the table leaves another one.
#[tactic(auto, using(crate::specs::Laws::a_change_makes_another_table))]
pub fn a_change_makes_another_table()
    ensures { (t : Table) (c : Command) → changes t c ≡ true → ¬ (after t c ≡ t) }
{}

/// Every other command leaves the table as it is.
#[tactic(auto, using(crate::specs::Laws::no_change_leaves_the_table))]
pub fn no_change_leaves_the_table()
    ensures { (t : Table) (c : Command) → changes t c ≡ false → after t c ≡ t }
{}
