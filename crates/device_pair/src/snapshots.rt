//! Values of earlier moments, which no memory holds and only clauses read.
ghost use Rattle.std.specs.Prelude.{◌≡◌, List, [], ◌∷◌};
ghost use Rattle.std.specs.Borrow.{ftrue};

use std::marker::{Model, PhantomData};

/// Values of earlier moments, the newest first, each beside another.
#[derive(Drop)]
pub struct Snapshots<A, B> {
    of: PhantomData<(A, B)>,
    pub ghost taken: { List (A × B) },
}

impl<A, B> Model for Snapshots<A, B> {
    ghost also_owns = { λ _. ftrue };
}

impl<A, B> Snapshots<A, B> {
    /// None yet.
    pub fn new() -> Snapshots<A, B>
        ensures { result.taken ≡ [] }
    {
        Snapshots { of: PhantomData }
    }

    /// These values beside one another too, which costs nothing.
    pub fn with(&self, _first: &A, _second: &B) -> Snapshots<A, B>
        ensures { result.taken ≡ (_first.now, _second.now) ∷ self.now.taken }
    {
        Snapshots { of: PhantomData }
    }
}
