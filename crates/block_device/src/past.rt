//! The history of a device, which no memory holds and only clauses read.
ghost use Rattle.std.specs.Prelude.{◌≡◌, List, [], ◌∷◌};
ghost use Rattle.std.specs.Borrow.{ftrue};
ghost use Rattle.block_device.specs.Noted.{Note, note_of};

use std::marker::{Model, PhantomData};

/// Events so far, as a ghost list of what each was noted with, the newest first.
#[derive(Drop)]
pub struct Past {
    marker: PhantomData<u8>,
    pub ghost notes: { List Note },
}

impl Model for Past {
    ghost also_owns = { λ _. ftrue };
}

impl Past {
    /// No event yet.
    pub(crate) fn new() -> Past
        ensures { result.notes ≡ [] }
    {
        Past {
            marker: PhantomData,
        }
    }

    /// Adds an event, which costs nothing.
    pub(crate) fn note(&mut self, _numbers: &[u64], _bytes: &[u8])
        ensures { self.new.notes ≡ note_of _numbers.now _bytes.now ∷ self.old.notes }
    {}

    /// Block i is written, which held these bytes.
    pub(crate) fn changes(&mut self, i: u32, old: &[u8; 4096])
        ensures { self.new.notes ≡ note_of (i ∷ 0 ∷ []) old.now ∷ self.old.notes }
    {
        self.note(&[i as u64, 0], old);
    }

    /// Block i is appended.
    pub(crate) fn appends(&mut self, i: u32)
        ensures { self.new.notes ≡ note_of (i ∷ []) [] ∷ self.old.notes }
    {
        self.note(&[i as u64], &[]);
    }

    /// All is synced.
    pub(crate) fn syncs(&mut self)
        ensures { self.new.notes ≡ note_of [] [] ∷ self.old.notes }
    {
        self.note(&[], &[]);
    }
}
