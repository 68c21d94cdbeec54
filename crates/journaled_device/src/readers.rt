//! Who reads beside a writer.
ghost use Rattle.std.specs.Prelude.{◌≡◌, false};

/// Who knows whether others read a base and its journal, and can keep them out.
pub trait Readers {
    /// Somebody reads, and goes on to.
    ghost somebody_reads: { Self → Type 0 };

    /// Asks that nobody reads until `let_in`: true where nobody does, and from then on nobody begins to. It does not
    /// wait.
    fn shut_out(&mut self) -> bool
        ensures refused { somebody_reads self.old → result ≡ false }
        ensures still { somebody_reads self.old → somebody_reads self.new };

    /// Lets others read again.
    fn let_in(&mut self)
        ensures { somebody_reads self.old → somebody_reads self.new };
}

/// Nobody else reads.
#[derive(Clone, Copy, Debug, PartialEq, Eq, Drop)]
pub struct Nobody;

impl Readers for Nobody {
    ghost somebody_reads = { λ _. ⊥ };

    fn shut_out(&mut self) -> bool {
        true
    }

    fn let_in(&mut self) {}
}
