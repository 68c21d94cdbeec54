//! Its calls.
ghost use Rattle.std.specs.Prelude.{◌≡◌, ◌≤◌, ◌↔◌, length, IfOk, IfErr};
ghost use Rattle.committed_log.specs.Log.{homes_in, recovered};
ghost use Rattle.committed_log.specs.Opening.{IsMalformed};
ghost use Rattle.committed_log.specs.declared.log.open.OpenFault.TheVariants as fault;
ghost use Rattle.snapshot_reader.specs.Reader.{base_of, homes_of, journal_of, shown_of, IsHonest};
ghost use Rattle.snapshot_reader.specs.ReaderLaws.{few_overlaid, whole_overlaid};

use crate::index::read_index;
use crate::reader::SnapshotReader;
use block_device::DeviceError;
use committed_log::OpenFault;
use read_only_device::BlockReader;
use std::alloc::Allocator;

impl<B: BlockReader, J: BlockReader, A: Allocator + Copy> SnapshotReader<B, J, A> {
    /// Reads the index of the log: region after region, up to the first whose flag does not say that it is
    /// committed.
    ///
    /// A region that says so, and whose blocks are not all there or one of whose slots has no home in the base, is
    /// malformed. Where the log can't be opened both readers are given back.
    pub fn open(base: B, journal: J, alloc: A) -> Result<SnapshotReader<B, J, A>, (OpenFault, B, J)>
        ensures shown { IfOk result (λ r. J.honest journal →
            shown_of r ≡ recovered (B.shown base) (J.shown journal)) }
        ensures homes { IfOk result (λ r. J.honest journal → homes_of r ≡ homes_in (J.shown journal)) }
        ensures base { IfOk result (λ r. base_of r ≡ base) }
        ensures journal { IfOk result (λ r. journal_of r ≡ journal) }
        ensures refused_base { IfErr result (λ e. e.1 ≡ base) }
        ensures refused_journal { IfErr result (λ e. e.2 ≡ journal) }
        ensures malformed { IfErr result (λ e. J.honest journal → e.0 ≡ fault.Malformed →
            IsMalformed (B.shown base) (J.shown journal)) }
        ensures well_formed { IfOk result (λ r. J.honest journal →
            ¬ IsMalformed (B.shown base) (J.shown journal)) }
        ensures honest { IfOk result (λ r. (B.honest base × J.honest journal) ↔ IsHonest r) }
    {
        match read_index(&journal, base.blocks(), alloc) {
            Ok(slots) => Ok(SnapshotReader {
                base,
                journal,
                slots,
            }),
            Err(fault) => Err((fault, base, journal)),
        }
    }

    /// How many blocks of the log are regions that were read: who reads on begins there.
    pub fn end(&self) -> usize
        ensures is { result ≡ length (homes_of self.now) }
        ensures there { result ≤ length (J.shown (journal_of self.now)) }
    {
        self.slots.len()
    }

    /// Both readers, as they are.
    pub fn into_readers(self) -> (B, J)
        ensures base { result.0 ≡ base_of self }
        ensures journal { result.1 ≡ journal_of self }
    {
        let SnapshotReader {
            base,
            journal,
            slots: _,
        } = self;
        (base, journal)
    }
}

impl<B: BlockReader, J: BlockReader, A: Allocator + Copy> BlockReader for SnapshotReader<B, J, A> {
    ghost shown = { λ r. shown_of r };

    ghost honest = { λ r. IsHonest r };

    fn blocks(&self) -> u32 {
        self.base.blocks()
    }

    fn read(&self, i: u32, into: &mut [u8; 4096]) -> Result<(), DeviceError> {
        match self.slots.slot_of(i) {
            Some(k) => self.journal.read(k as u32, into),
            None => self.base.read(i, into),
        }
    }

    ghost few_blocks = { λ r. few_overlaid (homes_of r) (J.shown (journal_of r)) (B.shown (base_of r))
        (B.few_blocks (base_of r)) };

    ghost whole = { λ r honest.
        whole_overlaid (homes_of r) (J.shown (journal_of r)) (B.shown (base_of r)) r.there
        (J.whole (journal_of r) honest.1)
        (B.whole (base_of r) honest.0) };
}
