//! A journal behind its title and its end.
ghost use Rattle.std.specs.Prelude.{◌≡◌, IfSome};
ghost use Rattle.snapshot_file.specs.Beside.{beside};
ghost use Rattle.snapshot_file.specs.BesideLaws.{few_beside, whole_beside};
ghost use Rattle.titled_pair.specs.Title.{untitled};

use block_device::DeviceError;
use read_only_device::BlockReader;
use titled_pair::TITLE_BLOCKS;

/// The log of a journal: what stands behind its title and its end. Where there is no journal it has no blocks.
#[derive(Drop)]
pub struct UntitledReader<J: BlockReader> {
    journal: Option<J>,
}

impl<J: BlockReader + Drop> UntitledReader<J> {
    /// The log of this journal.
    pub fn behind(journal: Option<J>) -> UntitledReader<J>
        ensures shown { ⟦<UntitledReader<J> as BlockReader>⟧.shown result ≡ untitled (beside J.shown journal) }
        ensures honest { IfSome journal J.honest → ⟦<UntitledReader<J> as BlockReader>⟧.honest result }
    {
        UntitledReader { journal }
    }
}

impl<J: BlockReader> BlockReader for UntitledReader<J> {
    ghost shown = { λ r. untitled (beside J.shown r.journal) };

    ghost honest = { λ r. IfSome r.journal J.honest };

    fn blocks(&self) -> u32 {
        match &self.journal {
            Some(journal) => journal.blocks().saturating_sub(TITLE_BLOCKS),
            None => 0,
        }
    }

    fn read(&self, i: u32, into: &mut [u8; 4096]) -> Result<(), DeviceError> {
        match &self.journal {
            Some(journal) => journal.read(i + TITLE_BLOCKS, into),
            None => Err(DeviceError::Failed),
        }
    }

    ghost few_blocks = { λ r. few_beside J.shown J.few_blocks r.journal };

    ghost whole = { λ r honest. whole_beside J.shown J.honest J.whole r.journal honest };
}
