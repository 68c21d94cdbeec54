//! The blocks of a file that is only read.
ghost use Rattle.std.specs.Prelude.{◌≡◌, ◌≤◌, ◌<◌, ◌*◌, ◌^◌, ℕ, length, IfOk, IsErr, IsErrOf};
ghost use Rattle.block_device.specs.declared.device.DeviceError.TheVariants.{Memory};
ghost use Rattle.file_device.specs.File.{IsCount, blocks_of};
ghost use Rattle.file_device.specs.Pieces.{all_blocks, few};

use crate::SharedFile;
use crate::device::{BLOCK, MOST_BLOCKS};
use block_device::DeviceError;
use read_only_device::BlockReader;

/// A reader whose block i is the 4096 bytes of a file from 4096 times i on. A last block that is cut short
/// counts, and its missing bytes read as zero.
///
/// It is honest where its file is kept. It takes no memory.
#[derive(Drop)]
pub struct FileReader<F: SharedFile> {
    file: F,
    count: u32,
    ghost few: { count ≤ 2 ^ 31 },
}

impl<F: SharedFile> FileReader<F> {
    ghost use Rattle.file_device.specs.Device.{file_read};

    /// The reader of a file, unless the file tells no size or has more than 2^31 blocks.
    pub fn over(file: F) -> Result<FileReader<F>, DeviceError>
        ensures file { IfOk result (λ r. r.file ≡ file) }
        ensures honest { IfOk result (λ r. F.is_kept file → ⟦<FileReader<F> as BlockReader>⟧.honest r) }
        ensures shown { IfOk result (λ r. F.is_kept file → (n : ℕ) → IsCount n (length (F.bytes file)) →
            ⟦<FileReader<F> as BlockReader>⟧.shown r ≡ blocks_of n (F.bytes file)) }
        ensures large { IsErr result → F.is_kept file → 4096 * 2 ^ 31 < length (F.bytes file) }
        ensures memory { IsErrOf result Memory → ⊥ }
    {
        let Ok(size) = file.size() else {
            return Err(DeviceError::Failed);
        };
        let count = size.div_ceil(BLOCK);
        if count > MOST_BLOCKS {
            return Err(DeviceError::Failed);
        }
        Ok(FileReader {
            file,
            count: count as u32,
        })
    }

    /// The reader of the same file with as many blocks as it has now. It fails as `over` does.
    pub fn measured(self) -> Result<FileReader<F>, DeviceError>
        ensures file { IfOk result (λ r. file_read r ≡ file_read self) }
        ensures shown { IfOk result (λ r. F.is_kept (file_read self) →
            (n : ℕ) → IsCount n (length (F.bytes (file_read self))) →
            ⟦<FileReader<F> as BlockReader>⟧.shown r ≡ blocks_of n (F.bytes (file_read self))) }
        ensures large { IsErr result → F.is_kept (file_read self) →
            4096 * 2 ^ 31 < length (F.bytes (file_read self)) }
        ensures memory { IsErrOf result Memory → ⊥ }
    {
        FileReader::over(self.file)
    }

    /// Has the disk take what others wrote into the file before: a stop from then on takes back none of it.
    pub fn sync(&self) -> Result<(), DeviceError>
        ensures { IsErrOf result Memory → ⊥ }
    {
        match self.file.sync() {
            Ok(()) => Ok(()),
            Err(_) => Err(DeviceError::Failed),
        }
    }

    // Its file.
    pub(crate) fn file(&self) -> &F
        ensures { result.now ≡ file_read self.now }
    {
        &self.file
    }
}

impl<F: SharedFile> BlockReader for FileReader<F> {
    ghost shown = { λ r. blocks_of r.count (F.bytes r.file) };

    ghost honest = { λ r. F.is_kept r.file };

    fn blocks(&self) -> u32 {
        self.count
    }

    fn read(&self, i: u32, into: &mut [u8; 4096]) -> Result<(), DeviceError> {
        match self.file.read_at(u64::from(i) * BLOCK, into) {
            Ok(()) => Ok(()),
            Err(_) => Err(DeviceError::Failed),
        }
    }

    ghost few_blocks = { λ r. few r.count (F.bytes r.file) r.few };

    ghost whole = { λ r kept. all_blocks r.count (F.bytes r.file) (λ k. F.bytes_fit r.file k kept) };
}
