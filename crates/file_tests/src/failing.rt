//! A file in memory whose calls fail as they are told.
ghost use Rattle.std.specs.Prelude.{[]};

use file_device::DiskFile;
use std::io::{self, ErrorKind};

/// Calls of a file in their order: None for one that passes, and for one that fails how many bytes
/// it moves before. Each later call passes.
pub type Calls = &'static [Option<usize>];

/// A file of at most two blocks. Of what it keeps nothing is said.
#[derive(Drop)]
pub struct FailingFile {
    bytes: [u8; 8192],
    size: usize,
    calls: Calls,
    made: usize,
}

impl FailingFile {
    /// A file without a byte.
    pub fn new(calls: Calls) -> FailingFile {
        FailingFile {
            bytes: [0; 8192],
            size: 0,
            calls,
            made: 0,
        }
    }

    // After how many bytes the next call fails, if it does.
    fn next_call(&mut self) -> Option<usize> {
        let call = self.calls.get(self.made).copied().flatten();
        self.made = self.made.saturating_add(1);
        call
    }
}

// What a call answers that fails or passes.
fn answer_of(call: Option<usize>) -> io::Result<()> {
    match call {
        None => Ok(()),
        Some(_) => Err(io::Error::from(ErrorKind::Other)),
    }
}

impl DiskFile for FailingFile {
    ghost bytes = { λ _. [] };

    ghost is_kept = { λ _. ⊥ };

    ghost may_leave = { λ _ _. ⊥ };

    ghost moment = { λ _. 0 };

    ghost left_since = { λ _ _ _. ⊥ };

    fn size(&self) -> io::Result<u64> {
        Ok(self.size as u64)
    }

    fn read_at(&mut self, at: u64, into: &mut [u8; 4096]) -> io::Result<()> {
        let call = self.next_call();
        let count = call.unwrap_or(4096);
        for k in 0..4096usize {
            let place = (at as usize).saturating_add(k);
            if k < count {
                into[k] = if place < 8192 { self.bytes[place] } else { 0 };
            }
        }
        answer_of(call)
    }

    fn write_at(&mut self, at: u64, from: &[u8; 4096]) -> io::Result<()> {
        let call = self.next_call();
        let count = call.unwrap_or(4096);
        for k in 0..4096usize {
            let place = (at as usize).saturating_add(k);
            if k < count && place < 8192 {
                self.bytes[place] = from[k];
                self.size = self.size.max(place + 1);
            }
        }
        answer_of(call)
    }

    fn sync(&mut self) -> io::Result<()> {
        answer_of(self.next_call())
    }

    ghost bytes_fit = { λ _ _ never. absurd never };

    ghost shown_counts = { λ _ _ never. absurd never };

    ghost no_longer = { λ _ _ _ never. absurd never };

    ghost whole = { λ _ _ never. absurd never };

    ghost counts_now = { λ _ _ _ never. absurd never };

    ghost only_now = { λ _ _ never. absurd never };

    ghost since_earlier = { λ _ _ _ _ never. absurd never };
}
