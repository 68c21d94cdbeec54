//! The calls of a device in memory.
ghost use Rattle.std.specs.Prelude.{false, true, slice_index_or, IsOk, ◌≡◌, ◌<◌, [], length, OnOk, OnErr};
ghost use Rattle.std.specs.Prelude.{IsErrOf};
ghost use Rattle.block_device.specs.Kept.{Keeps};
ghost use Rattle.block_device.specs.Memory.{shown_of, history_of, writes_of, may_leave_of, moment_of};
ghost use Rattle.block_device.specs.Memory.{left_since_of};
ghost use Rattle.block_device.specs.Memory.{AnswersRead, AnswersWrite, AnswersSync};
ghost use Rattle.block_device.specs.Outcomes.{shown_left, no_longer_left, now_since, since_now};
ghost use Rattle.block_device.specs.Outcomes.{since_earlier_left};
ghost use Rattle.block_device.specs.Outcomes.{none_fits};

use crate::block_list::BlockList;
use crate::log::Log;
use crate::memory::MemoryDevice;
use crate::past::Past;
use crate::{BlockDevice, DeviceError};
use std::alloc::Allocator;

impl<A: Allocator + Copy> MemoryDevice<A> {
    /// A device without blocks, which takes its memory from this allocator.
    pub fn new(alloc: A) -> Self
        ensures empty { shown_of result ≡ [] }
        ensures fresh { history_of result ≡ [] }
        ensures unwritten { writes_of result ≡ 0 }
        ensures honest { ⟦<MemoryDevice<A> as BlockDevice>⟧.honest result }
    {
        MemoryDevice {
            blocks: BlockList::new(alloc),
            marks: Vec::new(alloc),
            log: Log::new(alloc),
            synced: 0,
            writes: 0,
            past: Past::new(),
        }
    }

    /// How many writes answered Ok. It stays at u64::MAX.
    pub fn writes(&self) -> u64
        ensures { result ≡ writes_of self.now }
    {
        self.writes
    }
}

impl<A: Allocator + Copy> BlockDevice for MemoryDevice<A> {
    ghost shown = { λ d. shown_of d };

    ghost honest = { λ d. Unit {0} };

    ghost may_leave = { λ d c. may_leave_of d c };

    ghost moment = { λ d. moment_of d };

    ghost left_since = { λ d t c. left_since_of d t c };

    ghost faults = { λ d. 0 };

    ghost read_gives = { λ d i into result bytes e. AnswersRead d i result bytes e };

    ghost write_gives = { λ d i bytes result e. AnswersWrite d i bytes result e };

    ghost sync_gives = { λ d result e. AnswersSync d result e };

    fn blocks(&self) -> u32 {
        self.blocks.len() as u32
    }

    fn read(&mut self, i: u32, into: &mut [u8; 4096]) -> Result<(), DeviceError> {
        *into = *self.blocks.block(i as usize);
        Ok(())
    }

    fn write(&mut self, i: u32, bytes: &[u8; 4096]) -> Result<(), DeviceError> {
        let at = i as usize;
        if at >= self.blocks.len() {
            self.marks.reserve(1)?;
            self.blocks.push(bytes)?;
            self.marks.push_reserved(true);
            self.past.appends(i);
            self.writes = self.writes.saturating_add(1);
            return Ok(());
        }
        let old = self.blocks.block(at);
        keep(&mut self.log, &mut self.marks, i, old)?;
        self.past.changes(i, old);
        self.blocks.set(at, bytes);
        self.writes = self.writes.saturating_add(1);
        Ok(())
    }

    fn sync(&mut self) -> Result<(), DeviceError> {
        self.marks.fill(false);
        self.log.clear();
        self.synced = self.blocks.len();
        self.past.syncs();
        Ok(())
    }

    ghost few_blocks = { λ d. d.few };

    ghost shown_counts = { λ d _. shown_left (shown_of d) (history_of d) d.kept.whole d.kept.leads };

    ghost no_longer = { λ d c _ now. no_longer_left (shown_of d) (history_of d) c now };

    ghost whole = { λ d c _ now. now.whole };

    ghost counts_now = { λ d t c _ le now. now_since (shown_of d) (history_of d) t c now };

    ghost only_now = { λ d c _ left. since_now (shown_of d) (history_of d) c left };

    ghost since_earlier = { λ d t u c _ le left.
        since_earlier_left (shown_of d) (history_of d) t u c le left };

    ghost brought_now = { λ d c _ found. absurd found };

    ghost committed = { λ d k _ _ _ kept. absurd kept };

    ghost faults_fit = { λ d. none_fits };
}

// Before the first write of block i since the last sync, marks it and logs what it holds.
fn keep<A: Allocator + Copy>(
    log: &mut Log<A>,
    marks: &mut Vec<bool, A>,
    i: u32,
    block: &[u8; 4096],
) -> Result<(), DeviceError>
    requires { i < length marks.old.items }
    ensures kept { OnOk result (Keeps i block.now marks.old.items log.old marks.new.items log.new) }
    ensures refused { OnErr result ((log.new ≡ log.old) × (marks.new.items ≡ marks.old.items)) }
    ensures again { slice_index_or marks.old.items i false ≡ true → IsOk result }
    ensures memory { IsErrOf result DeviceError.Failed → ⊥ }
{
    let at = i as usize;
    if marks[at] {
        return Ok(());
    }
    log.add(i, block)?;
    marks[at] = true;
    Ok(())
}
