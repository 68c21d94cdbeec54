//! Blocks in memory, where zeros at the end take no bytes.
ghost use Rattle.std.specs.Prelude.{◌≡◌, ◌↔◌, ◌+◌, ◌<◌, ◌≤◌, ◌++◌, ◌∷◌, [], true, length, replicate, set};
ghost use Rattle.std.specs.Prelude.{vec_capacity, vec_len, OnOk, OnErr};
ghost use Rattle.block_device.specs.Device.{Blocks, block_at};
ghost use Rattle.block_device.specs.Blank.{blank, with_blanks};

use std::alloc::{AllocError, Allocator};
use std::marker::Model;
use std::slice::from_ref;

const BLANK: [u8; 4096] = [0; 4096];

/// Blocks in memory. Of those of zeros behind all others nothing is written: they have their room, for which
/// the system need find no memory before it is written.
#[derive(Drop)]
pub(crate) struct BlockList<A: Allocator> {
    written: Vec<[u8; 4096], A>,
    // how many blocks of zeros follow
    blanks: usize,
}

impl<A: Allocator> Model for BlockList<A> {
    ghost Value = { Blocks };

    ghost view = { λ l. with_blanks l.written.items l.blanks };

    ghost invariant = { λ l. vec_len l.written + l.blanks ≤ vec_capacity l.written };
}

impl<A: Allocator + Copy> BlockList<A> {
    /// No block, with memory from this allocator.
    pub(crate) fn new(alloc: A) -> Self
        ensures { result ≡ [] }
    {
        BlockList {
            written: Vec::new(alloc),
            blanks: 0,
        }
    }

    /// The same blocks, which are written.
    pub(crate) fn of(written: Vec<[u8; 4096], A>) -> Self
        ensures { result ≡ written.items }
    {
        BlockList { written, blanks: 0 }
    }

    /// The same blocks, all of them written. It takes no memory.
    pub(crate) fn into_written(self) -> Vec<[u8; 4096], A>
        ensures { result.items ≡ self }
    {
        let BlockList {
            mut written,
            mut blanks,
        } = self;
        let count = written.len() + blanks;
        write_out(&mut written, &mut blanks, count);
        written
    }

    /// How many blocks there are.
    pub(crate) fn len(&self) -> usize
        ensures { result ≡ length self.now }
    {
        self.written.len() + self.blanks
    }

    /// The block in a place.
    pub(crate) fn block(&self, at: usize) -> &[u8; 4096]
        requires { at < length self.now }
        ensures { result.now ≡ block_at at self.now }
    {
        if at < self.written.len() {
            &self.written[at]
        } else {
            &BLANK
        }
    }

    /// Writes the block in a place. It takes no memory.
    pub(crate) fn set(&mut self, at: usize, bytes: &[u8; 4096])
        requires { at < length self.old }
        ensures { self.new ≡ set self.old at bytes.now }
    {
        write_out(&mut self.written, &mut self.blanks, at + 1);
        self.written[at] = *bytes;
    }

    /// Appends a block. A refusal leaves the blocks.
    pub(crate) fn push(&mut self, bytes: &[u8; 4096]) -> Result<(), AllocError>
        ensures pushed { OnOk result (self.new ≡ self.old ++ bytes.now ∷ []) }
        ensures refused { OnErr result (self.new ≡ self.old) }
    {
        if is_blank(bytes) {
            make_room(&mut self.written, self.blanks)?;
            self.blanks += 1;
            return Ok(());
        }
        let count = self.len();
        write_out(&mut self.written, &mut self.blanks, count);
        // copied once, into its place
        self.written.extend_from_slice(from_ref(bytes))
    }
}

// Makes room for one block more behind those that are written and so many others, of which nothing is written.
// Where these are the most, what is written is moved into a new list: the system would copy all.
fn make_room<A: Allocator + Copy>(
    written: &mut Vec<[u8; 4096], A>,
    blanks: usize,
) -> Result<(), AllocError>
    requires { vec_len written.old + blanks ≤ vec_capacity written.old }
    ensures same { written.new.items ≡ written.old.items }
    ensures room { OnOk result (vec_len written.new + blanks < vec_capacity written.new) }
    ensures kept { vec_len written.new + blanks ≤ vec_capacity written.new }
{
    let count = written.len() + blanks;
    if blanks <= written.len() || count < written.capacity() {
        return written.reserve(blanks + 1);
    }
    let mut wider = Vec::with_capacity(*written.allocator(), 2 * count)?;
    wider.extend_from_slice(written)?;
    *written = wider;
    Ok(())
}

// Writes blocks of zeros until so many blocks are written.
fn write_out<A: Allocator>(written: &mut Vec<[u8; 4096], A>, blanks: &mut usize, count: usize)
    requires there { count ≤ vec_len written.old + blanks.old }
    requires room { vec_len written.old + blanks.old ≤ vec_capacity written.old }
    ensures same { with_blanks written.new.items blanks.new ≡ with_blanks written.old.items blanks.old }
    ensures written { count ≤ vec_len written.new }
    ensures as_many { vec_len written.new + blanks.new ≡ vec_len written.old + blanks.old }
    ensures room { vec_capacity written.new ≡ vec_capacity written.old }
{
    'blocks: for _place in written.len()..count {
        written.push_reserved(BLANK);
        *blanks -= 1;
    }
}

// Whether all bytes are zeros. The greatest tells it, which is found without a branch for each.
fn is_blank(bytes: &[u8; 4096]) -> bool
    ensures { result ≡ true ↔ bytes.now ≡ blank }
{
    let mut greatest = 0;
    'bytes: for at in 0..4096 {
        greatest = bytes[at].max(greatest);
    }
    greatest == 0
}
