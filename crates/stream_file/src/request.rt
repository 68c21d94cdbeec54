//! Requests, and how they went.
ghost use Rattle.std.specs.Prelude.{◌≡◌, ◌⊎◌, ◌∷◌, ℕ, [], IfErr, IfOk, OnOk, true};
ghost use Rattle.std.specs.Io.KnownBytes.{Appends, Consumes};
ghost use Rattle.file_device.specs.declared.open.OpenError.TheVariants as error;
ghost use Rattle.stream_file.specs.Requests.{Exchanges, letter_of, lock_letter_of, number_of, refusal_of};
ghost use Rattle.stream_file.specs.Requests.{request_bytes};
ghost use Rattle.stream_file.specs.declared.request.FileSide.TheVariants.{Base, Journal};

use file_device::OpenError;
use std::io::{self, ErrorKind, Read, Write};

/// Which of the two files is asked.
#[derive(Clone, Copy, Debug, PartialEq, Eq)]
pub enum FileSide {
    /// The file of a store.
    Base,
    /// Its journal.
    Journal,
    /// A copy of its journal, which takes the journal's place.
    Copy,
}

/// What is asked of the journal as a file.
#[derive(Clone, Copy, Debug, PartialEq, Eq)]
pub enum JournalWish {
    /// To open the one that is there.
    Open,
    /// To open it, or make an empty one where there is none.
    Make,
    /// To remove it. One that is open stays open.
    Remove,
    /// To make an empty file for a copy of it.
    MakeCopy,
    /// To put the copy in its place.
    PutCopy,
}

/// What is asked of the lock of the file.
#[derive(Clone, Copy, Debug, PartialEq, Eq)]
pub enum LockWish {
    /// To hold it alone, without waiting. Where that is refused it is shared as before.
    Alone,
    /// To share it again.
    Share,
}

impl FileSide {
    // Its number in a request.
    fn number(self) -> u8
        ensures { result ≡ number_of self }
    {
        match self {
            FileSide::Base => 0,
            FileSide::Journal => 1,
            FileSide::Copy => 2,
        }
    }
}

impl JournalWish {
    // Its letter in a request.
    fn letter(self) -> u8
        ensures { result ≡ letter_of self }
    {
        match self {
            JournalWish::Open => b'o',
            JournalWish::Make => b'm',
            JournalWish::Remove => b'x',
            JournalWish::MakeCopy => b'c',
            JournalWish::PutCopy => b'p',
        }
    }
}

impl LockWish {
    // Its letter in a request.
    fn letter(self) -> u8
        ensures { result ≡ lock_letter_of self }
    {
        match self {
            LockWish::Alone => b'a',
            LockWish::Share => b'l',
        }
    }
}

/// Sends a request: a letter, the file's number, and a place in the file, least byte first.
pub(crate) fn send<O: Write>(output: &mut O, letter: u8, side: FileSide, at: u64) -> io::Result<()>
    ensures { OnOk result
        (Appends (O.contents output.old) (O.contents output.new) (request_bytes letter side at)) }
{
    let [a, b, c, d, e, f, g, h] = at.to_le_bytes();
    output.write_all(&[letter, side.number(), a, b, c, d, e, f, g, h])
}

/// Reads how a request went: a byte, which is 0 where it was done.
pub(crate) fn outcome<I: Read>(input: &mut I) -> io::Result<()>
    ensures { OnOk result (Consumes (I.remaining input.old) (I.remaining input.new) (0 ∷ [])) }
{
    match answer(input)? {
        0 => Ok(()),
        _ => Err(io::Error::from(ErrorKind::Other)),
    }
}

// One byte.
fn answer<I: Read>(input: &mut I) -> io::Result<u8>
    ensures { IfOk result (λ byte. Consumes (I.remaining input.old) (I.remaining input.new) (byte ∷ [])) }
{
    let mut byte = [1];
    input.read_exact(&mut byte)?;
    Ok(byte[0])
}

/// Asks for the journal to be opened, made, removed or copied. Who serves the streams locks what it opens, in the way
/// in which `file_device::open_file` does, and refuses in its words.
pub fn ask_journal<I: Read, O: Write>(
    input: &mut I,
    output: &mut O,
    wish: JournalWish,
) -> Result<(), OpenError>
    ensures done { OnOk result (Exchanges (request_bytes (letter_of wish) Journal 0) (0 ∷ [])
        (O.contents output.old) (O.contents output.new) (I.remaining input.old) (I.remaining input.new)) }
    ensures refused { IfErr result (λ e. (e ≡ error.Refused) ⊎ ((byte : ℕ) × (e ≡ refusal_of byte)
        × Exchanges (request_bytes (letter_of wish) Journal 0) (byte ∷ [])
        (O.contents output.old) (O.contents output.new) (I.remaining input.old) (I.remaining input.new))) }
{
    ask(input, output, wish.letter(), FileSide::Journal)
}

/// Asks for the lock of the file to be held alone, or to be shared again. `InUse` is the answer where others hold
/// it, too.
pub fn ask_lock<I: Read, O: Write>(
    input: &mut I,
    output: &mut O,
    wish: LockWish,
) -> Result<(), OpenError>
    ensures done { OnOk result (Exchanges (request_bytes (lock_letter_of wish) Base 0) (0 ∷ [])
        (O.contents output.old) (O.contents output.new) (I.remaining input.old) (I.remaining input.new)) }
    ensures refused { IfErr result (λ e. (e ≡ error.Refused) ⊎ ((byte : ℕ) × (e ≡ refusal_of byte)
        × Exchanges (request_bytes (lock_letter_of wish) Base 0) (byte ∷ [])
        (O.contents output.old) (O.contents output.new) (I.remaining input.old) (I.remaining input.new))) }
{
    ask(input, output, wish.letter(), FileSide::Base)
}

// Asks for what a letter says of a file as a whole.
fn ask<I: Read, O: Write>(
    input: &mut I,
    output: &mut O,
    letter: u8,
    side: FileSide,
) -> Result<(), OpenError>
    ensures done { OnOk result (Exchanges (request_bytes letter side 0) (0 ∷ [])
        (O.contents output.old) (O.contents output.new) (I.remaining input.old) (I.remaining input.new)) }
    ensures refused { IfErr result (λ e. (e ≡ error.Refused) ⊎ ((byte : ℕ) × (e ≡ refusal_of byte)
        × Exchanges (request_bytes letter side 0) (byte ∷ [])
        (O.contents output.old) (O.contents output.new) (I.remaining input.old) (I.remaining input.new))) }
{
    if send(output, letter, side, 0).is_err() {
        return Err(OpenError::Refused);
    }
    match answer(input) {
        Ok(0) => Ok(()),
        Ok(2) => Err(OpenError::InUse),
        Ok(3) => Err(OpenError::NoLocks),
        Ok(4) => Err(OpenError::Memory),
        _ => Err(OpenError::Refused),
    }
}
