//! The entry lines of a load, read and gathered one after the other.

ghost use Rattle.std.specs.Prelude.{◌≡◌, ℕ, ◌+◌, ◌<◌, ◌≤◌, ◌++◌, ◌∷◌, [], false, List, OnOk, IfErr};
ghost use Rattle.std.specs.Prelude.{Some, length, unwrap_or};
ghost use Rattle.std.specs.Io.KnownBytes.{Keeps};
ghost use Rattle.command_shell.specs.Gathering.{GathersTo, IsGathered, TakesEntry};
ghost use Rattle.command_language.specs.Pending.{AreCounted, pending, work_left};
ghost use Rattle.command_language.specs.Reading.{IsReadersFault};
ghost use Rattle.command_shell.specs.declared.session.RunEnd.TheVariants as run_end;

use crate::session::RunEnd;
use command_language::{CountedRead, Found, LineReader, parse_entry};
use plain_table::RawBox;
use std::alloc::Allocator;
use std::io::Write;

/// What was gathered of a load so far.
#[derive(Drop)]
pub struct Gathered<A: Allocator> {
    /// The layer's name.
    pub layer: Vec<u8, A>,
    /// The objects of the entry lines.
    pub objects: Vec<(u64, RawBox, u32), A>,
    /// The place of the first entry line that gave no object, counted from 1, if there is one.
    pub bad_entry: Option<u64>,
    /// Whether there was room for the name and each object.
    pub room: bool,
    /// How many entry lines were announced.
    pub announced: u64,
}

/// What was taken of a text.
#[derive(Clone, Copy)]
pub enum Taken {
    /// A line with its newline.
    Line,
    /// The last line, without.
    Last,
    /// Nothing, since the text has ended.
    End,
}

/// How the reading of entry lines ended.
#[derive(Clone, Copy)]
pub enum Gathering {
    /// All were there; whether the text has ended with them.
    Full(bool),
    /// The text has ended before.
    Short,
    /// It could not be read further, or a flush failed.
    Broken(RunEnd),
}

impl<A: Allocator + Copy> Gathered<A> {
    /// Nothing yet, of a load of so many entry lines into the layer of that name.
    pub fn new(alloc: A, layer: &[u8], announced: u64) -> Self
        ensures nothing { IsGathered result layer.now [] }
        ensures announced { result.announced ≡ announced }
    {
        match Vec::from_slice(alloc, layer) {
            Ok(layer) => Gathered {
                layer,
                objects: Vec::new(alloc),
                bad_entry: None,
                room: true,
                announced,
            },
            Err(_) => Gathered {
                layer: Vec::new(alloc),
                objects: Vec::new(alloc),
                bad_entry: None,
                room: false,
                announced,
            },
        }
    }

    // An entry line more, at this place.
    fn add(&mut self, line: &[u8], place: u64)
        ensures { (layer : List ℕ) (lines : List (List ℕ)) → IsGathered self.old layer lines →
            place ≡ length lines + 1 → IsGathered self.new layer (lines ++ line.now ∷ []) }
    {
        match parse_entry(line) {
            None => self.spoil(place),
            Some(object) => {
                if self.objects.push(object).is_err() {
                    self.room = false;
                }
            }
        }
    }

    // An entry line more that gives no object, at this place.
    fn spoil(&mut self, place: u64)
        ensures { self.new.bad_entry ≡ Some (unwrap_or self.old.bad_entry place) }
    {
        self.bad_entry = Some(self.bad_entry.unwrap_or(place));
    }
}

// Takes the next entry line, at this place, and gathers what it gives. The replies so far are flushed where
// more is read.
fn take_entry<A: Allocator + Copy, R: CountedRead, W: Write>(
    gathered: &mut Gathered<A>,
    place: u64,
    lines: &mut LineReader,
    input: &mut R,
    output: &mut W,
) -> Result<Taken, RunEnd>
    ensures takes { TakesEntry result place gathered.old gathered.new (R.remaining input.old)
        (R.remaining input.new)
        (pending lines.old) (pending lines.new) }
    ensures kept { Keeps (W.contents output.old) (W.contents output.new) }
    ensures going { IfErr result (λ end. end ≡ run_end.Finished → ⊥) }
    ensures fewer { OnOk result (work_left lines.new ≤ work_left lines.old) }
    ensures counted { AreCounted lines.old (R.calls input.old) → AreCounted lines.new (R.calls input.new) }
    ensures blamed { AreCounted lines.old (R.calls input.old) → IfErr result (λ end. end ≡ run_end.ReadFault
        → IsReadersFault (R.is_failing input.new) (R.calls input.new)) }
{
    let Ok(line) = lines.line_or_flush(output) else {
        return Err(RunEnd::WriteFault);
    };
    match lines.find(line, input) {
        Ok(Found::Line(len)) => {
            gathered.add(lines.front(len), place);
            lines.take(len + 1);
            Ok(Taken::Line)
        }
        Ok(Found::Last(len)) => {
            gathered.add(lines.front(len), place);
            lines.take(len);
            Ok(Taken::Last)
        }
        Ok(Found::TooLong) => {
            gathered.spoil(place);
            Ok(Taken::Line)
        }
        Ok(Found::LastTooLong) => {
            gathered.spoil(place);
            Ok(Taken::Last)
        }
        Ok(Found::End) => Ok(Taken::End),
        Err(_) => Err(RunEnd::ReadFault),
    }
}

/// Takes so many entry lines, and gathers what they give.
pub fn gather<A: Allocator + Copy, R: CountedRead, W: Write>(
    gathered: &mut Gathered<A>,
    count: u64,
    lines: &mut LineReader,
    input: &mut R,
    output: &mut W,
) -> Gathering
    ensures gathers { GathersTo result count gathered.old gathered.new (R.remaining input.old)
        (R.remaining input.new) (pending lines.old) (pending lines.new) }
    ensures kept { Keeps (W.contents output.old) (W.contents output.new) }
    ensures going { result ≡ Gathering.Broken run_end.Finished → ⊥ }
    ensures fewer { result ≡ Gathering.Full false → work_left lines.new ≤ work_left lines.old }
    ensures counted { AreCounted lines.old (R.calls input.old) → AreCounted lines.new (R.calls input.new) }
    ensures blamed { AreCounted lines.old (R.calls input.old) → result ≡ Gathering.Broken run_end.ReadFault
        → IsReadersFault (R.is_failing input.new) (R.calls input.new) }
{
    for taken in 0..count {
        match take_entry(gathered, taken + 1, lines, input, output) {
            Err(end) => return Gathering::Broken(end),
            Ok(Taken::Line) => {}
            Ok(Taken::Last) => {
                if taken + 1 < count {
                    return Gathering::Short;
                }
                return Gathering::Full(true);
            }
            Ok(Taken::End) => return Gathering::Short,
        }
    }
    Gathering::Full(false)
}
