//! The session of a reader's lines with a store, and how it ends.

ghost use Rattle.std.specs.Prelude.{◌≡◌, ◌≢◌, ◌<◌, ◌≤◌, ◌++◌, ◌∷◌, [], ℕ, false, List, Option, None};
ghost use Rattle.std.specs.Prelude.{MatchResult, IfSome};
ghost use Rattle.plain_table.specs.Answers.{done_answer, object_answer, boxes_answer, count_answer};
ghost use Rattle.plain_table.specs.Answers.{distances_answer};
ghost use Rattle.plain_table.specs.Answers.{dump_answer, layers_answer, pairs_answer};
ghost use Rattle.plain_table.specs.Step.Answer.{Refused};
ghost use Rattle.plain_table.specs.declared.refusal.Refusal.TheVariants as refusal;
ghost use Rattle.live_layers.specs.Image.{IsRefusedOrImageOf};
ghost use Rattle.store_law.specs.Sessions.{Takes};
ghost use Rattle.layer_store.specs.Calls.{Calls, IsAsked};
ghost use Rattle.layer_store.specs.Checked.{LawfulOnceChecked};
ghost use Rattle.layer_store.specs.Representation.{Represents, StandsAs, StopsLeave, device_in};
ghost use Rattle.command_shell.specs.Answering.{AnswersLast, AnswersLine, IsPlain, Replies, RepliesLast};
ghost use Rattle.command_shell.specs.Answering.{SaysChecked, reply_answers};
ghost use Rattle.command_language.specs.Entries.{objects_in};
ghost use Rattle.command_shell.specs.Gathering.{IsGathered};
ghost use Rattle.command_language.specs.Lines.{IsOneLine, newline};
ghost use Rattle.command_language.specs.Meanings.{meaning_of};
ghost use Rattle.command_language.specs.Meanings.Meaning.{Loads, Means};
ghost use Rattle.plain_table.specs.Commands.Command.{Layers};
ghost use Rattle.command_language.specs.Pending.{AreCounted, pending, work_left};
ghost use Rattle.command_language.specs.Reading.{BeginsLine, IsReadersFault, Reads, ReadsTo};
ghost use Rattle.command_shell.specs.Runs.{IfOn, Runs, RunsOnceChecked, StepsTo};
ghost use Rattle.command_language.specs.Said.{said};
ghost use Rattle.command_shell.specs.Serving.{IsSession, run_state};
ghost use Rattle.command_shell.specs.Strict.{Follows, IsRefusalIn, MakesStep, RunsAs};
ghost use Rattle.reply_texts.specs.Refused.{IsFrontOf};
ghost use Rattle.command_shell.specs.Strict.{RunsStrictly, TellsCalls, TellsRefusal, step_of, stop_at};
ghost use Rattle.command_shell.specs.TextCommands.{load_request};
ghost use Rattle.reply_texts.specs.Texts.{answer_text, reply_answer};
ghost use Rattle.reply_texts.specs.Writing.{Writes};

use crate::loading::{Gathered, Gathering, gather};
use arrayvec::ArrayVec;
use block_device::BlockDevice;
use command_language::{CountedRead, Found, Line, LineReader, parse_line};
use layer_store::Store;
use plain_table::{AnyBox, DumpRow, LayerInfo, MOST_LAYERS, Refusal};
use reply_texts::{LineFront, RefusedLine, Reply, Stop, write_layers, write_reply};
use std::alloc::{Allocator, Global};
use std::io;
use std::io::Write;

/// How a run ended. The commands that were answered stand, whichever it was.
#[derive(Clone, Copy, Debug, PartialEq, Eq)]
pub enum RunEnd {
    /// All that the reader had was read, and each of its commands was answered.
    Finished,
    /// Given where the last read failed, or the reader was called 2^62 times, and nowhere else. Each command
    /// that was read to its last newline was answered.
    ReadFault,
    /// Given where a write or a flush fails. What [`run`] promises of it is this: the last reply is written
    /// in part, and no line after it was answered; or each command that was read to its last newline was
    /// answered.
    WriteFault,
}

/// How a run ended that may stop at a refused line.
#[derive(Drop)]
pub enum LinesEnd {
    /// It stopped at none.
    Ran(RunEnd),
    /// It stopped at this line.
    Stopped(Stop),
}

/// What a step of a run came to. A line that was refused is told; of a load, its first one.
#[derive(Drop)]
pub enum Stepped {
    /// So many lines were taken and answered, and the run goes on.
    On(u64, Option<RefusedLine>),
    /// The last lines of the text were.
    Last(Option<RefusedLine>),
    /// The run ends, since nothing is left, or reading or writing failed.
    End(RunEnd),
}

/// Answers the commands of a reader's lines, each before the next line is looked for, until the text ends or
/// a read or a write fails.
///
/// Whatever the store represents, the commands of the text that was read are a lawful session from there, the
/// store represents its end, and what was written are the texts of its answers; [`RunEnd`] says how much of
/// the text and of the last answer's text that is. So a stop at any moment of the run leaves blocks that
/// opening refuses, or an image of a table that one before it may have left or that the run closed
/// (docs/FORMAT.md, "What stops leave of a store"). Where reader or writer does not make its bytes known,
/// nothing is said of them.
///
/// **And whatever the store is, on an honest device: from the first `check` on that was answered ok, the rest
/// of the commands is answered lawfully, from some table on.**
///
/// The writer is flushed before more is read, unless a whole line is pending; at the end it is not. An
/// interrupted read is a fault like any other. Beside what the store takes, it takes memory for the objects
/// of a load alone.
pub fn run<D: BlockDevice, A: Allocator + Copy, R: CountedRead, W: Write>(
    store: &mut Store<D, A>,
    input: &mut R,
    output: &mut W,
) -> RunEnd
    ensures session { Takes Represents store.old store.new (λ s s'. Runs result
        (run_state s (R.remaining input.old) (W.contents output.old))
        (run_state s' (R.remaining input.new) (W.contents output.new))
        × StopsLeave store.old store.new (IsRefusedOrImageOf s'.stops.so_far)) }
    ensures checked { D.honest (device_in store.old) → RunsOnceChecked (StandsAs store.new) result
        (R.remaining input.old) (R.remaining input.new) (W.contents output.old) (W.contents output.new) }
    ensures honest { D.honest (device_in store.old) → D.honest (device_in store.new) }
    ensures blamed { result ≡ RunEnd.ReadFault → IsReadersFault (R.is_failing input.new) (R.calls input.new) }
{
    match answer_lines(store, false, input, output) {
        LinesEnd::Ran(end) => end,
        LinesEnd::Stopped(_) => unreachable!(),
    }
}

/// The same, up to the first line that is refused.
///
/// **Where it stopped, the last command that was read is the first one that was refused, its reply is written
/// as all before it, and [`Stop`] tells the number of its line and how that begins; and what follows it was
/// not read as a line. Where it did not, none was refused, but perhaps one whose reply was written in part.**
pub fn run_strictly<D: BlockDevice, A: Allocator + Copy, R: CountedRead, W: Write>(
    store: &mut Store<D, A>,
    input: &mut R,
    output: &mut W,
) -> LinesEnd
    ensures session { Takes Represents store.old store.new (λ s s'. RunsStrictly (IsSession s s') result
        (R.remaining input.old) (R.remaining input.new) (W.contents output.old) (W.contents output.new)
        × StopsLeave store.old store.new (IsRefusedOrImageOf s'.stops.so_far)) }
    ensures checked { D.honest (device_in store.old) →
        RunsStrictly (LawfulOnceChecked (StandsAs store.new)) result
        (R.remaining input.old) (R.remaining input.new) (W.contents output.old) (W.contents output.new) }
    ensures honest { D.honest (device_in store.old) → D.honest (device_in store.new) }
    ensures blamed { result ≡ LinesEnd.Ran RunEnd.ReadFault →
        IsReadersFault (R.is_failing input.new) (R.calls input.new) }
{
    answer_lines(store, true, input, output)
}

// The same, strictly or not: the commands of the text that was read were made of the store in turn.
fn answer_lines<D: BlockDevice, A: Allocator + Copy, R: CountedRead, W: Write>(
    store: &mut Store<D, A>,
    strict: bool,
    input: &mut R,
    output: &mut W,
) -> LinesEnd
    ensures runs { RunsAs strict (Calls store.old store.new) result
        (R.remaining input.old) (R.remaining input.new) (W.contents output.old) (W.contents output.new) }
    ensures blamed { result ≡ LinesEnd.Ran RunEnd.ReadFault →
        IsReadersFault (R.is_failing input.new) (R.calls input.new) }
{
    let mut lines = LineReader::new();
    let mut taken = 0;
    loop {
        let Ok(line) = lines.line_or_flush(output) else {
            return LinesEnd::Ran(RunEnd::WriteFault);
        };
        match follow(strict, taken, step(store, &mut lines, line, input, output)) {
            Ok(more) => taken = more,
            Err(end) => return end,
        }
    }
}

// What follows of a step after so many lines: how many there are then, or how the run ends.
fn follow(strict: bool, taken: u64, step: Stepped) -> Result<u64, LinesEnd>
    ensures { Follows strict taken step result }
{
    match step {
        Stepped::On(lines, None) => Ok(taken.saturating_add(lines)),
        Stepped::On(lines, Some(refused)) => {
            if strict {
                return Err(LinesEnd::Stopped(stop_at(taken, refused)));
            }
            Ok(taken.saturating_add(lines))
        }
        Stepped::Last(Some(refused)) if strict => Err(LinesEnd::Stopped(stop_at(taken, refused))),
        Stepped::Last(_) => Err(LinesEnd::Ran(RunEnd::Finished)),
        Stepped::End(end) => Err(LinesEnd::Ran(end)),
    }
}

// The stop at a refused line after so many.
fn stop_at(taken: u64, refused: RefusedLine) -> Stop
    ensures { result ≡ stop_at taken refused }
{
    Stop {
        line: taken.saturating_add(1),
        refused,
    }
}

// Answers the next line, which is so long where it is pending, or says how the run ends.
fn step<D: BlockDevice, A: Allocator + Copy, R: CountedRead, W: Write>(
    store: &mut Store<D, A>,
    lines: &mut LineReader,
    line: Option<usize>,
    input: &mut R,
    output: &mut W,
) -> Stepped
    requires { IfSome line (BeginsLine (pending lines.old)) }
    ensures steps { StepsTo (MakesStep (Calls store.old store.new) result) result
        (R.remaining input.old) (R.remaining input.new) (W.contents output.old) (W.contents output.new)
        (pending lines.old) (pending lines.new) }
    ensures fewer { IfOn result (work_left lines.new < work_left lines.old) }
    ensures counted { AreCounted lines.old (R.calls input.old) → AreCounted lines.new (R.calls input.new) }
    ensures blamed { AreCounted lines.old (R.calls input.old) → result ≡ Stepped.End RunEnd.ReadFault
        → IsReadersFault (R.is_failing input.new) (R.calls input.new) }
{
    match lines.find(line, input) {
        Ok(Found::Line(len)) => step_line(store, lines, len, input, output),
        Ok(Found::Last(len)) => {
            let front = LineFront::of(lines.front(len));
            let written = answer_last(store, parse_line(lines.front(len)), output);
            lines.take(len);
            step_of(written, front, 1, true)
        }
        Ok(Found::TooLong) => {
            let written = answer(store, Line::Bad, output);
            step_of(written, LineFront::of_too_long(), 1, false)
        }
        Ok(Found::LastTooLong) => {
            let written = answer(store, Line::Bad, output);
            step_of(written, LineFront::of_too_long(), 1, true)
        }
        Ok(Found::End) => Stepped::End(RunEnd::Finished),
        Err(_) => Stepped::End(RunEnd::ReadFault),
    }
}

// Answers the line of this length that is pending with its newline, and its entry lines if it begins a load.
fn step_line<D: BlockDevice, A: Allocator + Copy, R: CountedRead, W: Write>(
    store: &mut Store<D, A>,
    lines: &mut LineReader,
    len: usize,
    input: &mut R,
    output: &mut W,
) -> Stepped
    requires { BeginsLine (pending lines.old) len }
    ensures steps { (before : Option (List ℕ)) (unread : List ℕ) →
        ReadsTo before (R.remaining input.old) (λ more. unread ++ more ≡ pending lines.old) →
        StepsTo (MakesStep (Calls store.old store.new) result) result
        before (R.remaining input.new) (W.contents output.old) (W.contents output.new)
        unread (pending lines.new) }
    ensures fewer { IfOn result (work_left lines.new < work_left lines.old) }
    ensures counted { AreCounted lines.old (R.calls input.old) → AreCounted lines.new (R.calls input.new) }
    ensures blamed { AreCounted lines.old (R.calls input.old) → result ≡ Stepped.End RunEnd.ReadFault
        → IsReadersFault (R.is_failing input.new) (R.calls input.new) }
{
    let front = LineFront::of(lines.front(len));
    let line = parse_line(lines.front(len));
    if let Line::Load { layer, count } = line {
        let gathered = Gathered::new(store.alloc(), layer, count);
        lines.take(len + 1);
        return load(store, lines, front, gathered, input, output);
    }
    let written = answer(store, line, output);
    lines.take(len + 1);
    step_of(written, front, 1, false)
}

// Answers a load whose first line was taken and begins so: takes its entry lines, makes the call of the store
// and writes the reply.
fn load<D: BlockDevice, A: Allocator + Copy, R: CountedRead, W: Write>(
    store: &mut Store<D, A>,
    lines: &mut LineReader,
    front: LineFront,
    gathered: Gathered<A>,
    input: &mut R,
    output: &mut W,
) -> Stepped
    ensures steps { (before : Option (List ℕ)) (unread first layer : List ℕ) → IsOneLine first →
        IsFrontOf front first [] → meaning_of first ≡ Loads layer gathered.announced →
        IsGathered gathered layer [] →
        Reads false before (R.remaining input.old) unread (pending lines.old) (first ++ newline ∷ []) →
        StepsTo (MakesStep (Calls store.old store.new) result) result
        before (R.remaining input.new) (W.contents output.old) (W.contents output.new)
        unread (pending lines.new) }
    ensures fewer { IfOn result (work_left lines.new ≤ work_left lines.old) }
    ensures counted { AreCounted lines.old (R.calls input.old) → AreCounted lines.new (R.calls input.new) }
    ensures blamed { AreCounted lines.old (R.calls input.old) → result ≡ Stepped.End RunEnd.ReadFault
        → IsReadersFault (R.is_failing input.new) (R.calls input.new) }
{
    let mut gathered = gathered;
    let count = gathered.announced;
    match gather(&mut gathered, count, lines, input, output) {
        Gathering::Full(ended) => {
            let front = front.with_bad_entry(gathered.bad_entry);
            let written = give(&load_reply(store, gathered), output);
            step_of(written, front, count.saturating_add(1), ended)
        }
        Gathering::Short => {
            let front = front.with_bad_entry(gathered.bad_entry);
            step_of(give(&bad_reply::<A>(), output), front, count, true)
        }
        Gathering::Broken(end) => Stepped::End(end),
    }
}

// The reply to a load of what was gathered.
fn load_reply<D: BlockDevice, A: Allocator + Copy>(
    store: &mut Store<D, A>,
    gathered: Gathered<A>,
) -> Reply<A>
    ensures { (layer : List ℕ) (entries : List (List ℕ)) → IsGathered gathered layer entries →
        IsAsked store.old (load_request layer (objects_in entries)) (reply_answer result) store.new }
{
    if gathered.bad_entry.is_some() {
        return bad_reply();
    }
    if !gathered.room {
        return Reply::Refused(store.out_of_memory());
    }
    let objects = gathered.objects;
    change_reply(store.load_owned(gathered.layer.as_slice(), objects))
}

// The reply to a bad line.
fn bad_reply<A: Allocator>() -> Reply<A>
    ensures { reply_answer result ≡ Refused refusal.BadLine }
{
    Reply::Refused(Refusal::BadLine)
}

// Answers the last line, which has no newline. One that begins a load lacks its entry lines, unless it has
// none.
fn answer_last<D: BlockDevice, A: Allocator + Copy, W: Write>(
    store: &mut Store<D, A>,
    line: Line<'_>,
    output: &mut W,
) -> io::Result<Option<Refusal>>
    ensures { (text : List ℕ) → said line.entry ≡ meaning_of text →
        AnswersLast text (TellsCalls result (Calls store.old store.new))
        (W.contents output.old) (W.contents output.new) result }
{
    if let Line::Load { layer, count } = line {
        let reply = last_load_reply(store, layer, count);
        return give(&reply, output);
    }
    answer(store, line, output)
}

// The reply to a load whose first line is the last of the text.
fn last_load_reply<D: BlockDevice, A: Allocator + Copy>(
    store: &mut Store<D, A>,
    layer: &[u8],
    count: u64,
) -> Reply<A>
    ensures { (line : List ℕ) → meaning_of line ≡ Loads layer.now count →
        RepliesLast line (λ r a. IsAsked store.old r a store.new) (reply_answer result) }
{
    if count > 0 {
        return bad_reply();
    }
    let gathered = Gathered::new(store.alloc(), layer, count);
    load_reply(store, gathered)
}

// The step that an answer to so many lines is, of which the first begins so. The text may have ended after
// them.
fn step_of(
    written: io::Result<Option<Refusal>>,
    front: LineFront,
    lines: u64,
    ended: bool,
) -> Stepped
    ensures { MatchResult written (λ refusal. result ≡ step_of ended lines front refusal)
        (λ _. result ≡ Stepped.End RunEnd.WriteFault) }
{
    match written {
        Ok(refusal) => {
            let refused = match refusal {
                None => None,
                Some(refusal) => Some(RefusedLine { refusal, front }),
            };
            if ended {
                Stepped::Last(refused)
            } else {
                Stepped::On(lines, refused)
            }
        }
        Err(_) => Stepped::End(RunEnd::WriteFault),
    }
}

// Answers a line: makes the call of the store that it asks for, and writes the reply, if it has one. It tells
// the refusal that the reply is, if it is one.
fn answer<D: BlockDevice, A: Allocator + Copy, W: Write>(
    store: &mut Store<D, A>,
    line: Line<'_>,
    output: &mut W,
) -> io::Result<Option<Refusal>>
    requires { IsPlain (said line) }
    ensures { AnswersLine (said line.entry) (TellsCalls result (Calls store.old store.new))
        (W.contents output.old) (W.contents output.new) result }
{
    if let Line::Layers = line {
        return give_layers(store.layers(), output);
    }
    match reply_to(store, line) {
        None => Ok(None),
        Some(reply) => give(&reply, output),
    }
}

// Writes what the outcome of a listing is answered, and tells the refusal that it is, if it is one.
fn give_layers<W: Write>(
    outcome: Result<ArrayVec<LayerInfo, MOST_LAYERS>, Refusal>,
    output: &mut W,
) -> io::Result<Option<Refusal>>
    ensures written { Writes (W.contents output.old) (W.contents output.new) result
        (answer_text (layers_answer outcome)) }
    ensures tells { TellsRefusal result (layers_answer outcome ∷ []) }
{
    match outcome {
        Ok(layers) => match write_layers(layers.as_slice(), output) {
            Ok(()) => Ok(None),
            Err(error) => Err(error),
        },
        Err(refusal) => give(&Reply::<Global>::Refused(refusal), output),
    }
}

// Writes a reply, and tells the refusal that it is, if it is one.
fn give<A: Allocator, W: Write>(reply: &Reply<A>, output: &mut W) -> io::Result<Option<Refusal>>
    ensures written { Writes (W.contents output.old) (W.contents output.new) result
        (answer_text (reply_answer reply.now)) }
    ensures tells { TellsRefusal result (reply_answer reply.now ∷ []) }
{
    match write_reply(reply, output) {
        Ok(()) => Ok(refusal_in(reply)),
        Err(error) => Err(error),
    }
}

// The refusal that a reply is, if it is one.
fn refusal_in<A: Allocator>(reply: &Reply<A>) -> Option<Refusal>
    ensures { IsRefusalIn result (reply_answer reply.now) }
{
    match reply {
        Reply::Refused(refusal) => Some(*refusal),
        _ => None,
    }
}

// The reply to a line, if it has one. A listing of the layers has none here.
fn reply_to<D: BlockDevice, A: Allocator + Copy>(
    store: &mut Store<D, A>,
    line: Line<'_>,
) -> Option<Reply<A>>
    requires plain { IsPlain (said line) }
    requires unlisted { said line ≢ Means Layers }
    ensures replies { Replies (said line.entry) (Calls store.old store.new) (reply_answers result) }
    ensures checked { D.honest (device_in store.old) →
        SaysChecked (said line.entry) store.old store.new (reply_answers result) }
{
    match line {
        Line::Blank => None,
        Line::Bad => Some(Reply::Refused(Refusal::BadLine)),
        Line::Create {
            layer,
            dims,
            fanout,
        } => Some(change_reply(store.create(layer, dims, fanout))),
        Line::Insert {
            layer,
            id,
            bounds,
            tag,
        } => Some(change_reply(store.insert(layer, id, bounds, tag))),
        // a load is not answered here, since it takes further lines with it
        Line::Load { .. } => None,
        Line::Move { layer, id, bounds } => Some(change_reply(store.move_object(
            layer, id, bounds,
        ))),
        Line::Delete { layer, id } => Some(change_reply(store.delete(layer, id))),
        Line::Drop { layer } => Some(change_reply(store.drop_layer(layer))),
        Line::Get { layer, id } => Some(object_reply(id, store.get(layer, id))),
        Line::Count { layer } => Some(count_reply(store.count(layer))),
        Line::Range { layer, query, tag } => Some(range_reply(store.range(layer, query, tag))),
        Line::Nearest { layer, k, point } => Some(distances_reply(store.nearest(layer, k, point))),
        Line::Join {
            first,
            second,
            within,
        } => Some(pairs_reply(store.join(first, second, within))),
        Line::Layers => None,
        Line::Dump => Some(dump_reply(store.dump())),
        Line::Check => Some(change_reply(store.check())),
        Line::Reopen => Some(change_reply(store.reopen())),
    }
}

// The reply that the outcome of a change is.
fn change_reply<A: Allocator>(outcome: Result<(), Refusal>) -> Reply<A>
    ensures { reply_answer result ≡ done_answer outcome }
{
    match outcome {
        Ok(()) => Reply::Done,
        Err(refusal) => Reply::Refused(refusal),
    }
}

// The reply that the outcome of getting an object is.
fn object_reply<A: Allocator>(id: u64, outcome: Result<(AnyBox, u32), Refusal>) -> Reply<A>
    ensures { reply_answer result ≡ object_answer id outcome }
{
    match outcome {
        Ok((bounds, tag)) => Reply::Object(id, bounds, tag),
        Err(refusal) => Reply::Refused(refusal),
    }
}

// The reply that the outcome of a count is.
fn count_reply<A: Allocator>(outcome: Result<u64, Refusal>) -> Reply<A>
    ensures { reply_answer result ≡ count_answer outcome }
{
    match outcome {
        Ok(count) => Reply::Count(count),
        Err(refusal) => Reply::Refused(refusal),
    }
}

// The reply that the outcome of a range query is.
fn range_reply<A: Allocator>(outcome: Result<Vec<(u64, AnyBox, u32), A>, Refusal>) -> Reply<A>
    ensures { reply_answer result ≡ boxes_answer outcome }
{
    match outcome {
        Ok(rows) => Reply::Boxes(rows),
        Err(refusal) => Reply::Refused(refusal),
    }
}

// The reply that the outcome of a search for the nearest objects is.
fn distances_reply<A: Allocator>(outcome: Result<Vec<(u64, u128), A>, Refusal>) -> Reply<A>
    ensures { reply_answer result ≡ distances_answer outcome }
{
    match outcome {
        Ok(rows) => Reply::Distances(rows),
        Err(refusal) => Reply::Refused(refusal),
    }
}

// The reply that the outcome of a join is.
fn pairs_reply<A: Allocator>(outcome: Result<Vec<(u64, u64), A>, Refusal>) -> Reply<A>
    ensures { reply_answer result ≡ pairs_answer outcome }
{
    match outcome {
        Ok(pairs) => Reply::Pairs(pairs),
        Err(refusal) => Reply::Refused(refusal),
    }
}

// The reply that the outcome of a dump is.
fn dump_reply<A: Allocator>(outcome: Result<Vec<DumpRow, A>, Refusal>) -> Reply<A>
    ensures { reply_answer result ≡ dump_answer outcome }
{
    match outcome {
        Ok(rows) => Reply::Dump(rows),
        Err(refusal) => Reply::Refused(refusal),
    }
}
