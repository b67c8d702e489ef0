//! `live`: it answers each line of a session before it reads more.

ghost use Rattle.std.specs.Prelude.{◌≡◌, ◌-◌, ◌++◌, ◌∷◌, [], ℕ, Bool, List, Some, Ok, Err, false, flat_map, is_err, length, take, true, OnOk, OnErr, IfErr};
ghost use Rattle.std.specs.List.{AllByRecursion};
ghost use Rattle.std.specs.Io.KnownBytes.{Appends, Consumes};
ghost use Rattle.control.specs.Scenario.{Spells};
ghost use Rattle.control.specs.declared.scenario.Experiment.{Experiment as Script};
ghost use Rattle.control_words.specs.Text.{lines};
ghost use Rattle.session.specs.Sessions.{Piece, IsPlain, told, written};
ghost use Rattle.session.specs.Tracing.{run_all_as};
ghost use Rattle.alone.specs.Bytes.{IsCut, Puts};
ghost use Rattle.alone.specs.Conversations.{Converses, Leaves, next_line, seen_of};
ghost use Rattle.alone.specs.Reports.{reports, writer_failed, IsOwnFault};
ghost use Rattle.alone.specs.Talks.{AsksForAll, GoesOn, IsEnding, IsHalfHeard, IsReplied, counted, refusal};

use crate::ends::{Inlet, Outlet, flush_all, read_some, write_all};
use crate::fault::RunFault;
use crate::hints::Hints;
use control::{Cause, Fault};
use control_words::first_line;
use session::{Answer, MAX_LINE, Session, put_answer, put_comment};
use std::alloc::Global;
use std::marker::Model;

/// The number of bytes that shows that a line is too long.
const LONG: usize = MAX_LINE + 1;

/// The number of bytes that are read at a time, and the number of buffered bytes above which
/// answers are written.
const CHUNK: usize = 65_536;

/// A session over bytes: its experiments, the received part of an incomplete line, and the answers
/// that aren't written yet.
#[derive(Drop)]
struct Talk {
    alloc: Global,
    session: Session,
    part: Vec<u8>,
    out: Vec<u8>,
    // The number of complete lines.
    lines: u64,
    // True if the incomplete line was already answered as too long.
    is_skipping: bool,
}

impl Model for Talk {
    ghost use Rattle.alone.specs.Talks.{KeptTalk};

    ghost Value = { KeptTalk };

    ghost view = { λ t. record {
      session = t.session;
      part = t.part.items;
      out = t.out.items;
      is_skipping = t.is_skipping;
      lines = t.lines;
    } };
}

// Returns the bytes of a line that a hint may see: for a line that is too long, only enough to show
// that, since no more of it is kept.
#[tactic(auto, using(std::proofs::lemmas::List::take_min))]
fn seen_of(line: &[u8], cause: Cause) -> &[u8]
    ensures { result.now ≡ seen_of line.now cause }
{
    match cause {
        Cause::TooLong => &line[..LONG.min(line.len())],
        _ => line,
    }
}

// Rejects a line, with the hint for it in front of the answer. It is not inlined because it is
// rare, which keeps the frames of its callers small.
#[inline(never)]
fn refuse<H: Hints>(
    alloc: Global,
    hints: &H,
    line: &[u8],
    cause: Cause,
    out: &mut Vec<u8>,
) -> Result<(), RunFault>
    ensures memory { OnErr result (result ≡ Err RunFault.Memory) }
    ensures says { OnOk result ((hint : List ℕ) × H.may_say hints.now line.now cause hint
        × (out.new.items ≡ out.old.items ++ flat_map written (refusal hint cause))) }
{
    let Ok(text) = hints.hint(alloc, line, cause) else {
        return Err(RunFault::Memory);
    };
    let Ok(()) = put_comment(out, text.as_slice()) else {
        return Err(RunFault::Memory);
    };
    let Ok(()) = put_answer(out, Answer::Fault(cause)) else {
        return Err(RunFault::Memory);
    };
    Ok(())
}

// Passes a line to the session and writes the answer.
fn answer_line<H: Hints>(
    alloc: Global,
    session: &mut Session,
    hints: &H,
    line: &[u8],
    out: &mut Vec<u8>,
) -> Result<(), RunFault>
    ensures memory { OnErr result (result ≡ Err RunFault.Memory) }
    ensures replies { OnOk result ((qs : List Piece)
        × (out.new.items ≡ out.old.items ++ flat_map written qs)
        × IsReplied (H.may_say hints.now) line.now qs session.old session.new) }
{
    let Ok(fault) = session.take(line, out) else {
        return Err(RunFault::Memory);
    };
    match fault {
        None => Ok(()),
        Some(cause) => refuse(alloc, hints, seen_of(line, cause), cause, out),
    }
}

impl Talk {
    fn new(alloc: Global, steps: Option<u64>) -> Self
        ensures { result ≡ record {
          session = record { opened = []; current = 0; left = steps; traces = false };
          part = [];
          out = [];
          is_skipping = false;
          lines = 0;
        } }
    {
        Talk {
            alloc,
            session: Session::new(alloc, steps),
            part: Vec::new(alloc),
            out: Vec::new(alloc),
            lines: 0,
            is_skipping: false,
        }
    }

    // Writes the buffered answers, and keeps the allocation.
    fn hand_on<W: Outlet>(&mut self, writer: &mut W) -> Result<(), RunFault>
        ensures write { OnErr result (result ≡ Err RunFault.Write) }
        ensures puts { OnOk result
            (Puts (W.contents writer.old) self.old.out (W.contents writer.new) [] []) }
        ensures cut { OnErr result
            (IsCut (W.contents writer.old) (W.contents writer.new) self.old.out) }
        ensures same { OnOk result (self.new ≡ record self.old { out = [] }) }
        ensures failed { W.failed writer.old ≡ false → W.failed writer.new ≡ is_err result }
    {
        let Ok(()) = write_all(writer, self.out.as_slice()) else {
            return Err(RunFault::Write);
        };
        self.out.clear();
        Ok(())
    }

    // Passes the line that arrived in parts to the session.
    fn answer_part<H: Hints>(&mut self, hints: &H) -> Result<(), RunFault>
        ensures memory { OnErr result (result ≡ Err RunFault.Memory) }
        ensures replies { OnOk result ((qs : List Piece)
            × (self.new.out ≡ self.old.out ++ flat_map written qs)
            × IsReplied (H.may_say hints.now) self.old.part qs self.old.session self.new.session) }
        ensures part { OnOk result (self.new.part ≡ []) }
        ensures same { OnOk result ((self.new.is_skipping ≡ self.old.is_skipping)
            × (self.new.lines ≡ self.old.lines)) }
    {
        let line = self.part.as_slice();
        answer_line(self.alloc, &mut self.session, hints, line, &mut self.out)?;
        self.part.clear();
        Ok(())
    }

    // Passes a line to the session.
    fn answer<H: Hints>(&mut self, hints: &H, line: &[u8]) -> Result<(), RunFault>
        ensures memory { OnErr result (result ≡ Err RunFault.Memory) }
        ensures replies { OnOk result ((qs : List Piece)
            × (self.new.out ≡ self.old.out ++ flat_map written qs)
            × IsReplied (H.may_say hints.now) line.now qs self.old.session self.new.session) }
        ensures same { OnOk result ((self.new.part ≡ self.old.part)
            × (self.new.is_skipping ≡ self.old.is_skipping)
            × (self.new.lines ≡ self.old.lines)) }
    {
        answer_line(self.alloc, &mut self.session, hints, line, &mut self.out)
    }

    // Rejects the line, which these bytes make too long, and discards it.
    fn refuse_long<H: Hints>(&mut self, hints: &H, bytes: &[u8]) -> Result<(), RunFault>
        ensures memory { OnErr result (result ≡ Err RunFault.Memory) }
        ensures says { OnOk result ((hint : List ℕ) × H.may_say hints.now
            (self.old.part ++ take (513 - length self.old.part) bytes.now) Cause.TooLong hint
            × (self.new.out ≡ self.old.out ++ flat_map written (refusal hint Cause.TooLong))) }
        ensures same { OnOk result (self.new
            ≡ record self.old { part = []; out = self.new.out; is_skipping = true }) }
    {
        let room = LONG.saturating_sub(self.part.len()).min(bytes.len());
        let Ok(()) = self.part.extend_from_slice(&bytes[..room]) else {
            return Err(RunFault::Memory);
        };
        let seen = self.part.as_slice();
        refuse(self.alloc, hints, seen, Cause::TooLong, &mut self.out)?;
        self.part.clear();
        self.is_skipping = true;
        Ok(())
    }

    // Appends bytes to the incomplete line. A line that becomes too long is answered at once, and
    // is not kept.
    fn add<H: Hints>(&mut self, hints: &H, bytes: &[u8]) -> Result<(), RunFault>
        requires { lines bytes.now ≡ bytes.now ∷ [] }
        ensures memory { OnErr result (result ≡ Err RunFault.Memory) }
        ensures hears { OnOk result ((qs : List Piece)
            × (self.new.out ≡ self.old.out ++ flat_map written qs)
            × GoesOn (H.may_say hints.now) bytes.now qs self.old self.new) }
    {
        if self.is_skipping {
            return Ok(());
        }
        if self.part.len().saturating_add(bytes.len()) > MAX_LINE {
            return self.refuse_long(hints, bytes);
        }
        let Ok(()) = self.part.extend_from_slice(bytes) else {
            return Err(RunFault::Memory);
        };
        Ok(())
    }

    // Completes a line of which a part was already received.
    fn end_part<H: Hints>(&mut self, hints: &H, rest: &[u8]) -> Result<(), RunFault>
        requires { lines rest.now ≡ rest.now ∷ [] }
        ensures memory { OnErr result (result ≡ Err RunFault.Memory) }
        ensures hears { OnOk result ((qs : List Piece)
            × (self.new.out ≡ self.old.out ++ flat_map written qs)
            × GoesOn (H.may_say hints.now) (rest.now ++ 10 ∷ []) qs self.old (counted self.new)) }
    {
        self.add(hints, rest)?;
        if self.is_skipping {
            self.is_skipping = false;
            return Ok(());
        }
        self.answer_part(hints)
    }

    // Completes a line without counting it.
    fn end_uncounted<H: Hints>(&mut self, hints: &H, rest: &[u8]) -> Result<(), RunFault>
        requires { lines rest.now ≡ rest.now ∷ [] }
        ensures memory { OnErr result (result ≡ Err RunFault.Memory) }
        ensures hears { OnOk result ((qs : List Piece)
            × (self.new.out ≡ self.old.out ++ flat_map written qs)
            × GoesOn (H.may_say hints.now) (rest.now ++ 10 ∷ []) qs self.old (counted self.new)) }
    {
        if self.part.is_empty() && !self.is_skipping {
            return self.answer(hints, rest);
        }
        self.end_part(hints, rest)
    }

    // Completes a line and counts it.
    fn end_line<H: Hints>(&mut self, hints: &H, rest: &[u8]) -> Result<(), RunFault>
        requires { lines rest.now ≡ rest.now ∷ [] }
        ensures memory { OnErr result (result ≡ Err RunFault.Memory) }
        ensures hears { OnOk result ((qs : List Piece)
            × (self.new.out ≡ self.old.out ++ flat_map written qs)
            × GoesOn (H.may_say hints.now) (rest.now ++ 10 ∷ []) qs self.old self.new) }
    {
        self.end_uncounted(hints, rest)?;
        self.lines = self.lines.saturating_add(1);
        Ok(())
    }

    // Processes bytes that were read, and answers each line that they complete.
    fn take<W: Outlet, H: Hints>(
        &mut self,
        writer: &mut W,
        hints: &H,
        bytes: &[u8],
    ) -> Result<(), RunFault>
        ensures hears { OnOk result ((qs : List Piece)
            × Puts (W.contents writer.old) self.old.out (W.contents writer.new) self.new.out
            (flat_map written qs)
            × GoesOn (H.may_say hints.now) bytes.now qs self.old self.new) }
        ensures stops { IfErr result (IsHalfHeard (H.may_say hints.now) bytes.now self.old
            (W.contents writer.old) (W.contents writer.new)) }
        ensures failed { W.failed writer.old ≡ false → W.failed writer.new ≡ writer_failed false result }
    {
        let mut rest = bytes;
        while let Some((line, after)) = first_line(rest) {
            self.end_line(hints, line)?;
            if self.out.len() > CHUNK {
                self.hand_on(writer)?;
            }
            rest = after;
        }
        self.add(hints, rest)
    }

    // Returns the result of a session whose input ends here: a fault if the last line is incomplete
    // or an experiment has no end.
    fn end(&self) -> Result<(), RunFault>
        ensures { IsEnding self.now result }
    {
        let line = self.lines.saturating_add(1);
        if !self.part.is_empty() || self.is_skipping {
            let cause = Cause::Cut;
            return Err(RunFault::Scenario(Fault { line, cause }));
        }
        if !self.session.is_whole() {
            let cause = Cause::NoEnd;
            return Err(RunFault::Scenario(Fault { line, cause }));
        }
        Ok(())
    }
}

/// Runs a session: reads the lines of a scenario, with requests among them, as they arrive, and
/// answers each line before it reads more. The lines of `hints`, each after `# `, precede the
/// answer to a rejected line.
/// The clause `converses` is about the text that the calls of `reader` returned, whether or not a
/// contract can name the bytes that the reader has. `Ok` and `Scenario` occur only at the end of
/// that text, and then the whole conversation has been written. `Scenario` is the fault of the line
/// after the last line feed: the line is cut, or an experiment has no end. `Read` means that the
/// reader failed; the conversation for what it returned has been written. `Write` means that the
/// writer failed, and `Memory` that an allocation failed; a prefix of the conversation has been
/// written.
/// If the text spells a scenario (in which requests are comments), no answer is a fault, and the
/// text contains neither `use` nor `show mine`, then the output is that of `run_alone` for the
/// text, with lines that begin with `#` in between. It is that with all packets traced if the first
/// line is `trace on` and there is no `trace off`, and untraced if there is no `trace on`.
/// The experiments may take at most `steps` steps together, if there is a limit: a line that begins
/// one beyond it is rejected with the fault `TooMany`.
pub fn live<R: Inlet, W: Outlet, H: Hints>(
    alloc: Global,
    reader: &mut R,
    writer: &mut W,
    hints: &H,
    steps: Option<u64>,
) -> Result<(), RunFault>
    ensures own { IfErr result IsOwnFault }
    ensures converses { (text : List ℕ) × R.gives reader.old text reader.new
        × Consumes (R.remaining reader.old) (R.remaining reader.new) text
        × Converses (H.may_say hints.now) steps text (W.contents writer.old) (W.contents writer.new) result
        × Leaves text (R.remaining reader.new) (R.failed reader.new) result }
    ensures failed { W.failed writer.old ≡ false → W.failed writer.new ≡ writer_failed false result }
    ensures tells { (text : List ℕ) → R.remaining reader.old ≡ Some text → result ≡ Ok tt →
        (ps : List Piece) × Appends (W.contents writer.old) (W.contents writer.new)
        (flat_map written ps)
        × ((es : List Script) (on : Bool) → Spells text es → AsksForAll on (lines text) →
        AllByRecursion IsPlain ps → flat_map told ps ≡ reports (run_all_as on es)) }
{
    let mut talk = Talk::new(alloc, steps);
    let mut chunk = [0u8; CHUNK];
    for reads in 0..u64::MAX {
        let Ok(count) = read_some(reader, &mut chunk) else {
            return Err(RunFault::Read);
        };
        if count == 0 {
            return talk.end();
        }
        talk.take(writer, hints, &chunk[..count])?;
        talk.hand_on(writer)?;
        let Ok(()) = flush_all(writer) else {
            return Err(RunFault::Write);
        };
    }
    // Nobody lives to see this many reads.
    Err(RunFault::Read)
}
