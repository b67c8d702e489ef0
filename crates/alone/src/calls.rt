//! `run_alone` and `check`: they read all input before the first step, and take all steps before
//! they write anything.

ghost use Rattle.std.specs.Prelude.{◌≡◌, ◌≢◌, ℕ, List, Some, false, IfErr, OnOk};
ghost use Rattle.alone.specs.Bytes.{IsRead};
ghost use Rattle.alone.specs.Reports.{reports, tally, Calls, Ends, IsOwnFault, reader_failed, writer_failed};
ghost use Rattle.alone.specs.Within.{IsUnlimited, done_of, leaves};

use crate::ends::{Inlet, Outlet, flush_all, write_all};
use crate::fault::RunFault;
use crate::input::read_text;
use crate::limits::{Format, Limits, Stop};
use crate::progress::{Progress, Silent};
use crate::whole::check_of;
use crate::within::{Made, run_alone_within};
use std::alloc::Global;

/// Returns the fault, if any, of a call that has no limits.
pub fn unlimited_outcome(outcome: Result<Made, Stop>) -> Result<(), RunFault>
    requires { IsUnlimited (done_of outcome) }
    ensures { result ≡ leaves (done_of outcome) }
{
    match outcome {
        Ok(_) => Ok(()),
        Err(Stop::Fault(fault)) => Err(fault),
        Err(Stop::Steps { .. } | Stop::Output(_)) => unreachable!(),
    }
}

// Writes the numbers of experiments and commands in the scenario that a text spells.
#[tactic(auto, using(crate::proofs::Stopping::text_calls, crate::proofs::Stopping::text_fault_unread, crate::proofs::Stopping::text_fault_own, crate::proofs::Endings::written, crate::proofs::Endings::cut, crate::proofs::Endings::cut_after))]
fn write_tally<W: Outlet>(alloc: Global, text: &[u8], writer: &mut W) -> Result<(), RunFault>
    ensures calls { Calls tally (Some text.now) (W.contents writer.old) (W.contents writer.new) result }
    ensures own { IfErr result IsOwnFault }
    ensures unread { reader_failed result ≡ false }
    ensures failed { W.failed writer.new ≡ writer_failed (W.failed writer.old) result }
    ensures untouched { IfErr result (λ e. e ≢ RunFault.Write → writer.new ≡ writer.old) }
{
    let tally = check_of(alloc, text)?;
    let Ok(line) = tally.line(alloc) else {
        return Err(RunFault::Memory);
    };
    let Ok(()) = write_all(writer, line.as_slice()) else {
        return Err(RunFault::Write);
    };
    let Ok(()) = flush_all(writer) else {
        return Err(RunFault::Write);
    };
    Ok(())
}

/// Reads a scenario, runs each of its experiments by itself, and then writes their reports in the
/// order of the scenario. A `Scenario` fault is the fault of the text. The fault is `Read` exactly
/// if the reader failed, and `Write` exactly if the writer failed. After `Write` a prefix of the
/// reports has been written; after any other fault nothing has been written.
pub fn run_alone<R: Inlet, W: Outlet>(
    alloc: Global,
    reader: &mut R,
    writer: &mut W,
) -> Result<(), RunFault>
    ensures calls { Calls reports (R.remaining reader.old) (W.contents writer.old)
        (W.contents writer.new) result }
    ensures ends { Ends result (R.remaining reader.old) (R.remaining reader.new)
        (R.failed reader.new) (W.failed writer.old) (W.failed writer.new) writer.old writer.new }
    ensures own { IfErr result IsOwnFault }
{
    run_alone_with_progress(alloc, reader, writer, &Silent)
}

/// Runs like `run_alone`, and reports its progress to `progress`.
#[tactic(auto, using(crate::proofs::Stopping::unlimited_calls, crate::proofs::Stopping::calls_same, crate::proofs::Stopping::own_same))]
pub fn run_alone_with_progress<R: Inlet, W: Outlet, P: Progress>(
    alloc: Global,
    reader: &mut R,
    writer: &mut W,
    progress: &P,
) -> Result<(), RunFault>
    ensures calls { Calls reports (R.remaining reader.old) (W.contents writer.old)
        (W.contents writer.new) result }
    ensures ends { Ends result (R.remaining reader.old) (R.remaining reader.new)
        (R.failed reader.new) (W.failed writer.old) (W.failed writer.new) writer.old writer.new }
    ensures own { IfErr result IsOwnFault }
{
    let limits = Limits::none();
    let mut text = Vec::new(alloc);
    let outcome = run_alone_within(
        alloc,
        reader,
        writer,
        &mut text,
        Format::Text,
        &limits,
        progress,
    );
    unlimited_outcome(outcome)
}

/// Reads a scenario and writes `ok` and the numbers of its experiments and commands. The faults are
/// those of `run_alone`.
pub fn check<R: Inlet, W: Outlet>(
    alloc: Global,
    reader: &mut R,
    writer: &mut W,
) -> Result<(), RunFault>
    ensures calls { Calls tally (R.remaining reader.old) (W.contents writer.old)
        (W.contents writer.new) result }
    ensures ends { Ends result (R.remaining reader.old) (R.remaining reader.new)
        (R.failed reader.new) (W.failed writer.old) (W.failed writer.new) writer.old writer.new }
    ensures own { IfErr result IsOwnFault }
{
    let mut text = Vec::new(alloc);
    check_kept(alloc, reader, writer, &mut text)
}

/// Runs like `check`, and leaves the text that it read in `text`, unless the reader failed or
/// memory ran out. `on_text` is about this text, and `given` is about the bytes that the calls of
/// the reader returned.
#[tactic(auto, using(crate::proofs::Stopping::input_calls, crate::proofs::Stopping::input_own_fault, crate::proofs::Stopping::read_calls_of))]
pub fn check_kept<R: Inlet, W: Outlet>(
    alloc: Global,
    reader: &mut R,
    writer: &mut W,
    text: &mut Vec<u8>,
) -> Result<(), RunFault>
    ensures calls { Calls tally (R.remaining reader.old) (W.contents writer.old)
        (W.contents writer.new) result }
    ensures on_text { Calls tally (Some text.new.items) (W.contents writer.old)
        (W.contents writer.new) result }
    ensures given { (bytes : List ℕ) × R.gives reader.old bytes reader.new
        × Calls tally (Some bytes) (W.contents writer.old) (W.contents writer.new) result }
    ensures ends { Ends result (R.remaining reader.old) (R.remaining reader.new)
        (R.failed reader.new) (W.failed writer.old) (W.failed writer.new) writer.old writer.new }
    ensures own { IfErr result IsOwnFault }
    ensures text { OnOk result (IsRead (R.remaining reader.old) (R.remaining reader.new)
        text.new.items) }
    ensures kept { IfErr result (λ e. e ≢ RunFault.Read → e ≢ RunFault.Memory →
        IsRead (R.remaining reader.old) (R.remaining reader.new) text.new.items) }
{
    *text = read_text(alloc, reader)?;
    write_tally(alloc, text.as_slice(), writer)
}
