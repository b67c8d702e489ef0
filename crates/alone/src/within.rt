//! `run_alone` with limits: it reads all input before the first step, takes all steps before it
//! writes anything, and stops before the steps or before the output if a scenario exceeds the
//! limit.

ghost use Rattle.std.specs.Prelude.{◌≡◌, ◌≢◌, ℕ, List, Some, false, IfOk, IfErr, OnOk};
ghost use Rattle.alone.specs.declared.limits.Stop.TheVariants as stops;
ghost use Rattle.experiment.specs.Written.{npy_of, texts_of};
ghost use Rattle.alone.specs.Bytes.{IsRead};
ghost use Rattle.alone.specs.Reports.{Ends, bytes_as, output_as, reader_failed, writer_failed};
ghost use Rattle.alone.specs.Within.{CallsWithin, IsMade, IsOwnStop, MakesWithin, StopsUnwritten, WritesOut, done_of, leaves};

use crate::alone::run_all;
use crate::ends::{Inlet, Outlet};
use crate::fault::RunFault;
use crate::input::read_text;
use crate::limits::{Format, Limits, Stop};
use crate::output::{Buffer, npy_rooms};
use crate::progress::Progress;
use crate::whole::scenario_of;
use control::Scenario;
use experiment::Report;
use std::alloc::Global;

/// The result of a call: the scenario that it ran, which is the one that it read or the same with
/// all packets traced, and the reports of its experiments, in the same order.
#[derive(Drop)]
pub struct Made {
    pub scenario: Scenario,
    pub reports: Vec<Report>,
}

/// Runs each experiment of a text by itself and returns the scenario and the reports. Returns
/// `Steps` before the first step if the steps exceed their limit, and `Output` if the output in the
/// given format does.
/// If the text spells no scenario, the fault is `Scenario` with the first fault of the text.
#[tactic(auto, using(crate::proofs::Stopping::text_stop, crate::proofs::Stopping::text_own, crate::proofs::Stopping::text_unread, crate::proofs::Stopping::steps_stop, crate::proofs::Stopping::steps_own, crate::proofs::Stopping::steps_unread, crate::proofs::Stopping::output_stop, crate::proofs::Stopping::output_own, crate::proofs::Stopping::output_unread, crate::proofs::Stopping::made_within))]
pub fn made_of<P: Progress>(
    alloc: Global,
    text: &[u8],
    format: Format,
    limits: &Limits,
    progress: &P,
) -> Result<Made, Stop>
    ensures within { IfOk result (λ m. MakesWithin limits.now (output_as format) (Some text.now)
        (bytes_as format m.reports.items)) }
    ensures made { IfOk result (IsMade format (Some text.now)) }
    ensures stop { IfErr result (StopsUnwritten limits.now (output_as format) (Some text.now)) }
    ensures own { IfErr result IsOwnStop }
    ensures unread { reader_failed (leaves result) ≡ false }
{
    let spelled = match scenario_of(alloc, text) {
        Ok(scenario) => scenario,
        Err(fault) => return Err(Stop::Fault(fault)),
    };
    limits.check_steps(spelled.experiments())?;
    let scenario = format.scenario(spelled);
    let Ok(reports) = run_all(alloc, scenario.experiments(), progress) else {
        return Err(Stop::Fault(RunFault::Memory));
    };
    limits.check_reports(alloc, format, reports.as_slice())?;
    Ok(Made { scenario, reports })
}

// Writes the lines of reports, one report after the other.
fn write_text<W: Outlet>(alloc: Global, writer: &mut W, reports: &[Report]) -> Result<(), Stop>
    ensures written { WritesOut (W.contents writer.old) (W.contents writer.new)
        (texts_of reports.now) result }
    ensures failed { W.failed writer.new ≡ writer_failed (W.failed writer.old) (leaves result) }
    ensures untouched { IfErr result (λ s. s ≢ stops.Fault RunFault.Write →
        writer.new ≡ writer.old) }
{
    let Ok(mut buffer) = Buffer::new(alloc) else {
        return Err(Stop::Fault(RunFault::Memory));
    };
    let Ok(()) = buffer.put_reports(writer, reports) else {
        return Err(Stop::Fault(RunFault::Write));
    };
    let Ok(()) = buffer.finish(writer) else {
        return Err(Stop::Fault(RunFault::Write));
    };
    Ok(())
}

// Writes the rows of reports, after the header that names their columns.
fn write_npy<W: Outlet>(alloc: Global, writer: &mut W, reports: &[Report]) -> Result<(), Stop>
    ensures written { WritesOut (W.contents writer.old) (W.contents writer.new)
        (npy_of reports.now) result }
    ensures failed { W.failed writer.new ≡ writer_failed (W.failed writer.old) (leaves result) }
    ensures untouched { IfErr result (λ s. s ≢ stops.Fault RunFault.Write →
        writer.new ≡ writer.old) }
{
    let Ok((mut buffer, header, mut page)) = npy_rooms(alloc, reports) else {
        return Err(Stop::Fault(RunFault::Memory));
    };
    let Ok(()) = buffer.put_npy(writer, header.as_slice(), &mut page, reports) else {
        return Err(Stop::Fault(RunFault::Write));
    };
    let Ok(()) = buffer.finish(writer) else {
        return Err(Stop::Fault(RunFault::Write));
    };
    Ok(())
}

/// Writes the output for reports through a buffer that is allocated before the first byte is
/// written. The fault is `Write` if the writer failed, after a prefix of the output was written,
/// and `Memory` if an allocation failed before anything was written.
pub fn write_reports<W: Outlet>(
    alloc: Global,
    writer: &mut W,
    format: Format,
    reports: &[Report],
) -> Result<(), Stop>
    ensures written { WritesOut (W.contents writer.old) (W.contents writer.new)
        (bytes_as format reports.now) result }
    ensures failed { W.failed writer.new ≡ writer_failed (W.failed writer.old) (leaves result) }
    ensures untouched { IfErr result (λ s. s ≢ stops.Fault RunFault.Write →
        writer.new ≡ writer.old) }
{
    match format {
        Format::Text | Format::TracedText => write_text(alloc, writer, reports),
        Format::Npy => write_npy(alloc, writer, reports),
    }
}

/// Runs like `run_alone_with_progress`, with limits, and writes in the given format. Returns `Steps` before the first step, or `Output`
/// before the first byte, exactly if the scenario exceeds that limit. The faults are those of
/// `run_alone`. `text` becomes the text that was read, unless the reader failed or memory ran out.
/// `on_text` and `made` are about this text. `given` is about the bytes that the calls of the
/// reader returned, for every reader, whether or not a contract can name the bytes that it has.
/// Returns what it ran and wrote.
#[tactic(auto, using(crate::proofs::Stopping::read_calls, crate::proofs::Stopping::stop_calls, crate::proofs::Stopping::out_calls, crate::proofs::Stopping::stop_calls_read, crate::proofs::Stopping::out_calls_read, crate::proofs::Stopping::input_own, crate::proofs::Endings::out_own))]
pub fn run_alone_within<R: Inlet, W: Outlet, P: Progress>(
    alloc: Global,
    reader: &mut R,
    writer: &mut W,
    text: &mut Vec<u8>,
    format: Format,
    limits: &Limits,
    progress: &P,
) -> Result<Made, Stop>
    ensures calls { CallsWithin limits.now (output_as format) (R.remaining reader.old)
        (W.contents writer.old) (W.contents writer.new) (done_of result) }
    ensures on_text { CallsWithin limits.now (output_as format) (Some text.new.items)
        (W.contents writer.old) (W.contents writer.new) (done_of result) }
    ensures given { (bytes : List ℕ) × R.gives reader.old bytes reader.new
        × CallsWithin limits.now (output_as format) (Some bytes) (W.contents writer.old)
        (W.contents writer.new) (done_of result) }
    ensures ends { Ends (leaves (done_of result)) (R.remaining reader.old) (R.remaining reader.new)
        (R.failed reader.new) (W.failed writer.old) (W.failed writer.new) writer.old writer.new }
    ensures own { IfErr result IsOwnStop }
    ensures made { IfOk result (IsMade format (Some text.new.items)) }
    ensures text { OnOk result (IsRead (R.remaining reader.old) (R.remaining reader.new)
        text.new.items) }
    ensures kept { IfErr result (λ s. s ≢ stops.Fault RunFault.Read →
        s ≢ stops.Fault RunFault.Memory →
        IsRead (R.remaining reader.old) (R.remaining reader.new) text.new.items) }
{
    *text = match read_text(alloc, reader) {
        Ok(text) => text,
        Err(fault) => return Err(Stop::Fault(fault)),
    };
    let made = made_of(alloc, text.as_slice(), format, limits, progress)?;
    write_reports(alloc, writer, format, made.reports.as_slice())?;
    Ok(made)
}
