//! `run` within limits: it reads all of its input before the first step, and makes all steps before
//! it writes anything; an exceeded limit stops it before either.

ghost use Rattle.std.specs.Prelude.{◌≡◌, ◌≢◌, Some, IfOk, IfErr, OnOk, Err, true, false};
ghost use Rattle.alone.specs.declared.limits.Stop.TheVariants as stops;
ghost use Rattle.alone.specs.Bytes.{IsRead};
ghost use Rattle.alone.specs.Reports.{Ends, bytes_as, output_as, reader_failed};
ghost use Rattle.alone.specs.Within.{CallsWithin, IsMade, MakesWithin, StopsUnwritten, done_of, leaves};

use crate::plan::{Gate, Plan};
use crate::reports::reports_in_turn;
use crate::together::run_together;
use alone::{
    Format, Inlet, Limits, Made, Outlet, Progress, RunFault, Stop, read_text, scenario_of,
    write_reports,
};
use std::alloc::Global;
use std::sync::Wait;
use std::thread::Threads;

// Runs the experiments of a text with the workers of a plan, and returns their reports.
#[tactic(auto, using(alone::proofs::Stopping::text_stop, alone::proofs::Stopping::text_unread, alone::proofs::Stopping::steps_stop, alone::proofs::Stopping::steps_unread, alone::proofs::Stopping::output_stop, alone::proofs::Stopping::output_unread, alone::proofs::Stopping::made_within, crate::proofs::Stopping::together_stop, crate::proofs::Stopping::together_unread, crate::proofs::Stopping::text_not_gate, crate::proofs::Stopping::steps_not_gate, crate::proofs::Stopping::output_not_gate))]
fn made_together<H: Threads + Wait + Sync, G: Gate, P: Progress + Sync>(
    rt: &H,
    alloc: Global,
    text: &[u8],
    format: Format,
    limits: &Limits,
    plan: Plan,
    gate: &G,
    progress: &P,
) -> Result<Made, Stop>
    ensures within { IfOk result (λ m. MakesWithin limits.now (output_as format) (Some text.now)
        (bytes_as format m.reports.items)) }
    ensures made { IfOk result (IsMade format (Some text.now)) }
    ensures stop { IfErr result (StopsUnwritten limits.now (output_as format) (Some text.now)) }
    ensures gate { result ≡ Err (stops.Fault RunFault.Gate) → G.may_refuse ≡ true }
    ensures unread { reader_failed (leaves result) ≡ false }
{
    let spelled = match scenario_of(alloc, text) {
        Ok(scenario) => scenario,
        Err(fault) => return Err(Stop::Fault(fault)),
    };
    limits.check_steps(spelled.experiments())?;
    let scenario = format.scenario(spelled);
    let scripts = scenario.experiments();
    let left = match run_together(rt, alloc, scripts, plan, gate, progress) {
        Ok(left) => left,
        Err(fault) => return Err(Stop::Fault(fault)),
    };
    let reports = match reports_in_turn(alloc, scripts, left) {
        Ok(reports) => reports,
        Err(fault) => return Err(Stop::Fault(fault)),
    };
    limits.check_reports(alloc, format, reports.as_slice())?;
    Ok(Made { scenario, reports })
}

/// Runs like `run_with_progress`, within limits: it stops exactly if `run_alone_within` does, and returns
/// the same. Its faults are those of `run`. The clauses `on_text` and `made` are about the text
/// that was read, for every reader.
#[tactic(auto, using(alone::proofs::Stopping::read_calls, alone::proofs::Stopping::stop_calls, alone::proofs::Stopping::out_calls, alone::proofs::Stopping::stop_calls_read, alone::proofs::Stopping::out_calls_read, crate::proofs::Stopping::out_not_gate, crate::proofs::Stopping::input_not_gate))]
pub fn run_within<H: Threads + Wait + Sync, R: Inlet, W: Outlet, G: Gate, P: Progress + Sync>(
    rt: &H,
    alloc: Global,
    reader: &mut R,
    writer: &mut W,
    text: &mut Vec<u8>,
    format: Format,
    limits: &Limits,
    plan: Plan,
    gate: &G,
    progress: &P,
) -> Result<Made, Stop>
    ensures calls { CallsWithin limits.now (output_as format) (R.remaining reader.old)
        (W.contents writer.old) (W.contents writer.new) (done_of result) }
    ensures on_text { CallsWithin limits.now (output_as format) (Some text.new.items)
        (W.contents writer.old) (W.contents writer.new) (done_of result) }
    ensures ends { Ends (leaves (done_of result)) (R.remaining reader.old) (R.remaining reader.new)
        (R.failed reader.new) (W.failed writer.old) (W.failed writer.new) writer.old writer.new }
    ensures gate { result ≡ Err (stops.Fault RunFault.Gate) → G.may_refuse ≡ true }
    ensures made { IfOk result (IsMade format (Some text.new.items)) }
    ensures text { OnOk result (IsRead (R.remaining reader.old) (R.remaining reader.new)
        text.new.items) }
    ensures kept { IfErr result (λ s. s ≢ stops.Fault RunFault.Read →
        s ≢ stops.Fault RunFault.Memory →
        IsRead (R.remaining reader.old) (R.remaining reader.new) text.new.items) }
{
    *text = match read_text(alloc, reader) {
        Ok(text) => text,
        Err(fault) => return Err(Stop::Fault(fault)),
    };
    let made = made_together(
        rt,
        alloc,
        text.as_slice(),
        format,
        limits,
        plan,
        gate,
        progress,
    )?;
    write_reports(alloc, writer, format, made.reports.as_slice())?;
    Ok(made)
}
