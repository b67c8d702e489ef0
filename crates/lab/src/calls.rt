//! `run`, which reads all of its input before the first step, and makes all steps before it writes
//! anything.

ghost use Rattle.std.specs.Prelude.{◌≡◌, Err, true};
ghost use Rattle.alone.specs.Reports.{reports, Calls, Ends};

use crate::plan::{Gate, Plan};
use crate::within::run_within;
use alone::{Format, Inlet, Limits, Outlet, Progress, RunFault, Silent, unlimited_outcome};
use std::alloc::Global;
use std::sync::Wait;
use std::thread::Threads;

/// Reads a scenario, runs its experiments with the workers of a plan, each in a thread, and then
/// writes their reports in the scenario's order: exactly what `run_alone` writes, whatever the plan
/// and the gate. Its faults are those of `run_alone`, and also `Memory` if a thread can't be
/// started, `Gate` only if the gate refused, and `Strange` if a dossier belongs to no tenant, is
/// missing or exists twice, or an experiment was lost.
pub fn run<H: Threads + Wait + Sync, R: Inlet, W: Outlet, G: Gate>(
    rt: &H,
    alloc: Global,
    reader: &mut R,
    writer: &mut W,
    plan: Plan,
    gate: &G,
) -> Result<(), RunFault>
    ensures calls { Calls reports (R.remaining reader.old) (W.contents writer.old)
        (W.contents writer.new) result }
    ensures ends { Ends result (R.remaining reader.old) (R.remaining reader.new)
        (R.failed reader.new) (W.failed writer.old) (W.failed writer.new) writer.old writer.new }
    ensures gate { result ≡ Err RunFault.Gate → G.may_refuse ≡ true }
{
    run_with_progress(rt, alloc, reader, writer, plan, gate, &Silent)
}

/// Runs like `run`, and reports to `progress` how many experiments have ended.
#[tactic(auto, using(alone::proofs::Stopping::unlimited_calls, alone::proofs::Stopping::calls_same, crate::proofs::Stopping::gate_same))]
pub fn run_with_progress<
    H: Threads + Wait + Sync,
    R: Inlet,
    W: Outlet,
    G: Gate,
    P: Progress + Sync,
>(
    rt: &H,
    alloc: Global,
    reader: &mut R,
    writer: &mut W,
    plan: Plan,
    gate: &G,
    progress: &P,
) -> Result<(), RunFault>
    ensures calls { Calls reports (R.remaining reader.old) (W.contents writer.old)
        (W.contents writer.new) result }
    ensures ends { Ends result (R.remaining reader.old) (R.remaining reader.new)
        (R.failed reader.new) (W.failed writer.old) (W.failed writer.new) writer.old writer.new }
    ensures gate { result ≡ Err RunFault.Gate → G.may_refuse ≡ true }
{
    let limits = Limits::none();
    let mut text = Vec::new(alloc);
    let outcome = run_within(
        rt,
        alloc,
        reader,
        writer,
        &mut text,
        Format::Text,
        &limits,
        plan,
        gate,
        progress,
    );
    unlimited_outcome(outcome)
}
