//! Worked examples over memory: the output, and the fault of each text that is not a scenario.

use crate::texts;
use alone::{
    Device, Format, Inlet, Limits, Outlet, RunFault, Silent, Stop, Trouble, check, run_alone,
    run_alone_within,
};
use control::{Cause, Fault};
use lab::{Gate, OpenGate, Plan, run, run_within};
use std::alloc::Global;
use std::io;
use std::process::Abort;
use std::sync::Wait;
use std::test::Fail;
use std::thread::Threads;

mod crowd;
mod devices;
mod ends;
mod limits;
mod sessions;
mod workers;

/// The way in which a scenario is run: by itself, with two workers, or not at all.
#[derive(Clone, Copy, PartialEq)]
enum Way {
    Alone,
    Together,
    Check,
}

/// Returns the result of a call from a reader to a writer.
fn call<H: Threads + Wait + Sync, R: Inlet, W: Outlet>(
    rt: &H,
    alloc: Global,
    way: Way,
    reader: &mut R,
    writer: &mut W,
) -> Result<(), RunFault> {
    if way == Way::Alone {
        return run_alone(alloc, reader, writer);
    }
    if way == Way::Check {
        return check(alloc, reader, writer);
    }
    let Some(plan) = Plan::new(2, 1) else {
        return Err(RunFault::Strange);
    };
    run(rt, alloc, reader, writer, plan, &OpenGate)
}

/// Returns the result of `run_alone`, and its output.
fn run_text(alloc: Global, scenario: &str) -> (Result<(), RunFault>, Vec<u8>) {
    let mut reader = Device::new(scenario.as_bytes());
    let mut writer = Device::new(Vec::new(alloc));
    let outcome = run_alone(alloc, &mut reader, &mut writer);
    (outcome, writer.into_inner())
}

/// Returns the result of `check`, and its output.
fn check_text(alloc: Global, scenario: &str) -> (Result<(), RunFault>, Vec<u8>) {
    let mut reader = Device::new(scenario.as_bytes());
    let mut writer = Device::new(Vec::new(alloc));
    let outcome = check(alloc, &mut reader, &mut writer);
    (outcome, writer.into_inner())
}

/// Checks the report of this scenario.
fn writes(rt: &(impl Abort + AllocGlobal), scenario: &str, report: &str) {
    let (outcome, written) = run_text(rt.alloc(), scenario);
    assert!(rt; outcome == Ok(()));
    assert!(rt; written.as_slice() == report.as_bytes());
}

#[test]
fn one_packet(rt: HostRuntime) {
    writes(&rt, texts::ONE_PACKET, texts::ONE_PACKET_REPORT);
}

/// Checks the output of `check`.
fn checks(rt: &(impl Abort + AllocGlobal), scenario: &str, line: &str) {
    let (outcome, written) = check_text(rt.alloc(), scenario);
    assert!(rt; outcome == Ok(()));
    assert!(rt; written.as_slice() == line.as_bytes());
}

#[test]
fn counts(rt: HostRuntime) {
    checks(&rt, texts::ONE_PACKET, "ok 1 4\n");
    checks(&rt, "", "ok 0 0\n");
}

/// Checks that both calls return this fault and write nothing.
fn is_faulty(rt: &(impl Abort + AllocGlobal), scenario: &str, line: u64, cause: Cause) {
    let fault = RunFault::Scenario(Fault { line, cause });
    let (outcome, written) = run_text(rt.alloc(), scenario);
    assert!(rt; written.is_empty());
    assert!(rt; outcome == Err(fault));
    let (outcome, written) = check_text(rt.alloc(), scenario);
    assert!(rt; written.is_empty());
    assert!(rt; outcome == Err(fault));
}

#[test]
fn faults(rt: HostRuntime) -> Result<(), Fail> {
    is_faulty(&rt, "experiment a seed 0 budget 1\n@0 en", 2, Cause::Cut);
    is_faulty(
        &rt,
        "experiment a seed 0 budget 1\n@0 en\n",
        2,
        Cause::BadWord,
    );
    is_faulty(&rt, "@0 end\n", 1, Cause::NoExperiment);
    let fault = RunFault::Scenario(Fault {
        line: 2,
        cause: Cause::Cut,
    });
    let text = format!(in rt.alloc(); "{fault} {} {}", RunFault::Read, RunFault::Memory)?;
    assert_eq!(rt; text.as_str(), "line 2: cut read memory");
    let text = format!(in rt.alloc();
        "{} {} {}",
        RunFault::Write,
        RunFault::Strange,
        RunFault::Gate
    )?;
    assert_eq!(rt; text.as_str(), "write strange gate");
    Ok(())
}

/// Checks a reader that never ends: its text is too long.
#[test]
fn endless_reader(rt: HostRuntime) {
    let mut reader = Device::new(io::repeat(b' '));
    let mut writer = Device::new(Vec::new(rt.alloc()));
    let outcome = run_alone(rt.alloc(), &mut reader, &mut writer);
    let fault = RunFault::Scenario(Fault {
        line: 0,
        cause: Cause::TooBig,
    });
    assert!(rt; writer.into_inner().is_empty());
    assert!(rt; outcome == Err(fault));
}

/// Checks that everything is written, or that the result is `Memory` and nothing is written.
#[test]
fn memory_refusal(rt: HostRuntime) {
    let (outcome, written) = run_text(rt.alloc(), texts::FOUR_EXPERIMENTS);
    if outcome == Err(RunFault::Memory) {
        assert!(rt; written.is_empty());
        return;
    }
    assert!(rt; outcome == Ok(()));
    assert!(rt; written.as_slice() == texts::FOUR_EXPERIMENTS_REPORT.as_bytes());
}
