//! Many workers: they write the bytes of `run_alone`, whatever the plan, and two benches run at
//! once.

use super::*;
use std::sync::atomic::{AtomicU64, Ordering};

/// A gate at which each bench's k-th turn waits until the other's k-th turn has begun, and reports
/// whether it has.
#[derive(Drop)]
struct Meeting {
    left: AtomicU64,
    right: AtomicU64,
}

impl Gate for Meeting {
    ghost use Rattle.std.specs.Prelude.{true};

    ghost may_refuse = { true };

    ghost may_return = { λ _ _ _ _. Unit {0} };

    fn ran(&self, bench: u32, _name: u32) -> bool {
        let (mine, other) = if bench == 0 {
            (&self.left, &self.right)
        } else {
            (&self.right, &self.left)
        };
        let number = mine.fetch_add(1, Ordering::SeqCst);
        for _ in 0..100_000_000u64 {
            if other.load(Ordering::SeqCst) > number {
                return true;
            }
        }
        false
    }
}

/// Returns the result of a run with workers, and its output.
pub fn run_by_workers<R: Threads + Wait + Sync, G: Gate>(
    rt: &R,
    alloc: Global,
    scenario: &str,
    plan: Plan,
    gate: &G,
) -> (Result<(), RunFault>, Vec<u8>) {
    let mut reader = Device::new(scenario.as_bytes());
    let mut writer = Device::new(Vec::new(alloc));
    let outcome = run(rt, alloc, &mut reader, &mut writer, plan, gate);
    (outcome, writer.into_inner())
}

/// Checks the reports of four experiments, with this number of workers and of turns between two
/// moves.
fn moves_so<H: Threads + Wait + Sync + Abort + AllocGlobal>(rt: &H, plan: Plan) {
    let (outcome, written) = run_by_workers(
        rt,
        rt.alloc(),
        texts::FOUR_EXPERIMENTS,
        plan,
        &OpenGate,
    );
    assert!(rt; outcome == Ok(()));
    assert!(rt; written.as_slice() == texts::FOUR_EXPERIMENTS_REPORT.as_bytes());
}

#[test]
fn moves(rt: HostRuntime) -> Result<(), Fail> {
    for workers in 1..4 {
        for moves in [0, 1, 64] {
            moves_so(&rt, Plan::new(workers, moves).ok_or("a plan")?);
        }
    }
    Ok(())
}

/// The scenario of `one_packet`, twice.
const TWICE: &str = "experiment a seed 0 budget 10\n\
@0 pipe 1 config bw 1Mbit/s delay 10\n\
@0 add 100 pipe 1 ip from any to any\n\
@0 inject udp 10.0.0.1 1000 10.0.0.2 2000 1000\n\
@20000000 end\n\
experiment b seed 0 budget 10\n\
@0 pipe 1 config bw 1Mbit/s delay 10\n\
@0 add 100 pipe 1 ip from any to any\n\
@0 inject udp 10.0.0.1 1000 10.0.0.2 2000 1000\n\
@20000000 end\n\
";

/// The reports of `TWICE`.
const TWICE_REPORTS: &str = "experiment a\n\
0 ok 0\n\
0 ok 1\n\
0 ok 2\n\
8000000 finish 0 1.0\n\
18000000 deliver 0 plain\n\
20000000 ok 3\n\
counters 1 1 0 0 0 0 0 0 0 0 0\n\
experiment b\n\
0 ok 0\n\
0 ok 1\n\
0 ok 2\n\
8000000 finish 0 1.0\n\
18000000 deliver 0 plain\n\
20000000 ok 3\n\
counters 1 1 0 0 0 0 0 0 0 0 0\n\
";

#[test]
fn benches_at_once(rt: HostRuntime) -> Result<(), Fail> {
    let gate = Meeting {
        left: AtomicU64::new(0),
        right: AtomicU64::new(0),
    };
    let plan = Plan::new(2, 0).ok_or("a plan")?;
    let (outcome, written) = run_by_workers(&rt, rt.alloc(), TWICE, plan, &gate);
    assert!(rt; outcome == Ok(()));
    assert!(rt; written.as_slice() == TWICE_REPORTS.as_bytes());
    let (left, right) = (
        gate.left.load(Ordering::SeqCst),
        gate.right.load(Ordering::SeqCst),
    );
    assert_eq!(rt; (left, right), (5, 5));
    Ok(())
}

/// A gate that counts the turns of experiments that didn't begin on their bench. Bench 0 waits a
/// while for one if the turn is that of a different experiment than the turn before, because it has
/// offered that one.
#[derive(Drop)]
struct Watch {
    last: AtomicU64,
    adopted: AtomicU64,
}

impl Gate for Watch {
    ghost use Rattle.std.specs.Prelude.{false};

    ghost may_refuse = { false };

    ghost may_return = { λ _ _ _ _. Unit {0} };

    fn ran(&self, bench: u32, name: u32) -> bool {
        if bench != name % 2 {
            self.adopted.fetch_add(1, Ordering::SeqCst);
            return true;
        }
        if bench == 1 || self.last.swap(u64::from(name), Ordering::SeqCst) == u64::from(name) {
            return true;
        }
        for _ in 0..10_000_000u64 {
            if self.adopted.load(Ordering::SeqCst) > 0 {
                return true;
            }
        }
        true
    }
}

// Returns the number of turns of adopted experiments in a run with this plan.
fn adoptions<H: Threads + Wait + Sync + Abort + AllocGlobal>(rt: &H, plan: Plan) -> u64 {
    let gate = Watch {
        last: AtomicU64::new(0),
        adopted: AtomicU64::new(0),
    };
    let (outcome, written) = run_by_workers(rt, rt.alloc(), texts::FOUR_EXPERIMENTS, plan, &gate);
    assert!(rt; outcome == Ok(()));
    assert!(rt; written.as_slice() == texts::FOUR_EXPERIMENTS_REPORT.as_bytes());
    gate.adopted.load(Ordering::SeqCst)
}

/// Checks that experiments move to another bench, and that none moves if the plan forbids it.
#[test]
fn experiments_are_adopted(rt: HostRuntime) -> Result<(), Fail> {
    let never = Plan::new(2, 0).ok_or("a plan")?;
    assert_eq!(rt; adoptions(&rt, never), 0);
    let always = Plan::new(2, 1).ok_or("a plan")?;
    let mut count = 0u64;
    for _ in 0..20 {
        if count == 0 {
            count = adoptions(&rt, always);
        }
    }
    assert!(rt; count > 0);
    Ok(())
}

/// A gate that always refuses.
#[derive(Clone, Copy)]
struct ShutGate;

impl Gate for ShutGate {
    ghost use Rattle.std.specs.Prelude.{true};

    ghost may_refuse = { true };

    ghost may_return = { λ _ _ _ _. Unit {0} };

    fn ran(&self, _bench: u32, _name: u32) -> bool {
        false
    }
}

#[test]
fn gate_says_no(rt: HostRuntime) -> Result<(), Fail> {
    let plan = Plan::new(2, 64).ok_or("a plan")?;
    let (outcome, written) = run_by_workers(
        &rt,
        rt.alloc(),
        texts::FOUR_EXPERIMENTS,
        plan,
        &ShutGate,
    );
    assert!(rt; written.is_empty());
    assert!(rt; outcome == Err(RunFault::Gate));
    Ok(())
}

/// Checks that everything is written, or that the result is `Memory` and nothing is written.
#[test]
fn refused_together(rt: HostRuntime) -> Result<(), Fail> {
    let plan = Plan::new(2, 1).ok_or("a plan")?;
    let (outcome, written) = run_by_workers(
        &rt,
        rt.alloc(),
        texts::FOUR_EXPERIMENTS,
        plan,
        &OpenGate,
    );
    if outcome == Err(RunFault::Memory) {
        assert!(rt; written.is_empty());
        return Ok(());
    }
    assert!(rt; outcome == Ok(()));
    assert!(rt; written.as_slice() == texts::FOUR_EXPERIMENTS_REPORT.as_bytes());
    Ok(())
}

/// A gate that refuses only the turns of bench 0.
#[derive(Clone, Copy)]
struct HalfShut;

impl Gate for HalfShut {
    ghost use Rattle.std.specs.Prelude.{true};

    ghost may_refuse = { true };

    ghost may_return = { λ _ _ _ _. Unit {0} };

    fn ran(&self, bench: u32, _name: u32) -> bool {
        bench != 0
    }
}

/// Checks that a fault of one worker ends the run: the result is `Gate`, and nothing is written.
#[test]
fn gate_says_no_to_one(rt: HostRuntime) -> Result<(), Fail> {
    let plan = Plan::new(2, 0).ok_or("a plan")?;
    let (outcome, written) = run_by_workers(
        &rt,
        rt.alloc(),
        texts::FOUR_EXPERIMENTS,
        plan,
        &HalfShut,
    );
    assert!(rt; written.is_empty());
    assert!(rt; outcome == Err(RunFault::Gate));
    Ok(())
}
