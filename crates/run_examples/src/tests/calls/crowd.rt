//! The maximum number of experiments in a scenario, all different: each has its own report, up to
//! the last one.

use super::workers::run_by_workers;
use super::*;
use shard::MAX_RESIDENTS;
use std::alloc::AllocError;

// Returns a scenario with an experiment for each number, which ends at that time.
fn scenario(alloc: Global) -> Result<String, AllocError> {
    let mut text = String::new(alloc);
    for k in 0..MAX_RESIDENTS {
        let lines = format!(in alloc; "experiment e{k} seed 0 budget 1\n@{k} end\n")?;
        text.push_str(lines.as_str())?;
    }
    Ok(text)
}

// Returns the reports of the scenario.
fn reports(alloc: Global) -> Result<String, AllocError> {
    let mut text = String::new(alloc);
    for k in 0..MAX_RESIDENTS {
        let lines = format!(in alloc;
            "experiment e{k}\n{k} ok 0\ncounters 0 0 0 0 0 0 0 0 0 0 0\n"
        )?;
        text.push_str(lines.as_str())?;
    }
    Ok(text)
}

#[test]
fn each_experiment_is_its_own(rt: HostRuntime) -> Result<(), Fail> {
    let text = scenario(rt.alloc())?;
    let wanted = reports(rt.alloc())?;
    for (workers, moves) in [(1, 0), (2, 1), (3, 64)] {
        let plan = Plan::new(workers, moves).ok_or("a plan")?;
        let (outcome, written) = run_by_workers(&rt, rt.alloc(), text.as_str(), plan, &OpenGate);
        assert!(rt; outcome == Ok(()), "{workers} {moves}");
        assert!(rt;
            written.as_slice() == wanted.as_bytes(),
            "{workers} {moves}"
        );
    }
    writes(&rt, text.as_str(), wanted.as_str());
    Ok(())
}
