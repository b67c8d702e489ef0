//! Limits for all experiments together: up to the limits a run has the same result as without them,
//! and past them nothing is written.

use super::*;

/// The steps that the four experiments may take: 10^6 for each of three, and 2 for the last.
const STEPS: u64 = 3_000_002;

/// Runs within limits, each experiment by itself or with two workers. Returns whether there are
/// four experiments and four reports, and the output. The whole text must be kept.
fn within<H: Abort + Threads + Wait + Sync + AllocGlobal>(
    rt: &H,
    is_alone: bool,
    limits: &Limits,
) -> Result<(Result<bool, Stop>, Vec<u8>), Fail> {
    let alloc = rt.alloc();
    let mut reader = Device::new(texts::FOUR_EXPERIMENTS.as_bytes());
    let mut writer = Device::new(Vec::new(alloc));
    let plan = Plan::new(2, 1).ok_or("a plan")?;
    let (from, to, text) = (&mut reader, &mut writer, &mut Vec::new(alloc));
    let outcome = if is_alone {
        run_alone_within(alloc, from, to, text, Format::Text, limits, &Silent)
    } else {
        run_within(
            rt,
            alloc,
            from,
            to,
            text,
            Format::Text,
            limits,
            plan,
            &OpenGate,
            &Silent,
        )
    };
    assert!(rt; text.as_slice() == texts::FOUR_EXPERIMENTS.as_bytes());
    match outcome {
        Ok(made) => {
            let tells = made.scenario.experiments().len() == 4 && made.reports.len() == 4;
            Ok((Ok(tells), writer.into_inner()))
        }
        Err(stop) => Ok((Err(stop), writer.into_inner())),
    }
}

#[test]
fn reaches_both(rt: HostRuntime) -> Result<(), Fail> {
    let report = texts::FOUR_EXPERIMENTS_REPORT.as_bytes();
    let limits = Limits {
        steps: Some(STEPS),
        output: Some(report.len() as u64),
    };
    for is_alone in [true, false] {
        let (outcome, written) = within(&rt, is_alone, &limits)?;
        assert!(rt; outcome == Ok(true));
        assert!(rt; written.as_slice() == report);
    }
    Ok(())
}

#[test]
fn passes_steps(rt: HostRuntime) -> Result<(), Fail> {
    let limits = Limits {
        steps: Some(STEPS - 1),
        output: None,
    };
    for is_alone in [true, false] {
        let (outcome, written) = within(&rt, is_alone, &limits)?;
        assert!(rt;
            outcome
                == Err(Stop::Steps {
                    number: 3,
                    total: STEPS
                })
        );
        assert!(rt; written.is_empty());
    }
    Ok(())
}

#[test]
fn passes_output(rt: HostRuntime) -> Result<(), Fail> {
    let bytes = texts::FOUR_EXPERIMENTS_REPORT.as_bytes().len() as u64;
    let limits = Limits {
        steps: None,
        output: Some(bytes - 1),
    };
    for is_alone in [true, false] {
        let (outcome, written) = within(&rt, is_alone, &limits)?;
        assert!(rt; outcome == Err(Stop::Output(bytes)));
        assert!(rt; written.is_empty());
    }
    Ok(())
}
