//! Flows that, according to the records of a run, probably didn't do what was meant.

ghost use Rattle.std.specs.Prelude.{◌≡◌, ◌++◌, OnOk, IfOk};
ghost use Rattle.explain.specs.Flows.{unfinished, limited, of_flows, of_watch};

use crate::doubt::{Doubt, Doubtful};
use crate::likely::put_doubt;
use crate::watch::Watch;
use std::alloc::{AllocError, Global};

/// The number of segments, the maximum that a scenario allows, that counts as a flow without end.
const ENDLESS: u64 = 1_000_000;

fn unfinished(watch: &Watch, is_spent: bool) -> Option<Doubt>
    ensures { result ≡ unfinished is_spent watch.now }
{
    let bytes = watch.segments.saturating_mul(watch.smss);
    if is_spent || watch.is_stopped || watch.segments == ENDLESS || bytes <= watch.acked {
        return None;
    }
    Some(Doubt::Unfinished {
        acked: watch.acked,
        bytes,
    })
}

fn limited(watch: &Watch) -> Option<Doubt>
    ensures { result ≡ limited watch.now }
{
    let total = watch.last.saturating_sub(watch.begin);
    let held = watch.held.saturating_mul(100);
    if total == 0 || held < total {
        return None;
    }
    Some(Doubt::WindowLimited {
        window: watch.window,
        share: held / total,
    })
}

fn put_watch(
    out: &mut Vec<Doubtful>,
    is_spent: bool,
    watch: &Option<Watch>,
) -> Result<(), AllocError>
    ensures { OnOk result (out.new.items ≡ out.old.items ++ of_watch is_spent watch.now) }
{
    let Some(watch) = watch else {
        return Ok(());
    };
    put_doubt(out, watch.command, unfinished(watch, is_spent))?;
    put_doubt(out, watch.command, limited(watch))
}

/// Returns the flows that the experiment's end cut off, unless its steps were spent before, and
/// those that their window limited for at least 1 % of their time, in the order of the flows'
/// numbers. Our choice.
pub fn of_flows(
    alloc: Global,
    watches: &[Option<Watch>],
    is_spent: bool,
) -> Result<Vec<Doubtful>, AllocError>
    ensures { IfOk result (λ out. out.items ≡ of_flows is_spent watches.now) }
{
    let mut out = Vec::new(alloc);
    for watch in watches {
        put_watch(&mut out, is_spent, watch)?;
    }
    Ok(out)
}
