//! Tenants that post the commands of a text, and expect its report.

use super::calls::Kit;
use crate::tests::wants::assert_same;
use bench::{OpenError, Registry};
use control::{Experiment as Plan, ParseError, parse_scenario};
use report::report_text;
use std::alloc::{AllocError, Global};
use std::process::Abort;

/// The tenant of an experiment of a text, and the expected report.
#[derive(Drop)]
pub struct Guest<T> {
    pub tenant: T,
    pub plan: Plan,
    report: &'static str,
}

/// The result for a guest at the end.
#[derive(Drop)]
pub struct Settled<O> {
    pub outcome: O,
    plan: Plan,
    report: &'static str,
}

// Returns the only experiment of a text.
fn plan_of(rt: &(impl Abort + AllocGlobal), text: &str) -> Result<Plan, AllocError> {
    match parse_scenario(rt.alloc(), text.as_bytes()) {
        Ok(scenario) => {
            let mut plans = scenario.into_vec();
            assert!(rt; plans.len() == 1);
            return Ok(plans.remove(0));
        }
        Err(error) => {
            assert!(rt; matches!(error, ParseError::NoMemory), "{text}");
            return Err(AllocError);
        }
    }
}

/// Creates the guest of a text that has exactly one experiment, and returns it with that
/// experiment.
pub fn invite<K: Kit>(
    rt: &(impl Abort + AllocGlobal),
    registry: &mut Registry,
    text: &str,
    report: &'static str,
) -> Result<(Guest<K::Tenant>, K::Parcel), AllocError> {
    let plan = plan_of(rt, text)?;
    match K::open(registry, rt.alloc(), plan.spec) {
        Ok((tenant, parcel)) => {
            let guest = Guest {
                tenant,
                plan,
                report,
            };
            return Ok((guest, parcel));
        }
        Err(error) => {
            assert_same(rt, error, OpenError::NoMemory);
            return Err(AllocError);
        }
    }
}

/// Takes the guest with a name, which must be there, once.
pub fn take_guest<T: Drop>(
    rt: &impl Abort,
    guests: &mut [Option<Guest<T>>],
    name: u32,
) -> Guest<T> {
    let index = name as usize;
    assert!(rt; index < guests.len());
    guests[index].take().expect(rt, "a second dossier")
}

/// Posts all commands, of which there are at most 64.
pub fn post_all<K: Kit>(rt: &impl Abort, guest: &mut Guest<K::Tenant>) {
    for command in guest.plan.commands.as_slice() {
        assert_holds!(rt; K::post(&mut guest.tenant, *command).is_ok());
    }
}

/// Settles a guest with its dossier, which must be its own.
pub fn settle<K: Kit>(
    rt: &impl Abort,
    guest: Guest<K::Tenant>,
    dossier: K::Dossier,
) -> Settled<K::Outcome> {
    let Guest {
        tenant,
        plan,
        report,
    } = guest;
    let Some(outcome) = K::settle(tenant, dossier).ok() else {
        panic!(rt; "strange");
    };
    Settled {
        outcome,
        plan,
        report,
    }
}

/// The number of records that no outcome here reaches.
const MAX_RECORDS: usize = 100_000;

/// Returns the report of an outcome.
pub fn text_of<K: Kit>(
    alloc: Global,
    settled: &Settled<K::Outcome>,
) -> Result<Vec<u8>, AllocError> {
    let name = settled.plan.name.as_bytes();
    let counters = K::last(&settled.outcome).counters;
    let mut records = Vec::new(alloc);
    for place in 0..MAX_RECORDS {
        let Some(record) = K::record(&settled.outcome, place) else {
            break;
        };
        records.push(record)?;
    }
    report_text(alloc, name, records.as_slice(), &counters)
}

impl<O> Settled<O> {
    /// Returns the expected report.
    pub fn wanted_report(&self) -> &[u8] {
        self.report.as_bytes()
    }
}
