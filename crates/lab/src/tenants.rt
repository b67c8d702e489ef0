//! The tenants' side, in the calling thread: each tenant posts the commands of its experiment, and
//! settles at the end.

ghost use Rattle.std.specs.Prelude.{◌≡◌, ◌≢◌, ◌<◌, length, map, IfOk, IfErr, IfSome};
ghost use Rattle.emu_model.specs.declared.records.Ending.TheVariants.{Halted};
ghost use Rattle.bench.specs.Commands.{BeginsWith};
ghost use Rattle.bench.specs.Tenants.{posted, SameTenant};
ghost use Rattle.lab.specs.Joins.{AreEnded, Unfit, SettlesNot};
ghost use Rattle.lab.specs.Plans.{IsMemory};
ghost use Rattle.alone.specs.Reports.{trace_alone};
ghost use Rattle.lab.specs.Serving.{Serves, ServesAll, IsServed};

use crate::outcome::Outcome;
use crate::worker::Board;
use alone::RunFault;
use bench::{PostError, Registry, RingMail, Tenant};
use control::Experiment;
use emu_model::{Timed, laws};
use shard::{Dossier, Parcel, SLOTS};
use std::alloc::Global;
use std::sync::Wait;
use std::thread;

// Reads letters, but only a few.
fn read_some(tenant: &mut Tenant) -> Result<(), RunFault>
    ensures same { SameTenant tenant.old tenant.new × (posted tenant.new ≡ posted tenant.old) }
    ensures err { IfErr result IsMemory }
{
    for _ in 0..SLOTS {
        match tenant.read() {
            Ok(Some(_)) => {}
            Ok(None) => return Ok(()),
            Err(_) => return Err(RunFault::Memory),
        }
    }
    Ok(())
}

// Posts the next commands. Returns true if all are posted.
fn post_some(tenant: &mut Tenant, commands: &[Timed]) -> Result<bool, RunFault>
    requires { BeginsWith commands.now (posted tenant.old) }
    ensures same { SameTenant tenant.old tenant.new }
    ensures posted { BeginsWith commands.now (posted tenant.new) }
    ensures err { IfErr result IsMemory }
{
    for k in tenant.posted_len()..commands.len() {
        match tenant.post(commands[k]) {
            Ok(()) => {}
            Err(refused) => {
                if refused.cause == PostError::NoMemory {
                    return Err(RunFault::Memory);
                }
                return Ok(false);
            }
        }
    }
    Ok(true)
}

// Posts for one tenant, and reads some of its letters if it is not done. Returns true if all its
// commands are posted.
fn serve_one(tenant: &mut Tenant, experiment: &Experiment) -> Result<bool, RunFault>
    requires { BeginsWith experiment.now.commands (posted tenant.old) }
    ensures same { SameTenant tenant.old tenant.new }
    ensures posted { BeginsWith experiment.now.commands (posted tenant.new) }
    ensures err { IfErr result IsMemory }
{
    if post_some(tenant, experiment.commands.as_slice())? {
        return Ok(true);
    }
    read_some(tenant)?;
    Ok(false)
}

// Serves each tenant once. Returns true if all commands are posted.
fn serve_all(tenants: &mut [Tenant], scenario: &[Experiment]) -> Result<bool, RunFault>
    requires len { length tenants.old ≡ length scenario.now }
    requires serves { ServesAll tenants.old scenario.now }
    ensures serves { ServesAll tenants.new scenario.now }
    ensures err { IfErr result IsMemory }
{
    let mut all = true;
    for k in 0..tenants.len() {
        if !serve_one(&mut tenants[k], &scenario[k])? {
            all = false;
        }
    }
    Ok(all)
}

// Posts and reads until all commands are posted, or the run is over.
fn serve_on<R: Wait>(
    rt: &R,
    tenants: &mut [Tenant],
    scenario: &[Experiment],
    board: &Board,
) -> Result<(), RunFault>
    requires len { length tenants.old ≡ length scenario.now }
    requires serves { ServesAll tenants.old scenario.now }
    ensures serves { ServesAll tenants.new scenario.now }
    ensures err { IfErr result IsMemory }
{
    for _ in rt.forever() {
        if board.is_over() {
            return Ok(());
        }
        if serve_all(tenants, scenario)? {
            return Ok(());
        }
        thread::yield_now();
    }
    unreachable!()
}

/// Posts and reads until all commands are posted, or the run is over. Returns the tenants.
pub(crate) fn serve<R: Wait>(
    rt: &R,
    mut tenants: Vec<Tenant>,
    scenario: &[Experiment],
    board: &Board,
) -> Result<Vec<Tenant>, RunFault>
    requires { IsServed tenants scenario.now }
    ensures ok { IfOk result (λ ts. IsServed ts scenario.now) }
    ensures err { IfErr result IsMemory }
{
    serve_on(rt, tenants.as_mut_slice(), scenario, board)?;
    Ok(tenants)
}

/// Opens a tenant for each experiment, and adds its parcel to those that wait for a worker, for
/// each worker in turn.
pub(crate) fn open_all(
    alloc: Global,
    scenario: &[Experiment],
    waiting: &mut [Vec<Parcel<RingMail>>],
) -> Result<Vec<Tenant>, RunFault>
    requires { 0 < length waiting.old }
    ensures ok { IfOk result (λ ts. IsServed ts scenario.now) }
    ensures err { IfErr result IsMemory }
{
    let mut registry = Registry::new();
    let mut tenants = Vec::new(alloc);
    for k in 0..scenario.len() {
        if tenants.reserve(1).is_err() {
            return Err(RunFault::Memory);
        }
        let Ok((tenant, parcel)) = registry.open(alloc, scenario[k].spec) else {
            return Err(RunFault::Memory);
        };
        let place = k % waiting.len();
        let pushed = waiting[place].push(parcel).ok();
        if pushed.is_none() {
            drop(tenant);
            return Err(RunFault::Memory);
        }
        tenants.push_reserved(tenant);
    }
    Ok(tenants)
}

// Settles one tenant, whose experiment was not halted. Fails with `Strange` exactly if there is no
// dossier, or it doesn't belong to the tenant.
fn settle_one(
    tenant: Tenant,
    dossier: Option<Dossier<RingMail>>,
    experiment: &Experiment,
) -> Result<Outcome, RunFault>
    requires serves { Serves tenant experiment.now }
    requires ended { IfSome dossier (λ d. d.ending ≢ Halted) }
    ensures ok { IfOk result (λ o. o ≡ trace_alone experiment.now) }
    ensures strange { IfErr result (λ e. (e ≡ RunFault.Strange) × Unfit tenant dossier) }
{
    let Some(dossier) = dossier else {
        return Err(RunFault::Strange);
    };
    let Ok(outcome) = tenant.settle(dossier) else {
        return Err(RunFault::Strange);
    };
    outcome.reveal_invariant();
    laws::later_commands_wait();
    let counters = outcome.counters();
    let (archive, rest) = outcome.into_records();
    Ok(Outcome::new(archive, rest, counters))
}

/// Settles each tenant with the dossier at its place. Fails with `Strange` exactly if a tenant has
/// none, or one that doesn't belong to it. Allocates all memory before it settles any.
pub(crate) fn settle_all(
    alloc: Global,
    tenants: Vec<Tenant>,
    dossiers: Vec<Option<Dossier<RingMail>>>,
    scenario: &[Experiment],
) -> Result<Vec<Outcome>, RunFault>
    requires served { IsServed tenants scenario.now }
    requires len { length dossiers.items ≡ length tenants.items }
    requires ended { AreEnded dossiers.items }
    ensures ok { IfOk result (λ os. os.items ≡ map trace_alone scenario.now) }
    ensures err { IfErr result (SettlesNot tenants.items dossiers.items) }
{
    let Ok(mut all) = Vec::with_capacity(alloc, scenario.len()) else {
        return Err(RunFault::Memory);
    };
    let mut tenants = tenants.into_iter();
    let mut dossiers = dossiers.into_iter();
    for experiment in scenario {
        let Some(tenant) = tenants.next() else {
            unreachable!()
        };
        let Some(dossier) = dossiers.next() else {
            unreachable!()
        };
        all.push_reserved(settle_one(tenant, dossier, experiment)?);
    }
    Ok(all)
}
