//! All experiments of a scenario on many workers, each in a thread.

ghost use Rattle.std.specs.Prelude.{◌≡◌, ◌≤◌, List, Option, All, None, true, length, vec_len, map, IfOk, IfErr};
ghost use Rattle.shard.specs.Stand.{Final};
ghost use Rattle.bench.specs.declared.closing.Closing.{Closing as ClosedBench};
ghost use Rattle.bench.specs.declared.mail.RingMail.{RingMail as Rings};
ghost use Rattle.alone.specs.declared.fault.RunFault.{RunFault as Fault};
ghost use Rattle.lab.specs.Gathers.{Holds};
ghost use Rattle.lab.specs.Joins.{closings_of, dossiers_of, faults_of, AreEnded, Concludes};
ghost use Rattle.lab.specs.Plans.{IsTogetherFault, IsMemory, IsWorkers, fault_of, is_honest};
ghost use Rattle.alone.specs.Reports.{trace_alone};
ghost use Rattle.lab.specs.Serving.{IsServed};

use crate::joined::{Joined, gather};
use crate::outcome::Outcome;
use crate::plan::{Gate, Plan};
use crate::tenants::{open_all, serve, settle_all};
use crate::worker::{Board, Given, Job, Report, work};
use alone::{Progress, RunFault};
use bench::{Bench, Peer, RingMail, Tenant, audit};
use control::Experiment;
use shard::Parcel;
use std::alloc::Global;
use std::sync::Wait;
use std::thread;
use std::thread::{JoinHandle, Threads};

// Creates the benches, and the thief's end of each bench's deque.
fn benches_and_peers(alloc: Global, count: usize) -> Result<(Vec<Bench>, Vec<Peer>), RunFault>
    ensures ok { IfOk result (λ r. (vec_len r.0 ≡ count) × (vec_len r.1 ≡ count)) }
    ensures err { IfErr result IsMemory }
{
    let mut benches = Vec::new(alloc);
    let mut peers = Vec::new(alloc);
    for _ in 0..count {
        if peers.reserve(1).is_err() {
            return Err(RunFault::Memory);
        }
        if benches.reserve(1).is_err() {
            return Err(RunFault::Memory);
        }
        let Ok(mut bench) = Bench::new(alloc) else {
            return Err(RunFault::Memory);
        };
        let Ok(peer) = bench.peer() else {
            drop(bench);
            return Err(RunFault::Memory);
        };
        peers.push_reserved(peer);
        benches.push_reserved(bench);
    }
    Ok((benches, peers))
}

// Creates `count` empty lists of parcels.
fn empty_lists(alloc: Global, count: usize) -> Result<Vec<Vec<Parcel<RingMail>>>, RunFault>
    ensures ok { IfOk result (λ lists. vec_len lists ≡ count) }
    ensures err { IfErr result IsMemory }
{
    let mut lists = Vec::new(alloc);
    for _ in 0..count {
        if lists.reserve(1).is_err() {
            return Err(RunFault::Memory);
        }
        lists.push_reserved(Vec::new(alloc));
    }
    Ok(lists)
}

// Creates a job for each bench, with the parcels that wait for it, and the peer of the next bench
// if there is another.
fn jobs_of(
    alloc: Global,
    mut benches: Vec<Bench>,
    mut peers: Vec<Peer>,
    mut lists: Vec<Vec<Parcel<RingMail>>>,
) -> Result<Vec<Job>, RunFault>
    requires { vec_len benches ≤ 16 }
    ensures { IfErr result IsMemory }
{
    if peers.len() > 1 {
        peers.as_mut_slice().rotate_left(1);
    } else {
        peers.clear();
    }
    let Ok(mut jobs) = Vec::with_capacity(alloc, benches.len()) else {
        return Err(RunFault::Memory);
    };
    while let Some(bench) = benches.pop() {
        let peer = peers.pop();
        let mut waiting = lists.pop().unwrap_or(Vec::new(alloc));
        // Parcels are taken from the end of a list.
        waiting.as_mut_slice().reverse();
        let number = benches.len() as u32;
        let job = Job {
            number,
            bench,
            peer,
            waiting,
        };
        if jobs.push(job).ok().is_none() {
            return Err(RunFault::Memory);
        }
    }
    Ok(jobs)
}

// Joins each worker. Discards a worker's results if memory runs out.
fn join_all<G: Gate, R: Threads>(
    rt: &R,
    alloc: Global,
    threads: Vec<JoinHandle<Report<G>>>,
) -> Vec<Given>
    ensures { All (λ g. is_honest G.may_refuse g.fault ≡ true) result.items }
{
    let mut all = Vec::new(alloc);
    for thread in threads {
        let Report { of: _, given } = thread.join(rt);
        if all.reserve(1).is_ok() {
            all.push_reserved(given);
        }
    }
    all
}

/// Runs all experiments with the workers of a plan, and returns their outcomes in the scenario's
/// order: exactly what each leaves when it runs alone. Fails with `Memory` if memory runs out, an
/// experiment is halted or a thread can't be started, and with `Gate` only if the gate refused;
/// `Memory` comes before `Gate`, and both before `Strange`.
pub(crate) fn run_together<G: Gate, R: Threads + Wait + Sync, P: Progress + Sync>(
    rt: &R,
    alloc: Global,
    scenario: &[Experiment],
    plan: Plan,
    gate: &G,
    progress: &P,
) -> Result<Vec<Outcome>, RunFault>
    ensures ok { IfOk result (λ os. os.items ≡ map trace_alone scenario.now) }
    ensures err { IfErr result (IsTogetherFault G.may_refuse) }
{
    let (benches, peers) = benches_and_peers(alloc, plan.workers)?;
    let mut waiting = empty_lists(alloc, plan.workers)?;
    let tenants = open_all(alloc, scenario, waiting.as_mut_slice())?;
    let jobs = jobs_of(alloc, benches, peers, waiting)?;
    let board = Board::new(scenario.len() as u64);
    let shared = &board;
    let (tenants, given) = thread::scope(
        thread::scope_env(),
        rt,
        move |scope| -> (Result<Vec<Tenant>, RunFault>, Vec<Given>)
            requires { IsServed tenants scenario.now }
            ensures tenants { IfOk result.0 (λ ts. IsServed ts scenario.entry.now) }
            ensures served { IfErr result.0 IsMemory }
            ensures honest { All (λ g. is_honest G.may_refuse g.fault ≡ true) result.1.items }
        {
            let mut threads = Vec::new(alloc);
            for job in jobs {
                if threads.reserve(1).is_err() {
                    drop(job);
                    shared.stop();
                    continue;
                }
                match scope.spawn(move || work(rt, alloc, job, plan, shared, gate, progress)) {
                    Ok(thread) => threads.push_reserved(thread),
                    Err(_) => shared.stop(),
                }
            }
            let served = serve(rt, tenants, scenario, shared);
            if served.is_err() {
                shared.stop();
            }
            (served, join_all(rt, alloc, threads))
        },
    );
    let tenants = tenants?;
    if given.len() != plan.workers {
        return Err(RunFault::Memory);
    }
    conclude(alloc, tenants, given, scenario)
}

// Evaluates the workers' results: returns each experiment's outcome if no worker has a fault, no
// experiment was halted, each tenant has its dossier and no other, and each name is accounted for.
fn conclude(
    alloc: Global,
    tenants: Vec<Tenant>,
    given: Vec<Given>,
    scenario: &[Experiment],
) -> Result<Vec<Outcome>, RunFault>
    requires served { IsServed tenants scenario.now }
    requires workers { All (λ g. IsWorkers g.fault) given.items }
    ensures ok { IfOk result (λ os. os.items ≡ map trace_alone scenario.now) }
    ensures concludes { Concludes tenants.items (closings_of given.items) (dossiers_of given.items)
        (faults_of given.items) (fault_of result) }
{
    let joined = gather(alloc, given, tenants.len())?;
    finish(alloc, tenants, joined, scenario)
}

// Settles each tenant, and audits the closings.
fn finish(
    alloc: Global,
    tenants: Vec<Tenant>,
    joined: Joined,
    scenario: &[Experiment],
) -> Result<Vec<Outcome>, RunFault>
    requires served { IsServed tenants scenario.now }
    requires len { length joined.dossiers.items ≡ length tenants.items }
    requires ended { joined.fault ≡ None → AreEnded joined.dossiers.items }
    ensures ok { IfOk result (λ os. os.items ≡ map trace_alone scenario.now) }
    ensures concludes { (cs : List ClosedBench) (ds : List (Final Rings)) (fs : List (Option Fault)) →
        Holds joined cs ds fs → Concludes tenants.items cs ds fs (fault_of result) }
{
    let Joined {
        dossiers,
        closings,
        fault,
    } = joined;
    if let Some(fault) = fault {
        return Err(fault);
    }
    let outcomes = settle_all(alloc, tenants, dossiers, scenario)?;
    match audit(closings.as_slice()) {
        Ok(()) => Ok(outcomes),
        Err(_) => Err(RunFault::Strange),
    }
}
