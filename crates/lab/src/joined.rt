//! The results of joining all workers: a place for each tenant's dossier, the closings, and the
//! most serious fault.

ghost use Rattle.std.specs.Prelude.{◌≡◌, ◌≢◌, ◌++◌, ◌∷◌, [], List, Option, None, Some, All, IsTrue, IsFalse, length, IfOk, IfErr};
ghost use Rattle.std.specs.Bool.{Decides};
ghost use Rattle.emu_model.specs.declared.records.Ending.TheVariants.{Halted};
ghost use Rattle.shard.specs.Stand.{Final};
ghost use Rattle.bench.specs.declared.closing.Closing.{Closing as ClosedBench};
ghost use Rattle.bench.specs.declared.mail.RingMail.{RingMail as Rings};
ghost use Rattle.alone.specs.declared.fault.RunFault.{RunFault as Fault};
ghost use Rattle.lab.specs.Plans.{IsMemory, IsWorkers, graver_of};
ghost use Rattle.lab.specs.Joins.{IsFreeAt, closings_of, dossiers_of, faults_of};
ghost use Rattle.lab.specs.Gathers.{Holds};

use crate::worker::Given;
use alone::RunFault;
use bench::{Closing, RingMail};
use emu_model::Ending;
use shard::Dossier;
use std::alloc::Global;

/// The results of all workers.
#[derive(Drop)]
pub(crate) struct Joined {
    pub dossiers: Vec<Option<Dossier<RingMail>>>,
    pub closings: Vec<Closing>,
    pub fault: Option<RunFault>,
}

// Returns the more serious of two faults: memory, then the gate, then what is strange.
fn graver_of(a: Option<RunFault>, b: RunFault) -> RunFault
    ensures { result ≡ graver_of a b }
{
    match (a, b) {
        (Some(RunFault::Memory), _) => RunFault::Memory,
        (_, RunFault::Memory) => RunFault::Memory,
        (Some(RunFault::Gate), _) => RunFault::Gate,
        (_, RunFault::Gate) => RunFault::Gate,
        (Some(RunFault::Strange), _) => RunFault::Strange,
        _ => b,
    }
}

// Returns true if an experiment was halted because memory ran out.
fn is_halted(ending: Ending) -> bool
    ensures halted { IsTrue result → ending ≡ Halted }
    ensures ended { IsFalse result → ending ≢ Halted }
{
    match ending {
        Ending::Halted => return true,
        Ending::Ended => return false,
        Ending::Spent => return false,
    }
}

impl Joined {
    // Creates a place for each of `count` names.
    fn new(alloc: Global, count: usize) -> Result<Joined, RunFault>
        ensures len { IfOk result (λ j. length j.dossiers.items ≡ count) }
        ensures none { IfOk result (λ j. Holds j [] [] []) }
        ensures err { IfErr result IsMemory }
    {
        let mut dossiers = Vec::new(alloc);
        for _ in 0..count {
            if dossiers.reserve(1).is_err() {
                return Err(RunFault::Memory);
            }
            dossiers.push_reserved(None);
        }
        Ok(Joined {
            dossiers,
            closings: Vec::new(alloc),
            fault: None,
        })
    }

    // Keeps the more serious of the present fault and another.
    fn note(&mut self, fault: RunFault)
        ensures graver { self.new.fault ≡ Some (graver_of self.old.fault fault) }
        ensures same { (self.new.dossiers ≡ self.old.dossiers)
            × (self.new.closings ≡ self.old.closings) }
    {
        self.fault = Some(graver_of(self.fault, fault));
    }

    // Notes a worker's fault, if it has one.
    #[tactic(auto, using(crate::proofs::Gatherings::worker_none, crate::proofs::Gatherings::worker_noted))]
    fn note_worker(&mut self, fault: Option<RunFault>)
        requires { IsWorkers fault }
        ensures len { length self.new.dossiers.items ≡ length self.old.dossiers.items }
        ensures holds { (cs : List ClosedBench) (ds : List (Final Rings)) (fs : List (Option Fault)) →
            Holds self.old cs ds fs → Holds self.new cs ds (fs ++ fault ∷ []) }
    {
        if let Some(fault) = fault {
            self.note(fault);
        }
    }

    // Returns true if the place of a name exists and is free.
    fn is_free(&self, place: usize) -> bool
        ensures { Decides result (IsFreeAt self.now.dossiers.items place) }
    {
        match self.dossiers.get(place) {
            Some(dossier) => return dossier.is_none(),
            None => return false,
        }
    }

    // Stores a dossier at its name. A halted one means that memory ran out; a second one for a
    // name, or one that belongs to no tenant, is strange.
    #[tactic(auto, using(crate::proofs::Gatherings::memory_noted, crate::proofs::Gatherings::strange_noted, crate::proofs::Gatherings::crowded))]
    fn put(&mut self, dossier: Dossier<RingMail>)
        ensures len { length self.new.dossiers.items ≡ length self.old.dossiers.items }
        ensures holds { (cs : List ClosedBench) (ds : List (Final Rings)) (fs : List (Option Fault)) →
            Holds self.old cs ds fs → Holds self.new cs (ds ++ dossier ∷ []) fs }
    {
        if is_halted(dossier.ending()) {
            self.note(RunFault::Memory);
            return;
        }
        let place = dossier.name() as usize;
        if !self.is_free(place) {
            self.note(RunFault::Strange);
            return;
        }
        self.dossiers[place] = Some(dossier);
    }

    // Stores a closing.
    #[tactic(auto, using(crate::proofs::Gatherings::memory_noted, crate::proofs::Gatherings::closing_kept))]
    fn keep(&mut self, closing: Closing)
        ensures len { length self.new.dossiers.items ≡ length self.old.dossiers.items }
        ensures holds { (cs : List ClosedBench) (ds : List (Final Rings)) (fs : List (Option Fault)) →
            Holds self.old cs ds fs → Holds self.new (cs ++ closing ∷ []) ds fs }
    {
        if self.closings.push(closing).is_err() {
            self.note(RunFault::Memory);
        }
    }

    // Adds the results of a worker.
    fn take(&mut self, given: Given)
        requires { IsWorkers given.fault }
        ensures len { length self.new.dossiers.items ≡ length self.old.dossiers.items }
        ensures holds { (cs : List ClosedBench) (ds : List (Final Rings)) (fs : List (Option Fault)) →
            Holds self.old cs ds fs →
            Holds self.new (cs ++ given.closing ∷ []) (ds ++ given.dossiers.items)
            (fs ++ given.fault ∷ []) }
    {
        let Given {
            closing,
            dossiers,
            waiting: _,
            fault,
        } = given;
        self.note_worker(fault);
        for dossier in dossiers {
            self.put(dossier);
        }
        self.keep(closing);
    }
}

/// Collects the results of all workers, with a place for each of `count` names.
pub(crate) fn gather(alloc: Global, all: Vec<Given>, count: usize) -> Result<Joined, RunFault>
    requires { All (λ g. IsWorkers g.fault) all.items }
    ensures len { IfOk result (λ j. length j.dossiers.items ≡ count) }
    ensures holds { IfOk result
        (λ j. Holds j (closings_of all.items) (dossiers_of all.items) (faults_of all.items)) }
    ensures err { IfErr result IsMemory }
{
    let mut joined = Joined::new(alloc, count)?;
    for given in all {
        joined.take(given);
    }
    Ok(joined)
}
