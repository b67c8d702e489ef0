//! The final result for a tenant.

ghost use Rattle.std.specs.Prelude.{◌≡◌, ◌≤◌, ◌++◌, slice_get, Some};
ghost use Rattle.emu_model.specs.Net.{counters_of};
ghost use Rattle.emu_model.specs.Alone.{alone};
ghost use Rattle.experiment.specs.Kept.{shown_ending};
ghost use Rattle.bench.specs.Outcomes.{settled};

use crate::mail::RingMail;
use emu_model::{Counters, Ending, Record, Spec, Timed};
use report::Archive;
use shard::Dossier;
use std::marker::Model;

/// The final result for a tenant: the dossier that it accepted as its own.
#[derive(Drop)]
pub struct Outcome {
    dossier: Dossier<RingMail>,
}

impl Model for Outcome {
    ghost use Rattle.bench.specs.Outcomes.{Settled, settled};

    ghost Value = { Settled };

    ghost view = { λ o. settled o.dossier };
}

impl Outcome {
    pub(crate) fn new(dossier: Dossier<RingMail>) -> Self
        ensures { result ≡ settled dossier }
    {
        Outcome { dossier }
    }

    /// Returns the name.
    pub fn name(&self) -> u32
        ensures { result ≡ self.now.name }
    {
        self.dossier.name()
    }

    /// Returns the specification of the experiment.
    pub fn spec(&self) -> Spec
        ensures { result ≡ self.now.spec }
    {
        self.dossier.spec()
    }

    /// Returns the commands of the experiment.
    pub fn commands(&self) -> &[Timed]
        ensures { result.now ≡ self.now.commands }
    {
        self.dossier.consumed()
    }

    /// Returns the record at a place, or None if there is none.
    pub fn record(&self, place: usize) -> Option<Record>
        ensures { result ≡ slice_get self.now.records place }
    {
        self.dossier.record(place)
    }

    /// Returns the counters: the packets created, delivered, held, and dropped by cause.
    pub fn counters(&self) -> Counters
        ensures { result ≡ self.now.counters }
    {
        self.dossier.counters()
    }

    /// Returns the ending.
    pub fn ending(&self) -> Ending
        ensures { result ≡ self.now.ending }
    {
        self.dossier.ending()
    }

    /// Returns the number of steps made.
    pub fn events(&self) -> u64
        ensures { result ≡ self.now.events }
    {
        self.dossier.events()
    }

    /// Returns the records: those that the mail kept, and those after them.
    pub fn into_records(self) -> (Archive, Vec<Record>)
        ensures { result.0 ++ result.1.items ≡ self.records }
    {
        let Outcome { dossier } = self;
        let (_, mail, records) = dossier.into_parts();
        (mail.kept, records)
    }

    /// Reveals the invariant of every outcome: its records, its counters and its ending are those
    /// of running it alone.
    pub fn reveal_invariant(&self)
        ensures records { self.now.records
            ≡ (alone self.now.spec self.now.commands self.now.events).net.records }
        ensures counters { self.now.counters
            ≡ counters_of (alone self.now.spec self.now.commands self.now.events).net }
        ensures ending { shown_ending (Some self.now.ending)
            ≡ (alone self.now.spec self.now.commands self.now.events).ending }
        ensures few { self.now.events ≤ self.now.spec.budget.steps }
        ensures made { (alone self.now.spec self.now.commands self.now.events).steps
            ≡ self.now.events }
    {
        self.dossier.reveal_invariant();
    }
}
