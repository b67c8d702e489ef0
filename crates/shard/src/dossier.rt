//! The dossiers of ended experiments.

ghost use Rattle.std.specs.Prelude.{◌≡◌, ◌≤◌, ◌++◌, ℕ, [], slice_get, take, Some};
ghost use Rattle.emu_model.specs.Net.{counters_of};
ghost use Rattle.emu_model.specs.Alone.{alone};
ghost use Rattle.experiment.specs.Kept.{shown_ending};
ghost use Rattle.shard.specs.Stand.{heard_from};

use crate::list_mail::ListMail;
use crate::mail::Mail;
use emu_model::{Counters, Ending, Record, Spec, Timed};
use std::marker::Model;

/// The results of an experiment that has ended, or that was halted because memory ran out.
#[derive(Drop)]
pub struct Dossier<M: Mail> {
    pub(crate) name: u32,
    pub(crate) spec: Spec,
    pub(crate) commands: Vec<Timed>,
    // The records after those that the mail keeps.
    pub(crate) records: Vec<Record>,
    pub(crate) counters: Counters,
    pub(crate) ending: Ending,
    pub(crate) events: u64,
    pub(crate) mail: M,
    pub(crate) published: u128,
}

impl<M: Mail> Model for Dossier<M> {
    ghost use Rattle.std.specs.Prelude.{◌++◌};
    ghost use Rattle.shard.specs.Stand.{Final};

    ghost Value = { Final M };

    ghost use Rattle.shard.specs.Stand.{IsFinal};

    ghost view = { λ d. record {
      name = d.name;
      spec = d.spec;
      commands = d.commands.items;
      records = M.kept d.mail ++ d.records.items;
      counters = d.counters;
      ending = d.ending;
      events = d.events;
      mail = d.mail;
    } };

    ghost invariant = { λ d. IsFinal M.seen (record {
      name = d.name;
      spec = d.spec;
      commands = d.commands.items;
      records = M.kept d.mail ++ d.records.items;
      counters = d.counters;
      ending = d.ending;
      events = d.events;
      mail = d.mail;
    }) d.published };
}

impl<M: Mail> Dossier<M> {
    /// Returns the name.
    pub fn name(&self) -> u32
        ensures { result ≡ self.now.name }
    {
        self.name
    }

    /// Returns the specification of the experiment.
    pub fn spec(&self) -> Spec
        ensures { result ≡ self.now.spec }
    {
        self.spec
    }

    /// Returns the commands so far.
    pub fn consumed(&self) -> &[Timed]
        ensures { result.now ≡ self.now.commands }
    {
        &self.commands
    }

    /// Returns the record at a place, or None if there is none.
    pub fn record(&self, place: usize) -> Option<Record>
        ensures { result ≡ slice_get self.now.records place }
    {
        let kept = self.mail.kept_len();
        if place < kept {
            return self.mail.kept_record(place);
        }
        self.records.as_slice().get(place - kept).copied()
    }

    /// Returns the counters: the packets created, delivered, held, and dropped by cause.
    pub fn counters(&self) -> Counters
        ensures { result ≡ self.now.counters }
    {
        self.counters
    }

    /// Returns the ending.
    pub fn ending(&self) -> Ending
        ensures { result ≡ self.now.ending }
    {
        self.ending
    }

    /// Returns the mail.
    pub fn mail(&self) -> &M
        ensures { result.now ≡ self.now.mail }
    {
        &self.mail
    }

    /// Returns the number of steps made.
    pub fn events(&self) -> u64
        ensures { result ≡ self.now.events }
    {
        self.events
    }

    /// Returns the commands so far, the mail, and the records after those that the mail keeps.
    pub fn into_parts(self) -> (Vec<Timed>, M, Vec<Record>)
        ensures commands { result.0.items ≡ self.commands }
        ensures mail { result.1 ≡ self.mail }
        ensures records { M.kept result.1 ++ result.2.items ≡ self.records }
    {
        let Dossier {
            name: _,
            spec: _,
            commands,
            records,
            counters: _,
            ending: _,
            events: _,
            mail,
            published: _,
        } = self;
        (commands, mail, records)
    }

    /// Reveals the invariant of every dossier: its records and counters are those of running it
    /// alone on its commands, which came from its mail, and the letters that its mail accepted are
    /// the first of its records.
    pub fn reveal_invariant(&self)
        ensures records { self.now.records
            ≡ (alone self.now.spec self.now.commands self.now.events).net.records }
        ensures counters { self.now.counters
            ≡ counters_of (alone self.now.spec self.now.commands self.now.events).net }
        ensures ending { shown_ending (Some self.now.ending)
            ≡ (alone self.now.spec self.now.commands self.now.events).ending }
        ensures few { self.now.events ≤ self.now.spec.budget.steps }
        ensures made { (alone self.now.spec self.now.commands self.now.events).steps
            ≡ self.now.events }
        ensures heard { self.now.commands ≡ heard_from [] (M.seen self.now.mail).given }
        ensures told { (published : ℕ)
            × ((M.seen self.now.mail).letters ≡ take published self.now.records) }
    {
        let _ = &self.published;
    }
}

impl Dossier<ListMail> {
    ghost use Rattle.std.specs.Prelude.{◌≡◌, ◌≤◌, ◌<◌, ◌^◌, OnOk, IfErr, OnErr, length};
    ghost use Rattle.shard.specs.Posts.{with_command, Reads};

    /// Returns the records.
    pub fn records(&self) -> &[Record]
        ensures { result.now ≡ self.now.records }
    {
        &self.records
    }

    /// Adds a command to the mail, from which nobody takes it any more, or returns it if 64 are
    /// waiting. Does not allocate.
    pub fn put(&mut self, timed: Timed) -> Result<(), Timed>
        requires { timed.moment ≤ 10 ^ 15 }
        ensures ok { OnOk result
            (self.new ≡ record self.old { mail = with_command self.old.mail timed }) }
        ensures room { OnOk result (length self.old.mail.waiting < 64) }
        ensures err { OnErr result (self.new ≡ self.old) }
        ensures back { IfErr result (λ t. t ≡ timed) }
        ensures full { OnErr result (length self.old.mail.waiting ≡ 64) }
    {
        match self.mail.put(timed) {
            Ok(()) => return Ok(()),
            Err(timed) => return Err(timed),
        }
    }

    /// Removes the first unread letter from the mail, and returns it, or None if there is none.
    pub fn read(&mut self) -> Option<Record>
        ensures reads { Reads result self.old.mail self.new.mail }
        ensures same { self.new ≡ record self.old { mail = self.new.mail } }
    {
        match self.mail.read() {
            Some(news) => return Some(news),
            None => return None,
        }
    }
}
