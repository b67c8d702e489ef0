//! An experiment whose commands arrive one by one. Time passes as far as requested, and the records
//! are written.

ghost use Rattle.std.specs.Prelude.{◌≡◌, ℕ, ◌+◌, ◌*◌, ◌^◌, ◌≤◌, ◌<◌, ◌++◌, ◌∷◌, [], List, None, IsSome, IfOk, IfSome, OnOk, OnErr, true, false, length, flat_map, slice_get, drop};
ghost use Rattle.std.specs.List.{filter};
ghost use Rattle.session.specs.Fates.{concerns, first_hold, refusal_in, taken_by, MarkedBy};
ghost use Rattle.emu_model.specs.declared.records.Record.{Record};
ghost use Rattle.report.specs.Lines.{heading_of, line_of};
ghost use Rattle.experiment.specs.Written.{CanWrite};
ghost use Rattle.session.specs.Runs.{KeptRun, IsAt, IsProper, Forgets, Goes, Takes, IsQuiet, IsQuietAfter, state_of, made_of, closing_of, first_moment};
ghost use Rattle.session.specs.Stops.{StopsAt, IsEvent, Keeps};
ghost use Rattle.packet_store.specs.Own.{own_pocket};
ghost use Rattle.emu_model.specs.Step.{initial_state, step};
ghost use Rattle.emu_model.specs.RunLaws.{with_more};
ghost use Rattle.experiment.specs.Kept.{view, IsHousedIn, IsAloneAfter};
ghost use Rattle.session.specs.declared.fates.Stop.TheVariants.{Moment};

use crate::fates::{Stop, Taken, concerns, first_hold, mark_injected, taken_by};
use crate::marks::Marks;
use emu_model::{Ending, Record, Spec, Timed};
use experiment::{ApplyError, BATCH, Event, Experiment, ReportWriter};
use packet_store::OwnShelf;
use std::alloc::{AllocError, Global};
use std::marker::Model;

/// A time (ns) that no event reaches.
const PAST_ALL: u64 = 2_000_000_000_000_000;

/// An experiment with its packets, and its written lines that aren't passed on yet.
#[derive(Drop)]
pub struct Run {
    experiment: Experiment,
    shelf: OwnShelf,
    report: ReportWriter,
    shows_all: bool,
    // The packets that were injected.
    mine: Marks,
}

impl Model for Run {
    ghost use Rattle.session.specs.Runs.{KeptRun};

    ghost Value = { KeptRun };

    ghost view = { λ r. record {
      experiment = r.experiment;
      shelf = r.shelf;
      report = r.report;
      shows_all = r.shows_all;
      mine = r.mine;
    } };
}

// Appends the lines of the records about injected packets.
fn put_chosen(report: &mut ReportWriter, mine: &Marks, records: &[Record]) -> Result<(), AllocError>
    ensures { OnOk result (report.new ≡ record report.old {
      text = report.old.text ++ flat_map line_of (filter (concerns mine.now) records.now);
    }) }
{
    for line in records {
        if concerns(mine, line) {
            report.put(line)?;
        }
    }
    Ok(())
}

// Processes events until the pending command is done or the experiment has ended.
fn obey(experiment: &mut Experiment, shelf: &mut OwnShelf) -> Result<(), AllocError>
    requires housed { IsHousedIn (own_pocket shelf.old) experiment.old }
    requires proper { IsProper experiment.old }
    ensures housed { OnOk result (IsHousedIn (own_pocket shelf.new) experiment.new) }
    ensures proper { OnOk result (IsProper experiment.new) }
    ensures after { OnOk result ((earlier : List Record) →
        IsAloneAfter earlier (own_pocket shelf.old) experiment.old →
        IsAloneAfter earlier (own_pocket shelf.new) experiment.new) }
    ensures spec { OnOk result (experiment.new.spec ≡ experiment.old.spec) }
    ensures consumed { OnOk result (experiment.new.consumed ≡ experiment.old.consumed) }
    ensures done { OnOk result (experiment.new.ending ≡ None → experiment.new.next ≡ None) }
    ensures once { OnOk result (experiment.old.ending ≡ None → IsSome experiment.old.next →
        (step (view (own_pocket shelf.old) experiment.old)).left ≡ [] →
        view (own_pocket shelf.new) experiment.new
        ≡ step (view (own_pocket shelf.old) experiment.old)) }
{
    loop {
        match experiment.event(shelf, 0) {
            Event::Ran => {}
            Event::Halted => return Err(AllocError),
            Event::Ended => return Ok(()),
            Event::Still => return Ok(()),
        }
        if !experiment.has_next() {
            return Ok(());
        }
    }
}

impl Run {
    /// Creates an experiment that has no commands yet, and writes the line with its name.
    pub fn new(alloc: Global, name: &[u8], spec: Spec) -> Result<Self, AllocError>
        ensures at { IfOk result (λ r. IsAt 0 [] r) }
        ensures given { IfOk result
            (λ r. (r.experiment.spec ≡ spec) × (r.experiment.consumed ≡ [])
            × (r.experiment.ending ≡ None) × (r.shows_all ≡ true)
            × (r.mine ≡ [])
            × (r.report.text ≡ heading_of name.now)) }
        ensures begins { IfOk result (λ r. state_of r ≡ initial_state spec []) }
    {
        experiment::laws::waits_begin();
        Ok(Run {
            experiment: Experiment::new(alloc, spec)?,
            shelf: OwnShelf::new(alloc, spec.budget.packets),
            report: ReportWriter::new(alloc, name)?,
            shows_all: true,
            mine: Marks::new(alloc),
        })
    }

    /// Returns how the experiment ended, if it has.
    pub fn ending(&self) -> Option<Ending>
        ensures { result ≡ self.now.experiment.ending }
    {
        self.experiment.ending()
    }

    /// Sets whether all records are reported from now on, or only those about injected packets.
    pub fn show(&mut self, all: bool)
        ensures { self.new ≡ record self.old { shows_all = all } }
    {
        self.shows_all = all;
    }

    /// Writes the records and discards them. Returns `AllocError` if there is no memory for the
    /// lines.
    #[tactic(auto, using(crate::proofs::RunFacts::can_write_same))]
    pub fn write(&mut self) -> Result<(), AllocError>
        requires { CanWrite self.old.report self.old.experiment }
        ensures { OnOk result (Forgets self.old self.new) }
    {
        if self.experiment.records().is_empty() {
            return Ok(());
        }
        if self.shows_all {
            self.report.write(&mut self.experiment)?;
            return Ok(());
        }
        put_chosen(&mut self.report, &self.mine, self.experiment.records())?;
        self.report.count(&mut self.experiment);
        Ok(())
    }

    // Writes the records, once there is a batch of them.
    fn write_batch(&mut self) -> Result<(), AllocError>
        requires { CanWrite self.old.report self.old.experiment }
        ensures goes { OnOk result ((t u : ℕ) (was : KeptRun) → Goes t u was self.old →
            Goes t u was self.new) }
        ensures steps { OnOk result ((self.new.experiment.steps ≡ self.old.experiment.steps)
            × (self.new.experiment.spec ≡ self.old.experiment.spec)) }
        ensures keeps { OnOk result (Keeps self.old self.new) }
    {
        if self.experiment.records().len() < BATCH {
            return Ok(());
        }
        self.write()
    }

    // Processes the first event that is due before `limit`. Returns true if there was one and the
    // experiment continues, and the new current time: one past the event, or `limit` if nothing is
    // due.
    fn next_before(&mut self, reached: u64, limit: u64) -> Result<(bool, u64), AllocError>
        requires at { (earlier : List Record) × IsAt reached earlier self.old }
        requires on { reached ≤ limit }
        requires early { limit ≤ 10 ^ 15 }
        ensures between { IfOk result (λ r. (reached ≤ r.1) × (r.1 ≤ limit)) }
        ensures goes { IfOk result (λ r. (t : ℕ) (was : KeptRun) → Goes t reached was self.old →
            Goes t r.1 was self.new) }
        ensures runs { IfOk result (λ r. r.0 ≡ true →
            (self.new.experiment.steps ≡ self.old.experiment.steps + 1)
            × (self.new.experiment.steps ≤ self.new.experiment.spec.budget.steps)
            × (self.new.experiment.spec ≡ self.old.experiment.spec)) }
        ensures quiet { IfOk result (λ r. IsQuietAfter limit r self.new) }
        ensures event { IfOk result (λ r. IsEvent reached limit r self.old self.new) }
    {
        experiment::laws::waits_read_no_records();
        let event = self.experiment.event_before(&mut self.shelf, 0, limit);
        match event {
            Event::Halted => Err(AllocError),
            Event::Still => Ok((false, limit)),
            Event::Ran => Ok((true, reached.max(self.experiment.clock() + 1))),
            Event::Ended => Ok((false, reached.max(self.experiment.clock() + 1))),
        }
    }

    // Returns how long after the last event time is to stop, if one of the records from index
    // `seen` stops it.
    fn hold_since(&self, seen: usize, stop: Stop) -> Option<u64>
        ensures { result ≡ first_hold self.now.mine stop (drop seen self.now.experiment.net.log.records) }
    {
        let fresh = self.experiment.records().get(seen..)?;
        first_hold(&self.mine, fresh, stop)
    }

    /// Lets time pass from `from` to `limit` (ns), or until `stop`: all events due before then
    /// happen in order, and their records are written, except the last ones. Returns the new
    /// current time, or `AllocError` if an allocation fails.
    pub fn pass(&mut self, from: u64, limit: u64, stop: Stop) -> Result<u64, AllocError>
        requires at { (earlier : List Record) × IsAt from earlier self.old }
        requires on { from ≤ limit }
        requires early { limit ≤ 10 ^ 15 }
        ensures between { IfOk result (λ u. (from ≤ u) × (u ≤ limit)) }
        ensures goes { IfOk result (λ u. Goes from u self.old self.new) }
        ensures quiet { IfOk result (λ u. self.new.experiment.ending ≡ None → IsQuiet u self.new) }
        ensures whole { IfOk result (λ u. self.new.experiment.ending ≡ None → stop ≡ Moment → u ≡ limit) }
        ensures stops { IfOk result (λ u. StopsAt stop from limit u self.old self.new) }
    {
        emu_model::laws::packets_add_up();
        let mut reached = from;
        let mut last = limit;
        let mut until = stop;
        loop {
            self.write_batch()?;
            let seen = self.experiment.records().len();
            let (goes_on, now) = self.next_before(reached, last)?;
            reached = now;
            if !goes_on {
                return Ok(reached);
            }
            match self.hold_since(seen, until) {
                None => {}
                Some(hold) => {
                    let after = self.experiment.clock().saturating_add(hold);
                    last = last.min(reached.max(after));
                    until = Stop::Moment;
                }
            }
        }
    }

    /// Applies a command whose time is the current time or later. All events due before it happen,
    /// and then it is done or refused; nothing is written yet. Returns `AllocError` if an
    /// allocation fails.
    pub fn take(&mut self, command: &Timed) -> Result<Taken, AllocError>
        requires at { (t : ℕ) × (earlier : List Record) × IsAt t earlier self.old
            × (t ≤ command.now.moment) }
        requires going { self.old.experiment.ending ≡ None }
        requires early { command.now.moment ≤ 10 ^ 15 }
        ensures takes { OnOk result (Takes command.now self.old self.new) }
        ensures steps { OnOk result (IsQuiet command.now.moment self.old →
            state_of self.new ≡ step (with_more (command.now ∷ []) (state_of self.old))) }
        ensures marked { OnOk result
            (MarkedBy command.now.command (made_of self.old) self.old.mine self.new.mine) }
        ensures taken { IfOk result (λ t. t ≡ taken_by command.now.command (made_of self.old)
            (refusal_in (slice_get self.new.experiment.net.log.records
            (length self.old.experiment.net.log.records)))) }
    {
        experiment::laws::waits_begin();
        experiment::laws::commands_go_on();
        emu_model::laws::records_are_not_read();
        let number = self.experiment.made_count();
        let seen = self.experiment.records().len();
        mark_injected(&mut self.mine, &command.command, number)?;
        match self.experiment.apply(command) {
            Ok(()) => {}
            Err(ApplyError::NoMemory) => return Err(AllocError),
            Err(ApplyError::Over) => unreachable!(),
            Err(ApplyError::Busy) => unreachable!(),
            Err(ApplyError::Backward) => unreachable!(),
        }
        obey(&mut self.experiment, &mut self.shelf)?;
        Ok(taken_by(
            &command.command,
            number,
            self.experiment.records().get(seen),
        ))
    }

    /// Writes the line of the counters. `AllocError` leaves what was already written of the line.
    pub fn conclude(&mut self) -> Result<(), AllocError>
        requires { IsHousedIn (own_pocket self.old.shelf) self.old.experiment }
        ensures { OnOk result (self.new ≡ record self.old {
          report = record self.old.report {
            text = self.old.report.text ++ closing_of self.old;
          };
        }) }
    {
        self.report.write_counters(&self.experiment.counters())
    }

    /// Moves the text written so far to the end of `out`. Returns `AllocError`, and changes
    /// nothing, if `out` can't grow.
    pub fn hand_out(&mut self, out: &mut Vec<u8>) -> Result<(), AllocError>
        ensures ok { OnOk result ((out.new.items ≡ out.old.items ++ self.old.report.text)
            × (self.new ≡ record self.old { report = record self.old.report { text = [] } })) }
        ensures err { OnErr result ((out.new.items ≡ out.old.items) × (self.new ≡ self.old)) }
    {
        self.report.hand_out(out)
    }

    /// Returns the time (ns) of the first event that is due, if there is one.
    pub fn next_moment(&self) -> Option<u64>
        ensures some { IfSome result (λ m. (m ≡ first_moment self.now) × (m < 2 * 10 ^ 15)) }
        ensures none { result ≡ None → IsQuiet (2 * 10 ^ 15) self.now }
    {
        let moment = self.experiment.next_moment()?;
        // It is always below, but the experiment's contract doesn't say so.
        if moment >= PAST_ALL {
            return None;
        }
        Some(moment)
    }
}
