//! The report of an experiment while it runs: its records are written as lines, and then discarded.

ghost use Rattle.std.specs.Prelude.{◌≡◌, ℕ, ◌++◌, List, [], flat_map, IfOk, OnOk, OnErr};
ghost use Rattle.emu_model.specs.declared.records.Record.{Record};
ghost use Rattle.packet_store.specs.Pocket.{Pocket};
ghost use Rattle.report.specs.Lines.{heading_of, counters_of, line_of};
ghost use Rattle.experiment.specs.Kept.{IsHousedIn, IsAloneAfter, IsWaiting};
ghost use Rattle.experiment.specs.Written.{Counts, CanWrite, HasWritten};

use crate::Experiment;
use crate::counts::RecordCounts;
use emu_model::{Counters, Record};
use report::{Moments, write_counters, write_heading, write_record, write_records};
use std::alloc::{AllocError, Global};
use std::marker::Model;

/// The lines so far, after the one with the name, and the numbers of deliveries and of drops by
/// cause among them.
#[derive(Drop)]
pub struct ReportWriter {
    text: Vec<u8>,
    // The cache that the lines so far pass on to the next one.
    moments: Moments,
    counts: RecordCounts,
}

impl Model for ReportWriter {
    ghost use Rattle.experiment.specs.Written.{Written};

    ghost Value = { Written };

    ghost view = { λ t. record {
      text = t.text.items;
      delivered = t.counts.delivered;
      drops = t.counts.drops;
    } };
}

impl ReportWriter {
    /// Creates a report that has only the line with an experiment's name.
    pub fn new(alloc: Global, name: &[u8]) -> Result<Self, AllocError>
        ensures { IfOk result (HasWritten (heading_of name.now) []) }
    {
        let mut text = Vec::new(alloc);
        write_heading(&mut text, name)?;
        Ok(ReportWriter {
            text,
            moments: Moments::new(),
            counts: RecordCounts::new(),
        })
    }

    /// Writes the records of an experiment, and removes them from it. Fails with `AllocError` if
    /// memory runs out.
    pub fn write(&mut self, experiment: &mut Experiment) -> Result<(), AllocError>
        requires { CanWrite self.old experiment.old }
        ensures text { OnOk result
            (self.new.text ≡ self.old.text ++ flat_map line_of experiment.old.net.log.records) }
        ensures counts { OnOk result ((rs : List Record) → Counts rs self.old →
            Counts (rs ++ experiment.old.net.log.records) self.new) }
        ensures rest { OnOk result (experiment.new ≡ record experiment.old {
          net = record experiment.old.net { log = experiment.new.net.log };
        }) }
        ensures records { OnOk result (experiment.new.net.log.records ≡ []) }
        ensures housed { OnOk result
            ((p : Pocket) → IsHousedIn p experiment.old → IsHousedIn p experiment.new) }
        ensures after { OnOk result
            ((earlier : List Record) (p : Pocket) → IsAloneAfter earlier p experiment.old →
            IsAloneAfter (earlier ++ experiment.old.net.log.records) p experiment.new) }
        ensures waits { OnOk result
            ((t : ℕ) (earlier : List Record) (p : Pocket) → IsWaiting t earlier p experiment.old →
            IsWaiting t (earlier ++ experiment.old.net.log.records) p experiment.new) }
    {
        write_records(&mut self.text, &mut self.moments, experiment.records())?;
        self.count(experiment);
        Ok(())
    }

    /// Appends the line of a record, without counting the record. Fails with `AllocError` if memory
    /// runs out.
    pub fn put(&mut self, line: &Record) -> Result<(), AllocError>
        ensures ok { OnOk result
            (self.new ≡ record self.old { text = self.old.text ++ line_of line.now }) }
    {
        write_record(&mut self.text, &mut self.moments, line)
    }

    /// Counts the records of an experiment, and removes them from it without writing them.
    pub fn count(&mut self, experiment: &mut Experiment)
        requires { CanWrite self.old experiment.old }
        ensures text { self.new.text ≡ self.old.text }
        ensures counts { (rs : List Record) → Counts rs self.old →
            Counts (rs ++ experiment.old.net.log.records) self.new }
        ensures rest { experiment.new ≡ record experiment.old {
          net = record experiment.old.net { log = experiment.new.net.log };
        } }
        ensures records { experiment.new.net.log.records ≡ [] }
        ensures housed { (p : Pocket) → IsHousedIn p experiment.old → IsHousedIn p experiment.new }
        ensures after { (earlier : List Record) (p : Pocket) →
            IsAloneAfter earlier p experiment.old →
            IsAloneAfter (earlier ++ experiment.old.net.log.records) p experiment.new }
        ensures waits { (t : ℕ) (earlier : List Record) (p : Pocket) →
            IsWaiting t earlier p experiment.old →
            IsWaiting t (earlier ++ experiment.old.net.log.records) p experiment.new }
    {
        self.counts.count(experiment);
    }

    /// Moves the text so far to the end of `out`; the counts stay. If allocation fails, nothing
    /// changes.
    pub fn hand_out(&mut self, out: &mut Vec<u8>) -> Result<(), AllocError>
        ensures ok { OnOk result
            ((out.new.items ≡ out.old.items ++ self.old.text)
            × (self.new ≡ record self.old { text = [] })) }
        ensures err { OnErr result
            ((out.new.items ≡ out.old.items) × (self.new ≡ self.old)) }
    {
        out.extend_from_slice(self.text.as_slice())?;
        self.text.clear();
        Ok(())
    }

    /// Appends the line of the counters: deliveries and drops as counted here, the rest from
    /// `standing`. After `AllocError` a part of the line may have been written.
    pub fn write_counters(&mut self, standing: &Counters) -> Result<(), AllocError>
        ensures { OnOk result
            (self.new ≡ record self.old {
              text = self.old.text ++ counters_of (record standing.now {
                delivered = self.old.delivered;
                drops = self.old.drops;
              });
            }) }
    {
        let counters = self.counts.among(standing);
        write_counters(&mut self.text, &counters)
    }
}
