//! The report of an experiment whose lines are built when it is written. Until then its records
//! take sixteen bytes each, where a line takes about forty.

ghost use Rattle.std.specs.Prelude.{◌≡◌, ◌++◌, [], flat_map, IfOk, OnOk};
ghost use Rattle.packet_store.specs.Pocket.{Pocket};
ghost use Rattle.report.specs.Lines.{heading_of, line_of};
ghost use Rattle.experiment.specs.Kept.{IsHousedIn};
ghost use Rattle.experiment.specs.Written.{CanCount, AreCountsOf, IsArchived, archived_counts, text_of};

use crate::Experiment;
use crate::counts::RecordCounts;
use emu_model::{Counters, Record};
use report::{Archive, Moments, write_counters, write_heading, write_source};
use std::alloc::{AllocError, Global};
use std::marker::Model;

/// The number of records that are stored or written together: they are still in the processor's
/// caches.
pub const BATCH: usize = 256;

/// The line with the name, the records so far, and the numbers of deliveries and of drops by cause
/// among them.
#[derive(Drop)]
pub struct ReportKeeper {
    alloc: Global,
    heading: Vec<u8>,
    archive: Archive,
    counts: RecordCounts,
}

impl Model for ReportKeeper {
    ghost use Rattle.experiment.specs.Written.{Archived};

    ghost Value = { Archived };

    ghost view = { λ k. record {
      heading = k.heading.items;
      records = k.archive;
      delivered = k.counts.delivered;
      drops = k.counts.drops;
    } };
}

impl ReportKeeper {
    /// Creates a report that has only the line with an experiment's name.
    pub fn new(alloc: Global, name: &[u8]) -> Result<Self, AllocError>
        ensures heading { IfOk result (λ k. k.heading ≡ heading_of name.now) }
        ensures records { IfOk result (λ k. k.records ≡ []) }
        ensures counts { IfOk result (λ k. AreCountsOf [] (archived_counts k)) }
    {
        let mut heading = Vec::new(alloc);
        write_heading(&mut heading, name)?;
        Ok(ReportKeeper {
            alloc,
            heading,
            archive: Archive::new(alloc),
            counts: RecordCounts::new(),
        })
    }

    /// Moves the records from an experiment to this report. Fails with `AllocError` if memory runs
    /// out.
    pub fn keep(&mut self, experiment: &mut Experiment) -> Result<(), AllocError>
        requires { CanCount (archived_counts self.old) experiment.old }
        ensures heading { OnOk result (self.new.heading ≡ self.old.heading) }
        ensures archived { OnOk result
            (self.new.records ≡ self.old.records ++ experiment.old.net.log.records) }
        ensures all { OnOk result ((p : Pocket) →
            IsArchived self.old p experiment.old → IsArchived self.new p experiment.new) }
        ensures rest { OnOk result (experiment.new ≡ record experiment.old {
          net = record experiment.old.net { log = experiment.new.net.log };
        }) }
        ensures records { OnOk result (experiment.new.net.log.records ≡ []) }
        ensures housed { OnOk result
            ((p : Pocket) → IsHousedIn p experiment.old → IsHousedIn p experiment.new) }
    {
        self.archive.append(experiment.records())?;
        self.counts.count(experiment);
        Ok(())
    }

    /// Completes the report with the counters: deliveries and drops as counted here, the rest from
    /// `standing`.
    pub fn into_report(self, standing: &Counters) -> Result<Report, AllocError>
        ensures { IfOk result (λ r. r ≡ record {
          heading = self.heading;
          records = self.records;
          counters = record standing.now { delivered = self.delivered; drops = self.drops };
        }) }
    {
        let ReportKeeper {
            alloc,
            heading,
            archive,
            counts,
        } = self;
        let mut last = Vec::new(alloc);
        let counters = counts.among(standing);
        write_counters(&mut last, &counters)?;
        Ok(Report {
            heading,
            archive,
            counters,
            last,
        })
    }
}

/// A report whose lines or rows are built when it is written. Contracts see its first line, its
/// records and its counters.
#[derive(Drop)]
pub struct Report {
    heading: Vec<u8>,
    archive: Archive,
    counters: Counters,
    // The line of the counters.
    last: Vec<u8>,
}

impl Model for Report {
    ghost use Rattle.std.specs.Prelude.{◌≡◌};
    ghost use Rattle.report.specs.Lines.{counters_of};
    ghost use Rattle.experiment.specs.Written.{KeptReport};

    ghost Value = { KeptReport };

    ghost view = { λ r. record {
      heading = r.heading.items;
      records = r.archive;
      counters = r.counters;
    } };

    ghost invariant = { λ r. r.last.items ≡ counters_of r.counters };
}

impl Report {
    /// Creates the report of archived records, followed by these counters. Fails with `AllocError`
    /// if memory runs out.
    pub fn of(
        alloc: Global,
        name: &[u8],
        archive: Archive,
        counters: &Counters,
    ) -> Result<Report, AllocError>
        ensures { IfOk result (λ r. r ≡ record {
          heading = heading_of name.now;
          records = archive;
          counters = counters.now;
        }) }
    {
        let mut heading = Vec::new(alloc);
        write_heading(&mut heading, name)?;
        let mut last = Vec::new(alloc);
        write_counters(&mut last, counters)?;
        Ok(Report {
            heading,
            archive,
            counters: *counters,
            last,
        })
    }

    /// Returns the first line, the records of the lines that follow, and the last line.
    pub fn parts(&self) -> (&[u8], &Archive, &[u8])
        ensures { result.0.now ++ (flat_map line_of result.1.now ++ result.2.now)
            ≡ text_of self.now }
    {
        (self.heading.as_slice(), &self.archive, self.last.as_slice())
    }

    /// Returns the records.
    pub fn records(&self) -> &Archive
        ensures { result.now ≡ self.now.records }
    {
        &self.archive
    }

    /// Returns the counters.
    pub fn counters(&self) -> &Counters
        ensures { result.now ≡ self.now.counters }
    {
        &self.counters
    }

    /// Returns the text of the report. Fails with `AllocError` if memory runs out.
    pub fn text(&self, alloc: Global) -> Result<Vec<u8>, AllocError>
        ensures { IfOk result (λ text. text.items ≡ text_of self.now) }
    {
        let mut text = Vec::new(alloc);
        let mut moments = Moments::new();
        text.extend_from_slice(self.heading.as_slice())?;
        write_source(&mut text, &mut moments, &mut self.archive.reader())?;
        text.extend_from_slice(self.last.as_slice())?;
        Ok(text)
    }
}
