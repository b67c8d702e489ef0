//! The outcome of an experiment that was run.

ghost use Rattle.std.specs.Prelude.{◌≡◌, ◌++◌, IfOk};
ghost use Rattle.report.specs.Lines.{heading_of};
ghost use Rattle.experiment.specs.Written.{kept_report};

use emu_model::{Counters, Record};
use experiment::Report;
use report::Archive;
use std::alloc::{AllocError, Global};
use std::marker::Model;

/// The outcome of a run: its records in order, the first of them packed, and its counters.
#[derive(Drop)]
pub(crate) struct Outcome {
    archive: Archive,
    rest: Vec<Record>,
    counters: Counters,
}

impl Model for Outcome {
    ghost use Rattle.std.specs.Prelude.{◌++◌};
    ghost use Rattle.emu_model.specs.Alone.{Trace};

    ghost Value = { Trace };

    ghost view = { λ o. record { records = o.archive ++ o.rest.items; counters = o.counters } };
}

impl Outcome {
    /// Creates an outcome of these records and counters.
    pub(crate) fn new(archive: Archive, rest: Vec<Record>, counters: Counters) -> Self
        ensures { result ≡ record { records = archive ++ rest.items; counters = counters } }
    {
        Outcome {
            archive,
            rest,
            counters,
        }
    }

    /// Returns the report of an experiment with this name and outcome. Fails with `AllocError` if
    /// memory runs out.
    pub(crate) fn into_report(self, alloc: Global, name: &[u8]) -> Result<Report, AllocError>
        ensures { IfOk result (λ r. r ≡ kept_report (heading_of name.now) self) }
    {
        let Outcome {
            mut archive,
            rest,
            counters,
        } = self;
        archive.append(rest.as_slice())?;
        Report::of(alloc, name, archive, &counters)
    }
}
