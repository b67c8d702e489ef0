//! The facts in the records of reports that are explained: the commands that were refused, and what
//! else is counted.

ghost use Rattle.std.specs.Prelude.{◌≡◌, ◌++◌, [], flat_map, OnOk};
ghost use Rattle.report.specs.Words.{code_of};
ghost use Rattle.explain.specs.Notes.{notes_of};
ghost use Rattle.explain.specs.Account.{refusals_by};

use crate::notes::{Note, count_record};
use emu_model::{Record, Refusal};
use report::{Archive, Source};
use std::alloc::{AllocError, Global};
use std::marker::Model;

/// A command that was refused: the number of its experiment in the scenario (from 1), its own
/// number in the experiment (from 0), and the code.
#[derive(Clone, Copy, Debug, PartialEq)]
pub struct RefusedCommand {
    pub experiment: u64,
    pub command: u64,
    pub code: u64,
}

/// The refusals in reports, and what else was counted, in the order of the reports.
#[derive(Drop)]
pub struct Account {
    alloc: Global,
    refusals: Vec<RefusedCommand>,
    notes: Vec<Note>,
}

impl Model for Account {
    ghost use Rattle.explain.specs.Account.{Told};

    ghost Value = { Told };

    ghost view = { λ a. record { refusals = a.refusals.items; notes = a.notes.items } };
}

fn code_of(why: Refusal) -> u64
    ensures { result ≡ code_of why }
{
    u64::from(why as u8)
}

// Adds the refusal if a record of the experiment with this number is one.
fn add_refusal(
    refusals: &mut Vec<RefusedCommand>,
    experiment: u64,
    entry: &Record,
) -> Result<(), AllocError>
    ensures { OnOk result
        (refusals.new.items ≡ refusals.old.items ++ refusals_by experiment entry.now) }
{
    if let Record::CommandRefused {
        command,
        refusal,
        ..
    } = *entry
    {
        refusals.push(RefusedCommand {
            experiment,
            command,
            code: code_of(refusal),
        })?;
    }
    Ok(())
}

impl Account {
    /// Creates the account of no reports.
    pub fn new(alloc: Global) -> Account
        ensures { result ≡ record { refusals = []; notes = [] } }
    {
        Account {
            alloc,
            refusals: Vec::new(alloc),
            notes: Vec::new(alloc),
        }
    }

    /// Returns the commands that were refused, in the order of the reports.
    pub fn refusals(&self) -> &[RefusedCommand]
        ensures { result.now ≡ self.now.refusals }
    {
        self.refusals.as_slice()
    }

    /// Returns what else was counted, report by report.
    pub fn notes(&self) -> &[Note]
        ensures { result.now ≡ self.now.notes }
    {
        self.notes.as_slice()
    }

    /// Adds the records of the experiment with this number, from 1. `AllocError` leaves a prefix of
    /// its refusals, and nothing else. Our choice.
    pub fn take(&mut self, experiment: u64, records: &Archive) -> Result<(), AllocError>
        ensures refusals { OnOk result (self.new.refusals
            ≡ self.old.refusals ++ flat_map (refusals_by experiment) records.now) }
        ensures notes { OnOk result
            (self.new.notes ≡ self.old.notes ++ notes_of experiment records.now) }
    {
        let mut notes = Vec::new(self.alloc);
        let mut reader = records.reader();
        while let Some(entry) = reader.next() {
            add_refusal(&mut self.refusals, experiment, &entry)?;
            count_record(&mut notes, experiment, &entry)?;
        }
        self.notes.extend_from_slice(notes.as_slice())
    }
}
