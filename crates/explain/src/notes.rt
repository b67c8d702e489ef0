//! The facts in reports other than refused commands: steps that were spent, and packets that the
//! rules and the budget dropped.

ghost use Rattle.std.specs.Prelude.{◌≡◌, ◌<◌, length, vec_len, position, slice_get, IfSome, OnOk};
ghost use Rattle.explain.specs.Notes.{denied, dropped, is_same, more_at, noted, noted_if, noted_by};

use emu_model::{DropCause, Load, Record};
use std::alloc::AllocError;

/// The kind of event that is counted for an experiment.
#[derive(Clone, Copy, Debug, PartialEq)]
pub enum Subject {
    /// Its steps were spent.
    Spent,
    /// A packet was dropped because of the budget.
    OverBudget,
    /// A packet was dropped because its pipe didn't exist.
    NoPipe,
    /// A packet of a train or an `inject` was denied.
    DeniedPlain,
    /// A segment of this flow was denied.
    DeniedData(u64),
    /// An acknowledgement of this flow was denied.
    DeniedAck(u64),
}

/// The number of events of one kind in the experiment with this number in the scenario (from 1),
/// and the time of the first (ns).
#[derive(Clone, Copy, Debug, PartialEq)]
pub struct Note {
    pub experiment: u64,
    pub subject: Subject,
    pub first: u64,
    pub count: u64,
}

fn subject_of_denial(load: Load) -> Subject
    ensures { result ≡ denied load }
{
    match load {
        Load::Plain => Subject::DeniedPlain,
        Load::Seg { flow, .. } => Subject::DeniedData(u64::from(flow.get())),
        Load::Ack { flow, .. } => Subject::DeniedAck(u64::from(flow.get())),
    }
}

// Returns the kind of event that a drop counts as.
fn subject_of_drop(cause: DropCause, load: Load) -> Option<Subject>
    ensures { result ≡ dropped cause load }
{
    match cause {
        DropCause::Denied => Some(subject_of_denial(load)),
        DropCause::Budget => Some(Subject::OverBudget),
        DropCause::NoPipe => Some(Subject::NoPipe),
        _ => None,
    }
}

fn is_same(one: Subject, other: Subject) -> bool
    ensures { result ≡ is_same one other }
{
    match (one, other) {
        (Subject::Spent, Subject::Spent) => true,
        (Subject::OverBudget, Subject::OverBudget) => true,
        (Subject::NoPipe, Subject::NoPipe) => true,
        (Subject::DeniedPlain, Subject::DeniedPlain) => true,
        (Subject::DeniedData(flow), Subject::DeniedData(other)) => flow == other,
        (Subject::DeniedAck(flow), Subject::DeniedAck(other)) => flow == other,
        _ => false,
    }
}

// Returns the index of the note with this subject.
fn place_of(notes: &[Note], subject: Subject) -> Option<usize>
    ensures value { result ≡ position (λ n. is_same subject n.subject) notes.now }
    ensures within { IfSome result (λ k. k < length notes.now) }
{
    notes.iter().position(|note| is_same(subject, note.subject))
}

fn count_again(notes: &mut Vec<Note>, place: usize)
    requires { place < vec_len notes.old }
    ensures { notes.new.items ≡ more_at notes.old.items place (slice_get notes.old.items place) }
{
    let count = notes[place].count.saturating_add(1);
    notes[place].count = count;
}

// Counts an event once more.
fn put_note(
    notes: &mut Vec<Note>,
    experiment: u64,
    moment: u64,
    subject: Subject,
) -> Result<(), AllocError>
    ensures { OnOk result (notes.new.items ≡ noted experiment moment subject notes.old.items) }
{
    if let Some(place) = place_of(notes, subject) {
        count_again(notes, place);
        return Ok(());
    }
    notes.push(Note {
        experiment,
        subject,
        first: moment,
        count: 1,
    })?;
    Ok(())
}

// Counts an event once more, if there is one.
fn put_if(
    notes: &mut Vec<Note>,
    experiment: u64,
    moment: u64,
    subject: Option<Subject>,
) -> Result<(), AllocError>
    ensures { OnOk result (notes.new.items ≡ noted_if experiment moment subject notes.old.items) }
{
    match subject {
        None => Ok(()),
        Some(subject) => put_note(notes, experiment, moment, subject),
    }
}

/// Counts the event, if any, in a record of the experiment with this number.
pub(crate) fn count_record(
    notes: &mut Vec<Note>,
    experiment: u64,
    entry: &Record,
) -> Result<(), AllocError>
    ensures { OnOk result (notes.new.items ≡ noted_by experiment entry.now notes.old.items) }
{
    match *entry {
        Record::StepsSpent { moment } => put_note(notes, experiment, moment, Subject::Spent),
        Record::PacketDropped {
            moment,
            load,
            cause,
            ..
        } => put_if(notes, experiment, moment, subject_of_drop(cause, load)),
        _ => Ok(()),
    }
}
