//! The warnings of an experiment.

ghost use Rattle.std.specs.Prelude.{◌≡◌, ◌++◌, ◌∷◌, [], take, IfOk, OnOk, None, option_map};
ghost use Rattle.explain.specs.Warnings.{way_of, no_way_of, flow_denied, of_subject, of_notes, of_seed, of_commands, warnings_of};

use crate::ends::{Ends, reverse_of, segment_ends};
use crate::notes::{Note, Subject};
use crate::rules::{apply_until, is_denied};
use crate::survey::{flow_place, has_loss, last_moment, pipes_missing};
use crate::walk::denials;
use emu_model::{Command, PipeNumber, Timed};
use emu_rules::RuleList;
use std::alloc::{AllocError, Global};

/// The maximum number of warnings per experiment for rules without a pipe, and for commands whose
/// packets the rules deny.
const MAX_OF_A_KIND: usize = 10;

/// The packets of a command that are denied: the packets of a train or an `inject`, a flow's
/// segments, or its acknowledgements.
#[derive(Clone, Copy, PartialEq)]
pub enum Sent {
    Packets,
    Segments,
    Acks,
}

/// Something that is silently wrong.
#[derive(Clone, Copy, PartialEq)]
pub enum Concern {
    /// The steps were spent at `moment`, before the `end` at time `end` (ns).
    Spent {
        moment: u64,
        end: u64,
    },
    /// Packets were dropped because of the budget: the time (ns) of the first, and the number.
    OverBudget {
        first: u64,
        count: u64,
    },
    /// Packets of trains and of single commands were denied: the time (ns) of the first, and the
    /// number.
    Denied {
        first: u64,
        count: u64,
    },
    /// Packets were dropped because their pipe didn't exist: the time (ns) of the first, and the
    /// number.
    PipeGone {
        first: u64,
        count: u64,
    },
    /// The seed is above 1, and no pipe has losses.
    UnusedSeed,
    /// A rule names a pipe that no command configures.
    NoPipe(PipeNumber),
    /// The rules deny packets with these ends: the kind of packets, their number if a run has
    /// counted them, and whether the rules let the other direction through.
    NoWay {
        ends: Ends,
        sent: Sent,
        count: Option<u64>,
        other: bool,
    },
}

/// A concern, and the number of the command that it is about, from 0, or `None` if it is about the
/// whole experiment.
#[derive(Clone, Copy, PartialEq)]
pub struct Warning {
    pub command: Option<u64>,
    pub concern: Concern,
}

fn put_whole(out: &mut Vec<Warning>, concern: Concern) -> Result<(), AllocError>
    ensures { OnOk result (out.new.items
        ≡ out.old.items ++ record { command = None; concern = concern } ∷ []) }
{
    out.push(Warning {
        command: None,
        concern,
    })?;
    Ok(())
}

fn way_of(sent: Sent, ends: Ends) -> Ends
    ensures { result ≡ way_of sent ends }
{
    match sent {
        Sent::Packets | Sent::Segments => ends,
        Sent::Acks => reverse_of(ends),
    }
}

// Appends a warning about the flow that this command begins: `count` of its packets were denied.
fn put_no_way(
    out: &mut Vec<Warning>,
    rules: &RuleList,
    place: u64,
    sent: Sent,
    count: u64,
    command: &Command,
) -> Result<(), AllocError>
    ensures { OnOk result (out.new.items
        ≡ out.old.items ++ no_way_of rules.now place sent count command.now) }
{
    let Command::Flow { flow, .. } = command else {
        return Ok(());
    };
    let ends = way_of(sent, segment_ends(flow));
    let other = !is_denied(rules, &reverse_of(ends));
    out.push(Warning {
        command: Some(place),
        concern: Concern::NoWay {
            ends,
            sent,
            count: Some(count),
            other,
        },
    })?;
    Ok(())
}

// Appends a warning about the flow with this number: `count` of its packets were denied.
fn put_flow(
    alloc: Global,
    out: &mut Vec<Warning>,
    commands: &[Timed],
    sent: Sent,
    count: u64,
    flow: u64,
) -> Result<(), AllocError>
    ensures { OnOk result (out.new.items
        ≡ out.old.items ++ flow_denied commands.now sent count flow) }
{
    let Some(place) = flow_place(flow, commands) else {
        return Ok(());
    };
    let Some(timed) = commands.get(place) else {
        return Ok(());
    };
    let mut rules = RuleList::new(alloc)?;
    apply_until(&mut rules, commands, 0, timed.moment)?;
    put_no_way(out, &rules, place as u64, sent, count, &timed.command)
}

// Appends the warning for a note.
fn put_note(
    alloc: Global,
    out: &mut Vec<Warning>,
    commands: &[Timed],
    note: &Note,
) -> Result<(), AllocError>
    ensures { OnOk result (out.new.items
        ≡ out.old.items ++ of_subject commands.now note.now.first note.now.count note.now.subject) }
{
    let first = note.first;
    let count = note.count;
    match note.subject {
        Subject::Spent => put_whole(
            out,
            Concern::Spent {
                moment: first,
                end: last_moment(commands),
            },
        ),
        Subject::OverBudget => put_whole(out, Concern::OverBudget { first, count }),
        Subject::NoPipe => put_whole(out, Concern::PipeGone { first, count }),
        Subject::DeniedPlain => put_whole(out, Concern::Denied { first, count }),
        Subject::DeniedData(flow) => put_flow(alloc, out, commands, Sent::Segments, count, flow),
        Subject::DeniedAck(flow) => put_flow(alloc, out, commands, Sent::Acks, count, flow),
    }
}

// Appends the warnings for the notes of the experiment with this number.
fn put_notes(
    alloc: Global,
    out: &mut Vec<Warning>,
    number: u64,
    commands: &[Timed],
    notes: &[Note],
) -> Result<(), AllocError>
    ensures { OnOk result (out.new.items ≡ out.old.items ++ of_notes number commands.now notes.now) }
{
    for note in notes {
        if note.experiment == number {
            put_note(alloc, out, commands, note)?;
        }
    }
    Ok(())
}

fn put_seed(out: &mut Vec<Warning>, seed: u64, commands: &[Timed]) -> Result<(), AllocError>
    ensures { OnOk result (out.new.items ≡ out.old.items ++ of_seed seed commands.now) }
{
    if seed <= 1 || has_loss(commands) {
        return Ok(());
    }
    put_whole(out, Concern::UnusedSeed)
}

// Appends the first ten warnings.
fn put_first(out: &mut Vec<Warning>, warnings: &[Warning]) -> Result<(), AllocError>
    ensures { OnOk result (out.new.items ≡ out.old.items ++ take 10 warnings.now) }
{
    let most = warnings.len().min(MAX_OF_A_KIND);
    out.extend_from_slice(&warnings[..most])
}

// Appends the warnings that are found from the commands alone.
fn put_commands(
    alloc: Global,
    out: &mut Vec<Warning>,
    flows: bool,
    seed: u64,
    commands: &[Timed],
) -> Result<(), AllocError>
    ensures { OnOk result (out.new.items ≡ out.old.items ++ of_commands flows seed commands.now) }
{
    put_seed(out, seed, commands)?;
    put_first(out, pipes_missing(alloc, commands)?.as_slice())?;
    put_first(out, denials(alloc, flows, commands)?.as_slice())
}

/// Returns the warnings for an experiment, given its number in the text (from 1), its seed, its
/// commands and, after a run, the notes on the report. Without a run, flows are judged by the rules
/// as well. The order is: the notes, the seed, the first ten rules without a pipe, and the first
/// ten commands whose packets the rules deny. Our choice.
pub fn warnings(
    alloc: Global,
    number: u64,
    seed: u64,
    commands: &[Timed],
    notes: Option<&[Note]>,
) -> Result<Vec<Warning>, AllocError>
    ensures { IfOk result (λ out. out.items
        ≡ warnings_of number seed commands.now (option_map (λ n. n.now) notes.entry)) }
{
    let mut out = Vec::new(alloc);
    match notes {
        None => put_commands(alloc, &mut out, true, seed, commands)?,
        Some(notes) => {
            put_notes(alloc, &mut out, number, commands, notes)?;
            put_commands(alloc, &mut out, false, seed, commands)?;
        }
    }
    Ok(out)
}
