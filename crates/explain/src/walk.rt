//! The packets that the rules deny, judged by the commands alone.

ghost use Rattle.std.specs.Prelude.{◌≡◌, ◌++◌, OnOk, IfOk};
ghost use Rattle.explain.specs.Walk.{denied, denied_flow, denials_at, denials};

use crate::ends::{Ends, reverse_of, segment_ends, sent_ends};
use crate::rules::{apply, apply_until, is_denied};
use crate::warning::{Concern, Sent, Warning};
use emu_model::{Command, Timed};
use emu_rules::RuleList;
use std::alloc::{AllocError, Global};

// Appends a warning if these rules deny packets with these ends.
fn note_denied(
    out: &mut Vec<Warning>,
    command: u64,
    sent: Sent,
    rules: &RuleList,
    ends: Ends,
) -> Result<(), AllocError>
    ensures { OnOk result (out.new.items ≡ out.old.items ++ denied command sent rules.now ends) }
{
    if !is_denied(rules, &ends) {
        return Ok(());
    }
    let other = !is_denied(rules, &reverse_of(ends));
    out.push(Warning {
        command: Some(command),
        concern: Concern::NoWay {
            ends,
            sent,
            count: None,
            other,
        },
    })?;
    Ok(())
}

fn note_flow(
    out: &mut Vec<Warning>,
    command: u64,
    rules: &RuleList,
    ends: Ends,
) -> Result<(), AllocError>
    ensures { OnOk result (out.new.items ≡ out.old.items ++ denied_flow command rules.now ends) }
{
    if is_denied(rules, &ends) {
        note_denied(out, command, Sent::Segments, rules, ends)
    } else {
        note_denied(out, command, Sent::Acks, rules, reverse_of(ends))
    }
}

// Appends the warnings for one command. `before` are the rules before it, and `behind` are the
// rules after all commands with its time.
#[tactic(auto, unfolding(crate::specs::Walk::denials_at))]
fn note_command(
    out: &mut Vec<Warning>,
    flows: bool,
    number: u64,
    before: &RuleList,
    behind: &RuleList,
    command: &Command,
) -> Result<(), AllocError>
    ensures { OnOk result (out.new.items
        ≡ out.old.items ++ denials_at flows number before.now behind.now command.now) }
{
    match command {
        Command::Inject(send) => {
            note_denied(out, number, Sent::Packets, before, sent_ends(send))
        }
        Command::Train { train, .. } => {
            note_denied(out, number, Sent::Packets, behind, sent_ends(&train.packet))
        }
        Command::Flow { flow, .. } if flows => note_flow(out, number, behind, segment_ends(flow)),
        _ => Ok(()),
    }
}

/// Returns a warning for each command whose packets the rules deny, in the order of the commands.
/// An `inject` is judged by the rules before its command, and trains and flows by the rules after
/// all commands with their time. Flows are judged only if `flows` is true.
pub fn denials(alloc: Global, flows: bool, commands: &[Timed]) -> Result<Vec<Warning>, AllocError>
    ensures { IfOk result (λ out. out.items ≡ denials flows commands.now) }
{
    let mut out = Vec::new(alloc);
    let mut rules = RuleList::new(alloc)?;
    let mut ahead = RuleList::new(alloc)?;
    let mut taken = 0;
    for (number, timed) in commands.iter().enumerate() {
        taken = apply_until(&mut ahead, commands, taken, timed.moment)?;
        note_command(
            &mut out,
            flows,
            number as u64,
            &rules,
            &ahead,
            &timed.command,
        )?;
        apply(&mut rules, &timed.command)?;
    }
    Ok(out)
}
