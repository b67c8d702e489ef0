//! The rules as the commands leave them.

ghost use Rattle.std.specs.Prelude.{◌≡◌, ◌≤◌, OnOk, IfOk, length, drop};
ghost use Rattle.explain.specs.Ways.{is_denied, is_deny};
ghost use Rattle.explain.specs.Walk.{after, behind_of};

use crate::ends::{Ends, packet_of};
use emu_model::{Command, Timed, Verdict};
use emu_rules::{AddError, RuleList};
use std::alloc::{AllocError, Global};

fn is_deny(verdict: &Verdict) -> bool
    ensures { result ≡ is_deny verdict.now }
{
    match verdict {
        Verdict::Dropped => true,
        _ => false,
    }
}

/// Returns true if the rules drop packets with these ends.
pub fn is_denied(rules: &RuleList, ends: &Ends) -> bool
    ensures { result ≡ is_denied rules.now ends.now }
{
    is_deny(&rules.find(&packet_of(ends)))
}

/// Applies a command to the rules. A refused command changes nothing.
pub fn apply(rules: &mut RuleList, command: &Command) -> Result<(), AllocError>
    ensures { OnOk result (rules.new ≡ after command.now rules.old) }
{
    match command {
        Command::Add(rule) => match rules.add(*rule) {
            Ok(()) => Ok(()),
            Err(AddError::Refused(_)) => Ok(()),
            Err(AddError::NoMemory) => Err(AllocError),
        },
        Command::Delete(number) => match rules.delete(*number) {
            Ok(()) => Ok(()),
            Err(_) => Ok(()),
        },
        _ => Ok(()),
    }
}

/// Applies the commands from number `taken` on whose time is at most `moment`. Returns the number
/// of the first command that is left.
pub fn apply_until(
    rules: &mut RuleList,
    commands: &[Timed],
    taken: usize,
    moment: u64,
) -> Result<usize, AllocError>
    requires { taken ≤ length commands.now }
    ensures within { IfOk result (λ n. n ≤ length commands.now) }
    ensures behind { IfOk result (λ n. behind_of moment rules.old (drop taken commands.now)
        ≡ record { book = rules.new; left = drop n commands.now }) }
{
    let mut next = taken;
    while next < commands.len() && commands[next].moment <= moment {
        apply(rules, &commands[next].command)?;
        next += 1;
    }
    Ok(next)
}
