//! Flows whose segments and acknowledgements wait in one pipe.

ghost use Rattle.std.specs.Prelude.{◌≡◌, ℕ, ◌||◌, List, is_some, OnOk, IfOk};
ghost use Rattle.emu_model.specs.declared.commands.Timed.{Timed};
ghost use Rattle.due_index.specs.Table.{place_in};
ghost use Rattle.explain.specs.Shared.{is_two_way, is_serving, serves, serves_in, pipe_of, shared_by, shared_in, shared};

use crate::doubt::{Doubt, Doubtful};
use crate::ends::{Ends, packet_of, reverse_of, segment_ends};
use crate::likely::put_doubt;
use crate::rules::apply_until;
use due_index::NumberTable;
use emu_model::{Command, Mask, PipeConfig, PipeNumber, Timed, Verdict};
use emu_rules::RuleList;
use std::alloc::{AllocError, Global};

// Returns true if a mask has neither an address nor a port, so that both directions of a flow use
// one instance.
fn is_two_way(mask: &Mask) -> bool
    ensures { result ≡ is_two_way mask.now }
{
    mask.src == 0 && mask.dst == 0 && mask.sport == 0 && mask.dport == 0
}

// Returns true if both directions of a flow wait in one queue.
fn serves(config: &PipeConfig) -> bool
    ensures { result ≡ serves config.now }
{
    config.bw.get() > 0 && is_two_way(&config.mask)
}

fn note_serving(table: &mut NumberTable, command: &Command) -> Result<(), AllocError>
    ensures { OnOk result ((n : ℕ) → is_some (place_in table.new n)
        ≡ (serves_in n command.now || is_some (place_in table.old n))) }
{
    if let Command::Config { pipe, config } = command
        && serves(config)
    {
        table.make_room(pipe.get())?;
        table.set(pipe.get(), 0);
    }
    Ok(())
}

// Returns the numbers of the pipes in which both directions of a flow wait in one queue.
fn serving_pipes(alloc: Global, commands: &[Timed]) -> Result<NumberTable, AllocError>
    ensures { IfOk result (λ t. (n : ℕ) → is_some (place_in t n) ≡ is_serving commands.now n) }
{
    let mut table = NumberTable::new(alloc);
    for timed in commands {
        note_serving(&mut table, &timed.command)?;
    }
    Ok(table)
}

// Returns the pipe that the rules choose for packets with these ends.
fn pipe_of(rules: &RuleList, ends: &Ends) -> Option<PipeNumber>
    ensures { result ≡ pipe_of rules.now ends.now }
{
    match rules.find(&packet_of(ends)) {
        Verdict::IntoPipe(pipe, _) => Some(pipe),
        _ => None,
    }
}

fn shared_by(table: &NumberTable, rules: &RuleList, ends: &Ends) -> Option<Doubt>
    ensures { (all : List Timed) → ((n : ℕ) → is_some (place_in table.now n) ≡ is_serving all n) →
        result ≡ shared_by (is_serving all) rules.now ends.now }
{
    let there = pipe_of(rules, ends)?;
    let back = pipe_of(rules, &reverse_of(*ends))?;
    if there.get() == back.get() && table.get(there.get()).is_some() {
        Some(Doubt::SharedPipe(there))
    } else {
        None
    }
}

fn shared_in(table: &NumberTable, rules: &RuleList, command: &Command) -> Option<Doubt>
    ensures { (all : List Timed) → ((n : ℕ) → is_some (place_in table.now n) ≡ is_serving all n) →
        result ≡ shared_in (is_serving all) rules.now command.now }
{
    match command {
        Command::Flow { flow, .. } => shared_by(table, rules, &segment_ends(flow)),
        _ => None,
    }
}

/// Returns the flows for which the rules choose the same pipe, with a rate, in both directions. The
/// rules are those after all commands with the flow's time.
pub fn shared(alloc: Global, commands: &[Timed]) -> Result<Vec<Doubtful>, AllocError>
    ensures { IfOk result (λ out. out.items ≡ shared commands.now) }
{
    let table = serving_pipes(alloc, commands)?;
    let mut out = Vec::new(alloc);
    let mut ahead = RuleList::new(alloc)?;
    let mut taken = 0;
    for (number, timed) in commands.iter().enumerate() {
        taken = apply_until(&mut ahead, commands, taken, timed.moment)?;
        put_doubt(
            &mut out,
            number as u64,
            shared_in(&table, &ahead, &timed.command),
        )?;
    }
    Ok(out)
}
