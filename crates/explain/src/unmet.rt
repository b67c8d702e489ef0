//! Rules and pipes that no packet meets, as far as the commands show the senders.

use crate::doubt::{Doubt, Doubtful};
use crate::ends::{Ends, packet_of, reverse_of, segment_ends, sent_ends};
use due_index::NumberTable;
use emu_model::{Command, PipeNumber, Rule, Timed, Verdict};
use emu_rules::{AddError, RuleList};
use std::alloc::{AllocError, Global};

/// The numbers of senders, and of searches for their packets, above which there is no warning.
const MAX_SENDERS: usize = 512;

const MAX_SEARCHES: usize = 1 << 17;

// The rules, and for each added rule, in the order of addition, its command and whether a packet
// met it.
#[derive(Drop)]
struct Walk {
    rules: RuleList,
    added: Vec<Added>,
    pipes: NumberTable,
    is_one_pass: bool,
    searches: usize,
}

#[derive(Clone, Copy)]
struct Added {
    command: u64,
    // True if the rule existed when a sender sent, and true if it matched.
    is_tried: bool,
    is_met: bool,
}

// Returns the ends of the packets that a command sends.
fn ends_of(command: &Command) -> Option<Ends> {
    match command {
        Command::Inject(send) => Some(sent_ends(send)),
        Command::Train { train, .. } => Some(sent_ends(&train.packet)),
        Command::Flow { flow, .. } => Some(segment_ends(flow)),
        _ => None,
    }
}

// Returns each sender once, or `None` if there are too many.
fn senders(alloc: Global, commands: &[Timed]) -> Result<Option<Vec<Ends>>, AllocError> {
    let mut found: Vec<Ends> = Vec::new(alloc);
    for timed in commands {
        let Some(ends) = ends_of(&timed.command) else {
            continue;
        };
        if found.iter().any(|known| *known == ends) {
            continue;
        }
        if found.len() == MAX_SENDERS {
            return Ok(None);
        }
        found.push(ends)?;
    }
    Ok(Some(found))
}

impl Walk {
    fn new(alloc: Global) -> Result<Walk, AllocError> {
        Ok(Walk {
            rules: RuleList::new(alloc)?,
            added: Vec::new(alloc),
            pipes: NumberTable::new(alloc),
            is_one_pass: true,
            searches: 0,
        })
    }

    fn note_pipe(&mut self, pipe: PipeNumber) -> Result<(), AllocError> {
        self.pipes.make_room(pipe.get())?;
        self.pipes.set(pipe.get(), 0);
        Ok(())
    }

    // Sends a packet with these ends through the rules, which counts at the rules and pipes that it
    // meets.
    fn send(&mut self, ends: &Ends) -> Result<(), AllocError> {
        let packet = packet_of(ends);
        let mut verdict = self.rules.verdict(&packet);
        for _ in 0..self.rules.len() {
            self.searches = self.searches.saturating_add(1);
            let Verdict::IntoPipe(pipe, place) = verdict else {
                return Ok(());
            };
            self.note_pipe(pipe)?;
            if self.is_one_pass {
                return Ok(());
            }
            verdict = self.rules.verdict_after(place, &packet);
        }
        Ok(())
    }

    // Sends a packet of each sender in both directions, and records which rules matched.
    fn send_all(&mut self, senders: &[Ends]) -> Result<(), AllocError> {
        for ends in senders {
            self.send(ends)?;
            self.send(&reverse_of(*ends))?;
        }
        // The default rule is last and belongs to no command.
        for place in 1..self.rules.len() {
            self.note_rule(place - 1);
        }
        Ok(())
    }

    fn note_rule(&mut self, place: usize) {
        if place >= self.rules.len() {
            return;
        }
        let rule = self.rules.rule_at(place);
        let order = rule.place().order as usize;
        if order < self.added.len() {
            self.added[order].is_tried = true;
            self.added[order].is_met |= rule.packets() > 0;
        }
    }

    fn add(&mut self, command: u64, rule: Rule) -> Result<(), AllocError> {
        self.added.reserve(1)?;
        match self.rules.add(rule) {
            Ok(()) => {
                self.added.push(Added {
                    command,
                    is_tried: false,
                    is_met: false,
                })?;
                Ok(())
            }
            Err(AddError::Refused(_)) => Ok(()),
            Err(AddError::NoMemory) => Err(AllocError),
        }
    }

    // Applies a command to the rules.
    fn apply(&mut self, number: u64, command: &Command) -> Result<(), AllocError> {
        match command {
            Command::Add(rule) => self.add(number, *rule)?,
            Command::Delete(rule) => {
                let _ = self.rules.delete(*rule);
            }
            Command::OnePass(is_one_pass) => self.is_one_pass = *is_one_pass,
            _ => {}
        }
        Ok(())
    }
}

fn changes_rules(command: &Command) -> bool {
    match command {
        Command::Add(_) | Command::Delete(_) | Command::OnePass(_) => true,
        _ => false,
    }
}

// Applies all commands, and lets all senders send after the commands of each time. Returns `None`
// if that takes too many searches.
fn walked(alloc: Global, commands: &[Timed], senders: &[Ends]) -> Result<Option<Walk>, AllocError> {
    let mut walk = Walk::new(alloc)?;
    let mut moment = 0u64;
    let mut is_changed = true;
    for (number, timed) in commands.iter().enumerate() {
        if timed.moment != moment && is_changed {
            walk.send_all(senders)?;
            is_changed = false;
        }
        if walk.searches > MAX_SEARCHES {
            return Ok(None);
        }
        moment = timed.moment;
        is_changed |= changes_rules(&timed.command);
        walk.apply(number as u64, &timed.command)?;
    }
    walk.send_all(senders)?;
    Ok(Some(walk))
}

// Appends the pipes that no packet enters, each at the first command that configures it.
fn put_pipes(
    alloc: Global,
    out: &mut Vec<Doubtful>,
    walk: &Walk,
    commands: &[Timed],
) -> Result<(), AllocError> {
    let mut named = NumberTable::new(alloc);
    for (number, timed) in commands.iter().enumerate() {
        let Command::Config { pipe, .. } = &timed.command else {
            continue;
        };
        if walk.pipes.get(pipe.get()).is_some() || named.get(pipe.get()).is_some() {
            continue;
        }
        named.make_room(pipe.get())?;
        named.set(pipe.get(), 0);
        out.push(Doubtful {
            command: number as u64,
            doubt: Doubt::UnusedPipe(*pipe),
        })?;
    }
    Ok(())
}

/// Returns the rules and the pipes that no packet of a sender meets, and no packet in the reverse
/// direction. Each sender is taken to send whenever the rules have changed. Returns nothing if
/// there are no senders, more than 512 senders, or more than 131,072 searches. Our choice.
pub fn unmet(alloc: Global, commands: &[Timed]) -> Result<Vec<Doubtful>, AllocError> {
    let mut out = Vec::new(alloc);
    let Some(senders) = senders(alloc, commands)? else {
        return Ok(out);
    };
    if senders.is_empty() {
        return Ok(out);
    }
    let Some(walk) = walked(alloc, commands, senders.as_slice())? else {
        return Ok(out);
    };
    for added in &walk.added {
        if added.is_tried && !added.is_met {
            out.push(Doubtful {
                command: added.command,
                doubt: Doubt::UnusedRule,
            })?;
        }
    }
    put_pipes(alloc, &mut out, &walk, commands)?;
    Ok(out)
}
