//! The location of a refused command in a scenario, and the meaning of its code.

use crate::account::RefusedCommand;
use control_lines::{LineEntry, read_line};
use control_words::first_line;

/// The meaning of a code, and what to do.
#[derive(Clone, Copy)]
pub struct Meaning {
    pub text: &'static str,
    pub hint: &'static str,
}

/// A refused command: the number of its line (from 1), the line, the name of its experiment, the
/// code and its meaning.
#[derive(Clone, Copy)]
pub struct Refused<'a> {
    pub number: u64,
    pub line: &'a [u8],
    pub experiment: &'a [u8],
    pub code: u64,
    pub meaning: Meaning,
}

/// A line of a scenario, its number (from 1), and the name of its experiment.
#[derive(Clone, Copy)]
pub struct Stand<'a> {
    pub number: u64,
    pub line: &'a [u8],
    pub experiment: &'a [u8],
}

const fn means(text: &'static str, hint: &'static str) -> Meaning {
    Meaning { text, hint }
}

fn of_rules(code: u64) -> Option<Meaning> {
    match code {
        10 => Some(means(
            "it isn't a number that a rule may have",
            "a rule's number is 1 to 65534; 65535 is the last rule, which denies what is left and stays",
        )),
        11 => Some(means(
            "`skipto` must go forward",
            "the number behind `skipto` is above the rule's own and at most 65535",
        )),
        12 => Some(means(
            "there are 256 rules already",
            "delete rules first, or write prefixes and ranges in place of many rules",
        )),
        13 => Some(means(
            "no rule has this number",
            "it was never added, is deleted by now, or its `add` was refused: `show` lists the rules",
        )),
        _ => None,
    }
}

fn of_pipes(code: u64) -> Option<Meaning> {
    match code {
        20 => Some(means(
            "there is no pipe of this number",
            "it was never configured, or is deleted by now: `pipe show` lists the pipes",
        )),
        21 => Some(means(
            "the pipe's mask is fixed, since packets have come to it",
            "give the same mask again, or `pipe delete` it first",
        )),
        24 => Some(means(
            "there are 64 pipes already",
            "delete a pipe first, or use a mask, which makes an instance for each flow",
        )),
        _ => None,
    }
}

fn of_sources(code: u64) -> Option<Meaning> {
    match code {
        22 => Some(means(
            "a flow or a train has this number already",
            "flows and trains share their numbers, and keep them when they have ended: take another",
        )),
        23 => Some(means(
            "there is no flow of this number that could be stopped",
            "its command comes later, was refused, or is a train's",
        )),
        25 => Some(means(
            "there are 256 flows and trains already",
            "those that have ended count too: put the others into another experiment",
        )),
        _ => None,
    }
}

const UNKNOWN: Meaning = Meaning {
    text: "a code that this program doesn't know",
    hint: "docs/reference/report.md lists the codes",
};

/// Returns the meaning of a code in the report. Our choice.
pub fn meaning_of(code: u64) -> Meaning {
    of_rules(code)
        .or(of_pipes(code))
        .or(of_sources(code))
        .unwrap_or(UNKNOWN)
}

/// The rest of a scenario's text, and the numbers of experiments and commands before it.
#[derive(Clone, Copy)]
pub struct Text<'a> {
    rest: &'a [u8],
    // The number of the next line.
    number: u64,
    // The number of experiments that have begun, and the name of the last.
    experiments: u64,
    name: &'a [u8],
    // The number of commands of the last experiment so far.
    commands: u64,
}

impl<'a> Text<'a> {
    ghost use Rattle.std.specs.Prelude.{◌≡◌};
    ghost use Rattle.explain.specs.Sought.{count_of, begun, passed, has_number};

    /// Creates the state at the start of a text.
    pub fn new(text: &'a [u8]) -> Text<'a> {
        Text {
            rest: text,
            number: 1,
            experiments: 0,
            name: b"",
            commands: 0,
        }
    }

    // Begins an experiment.
    fn begin(&mut self, name: &'a [u8])
        ensures { count_of self.new ≡ begun name.now (count_of self.old) }
    {
        self.experiments = self.experiments.saturating_add(1);
        self.name = name;
        self.commands = 0;
    }

    // Counts a command, and returns true if it has the given number.
    fn pass(&mut self, command: Option<u64>) -> bool
        ensures passed { count_of self.new ≡ passed (count_of self.old) }
        ensures value { result ≡ has_number (count_of self.old).commands command }
    {
        let number = self.commands;
        self.commands = number.saturating_add(1);
        match command {
            None => false,
            Some(wanted) => wanted == number,
        }
    }

    // Processes a line, and returns true if it is the command with this number of that experiment
    // or, without a number, the experiment's first line.
    fn is_at(&mut self, line: &'a [u8], experiment: u64, command: Option<u64>) -> bool {
        match read_line(line) {
            Ok(LineEntry::Begins { name, .. }) => {
                self.begin(name);
                command.is_none() && self.experiments == experiment
            }
            Ok(LineEntry::Does(_)) => self.pass(command) && self.experiments == experiment,
            _ => false,
        }
    }

    /// Advances to a command, given by the number of its experiment (from 1) and its own number
    /// (from 0), or without the latter to the experiment's first line. Returns `None` if it isn't
    /// in the rest of the text, which then begins after that experiment. Our choice.
    pub fn seek(&mut self, experiment: u64, command: Option<u64>) -> Option<Stand<'a>> {
        let mut rest = self.rest;
        while self.experiments <= experiment
            && let Some((line, after)) = first_line(rest)
        {
            let number = self.number;
            rest = after;
            self.rest = after;
            self.number = number.saturating_add(1);
            if self.is_at(line, experiment, command) {
                return Some(Stand {
                    number,
                    line,
                    experiment: self.name,
                });
            }
        }
        None
    }

    /// Advances to the command that was refused. Returns `None` if it isn't in the rest of the
    /// text. The refusals in a report are in the order of the text, so one pass finds them all. Our
    /// choice.
    pub fn find(&mut self, refusal: &RefusedCommand) -> Option<Refused<'a>> {
        let stand = self.seek(refusal.experiment, Some(refusal.command))?;
        Some(Refused {
            number: stand.number,
            line: stand.line,
            experiment: stand.experiment,
            code: refusal.code,
            meaning: meaning_of(refusal.code),
        })
    }
}
