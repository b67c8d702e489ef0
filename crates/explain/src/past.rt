//! The context before a line.

ghost use Rattle.std.specs.Prelude.{◌≡◌};
ghost use Rattle.emu_model.specs.Commands.{is_end};
ghost use Rattle.control_words.specs.Text.{lines};
ghost use Rattle.explain.specs.Past.{IsPastOf};

use control_lines::{LineEntry, read_line};
use control_words::first_line;
use emu_model::Command;

/// An earlier line, and its number, from 1.
#[derive(Clone, Copy)]
pub struct Earlier<'a> {
    pub number: u64,
    pub line: &'a [u8],
}

/// The facts from the lines before a line that its fault can depend on.
#[derive(Clone, Copy)]
pub struct Past<'a> {
    /// The line of the experiment that began last.
    pub begun: Option<Earlier<'a>>,
    /// The last command of that experiment.
    pub command: Option<Earlier<'a>>,
    /// True if that command is `end`.
    pub has_ended: bool,
    /// The first experiment with the given name.
    pub named: Option<Earlier<'a>>,
}

/// Returns the name of the experiment that begins in a line.
pub fn name_in(line: &[u8]) -> Option<&[u8]> {
    match read_line(line) {
        Ok(LineEntry::Begins { name, .. }) => Some(name),
        _ => None,
    }
}

fn is_end(command: &Command) -> bool
    ensures { result ≡ is_end command.now }
{
    match command {
        Command::End => true,
        _ => false,
    }
}

impl<'a> Past<'a> {
    ghost use Rattle.std.specs.Prelude.{◌≡◌, ℕ, List, Some, option_map};
    ghost use Rattle.explain.specs.Past.{IsBefore, IsPastOf, named_with, with_begin, with_command};

    fn nothing() -> Past<'a>
        ensures { (ls : List (List ℕ)) (n : ℕ) → IsPastOf ls n result }
    {
        Past {
            begun: None,
            command: None,
            has_ended: false,
            named: None,
        }
    }

    // Returns the first experiment with the name `name`, given a line that begins an experiment
    // with the name `other`.
    fn named_with(
        &self,
        earlier: Earlier<'a>,
        other: &[u8],
        name: Option<&[u8]>,
    ) -> Option<Earlier<'a>>
        ensures { result ≡ named_with earlier.entry other.now (option_map (λ n. n.now) name.entry)
            self.now.named }
    {
        match name {
            Some(name) if name == other => self.named.or(Some(earlier)),
            _ => self.named,
        }
    }

    // Begins an experiment with the name `other`.
    fn begin(&mut self, earlier: Earlier<'a>, other: &[u8], name: Option<&[u8]>)
        ensures { self.new
            ≡ with_begin earlier.entry other.now (option_map (λ n. n.now) name.entry) self.old }
    {
        self.named = self.named_with(earlier, other, name);
        self.begun = Some(earlier);
        self.command = None;
        self.has_ended = false;
    }

    // Adds a command.
    fn add(&mut self, earlier: Earlier<'a>, command: &Command)
        ensures { self.new ≡ with_command earlier.entry command.now self.old }
    {
        self.command = Some(earlier);
        self.has_ended = is_end(command);
    }

    fn take(&mut self, earlier: Earlier<'a>, name: Option<&[u8]>)
        ensures { (ls : List (List ℕ)) (n : ℕ) → IsBefore ls n (Some earlier.entry) →
            IsPastOf ls n self.old → IsPastOf ls n self.new }
    {
        match read_line(earlier.line) {
            Ok(LineEntry::Begins { name: other, .. }) => self.begin(earlier, other, name),
            Ok(LineEntry::Does(timed)) => self.add(earlier, &timed.command),
            _ => {}
        }
    }
}

/// Returns the context before the line with this number (from 1), including the first experiment
/// with that name. Makes one pass over the lines before. Our choice.
pub fn past_of<'a>(text: &'a [u8], before: u64, name: Option<&[u8]>) -> Past<'a>
    ensures { IsPastOf (lines text.now) before result }
{
    let mut past = Past::nothing();
    let mut rest = text;
    let mut number = 1u64;
    while let Some((line, after)) = first_line(rest) {
        if number >= before {
            break;
        }
        past.take(Earlier { number, line }, name);
        rest = after;
        number += 1;
    }
    past
}
