//! One experiment of a session: its current time and its state.

ghost use Rattle.std.specs.Prelude.{◌≡◌, ◌^◌, ◌≤◌, ◌<◌, ◌++◌, ◌∷◌, [], ℕ, List, true, false, Some, None, Ok, OnOk, IfOk, IfNone, IfSome, MatchOption};
ghost use Rattle.emu_model.specs.Commands.{is_end};
ghost use Rattle.session.specs.Effects.{Commanded, ObeysIn, IsPassed, PassesIn, NextIn, IsAdded, answer_of};
ghost use Rattle.session.specs.declared.fates.Stop.TheVariants.{Moment};
ghost use Rattle.emu_model.specs.declared.records.Record.{Record};
ghost use Rattle.packet_store.specs.Own.{own_pocket};
ghost use Rattle.experiment.specs.Kept.{IsHousedIn};
ghost use Rattle.report.specs.Lines.{heading_of};
ghost use Rattle.emu_model.specs.Step.{initial_state};
ghost use Rattle.experiment.specs.Written.{CanWrite, Counts};
ghost use Rattle.session.specs.Runs.{IsAt, state_of};
ghost use Rattle.session.specs.Faults.{Answers, command_fault, time_fault};
ghost use Rattle.control.specs.Traced.{traced_command};
ghost use Rattle.session.specs.Tracing.{command_as, spec_as};
ghost use Rattle.session.specs.Opens.{IsTold, Tells, Takes, Settles, IsSame, IsFault, stand_of};
ghost use Rattle.session.specs.declared.answer.Answer.TheVariants as answers;
ghost use Rattle.session.specs.declared.open.Phase.TheVariants.{Lost, Going, Over};

use crate::answer::Answer;
use crate::fates::{Stop, Taken};
use crate::run::Run;
use control::Cause;
use emu_model::{Command, Spec, Timed};
use std::alloc::{AllocError, Global};
use std::marker::Model;

/// The state of an experiment of a session.
#[derive(Clone, Copy, Debug, Drop, PartialEq)]
pub enum Phase {
    /// The experiment waits for commands, and for time to pass.
    Going,
    /// The experiment has ended, by its last command or because its steps were spent, and its
    /// counters were written.
    Over,
    /// An allocation failed, so the session ends.
    Lost,
}

/// An experiment whose commands arrive line by line. All events that were due before its current
/// time have happened, and no others.
#[derive(Drop)]
pub struct Open {
    name: Vec<u8>,
    run: Run,
    reached: u64,
    phase: Phase,
    // True if the last command has arrived.
    is_closed: bool,
    // True if the answer to `next` is added to other answers.
    adds_next: bool,
    // True if tracing is on from the first event, and never off.
    traced: bool,
}

impl Model for Open {
    ghost use Rattle.session.specs.Opens.{KeptOpen, IsOpen};

    ghost Value = { KeptOpen };

    ghost view = { λ o. record {
      name = o.name.items;
      run = o.run;
      reached = o.reached;
      phase = o.phase;
      is_closed = o.is_closed;
      adds_next = o.adds_next;
      traced = o.traced;
    } };

    ghost invariant = { λ o. IsOpen o.phase o.reached o.run o.is_closed };
}

// Returns true if a command is an experiment's last.
fn is_end(command: &Command) -> bool
    ensures { result ≡ is_end command.now }
{
    match command {
        Command::End => true,
        _ => false,
    }
}

// Returns the spec of an experiment as it runs.
fn spec_as(spec: Spec, traced: bool) -> Spec
    ensures { result ≡ spec_as traced spec }
{
    let mut ran = spec;
    if traced {
        ran.traced = true;
    }
    ran
}

// Makes a `trace` command `trace 1`.
fn trace(command: &mut Timed)
    ensures { command.new ≡ traced_command command.old }
{
    if let Command::Trace(_) = command.command {
        command.command = Command::Trace(true);
    }
}

// Returns a command as an experiment obeys it.
fn command_as(command: &Timed, traced: bool) -> Timed
    ensures value { result ≡ command_as traced command.now }
    ensures moment { result.moment ≡ command.now.moment }
{
    let mut obeyed = *command;
    if traced {
        trace(&mut obeyed);
    }
    obeyed
}

// Returns the answer to a command that was applied.
fn answer_of(taken: Taken) -> Answer
    ensures value { result ≡ answer_of taken }
    ensures fine { ¬ IsFault result }
{
    match taken {
        Taken::Done => Answer::Done,
        Taken::Packet(number) => Answer::Packet(number),
        Taken::Refused(code) => Answer::Refused(code),
    }
}

impl Open {
    /// Creates an experiment that has no commands yet, and appends the line with its name. If it is
    /// `traced`, its packets are traced from the first event on.
    pub fn new(
        alloc: Global,
        name: &[u8],
        spec: Spec,
        traced: bool,
        out: &mut Vec<u8>,
    ) -> Result<Self, AllocError>
        ensures told { IfOk result (λ o. (out.new.items ≡ out.old.items ++ heading_of name.now)
            × IsTold [] (heading_of name.now) o) }
        ensures given { IfOk result (λ o. (o.name ≡ name.now)
            × (o.run.experiment.spec ≡ spec_as traced spec)
            × (o.reached ≡ 0) × (o.phase ≡ Going) × (o.is_closed ≡ false) × (o.adds_next ≡ false)
            × (o.traced ≡ traced)) }
        ensures begins { IfOk result (λ o. (state_of o.run ≡ initial_state (spec_as traced spec) [])
            × Counts [] o.run.report × (o.run.shows_all ≡ true) × (o.run.mine ≡ [])) }
    {
        let mut run = Run::new(alloc, name, spec_as(spec, traced))?;
        run.hand_out(out)?;
        Ok(Open {
            name: Vec::from_slice(alloc, name)?,
            run,
            reached: 0,
            phase: Phase::Going,
            is_closed: false,
            adds_next: false,
            traced,
        })
    }

    /// Returns the experiment's name.
    pub fn name(&self) -> &[u8]
        ensures { result.now ≡ self.now.name }
    {
        self.name.as_slice()
    }

    /// Returns true if the last command has arrived.
    pub fn is_closed(&self) -> bool
        ensures { result ≡ self.now.is_closed }
    {
        self.is_closed
    }

    /// Sets which records are reported from now on: all, or only those about injected packets.
    pub fn show(&mut self, all: bool)
        ensures { self.new ≡ record self.old { run = record self.old.run { shows_all = all } } }
    {
        self.run.show(all);
    }

    /// Sets whether the answer to `next` is added to other answers from now on.
    pub fn add_next(&mut self, on: bool)
        ensures { self.new ≡ record self.old { adds_next = on } }
    {
        self.adds_next = on;
    }

    // Writes the records, and the counters if the experiment has ended, and passes all that was
    // written to `out`.
    fn settle(&mut self, out: &mut Vec<u8>) -> Result<(), AllocError>
        requires lost { self.old.phase ≡ Lost }
        requires open { self.old.is_closed ≡ false }
        requires early { self.old.reached ≤ 10 ^ 15 }
        requires writes { CanWrite self.old.run.report self.old.run.experiment }
        requires housed { IsHousedIn (own_pocket self.old.run.shelf) self.old.run.experiment }
        requires at { self.old.run.experiment.ending ≡ None →
            (earlier : List Record) × IsAt self.old.reached earlier self.old.run }
        ensures { OnOk result ((bytes : List ℕ) × (out.new.items ≡ out.old.items ++ bytes)
            × Settles self.old self.new bytes) }
    {
        self.run.write()?;
        if self.run.ending().is_some() {
            self.run.conclude()?;
            self.run.hand_out(out)?;
            self.phase = Phase::Over;
            return Ok(());
        }
        self.run.hand_out(out)?;
        self.phase = Phase::Going;
        Ok(())
    }

    // Lets time pass to `limit`, or until `stop`, in an experiment that hasn't ended.
    fn pass(&mut self, limit: u64, stop: Stop, out: &mut Vec<u8>) -> Result<(), AllocError>
        requires going { self.old.phase ≡ Going }
        requires on { self.old.reached ≤ limit }
        requires early { limit ≤ 10 ^ 15 }
        ensures told { OnOk result ((bytes : List ℕ) × (out.new.items ≡ out.old.items ++ bytes)
            × Tells [] bytes self.old self.new) }
        ensures same { OnOk result (IsSame self.old self.new) }
        ensures open { OnOk result (self.new.is_closed ≡ false) }
        ensures between { OnOk result ((self.old.reached ≤ self.new.reached) × (self.new.reached ≤ limit)) }
        ensures passes { OnOk result ((bytes : List ℕ) × (out.new.items ≡ out.old.items ++ bytes)
            × IsPassed limit stop bytes self.old self.new) }
    {
        emu_model::laws::packets_add_up();
        crate::laws::spent_runs_are_reports();
        self.phase = Phase::Lost;
        self.reached = self.run.pass(self.reached, limit, stop)?;
        self.settle(out)
    }

    // Lets time pass to a command's time in an experiment that hasn't ended, and then applies the
    // command, unless the experiment has ended by then.
    fn obey(&mut self, command: &Timed, out: &mut Vec<u8>) -> Result<Option<Taken>, AllocError>
        requires going { self.old.phase ≡ Going }
        requires on { self.old.reached ≤ command.now.moment }
        requires early { command.now.moment ≤ 10 ^ 15 }
        ensures told { IfOk result (λ t. (bytes : List ℕ) × (out.new.items ≡ out.old.items ++ bytes)
            × MatchOption t (Tells [] bytes self.old self.new)
            (λ _. Takes command.now bytes self.old self.new)) }
        ensures late { IfOk result (λ t. IfNone t ((self.new.phase ≡ Over) × (bytes : List ℕ)
            × (out.new.items ≡ out.old.items ++ bytes)
            × IsPassed command.now.moment Moment bytes self.old self.new)) }
        ensures comes { IfOk result (λ t. IfSome t (λ k. (bytes : List ℕ)
            × (out.new.items ≡ out.old.items ++ bytes)
            × Commanded command.now k bytes self.old self.new)) }
        ensures same { IfOk result (λ _. IsSame self.old self.new) }
        ensures open { IfOk result (λ _. self.new.is_closed ≡ false) }
        ensures reached { IfOk result (λ t. MatchOption t (self.new.reached ≤ command.now.moment)
            (λ _. self.new.reached ≡ command.now.moment)) }
    {
        emu_model::laws::packets_add_up();
        crate::laws::spent_runs_are_reports();
        crate::laws::ended_runs_are_reports();
        self.phase = Phase::Lost;
        self.reached = self.run.pass(self.reached, command.moment, Stop::Moment)?;
        if self.run.ending().is_some() {
            self.settle(out)?;
            return Ok(None);
        }
        let taken = self.run.take(command)?;
        self.reached = command.moment;
        self.settle(out)?;
        Ok(Some(taken))
    }

    // Returns the answer that reports the experiment's current time.
    fn stand(&self) -> Answer
        ensures { result ≡ stand_of self.now }
    {
        match self.phase {
            Phase::Going => Answer::Now(self.reached),
            _ => Answer::Over(self.reached),
        }
    }

    /// Lets time pass to `limit` (ns), or until `stop`. Returns a fault and changes nothing if the
    /// experiment has already passed that time.
    pub fn until(&mut self, limit: u64, stop: Stop, out: &mut Vec<u8>) -> Result<Answer, AllocError>
        requires { limit ≤ 10 ^ 15 }
        ensures told { IfOk result (λ _. (bytes : List ℕ) × (out.new.items ≡ out.old.items ++ bytes)
            × Tells [] bytes self.old self.new) }
        ensures same { IfOk result (λ _. IsSame self.old self.new) }
        ensures closed { IfOk result (λ _. self.new.is_closed ≡ self.old.is_closed) }
        ensures fault { IfOk result (λ a. Answers (time_fault self.old limit) a
            ((self.new ≡ self.old) × (out.new.items ≡ out.old.items))) }
        ensures passes { IfOk result (λ a. ¬ IsFault a → (bytes : List ℕ)
            × (out.new.items ≡ out.old.items ++ bytes)
            × PassesIn self.old.phase limit stop bytes a self.old self.new) }
    {
        match self.phase {
            Phase::Over => return Ok(Answer::Over(self.reached)),
            Phase::Lost => return Err(AllocError),
            Phase::Going => {}
        }
        if limit < self.reached {
            return Ok(Answer::Fault(Cause::Backwards));
        }
        self.pass(limit, stop, out)?;
        Ok(self.stand())
    }

    /// Returns the time of the next event, as an answer.
    pub fn next(&self) -> Answer
        ensures { NextIn self.now.phase result self.now }
    {
        match self.phase {
            Phase::Going => Answer::Next(self.run.next_moment()),
            _ => Answer::Over(self.reached),
        }
    }

    /// Returns the answer to `next`, if it is to be added to this answer.
    pub fn added(&self, answer: Answer) -> Option<Answer>
        ensures { IsAdded (Some self.now) answer result }
    {
        if !self.adds_next || !answer.can_add() {
            return None;
        }
        Some(self.next())
    }

    // Accepts a command for an experiment that is over, where it has no effect.
    fn pass_by(&mut self, command: &Timed) -> Answer
        requires over { self.old.phase ≡ Over }
        requires open { self.old.is_closed ≡ false }
        requires on { self.old.reached ≤ command.now.moment }
        ensures told { Tells (command.now ∷ []) [] self.old self.new }
        ensures is { self.new ≡ record self.old {
          reached = command.now.moment;
          is_closed = is_end command.now.command;
        } }
        ensures answer { result ≡ answers.Over command.now.moment }
    {
        self.reached = command.moment;
        self.is_closed = is_end(&command.command);
        Answer::Over(self.reached)
    }

    // Processes a command as `take` does, without changing it.
    fn take_as_is(&mut self, command: &Timed, out: &mut Vec<u8>) -> Result<Answer, AllocError>
        requires { command.now.moment ≤ 10 ^ 15 }
        ensures told { IfOk result (λ a. ¬ IsFault a → (bytes : List ℕ)
            × (out.new.items ≡ out.old.items ++ bytes)
            × Tells (command.now ∷ []) bytes self.old self.new) }
        ensures same { IfOk result (λ _. IsSame self.old self.new) }
        ensures fault { IfOk result (λ a. Answers (command_fault self.old command.now.moment) a
            ((self.new ≡ self.old) × (out.new.items ≡ out.old.items))) }
        ensures obeys { IfOk result (λ a. ¬ IsFault a → (bytes : List ℕ)
            × (out.new.items ≡ out.old.items ++ bytes)
            × ObeysIn self.old.phase command.now bytes a self.old self.new) }
    {
        if self.is_closed {
            return Ok(Answer::Fault(Cause::AfterEnd));
        }
        if command.moment < self.reached {
            return Ok(Answer::Fault(Cause::Backwards));
        }
        match self.phase {
            Phase::Over => return Ok(self.pass_by(command)),
            Phase::Lost => return Err(AllocError),
            Phase::Going => {}
        }
        let Some(taken) = self.obey(command, out)? else {
            return Ok(self.pass_by(command));
        };
        if self.phase == Phase::Over {
            self.is_closed = is_end(&command.command);
            return Ok(Answer::Over(self.reached));
        }
        Ok(answer_of(taken))
    }

    /// Processes a command: all events due before its time happen, and then the command is applied
    /// or refused. In a traced experiment each `trace` command is applied as `trace 1`. A fault
    /// changes nothing. The command is a fault if `end` has already arrived, or if its time is
    /// before the current time.
    pub fn take(&mut self, command: &Timed, out: &mut Vec<u8>) -> Result<Answer, AllocError>
        requires { command.now.moment ≤ 10 ^ 15 }
        ensures told { IfOk result (λ a. ¬ IsFault a → (bytes : List ℕ)
            × (out.new.items ≡ out.old.items ++ bytes)
            × Tells (command_as self.old.traced command.now ∷ []) bytes self.old self.new) }
        ensures same { IfOk result (λ _. IsSame self.old self.new) }
        ensures fault { IfOk result (λ a. Answers (command_fault self.old command.now.moment) a
            ((self.new ≡ self.old) × (out.new.items ≡ out.old.items))) }
        ensures obeys { IfOk result (λ a. ¬ IsFault a → (bytes : List ℕ)
            × (out.new.items ≡ out.old.items ++ bytes)
            × ObeysIn self.old.phase (command_as self.old.traced command.now) bytes a self.old self.new) }
    {
        let obeyed = command_as(command, self.traced);
        self.take_as_is(&obeyed, out)
    }
}
