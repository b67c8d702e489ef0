//! An experiment, which accepts one command at a time and makes one event at a time.

ghost use Rattle.std.specs.Prelude.{◌≡◌, ◌≢◌, ℕ, ◌+◌, ◌^◌, ◌≤◌, ◌<◌, ◌++◌, ◌==◌, if◌then◌else◌, [], ◌∷◌, Option, Some, None, IsSome, IsOk, IfOk, OnOk, OnErr, List, is_some};
ghost use Rattle.emu_model.specs.declared.sources.Class.TheVariants.{NextCommand, Expiry};
ghost use Rattle.emu_model.specs.declared.records.Ending.TheVariants.{Ended};
ghost use Rattle.emu_model.specs.declared.records.Record.{Record};
ghost use Rattle.emu_model.specs.declared.commands.Timed.{Timed};
ghost use Rattle.emu_model.specs.Step.{initial_state, next_event};
ghost use Rattle.emu_model.specs.Commands.{is_end};
ghost use Rattle.packet_store.specs.Pocket.{Pocket, empty_pocket, OthersStay};
ghost use Rattle.network.specs.Kept.{net_of};
ghost use Rattle.network.specs.Due.{IsDue};
ghost use Rattle.network.specs.Ready.{TakesNoMemory};
ghost use Rattle.experiment.specs.Kept.{view, IsAlone, IsAloneAfter, IsHousedIn, IsWaiting, last_moment};
ghost use Rattle.experiment.specs.Moves.{Makes, Steps, Halts, Closes};

use crate::told::command_due;
use emu_model::{Class, Command, Due, Ending, Spec, Timed, command_in_range, laws};
use network::Network;
use packet_store::{Owner, Shelf};
use std::alloc::{AllocError, Global};
use std::marker::Model;

/// The reason why a command was not accepted: the next command is still pending, the time is before
/// that of the last command, the experiment has ended, or memory ran out.
///
/// The numbers are those of the specification, which numbers all refusals in one sequence: `Refusal`
/// has those that a report shows, and 99 is a refused allocation wherever one is numbered.
#[derive(Clone, Copy, Debug, PartialEq)]
pub enum ApplyError {
    Busy = 27,
    Backward = 28,
    Over = 29,
    NoMemory = 99,
}

/// The result of a call of `event`: a step, the last step, no step because memory ran out, or no
/// step because there is nothing to do.
#[derive(Clone, Copy, Debug, PartialEq)]
pub enum Event {
    Ran,
    Ended,
    Halted,
    Still,
}

/// The rules, pipes and sources with everything that they hold, the commands so far, and the next
/// command.
#[derive(Drop)]
pub struct Experiment {
    pub(crate) spec: Spec,
    pub(crate) net: Network,
    pub(crate) next: Option<Timed>,
    pub(crate) consumed: Vec<Timed>,
    taken: u64,
    pub(crate) clock: u64,
    pub(crate) steps: u64,
    pub(crate) ending: Option<Ending>,
    // The time of the last command.
    latest: u64,
    // The dues when they were last noted, and room for the current ones.
    pub(crate) noted: Vec<Due>,
    pub(crate) fresh: Vec<Due>,
    // The number of packets on the shelf.
    pub(crate) held: u64,
}

impl Model for Experiment {
    ghost use Rattle.std.specs.Prelude.{◌-◌, vec_len, vec_capacity};
    ghost use Rattle.experiment.specs.Kept.{KeptExperiment, IsSound};

    ghost Value = { KeptExperiment };

    ghost view = { λ e. record {
      spec = e.spec;
      net = e.net;
      next = e.next;
      consumed = e.consumed.items;
      taken = e.taken;
      clock = e.clock;
      steps = e.steps;
      ending = e.ending;
      noted = e.noted.items;
      spare = vec_capacity e.consumed - vec_len e.consumed;
    } };

    ghost invariant = { λ e. IsSound (record {
      spec = e.spec;
      net = e.net;
      next = e.next;
      consumed = e.consumed.items;
      taken = e.taken;
      clock = e.clock;
      steps = e.steps;
      ending = e.ending;
      noted = e.noted.items;
      spare = vec_capacity e.consumed - vec_len e.consumed;
    }) e.latest e.held };
}

impl Experiment {
    /// Creates an experiment without commands.
    pub fn new(alloc: Global, spec: Spec) -> Result<Self, AllocError>
        ensures opening { IfOk result (λ e. (p : Pocket) → view p e ≡ initial_state spec []) }
        ensures alone { IfOk result (λ e. (p : Pocket) → IsAlone p e) }
        ensures given { IfOk result
            (λ e. (e.spec ≡ spec) × (e.next ≡ None) × (e.consumed ≡ []) × (e.steps ≡ 0)
            × (e.ending ≡ None) × (e.noted ≡ [])) }
        ensures housed { IfOk result
            (λ e. (budget : ℕ) → spec.budget.packets ≤ budget →
            IsHousedIn (empty_pocket budget) e) }
    {
        crate::laws::few_steps(&spec);
        let net = Network::new(alloc, spec.seed, spec.traced)?;
        Ok(Experiment {
            spec,
            net,
            next: None,
            consumed: Vec::new(alloc),
            taken: 0,
            clock: 0,
            steps: 0,
            ending: None,
            latest: 0,
            noted: Vec::new(alloc),
            fresh: Vec::new(alloc),
            held: 0,
        })
    }

    /// Reserves memory for one more command, so that the next `apply` needs no allocation. Nothing
    /// else changes.
    pub fn apply_ready(&mut self) -> Result<(), AllocError>
        ensures ready { OnOk result (0 < self.new.spare) }
        ensures same { self.new ≡ record self.old { spare = self.new.spare } }
        ensures succeeds { 0 < self.old.spare → IsOk result }
    {
        self.consumed.reserve(1)?;
        Ok(())
    }

    /// Makes a command the next one. Fails, in this order, with `Over` if the experiment has ended,
    /// with `Busy` if it has a next command, with `Backward` if the time is before that of the last
    /// command, and with `NoMemory` if memory runs out; after an error nothing has changed.
    pub fn apply(&mut self, command: &Timed) -> Result<(), ApplyError>
        requires { command.now.moment ≤ 10 ^ 15 }
        ensures ok { OnOk result
            (self.new
            ≡ record self.old {
              next = Some command.now;
              consumed = self.old.consumed
                  ++ command.now ∷ [];
              spare = self.new.spare;
            }) }
        ensures free { OnOk result
            ((self.old.ending ≡ None) × (self.old.next ≡ None)
            × (last_moment 0 self.old.consumed ≤ command.now.moment)) }
        ensures err { OnErr result (self.new ≡ self.old) }
        ensures housed { (p : Pocket) → IsHousedIn p self.old → IsHousedIn p self.new }
        ensures alone { (p : Pocket) → IsAlone p self.old → IsAlone p self.new }
        ensures after { (earlier : List Record) (p : Pocket) →
            IsAloneAfter earlier p self.old → IsAloneAfter earlier p self.new }
        ensures waited { OnOk result ((t : ℕ) (earlier : List Record) (p : Pocket) →
            t ≤ command.now.moment → IsWaiting t earlier p self.old →
            IsAloneAfter earlier p self.new) }
        ensures over { result ≡ Err ApplyError.Over → IsSome self.old.ending }
        ensures busy { result ≡ Err ApplyError.Busy →
            (self.old.ending ≡ None) × IsSome self.old.next }
        ensures backward { result ≡ Err ApplyError.Backward →
            (self.old.ending ≡ None) × (self.old.next ≡ None)
            × (command.now.moment < last_moment 0 self.old.consumed) }
        ensures memory { result ≡ Err ApplyError.NoMemory →
            (self.old.ending ≡ None) × (self.old.next ≡ None)
            × (last_moment 0 self.old.consumed ≤ command.now.moment) × (self.old.spare ≡ 0) }
    {
        if self.ending.is_some() {
            return Err(ApplyError::Over);
        }
        if self.next.is_some() {
            return Err(ApplyError::Busy);
        }
        if command.moment < self.latest {
            return Err(ApplyError::Backward);
        }
        let Ok(()) = self.consumed.reserve(1) else {
            return Err(ApplyError::NoMemory);
        };
        laws::later_commands_wait();
        command_in_range(&command.command);
        self.consumed.push_reserved(*command);
        self.next = Some(*command);
        self.latest = command.moment;
        Ok(())
    }

    /// Makes the next event: one step of the definitions. Returns `Ran` or `Ended` if the step was
    /// made, `Still` if there is no next command or the experiment has ended, and `Halted` if
    /// memory runs out: the state is then as before the step, and the experiment is over.
    #[tactic(auto, using(crate::proofs::AloneFacts::alone_counted, crate::proofs::AloneFacts::after_counted))]
    #[inline(always)]
    pub fn event<S: Shelf>(&mut self, shelf: &mut S, owner: Owner) -> Event
        requires { IsHousedIn (S.pocket shelf.old owner) self.old }
        ensures housed { IsHousedIn (S.pocket shelf.new owner) self.new }
        ensures makes { Makes result (S.pocket shelf.old owner) self.old
            (S.pocket shelf.new owner) self.new }
        ensures halted { result ≡ Event.Halted → (self.old.ending ≡ None) × IsSome self.old.next }
        ensures alone { IsAlone (S.pocket shelf.old owner) self.old →
            IsAlone (S.pocket shelf.new owner) self.new }
        ensures after { (earlier : List Record) →
            IsAloneAfter earlier (S.pocket shelf.old owner) self.old →
            IsAloneAfter earlier (S.pocket shelf.new owner) self.new }
        ensures grows { IsAlone (S.pocket shelf.old owner) self.old →
            (more : List Record) × (self.new.net.log.records ≡ self.old.net.log.records ++ more) }
        ensures consumed { self.new.consumed ≡ self.old.consumed }
        ensures spec { self.new.spec ≡ self.old.spec }
        ensures budget { (S.pocket shelf.new owner).budget ≡ (S.pocket shelf.old owner).budget }
        ensures steps { self.new.steps ≤ self.new.spec.budget.steps }
        ensures noted { self.new.noted ≡ self.old.noted }
        ensures expires { (c : Timed) → self.old.next ≡ Some c →
            (next_event (view (S.pocket shelf.old owner) self.old) c).source.class ≡ Expiry →
            6 ≤ self.old.net.log.spare → result ≢ Event.Halted }
        ensures obeys { (c : Timed) → self.old.next ≡ Some c →
            (next_event (view (S.pocket shelf.old owner) self.old) c).source.class ≡ NextCommand →
            TakesNoMemory c.command (net_of (S.pocket shelf.old owner) self.old.net) →
            6 ≤ self.old.net.log.spare → result ≢ Event.Halted }
        ensures others { OthersStay owner (S.pocket shelf.old) (S.pocket shelf.new) }
    {
        laws::records_grow();
        laws::records_are_not_read();
        if self.ending.is_some() {
            return Event::Still;
        }
        let Some(command) = &self.next else {
            return Event::Still;
        };
        let first = command_due(command);
        let due = self.net.next_due(self.clock, first);
        if due.source.class == Class::NextCommand {
            let Ok(()) = self.take_command(shelf, owner, due) else {
                return Event::Halted;
            };
            return self.made();
        }
        let Ok(()) = self.take_event(shelf, owner, due) else {
            return Event::Halted;
        };
        self.made()
    }

    // Returns the result of a step that was made. The contract also states that the step was within
    // the budget.
    #[inline(always)]
    fn made(&self) -> Event
        ensures event { result ≡ (if is_some self.now.ending then Event.Ended else Event.Ran) }
        ensures steps { self.now.steps ≤ self.now.spec.budget.steps }
    {
        if self.ending.is_some() {
            return Event::Ended;
        }
        Event::Ran
    }

    // Returns the next event's due, given the next command.
    pub(crate) fn least_due(&self, command: &Timed) -> Due
        ensures least { (p : Pocket) → result ≡ next_event (view p self.now) command.now }
        ensures moment { result.moment ≤ command.now.moment }
        ensures due { IsDue result self.now.net }
    {
        self.net.earliest(self.clock, command_due(command))
    }

    // Executes the next command as one step.
    #[inline(never)]
    fn take_command<S: Shelf>(
        &mut self,
        shelf: &mut S,
        owner: Owner,
        due: Due,
    ) -> Result<(), AllocError>
        requires early { due.moment ≤ 10 ^ 15 }
        requires class { due.source.class ≡ NextCommand }
        requires next { IsSome self.old.next }
        requires going { self.old.ending ≡ None }
        requires housed { IsHousedIn (S.pocket shelf.old owner) self.old }
        ensures ok { OnOk result ((c : Timed) → self.old.next ≡ Some c →
            Steps due c (S.pocket shelf.old owner) self.old (S.pocket shelf.new owner) self.new) }
        ensures halted { OnErr result
            (Halts (S.pocket shelf.old owner) self.old (S.pocket shelf.new owner) self.new) }
        ensures housed { IsHousedIn (S.pocket shelf.new owner) self.new }
        ensures noted { self.new.noted ≡ self.old.noted }
        ensures obeys { (c : Timed) → self.old.next ≡ Some c →
            TakesNoMemory c.command (net_of (S.pocket shelf.old owner) self.old.net) →
            6 ≤ self.old.net.log.spare → IsOk result }
        ensures consumed { self.new.consumed ≡ self.old.consumed }
        ensures spec { self.new.spec ≡ self.old.spec }
        ensures budget { (S.pocket shelf.new owner).budget ≡ (S.pocket shelf.old owner).budget }
        ensures others { OthersStay owner (S.pocket shelf.old) (S.pocket shelf.new) }
    {
        let Some(Timed { command, .. }) = &self.next else {
            unreachable!();
        };
        let ending = ending_by(command);
        let now = due.moment;
        let Ok(()) = self
            .net
            .obey(shelf, owner, &self.spec, now, self.taken, command)
        else {
            self.ending = Some(Ending::Halted);
            return Err(AllocError);
        };
        self.next = None;
        self.taken += 1;
        self.clock = due.moment;
        self.steps += 1;
        self.ending = close(&mut self.net, &self.spec, self.steps, due.moment, ending);
        self.held = shelf.count(owner) as u64;
        Ok(())
    }

    // Makes an event other than the next command as one step.
    #[inline(always)]
    pub(crate) fn take_event<S: Shelf>(
        &mut self,
        shelf: &mut S,
        owner: Owner,
        due: Due,
    ) -> Result<(), AllocError>
        requires early { due.moment ≤ 10 ^ 15 }
        requires class { due.source.class ≢ NextCommand }
        requires due { IsDue due self.old.net }
        requires going { self.old.ending ≡ None }
        requires housed { IsHousedIn (S.pocket shelf.old owner) self.old }
        ensures ok { OnOk result ((c : Timed) →
            Steps due c (S.pocket shelf.old owner) self.old (S.pocket shelf.new owner) self.new) }
        ensures next { self.new.next ≡ self.old.next }
        ensures clock { OnOk result (self.new.clock ≡ due.moment) }
        ensures halted { OnErr result
            (Halts (S.pocket shelf.old owner) self.old (S.pocket shelf.new owner) self.new) }
        ensures housed { IsHousedIn (S.pocket shelf.new owner) self.new }
        ensures noted { self.new.noted ≡ self.old.noted }
        ensures expires { due.source.class ≡ Expiry → 6 ≤ self.old.net.log.spare → IsOk result }
        ensures consumed { self.new.consumed ≡ self.old.consumed }
        ensures spec { self.new.spec ≡ self.old.spec }
        ensures budget { (S.pocket shelf.new owner).budget ≡ (S.pocket shelf.old owner).budget }
        ensures others { OthersStay owner (S.pocket shelf.old) (S.pocket shelf.new) }
    {
        let Ok(()) = self.net.event(shelf, owner, &self.spec, due) else {
            self.ending = Some(Ending::Halted);
            return Err(AllocError);
        };
        self.clock = due.moment;
        self.steps += 1;
        self.held = shelf.count(owner) as u64;
        // Few steps end an experiment, so most of them write no ending.
        if let Some(ending) = close(&mut self.net, &self.spec, self.steps, due.moment, None) {
            self.ending = Some(ending);
        }
        Ok(())
    }
}

// Returns the ending that a command causes, if any.
fn ending_by(command: &Command) -> Option<Ending>
    ensures { result ≡ (if is_end command.now then Some Ended else None) }
{
    match command {
        Command::End => Some(Ending::Ended),
        _ => None,
    }
}

// Ends an experiment at the last step of its budget, unless it has already ended.
#[inline(always)]
fn close(
    net: &mut Network,
    spec: &Spec,
    steps: u64,
    now: u64,
    ending: Option<Ending>,
) -> Option<Ending>
    requires { 0 < net.old.log.spare }
    ensures { Closes ending (steps == spec.now.budget.steps) now net.old net.new result }
{
    if ending.is_some() {
        return ending;
    }
    if steps == u64::from(spec.budget.steps.get()) {
        net.note_spent(now);
        return Some(Ending::Spent);
    }
    None
}
