//! The effects of commands.

ghost use Rattle.std.specs.Prelude.{◌≡◌, ℕ, ◌+◌, ◌*◌, ◌^◌, ◌<◌, ◌≤◌, ◌++◌, ◌∷◌, [], Some, None, IsOk, IsSome, OnOk, OnErr, map, length};
ghost use Rattle.emu_model.specs.Moments.{IsMoment};
ghost use Rattle.emu_model.specs.declared.commands.Command.TheVariants.{Add, Delete, Config, PipeDelete, PipeShow, Show, Inject, Train, Flow, Stop, OnePass, Trace, End};
ghost use Rattle.emu_model.specs.declared.records.Record.TheVariants.{CommandDone, CommandRefused, RuleLine};
ghost use Rattle.emu_model.specs.Commands.{obey, config_refusal, refusal_of, source_refusal};
ghost use Rattle.emu_model.specs.Rules.{add_refusal};
ghost use Rattle.packet_store.specs.Pocket.{Pocket};
ghost use Rattle.emu_model.specs.Step.{setting};
ghost use Rattle.network.specs.Kept.{net_of, Stands};
ghost use Rattle.network.specs.Changes.{Becomes, IsStill, Notes, Obeys};
ghost use Rattle.network.specs.Frames.{Frame};
ghost use Rattle.network.specs.Ready.{TakesNoMemory};
ghost use Rattle.pipe_table.specs.Table.{pipe_of};

use crate::flow_cache::Lookup;
use crate::state::Network;
use emu_model::{
    Command, DropCause, FlowNumber, FlowSpec, Origin, PipeConfig, PipeNumber, Record, Refusal,
    Rule, RuleNumber, SendSpec, Spec, TrainSpec,
};
use emu_rules::{AddError, RuleList};
use packet_store::{Owner, Shelf};
use pipe_table::{ConfigureError, RecordLog};
use sources::Sending;
use std::alloc::AllocError;

impl Network {
    /// Executes a command with this number, or refuses it, and records which. Allocates before it
    /// changes anything: if allocation fails, only spare capacity changes. Afterwards there is room
    /// for one more record.
    pub fn obey<S: Shelf>(
        &mut self,
        shelf: &mut S,
        owner: Owner,
        spec: &Spec,
        now: u64,
        number: u64,
        command: &Command,
    ) -> Result<(), AllocError>
        requires stands { Stands (setting spec.now now) (S.pocket shelf.old owner) self.old }
        requires made { self.old.made < 2 ^ 63 }
        ensures ok { let at = setting spec.now now in OnOk result
            (Becomes 1 (obey at number command.now (net_of (S.pocket shelf.old owner) self.old))
            (S.pocket shelf.old owner) (S.pocket shelf.new owner) self.old self.new) }
        ensures succeeds { TakesNoMemory command.now (net_of (S.pocket shelf.old owner) self.old) →
            6 ≤ self.old.log.spare → IsOk result }
        ensures kept { (k : ℕ) (config : PipeConfig) → command.now ≡ Config k config →
            IsSome (pipe_of k self.old.table.pipes) → 6 ≤ self.old.log.spare → IsOk result }
        ensures frame { Frame result owner (S.pocket shelf.old) (S.pocket shelf.new)
            self.old self.new }
    {
        self.obey_ready()?;
        match *command {
            Command::PipeDelete(pipe) => self.delete_pipe(shelf, owner, spec, now, number, pipe),
            Command::Inject(send) => self.inject(shelf, owner, spec, now, number, &send),
            Command::Add(rule) => self.add(spec, now, number, &rule),
            Command::Delete(rule) => self.delete(spec, now, number, rule),
            Command::Config { pipe, config } => self.configure(spec, now, number, pipe, &config),
            Command::PipeShow => self.show_pipes(spec, now, number),
            Command::Show => self.show_rules(spec, now, number),
            Command::Train {
                number: source,
                train,
            } => self.start_train(spec, now, number, source, &train),
            Command::Flow {
                number: source,
                flow,
            } => self.start_flow(spec, now, number, source, &flow),
            Command::Stop(flow) => self.stop(spec, now, number, flow),
            Command::OnePass(one_pass) => self.set_one_pass(spec, now, number, one_pass),
            Command::Trace(trace) => self.set_trace(spec, now, number, trace),
            Command::End => self.end(spec, now, number),
        }
    }

    // Records that a command is done.
    fn note_done(&mut self, now: u64, number: u64)
        requires { 0 < self.old.log.spare }
        ensures { Notes (CommandDone now number ∷ []) self.old self.new }
    {
        self.note(&Record::CommandDone {
            moment: now,
            command: number,
        });
    }

    // Records that a command is refused.
    fn refuse(&mut self, now: u64, number: u64, refusal: Refusal)
        requires { 0 < self.old.log.spare }
        ensures { Notes (CommandRefused now number refusal ∷ []) self.old self.new }
    {
        self.note(&Record::CommandRefused {
            moment: now,
            command: number,
            refusal,
        });
    }

    // Adds a rule.
    #[tactic(auto, using(crate::proofs::RouteFacts::known_none))]
    fn add(&mut self, spec: &Spec, now: u64, number: u64, rule: &Rule) -> Result<(), AllocError>
        requires log { 1 < self.old.log.spare }
        requires forgot { self.old.flow_cache ≡ [] }
        ensures ok { let at = setting spec.now now in
            OnOk result (Obeys at number (Add rule.now) self.old self.new) }
        ensures room { OnOk result (0 < self.new.log.spare) }
        ensures refused { OnErr result (IsStill self.old self.new) }
        ensures succeeds { IsSome (add_refusal rule.now self.old.book) → IsOk result }
    {
        match self.book.add(*rule) {
            Ok(()) => self.note_done(now, number),
            Err(AddError::Refused(refusal)) => self.refuse(now, number, refusal),
            Err(AddError::NoMemory) => return Err(AllocError),
        }
        Ok(())
    }

    // Deletes the rules with a number.
    #[tactic(auto, using(crate::proofs::RouteFacts::known_none))]
    fn delete(
        &mut self,
        spec: &Spec,
        now: u64,
        number: u64,
        rule: RuleNumber,
    ) -> Result<(), AllocError>
        requires log { 1 < self.old.log.spare }
        requires forgot { self.old.flow_cache ≡ [] }
        ensures ok { let at = setting spec.now now in
            OnOk result (Obeys at number (Delete rule) self.old self.new) }
        ensures room { OnOk result (0 < self.new.log.spare) }
        ensures refused { OnErr result (IsStill self.old self.new) }
        ensures succeeds { IsOk result }
    {
        match self.book.delete(rule) {
            Ok(()) => self.note_done(now, number),
            Err(refusal) => self.refuse(now, number, refusal),
        }
        Ok(())
    }

    // Configures a pipe.
    #[tactic(auto, using(crate::proofs::RouteFacts::known_none))]
    fn configure(
        &mut self,
        spec: &Spec,
        now: u64,
        number: u64,
        pipe: PipeNumber,
        config: &PipeConfig,
    ) -> Result<(), AllocError>
        requires log { 1 < self.old.log.spare }
        requires forgot { self.old.flow_cache ≡ [] }
        ensures ok { let at = setting spec.now now in
            OnOk result (Obeys at number (Config pipe config.now) self.old self.new) }
        ensures room { OnOk result (0 < self.new.log.spare) }
        ensures refused { OnErr result (IsStill self.old self.new) }
        ensures succeeds { (p : Pocket) →
            IsSome (config_refusal pipe config.now (net_of p self.old)) → IsOk result }
        ensures kept { IsSome (pipe_of pipe self.old.table.pipes) → IsOk result }
    {
        match self.table.configure(pipe, config) {
            Ok(()) => self.note_done(now, number),
            Err(ConfigureError::Refused(refusal)) => self.refuse(now, number, refusal),
            Err(ConfigureError::NoMemory) => return Err(AllocError),
        }
        Ok(())
    }

    // Deletes a pipe, and drops all its packets.
    #[tactic(auto, using(crate::proofs::RouteFacts::known_none))]
    fn delete_pipe<S: Shelf>(
        &mut self,
        shelf: &mut S,
        owner: Owner,
        spec: &Spec,
        now: u64,
        number: u64,
        pipe: PipeNumber,
    ) -> Result<(), AllocError>
        requires stands { Stands (setting spec.now now) (S.pocket shelf.old owner) self.old }
        requires log { 1 < self.old.log.spare }
        requires forgot { self.old.flow_cache ≡ [] }
        ensures ok { let at = setting spec.now now in OnOk result
            (Becomes 1
            (obey at number (PipeDelete pipe) (net_of (S.pocket shelf.old owner) self.old))
            (S.pocket shelf.old owner) (S.pocket shelf.new owner) self.old self.new) }
        ensures succeeds { IsSome (refusal_of (PipeDelete pipe)
            (net_of (S.pocket shelf.old owner) self.old)) → IsOk result }
        ensures frame { Frame result owner (S.pocket shelf.old) (S.pocket shelf.new)
            self.old self.new }
    {
        // A pipe that doesn't exist drops nothing, and needs no room for records of drops.
        if !self.table.has(pipe) {
            self.refuse(now, number, Refusal::NoSuchPipe);
            return Ok(());
        }
        self.reserve_besides(shelf.count(owner))?;
        match self.table.delete(shelf, owner, pipe)? {
            None => self.refuse(now, number, Refusal::NoSuchPipe),
            Some(packets) => {
                self.note_done(now, number);
                self.drop_all(now, &packets, DropCause::Deleted);
            }
        }
        Ok(())
    }

    // Lists the pipes.
    fn show_pipes(&mut self, spec: &Spec, now: u64, number: u64) -> Result<(), AllocError>
        ensures ok { let at = setting spec.now now in
            OnOk result (Obeys at number PipeShow self.old self.new) }
        ensures room { OnOk result (0 < self.new.log.spare) }
        ensures refused { OnErr result (IsStill self.old self.new) }
    {
        let lines = self.table.lines();
        self.reserve_besides(lines)?;
        self.note_done(now, number);
        self.table.show(&mut self.log);
        Ok(())
    }

    // Lists the rules.
    fn show_rules(&mut self, spec: &Spec, now: u64, number: u64) -> Result<(), AllocError>
        ensures ok { let at = setting spec.now now in
            OnOk result (Obeys at number Show self.old self.new) }
        ensures room { OnOk result (0 < self.new.log.spare) }
        ensures refused { OnErr result (IsStill self.old self.new) }
        ensures fits { length self.old.book.rules + 3 ≤ self.old.log.spare → IsOk result }
    {
        let lines = self.book.len();
        self.reserve_besides(lines)?;
        self.note_done(now, number);
        note_rules(&mut self.log, &mut self.book);
        Ok(())
    }

    // Creates a packet.
    fn inject<S: Shelf>(
        &mut self,
        shelf: &mut S,
        owner: Owner,
        spec: &Spec,
        now: u64,
        number: u64,
        send: &SendSpec,
    ) -> Result<(), AllocError>
        requires stands { Stands (setting spec.now now) (S.pocket shelf.old owner) self.old }
        requires made { self.old.made < 2 ^ 63 }
        requires log { 5 < self.old.log.spare }
        ensures ok { let at = setting spec.now now in OnOk result
            (Becomes 1
            (obey at number (Inject send.now) (net_of (S.pocket shelf.old owner) self.old))
            (S.pocket shelf.old owner) (S.pocket shelf.new owner) self.old self.new) }
        ensures frame { Frame result owner (S.pocket shelf.old) (S.pocket shelf.new)
            self.old self.new }
    {
        shelf.put_ready(owner)?;
        self.inject_ready(shelf, owner, now, send)?;
        self.note_done(now, number);
        let sending = injection(number, send);
        self.make(shelf, owner, spec, now, &sending, &Lookup::Searched);
        Ok(())
    }

    // Starts a train.
    #[tactic(auto, using(crate::proofs::RouteFacts::known_none))]
    fn start_train(
        &mut self,
        spec: &Spec,
        now: u64,
        number: u64,
        source: FlowNumber,
        train: &TrainSpec,
    ) -> Result<(), AllocError>
        requires early { IsMoment now }
        requires log { 1 < self.old.log.spare }
        requires forgot { self.old.flow_cache ≡ [] }
        ensures ok { let at = setting spec.now now in
            OnOk result (Obeys at number (Train source train.now) self.old self.new) }
        ensures room { OnOk result (0 < self.new.log.spare) }
        ensures refused { OnErr result (IsStill self.old self.new) }
        ensures succeeds { (p : Pocket) → IsSome (source_refusal source (net_of p self.old)) →
            IsOk result }
    {
        if let Some(refusal) = self.traffic.refusal(source) {
            self.refuse(now, number, refusal);
            return Ok(());
        }
        self.traffic.start_train(now, source, train)?;
        self.note_done(now, number);
        Ok(())
    }

    // Starts a flow.
    #[tactic(auto, using(crate::proofs::RouteFacts::known_none))]
    fn start_flow(
        &mut self,
        spec: &Spec,
        now: u64,
        number: u64,
        source: FlowNumber,
        flow: &FlowSpec,
    ) -> Result<(), AllocError>
        requires log { 1 < self.old.log.spare }
        requires forgot { self.old.flow_cache ≡ [] }
        ensures ok { let at = setting spec.now now in
            OnOk result (Obeys at number (Flow source flow.now) self.old self.new) }
        ensures room { OnOk result (0 < self.new.log.spare) }
        ensures refused { OnErr result (IsStill self.old self.new) }
        ensures succeeds { (p : Pocket) → IsSome (source_refusal source (net_of p self.old)) →
            IsOk result }
    {
        if let Some(reason) = self.traffic.refusal(source) {
            self.refuse(now, number, reason);
            return Ok(());
        }
        self.traffic.start_flow(source, flow)?;
        self.note_done(now, number);
        Ok(())
    }

    // Stops a flow.
    #[tactic(auto, using(crate::proofs::RouteFacts::known_none))]
    fn stop(
        &mut self,
        spec: &Spec,
        now: u64,
        number: u64,
        flow: FlowNumber,
    ) -> Result<(), AllocError>
        requires log { 1 < self.old.log.spare }
        requires forgot { self.old.flow_cache ≡ [] }
        ensures ok { let at = setting spec.now now in
            OnOk result (Obeys at number (Stop flow) self.old self.new) }
        ensures room { OnOk result (0 < self.new.log.spare) }
        ensures refused { OnErr result (IsStill self.old self.new) }
        ensures succeeds { IsOk result }
    {
        if !self.traffic.has_flow(flow) {
            self.refuse(now, number, Refusal::NoFlow);
            return Ok(());
        }
        self.traffic.stop(flow);
        self.note_done(now, number);
        Ok(())
    }

    // Sets whether a packet that leaves a pipe is delivered at once.
    fn set_one_pass(
        &mut self,
        spec: &Spec,
        now: u64,
        number: u64,
        one_pass: bool,
    ) -> Result<(), AllocError>
        requires { 1 < self.old.log.spare }
        ensures ok { let at = setting spec.now now in
            OnOk result (Obeys at number (OnePass one_pass) self.old self.new) }
        ensures room { OnOk result (0 < self.new.log.spare) }
        ensures refused { OnErr result (IsStill self.old self.new) }
        ensures succeeds { IsOk result }
    {
        self.one_pass = one_pass;
        self.note_done(now, number);
        Ok(())
    }

    // Sets whether packets are traced.
    fn set_trace(
        &mut self,
        spec: &Spec,
        now: u64,
        number: u64,
        trace: bool,
    ) -> Result<(), AllocError>
        requires { 1 < self.old.log.spare }
        ensures ok { let at = setting spec.now now in
            OnOk result (Obeys at number (Trace trace) self.old self.new) }
        ensures room { OnOk result (0 < self.new.log.spare) }
        ensures refused { OnErr result (IsStill self.old self.new) }
        ensures succeeds { IsOk result }
    {
        self.trace = trace;
        self.note_done(now, number);
        Ok(())
    }

    // Executes the last command.
    fn end(&mut self, spec: &Spec, now: u64, number: u64) -> Result<(), AllocError>
        requires { 1 < self.old.log.spare }
        ensures ok { let at = setting spec.now now in
            OnOk result (Obeys at number End self.old self.new) }
        ensures room { OnOk result (0 < self.new.log.spare) }
        ensures refused { OnErr result (IsStill self.old self.new) }
        ensures succeeds { IsOk result }
    {
        self.note_done(now, number);
        Ok(())
    }
}

// Returns the packet that the command with this number creates.
fn injection(number: u64, send: &SendSpec) -> Sending
    ensures { result ≡ record { origin = Origin.ByCommand number; send = send.now } }
{
    Sending {
        origin: Origin::ByCommand(number),
        send: *send,
    }
}

// Records a line for each rule.
fn note_rules(log: &mut RecordLog, book: &mut RuleList)
    requires { length book.old.rules ≤ log.old.spare }
    ensures book { book.new ≡ book.old }
    ensures records { log.new.records
        ≡ log.old.records ++ map (λ c. RuleLine c.rule c.packets c.bytes) book.old.rules }
    ensures room { log.old.spare ≤ log.new.spare + length book.old.rules }
{
    for place in 0..book.len() {
        let counted = book.rule_at(place);
        log.note(&Record::RuleLine {
            rule: counted.rule(),
            packets: counted.packets(),
            bytes: counted.bytes(),
        });
    }
}
