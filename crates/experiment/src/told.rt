//! The observable state of an experiment.

ghost use Rattle.std.specs.Prelude.{◌≡◌, ℕ, ◌*◌, ◌^◌, ◌<◌, ◌≤◌, ◌++◌, [], List, is_some, option_to_list, IfOk, IfSome, OnOk, OnErr};
ghost use Rattle.std.specs.List.{AllByRecursion};
ghost use Rattle.emu_model.specs.Moments.{IsMoment};
ghost use Rattle.emu_model.specs.declared.sources.Class.TheVariants.{NextCommand};
ghost use Rattle.emu_model.specs.declared.records.Record.{Record};
ghost use Rattle.emu_model.specs.Net.{counters_of};
ghost use Rattle.emu_model.specs.Dues.{dues_of};
ghost use Rattle.packet_store.specs.Pocket.{Pocket};
ghost use Rattle.network.specs.Kept.{net_of};
ghost use Rattle.experiment.specs.Kept.{view, IsAlone, IsAloneAfter, IsHousedIn, IsWaiting};
ghost use Rattle.experiment.specs.Dues.{command_dues, dues_in, next_due_in};

use crate::Experiment;
use emu_model::{Counters, Due, Ending, Record, Source, Spec, Timed, laws};
use network::Network;
use std::alloc::{AllocError, Global};

impl Experiment {
    /// Returns the records.
    pub fn records(&self) -> &[Record]
        ensures { result.now ≡ self.now.net.log.records }
    {
        self.net.records()
    }

    /// Removes the records, as if they had been written down. Keeps the allocation. Later events
    /// are not affected.
    #[tactic(auto, using(crate::proofs::AloneFacts::after_forgotten, crate::proofs::PassFacts::waits_forgotten))]
    pub fn forget_records(&mut self)
        ensures rest { self.new
            ≡ record self.old { net = record self.old.net { log = self.new.net.log } } }
        ensures records { self.new.net.log.records ≡ [] }
        ensures room { self.old.net.log.spare ≤ self.new.net.log.spare }
        ensures housed { (p : Pocket) → IsHousedIn p self.old → IsHousedIn p self.new }
        ensures after { (earlier : List Record) (p : Pocket) → IsAloneAfter earlier p self.old →
            IsAloneAfter (earlier ++ self.old.net.log.records) p self.new }
        ensures waits { (t : ℕ) (earlier : List Record) (p : Pocket) → IsWaiting t earlier p self.old →
            IsWaiting t (earlier ++ self.old.net.log.records) p self.new }
    {
        self.net.forget_records();
    }

    /// Returns the commands so far, including the next one.
    pub fn consumed(&self) -> &[Timed]
        ensures { result.now ≡ self.now.consumed }
    {
        self.consumed.as_slice()
    }

    /// Returns the counters: the packets created, delivered, held, and dropped by cause.
    pub fn counters(&self) -> Counters
        ensures { (p : Pocket) → IsHousedIn p self.now →
            result ≡ counters_of (view p self.now).net }
    {
        self.net.counters(self.held)
    }

    /// Returns the number of packets on the shelf.
    pub fn packet_count(&self) -> u64
        ensures { (p : Pocket) → IsHousedIn p self.now → result ≡ p.count }
    {
        self.held
    }

    /// Returns the ending, if the experiment has ended.
    pub fn ending(&self) -> Option<Ending>
        ensures { result ≡ self.now.ending }
    {
        self.ending
    }

    /// Returns the specification of the experiment.
    pub fn spec(&self) -> Spec
        ensures { result ≡ self.now.spec }
    {
        self.spec
    }

    /// Returns the number of steps made.
    pub fn events(&self) -> u64
        ensures { result ≡ self.now.steps }
    {
        self.steps
    }

    /// Returns the time of the last event (ns), or 0 before the first.
    pub fn clock(&self) -> u64
        ensures { result ≡ self.now.clock }
    {
        self.clock
    }

    /// Returns true if there is a next command.
    pub fn has_next(&self) -> bool
        ensures { result ≡ is_some self.now.next }
    {
        self.next.is_some()
    }

    /// Returns the commands so far, and the records. Does not allocate.
    pub fn into_lists(self) -> (Vec<Timed>, Vec<Record>)
        ensures consumed { result.0.items ≡ self.consumed }
        ensures records { result.1.items ≡ self.net.log.records }
    {
        let Experiment { consumed, net, .. } = self;
        (consumed, net.into_records())
    }

    /// Returns the dues: that of the next command, if there is one, and then those of all events,
    /// even if the experiment has ended.
    pub fn dues(&self, alloc: Global) -> Result<Vec<Due>, AllocError>
        ensures { IfOk result (λ dues. (p : Pocket) → dues.items ≡ dues_in (view p self.now)) }
    {
        let mut dues = Vec::new(alloc);
        self.add_dues(&mut dues)?;
        Ok(dues)
    }

    /// Returns the earliest due (its time in ns), including that of the next command, or None if
    /// there is no next command.
    pub fn next_due(&self) -> Option<Due>
        ensures due { (p : Pocket) → result ≡ next_due_in (view p self.now) }
        ensures early { IfSome result (λ d. d.moment ≤ 10 ^ 15) }
        ensures ahead { (p : Pocket) → IsAlone p self.now →
            IfSome result (λ d. self.now.clock ≤ d.moment) }
    {
        self.dues_in_time();
        match &self.next {
            Some(command) => Some(self.least_due(command)),
            None => None,
        }
    }

    /// Reveals that no due is before the time of the last event, and that every due is before 2 *
    /// 10^15 ns.
    pub fn dues_in_time(&self)
        ensures { (p : Pocket) → IsAlone p self.now →
            AllByRecursion (λ d. (self.now.clock ≤ d.moment) × IsMoment d.moment)
            (dues_in (view p self.now)) }
    {
        let _ = &self.spec;
        laws::dues_stay_ahead();
        laws::dues_stay_below();
    }

    /// Appends the dues. If allocation fails, `dues` is unchanged.
    pub fn add_dues(&self, dues: &mut Vec<Due>) -> Result<(), AllocError>
        ensures ok { OnOk result
            ((p : Pocket) → dues.new.items ≡ dues.old.items ++ dues_in (view p self.now)) }
        ensures err { OnErr result (dues.new.items ≡ dues.old.items) }
    {
        append_dues(&self.net, self.next, self.clock, dues)
    }
}

/// Returns the due of a command that is the next one.
pub(crate) fn command_due(command: &Timed) -> Due
    ensures { result ≡ record {
      moment = command.now.moment;
      source = record { class = NextCommand; number = 0 };
    } }
{
    Due {
        moment: command.moment,
        source: Source::next_command(),
    }
}

// Appends the due of the next command and those of all events, given that the last event was at
// `clock` (ns). If allocation fails, `dues` is unchanged.
pub(crate) fn append_dues(
    net: &Network,
    next: Option<Timed>,
    clock: u64,
    dues: &mut Vec<Due>,
) -> Result<(), AllocError>
    ensures ok { OnOk result
        ((p : Pocket) →
        dues.new.items
        ≡ dues.old.items
        ++ (command_dues (option_to_list next) ++ dues_of clock (net_of p net.now))) }
    ensures err { OnErr result (dues.new.items ≡ dues.old.items) }
{
    let before = dues.len();
    dues.reserve(1)?;
    if let Some(command) = next {
        dues.push_reserved(command_due(&command));
    }
    let Ok(()) = net.add_dues(clock, dues) else {
        dues.truncate(before);
        return Err(AllocError);
    };
    Ok(())
}
