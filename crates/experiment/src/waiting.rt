//! Events that are made before the next command is known.

ghost use Rattle.std.specs.Prelude.{◌≡◌, ◌*◌, ℕ, ◌^◌, ◌≤◌, List, None, IfSome};
ghost use Rattle.emu_model.specs.declared.records.Record.{Record};
ghost use Rattle.emu_model.specs.Dues.{dues_of, least_due};
ghost use Rattle.experiment.specs.Waits.{IsSettled};
ghost use Rattle.packet_store.specs.Pocket.{Pocket, OthersStay};
ghost use Rattle.network.specs.Kept.{net_of};
ghost use Rattle.experiment.specs.Kept.{view, IsHousedIn, IsWaiting};
ghost use Rattle.experiment.specs.Moves.{IsPast, Passes};

use crate::{Event, Experiment, laws};
use emu_model::{Class, Due, Source};
use packet_store::{Owner, Shelf};

/// A time (ns) after every due.
const PAST_ALL: u64 = 2_000_000_000_000_000;

impl Experiment {
    /// Makes the earliest event, if it is due before a time (ns); there must be no next command. It
    /// is the same step that `event` would make if the next command were at that time or later.
    /// Returns `Ran` or `Ended` if the step was made, `Still` if nothing is due before that time or
    /// the experiment has ended, and `Halted` if memory runs out: the state is then as before the
    /// step, and the experiment is over.
    #[inline(always)]
    pub fn event_before<S: Shelf>(&mut self, shelf: &mut S, owner: Owner, limit: u64) -> Event
        requires housed { IsHousedIn (S.pocket shelf.old owner) self.old }
        requires idle { self.old.next ≡ None }
        requires early { limit ≤ 10 ^ 15 }
        ensures housed { IsHousedIn (S.pocket shelf.new owner) self.new }
        ensures passes { Passes limit result (S.pocket shelf.old owner) self.old
            (S.pocket shelf.new owner) self.new }
        ensures waits { (t u : ℕ) (earlier : List Record) → t ≤ u → u ≤ limit →
            IsPast result self.new.clock u →
            IsWaiting t earlier (S.pocket shelf.old owner) self.old →
            IsWaiting u earlier (S.pocket shelf.new owner) self.new }
        ensures past { IsPast result self.new.clock limit }
        ensures idle { self.new.next ≡ None }
        ensures consumed { self.new.consumed ≡ self.old.consumed }
        ensures spec { self.new.spec ≡ self.old.spec }
        ensures steps { self.new.steps ≤ self.new.spec.budget.steps }
        ensures budget { (S.pocket shelf.new owner).budget ≡ (S.pocket shelf.old owner).budget }
        ensures noted { self.new.noted ≡ self.old.noted }
        ensures others { OthersStay owner (S.pocket shelf.old) (S.pocket shelf.new) }
    {
        laws::steps_before_wait();
        laws::waits_pass_events();
        laws::waits_agree();
        laws::waits_rise();
        laws::waits_read_no_records();
        laws::waits_settle();
        if self.ending.is_some() {
            return Event::Still;
        }
        let first = Due {
            moment: limit,
            source: Source::next_command(),
        };
        let due = self.net.next_due(self.clock, first);
        if due.source.class == Class::NextCommand {
            return Event::Still;
        }
        let Ok(()) = self.take_event(shelf, owner, due) else {
            return Event::Halted;
        };
        if self.ending.is_some() {
            return Event::Ended;
        }
        Event::Ran
    }

    /// Returns the time (ns) of the earliest event that is due, if there is one, whatever the next
    /// command is.
    pub fn next_moment(&self) -> Option<u64>
        ensures some { IfSome result (λ m. (p : Pocket) →
            m ≡ (least_due (2 * 10 ^ 15) (dues_of self.now.clock (net_of p self.now.net))).moment) }
        ensures none { result ≡ None → (p : Pocket) → IsSettled (2 * 10 ^ 15) (view p self.now) }
    {
        laws::waits_settle();
        let past = Due {
            moment: PAST_ALL,
            source: Source::next_command(),
        };
        let due = self.net.earliest(self.clock, past);
        if due.source.class == Class::NextCommand {
            return None;
        }
        Some(due.moment)
    }

    /// Returns the number of packets created.
    pub fn made_count(&self) -> u64
        ensures { (p : Pocket) → IsHousedIn p self.now → result ≡ (view p self.now).net.made }
    {
        self.counters().made
    }
}
