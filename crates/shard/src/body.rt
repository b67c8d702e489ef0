//! The part of a resident that moves as one: an experiment, and its mail, which may keep the
//! records that the experiment has discarded.

ghost use Rattle.std.specs.Prelude.{◌≡◌, ◌≤◌, ◌<◌, ◌++◌, ◌↔◌, IsFalse, length, take, slice_index_or};
ghost use Rattle.emu_model.specs.declared.records.Record.TheVariants.{StepsSpent};
ghost use Rattle.packet_store.specs.Pocket.{Pocket};
ghost use Rattle.experiment.specs.declared.experiment.Event.TheVariants.{Ran};
ghost use Rattle.experiment.specs.Kept.{IsAloneAfter, IsHousedIn};
ghost use Rattle.experiment.specs.Written.{AreCountsOf};
ghost use Rattle.shard.specs.Seen.{IsToldMore, IsPublished};

use crate::list_mail::ListMail;
use crate::mail::Mail;
use emu_model::{Counters, Due, Ending, Record, Spec, Timed, laws};
use experiment::{ApplyError, BATCH, Event, Experiment, RecordCounts};
use packet_store::{Owner, ReservedShelf, Shelf};
use std::alloc::AllocError;
use std::marker::Model;
use unchecked::unreachable_unchecked;

/// An experiment and its mail. Contracts see the experiment with all its records.
#[derive(Drop)]
pub(crate) struct Body<M: Mail> {
    name: u32,
    experiment: Experiment,
    mail: M,
    published: u128,
    // The counts of the records that the mail keeps.
    counts: RecordCounts,
}

impl<M: Mail> Model for Body<M> {
    ghost use Rattle.emu_model.specs.DueLaws.{AreRising};
    ghost use Rattle.experiment.specs.Written.{AreCountsOf};
    ghost use Rattle.shard.specs.Bodies.{Moved, behind};

    ghost Value = { Moved M };

    ghost view = { λ b. record {
      name = b.name;
      experiment = behind (M.kept b.mail) b.experiment;
      mail = b.mail;
      published = b.published;
    } };

    ghost invariant = { λ b. AreCountsOf (M.kept b.mail) b.counts
        × AreRising 0 b.experiment.consumed };
}

// Returns the record at a place; those that the mail keeps are first.
fn record_at<M: Mail>(mail: &M, fresh: &[Record], place: u128) -> Record
    requires { place < length (M.kept mail.now ++ fresh.now) }
    ensures { result ≡ slice_index_or (M.kept mail.now ++ fresh.now) place (StepsSpent 0) }
{
    let kept = mail.kept_len() as u128;
    if place < kept {
        let Some(record) = mail.kept_record(place as usize) else {
            unreachable_unchecked!()
        };
        return record;
    }
    fresh[(place - kept) as usize]
}

// Publishes records while the mail accepts them, and returns the number of records published.
#[inline(never)]
fn publish_more<M: Mail>(mail: &mut M, fresh: &[Record], published: u128) -> u128
    requires told { (M.seen mail.old).letters ≡ take published (M.kept mail.old ++ fresh.now) }
    requires short { published ≤ length (M.kept mail.old ++ fresh.now) }
    ensures told { (M.seen mail.new).letters ≡ take result (M.kept mail.old ++ fresh.now) }
    ensures short { result ≤ length (M.kept mail.old ++ fresh.now) }
    ensures published { IsPublished M.seen (M.kept mail.old ++ fresh.now) mail.new }
    ensures same { IsToldMore M.seen mail.old mail.new }
    ensures kept { M.kept mail.new ≡ M.kept mail.old }
{
    let count = mail.kept_len() as u128 + fresh.len() as u128;
    let mut next = published;
    while next < count {
        let record = record_at(mail, fresh, next);
        let Ok(()) = mail.letter(record) else {
            return next;
        };
        next += 1;
    }
    count
}

// Publishes records like `publish_more`, but first checks whether the mail accepts a letter, since
// usually nobody reads and it accepts none. Checks whether the mail's other end has made room only
// if `look` is true, because that end may belong to another thread.
#[inline(always)]
fn publish<M: Mail>(mail: &mut M, fresh: &[Record], published: u128, look: bool) -> u128
    requires told { (M.seen mail.old).letters ≡ take published (M.kept mail.old ++ fresh.now) }
    requires short { published ≤ length (M.kept mail.old ++ fresh.now) }
    ensures told { (M.seen mail.new).letters ≡ take result (M.kept mail.old ++ fresh.now) }
    ensures short { result ≤ length (M.kept mail.old ++ fresh.now) }
    ensures published { IsPublished M.seen (M.kept mail.old ++ fresh.now) mail.new }
    ensures same { IsToldMore M.seen mail.old mail.new }
    ensures kept { M.kept mail.new ≡ M.kept mail.old }
{
    if !look && !mail.knows_room() {
        return published;
    }
    if look && !mail.may_take() {
        return published;
    }
    publish_more(mail, fresh, published)
}

// Returns true if an event checks the mail's other end: the first one does, and the last one, since
// none follows it.
#[inline(always)]
fn looks(first: bool, event: Event) -> bool
    ensures { IsFalse result ↔ (IsFalse first × (event ≡ Ran)) }
{
    first || event != Event::Ran
}

// Moves the records from the experiment to the mail, if the mail keeps them.
#[inline(never)]
fn keep<M: Mail>(experiment: &mut Experiment, mail: &mut M, counts: &mut RecordCounts)
    requires counts { AreCountsOf (M.kept mail.old) counts.old }
    requires alone { (p : Pocket) × IsHousedIn p experiment.old
        × IsAloneAfter (M.kept mail.old) p experiment.old }
    ensures counts { AreCountsOf (M.kept mail.new) counts.new }
    ensures rest { experiment.new ≡ record experiment.old {
      net = record experiment.old.net { log = experiment.new.net.log };
    } }
    ensures records { M.kept mail.new ++ experiment.new.net.log.records
        ≡ M.kept mail.old ++ experiment.old.net.log.records }
    ensures seen { M.seen mail.new ≡ M.seen mail.old }
    ensures housed { (p : Pocket) → IsHousedIn p experiment.old → IsHousedIn p experiment.new }
{
    if mail.keep(experiment.records()) {
        laws::packets_add_up();
        counts.count(experiment);
    }
}

impl<M: Mail> Body<M> {
    ghost use Rattle.std.specs.Prelude.{◌≡◌, ◌≤◌, ◌<◌, ◌^◌, ◌++◌, ◌∷◌, [], Some, None, Err, true, IsSome, IfSome, IfNone, OnOk, OnErr, is_some, length, take};
    ghost use Rattle.emu_model.specs.Net.{counters_of};
    ghost use Rattle.packet_store.specs.Own.{own_pocket};
    ghost use Rattle.packet_store.specs.Pocket.{Pocket, empty_pocket, OthersStay};
    ghost use Rattle.network.specs.Kept.{net_keys};
    ghost use Rattle.experiment.specs.Dues.{next_due_in};
    ghost use Rattle.experiment.specs.Kept.{view, IsAlone, IsHousedIn, last_moment};
    ghost use Rattle.experiment.specs.Moves.{Makes};
    ghost use Rattle.shard.specs.Kept.{IsKept, IsGoing};
    ghost use Rattle.shard.specs.Seen.{IsToldMore, IsPublished};

    /// Creates a body from an experiment that has all its records, and a mail that keeps none.
    pub(crate) fn new(name: u32, experiment: Experiment, mail: M) -> Self
        requires kept { M.kept mail ≡ [] }
        requires new { experiment.consumed ≡ [] }
        ensures { result ≡ record {
          name = name;
          experiment = experiment;
          mail = mail;
          published = 0;
        } }
    {
        Body {
            name,
            experiment,
            mail,
            published: 0,
            counts: RecordCounts::new(),
        }
    }

    /// Returns the name.
    pub(crate) fn name(&self) -> u32
        ensures { result ≡ self.now.name }
    {
        self.name
    }

    /// Returns the specification of the experiment.
    pub(crate) fn spec(&self) -> Spec
        ensures { result ≡ self.now.experiment.spec }
    {
        self.experiment.spec()
    }

    /// Returns the commands so far, including the next one.
    pub(crate) fn consumed(&self) -> &[Timed]
        ensures { result.now ≡ self.now.experiment.consumed }
    {
        self.experiment.consumed()
    }

    /// Returns the number of steps made.
    pub(crate) fn events(&self) -> u64
        ensures { result ≡ self.now.experiment.steps }
    {
        self.experiment.events()
    }

    /// Returns the time of the last event (ns), or 0 before the first.
    pub(crate) fn clock(&self) -> u64
        ensures { result ≡ self.now.experiment.clock }
    {
        self.experiment.clock()
    }

    /// Returns true if there is a next command.
    pub(crate) fn has_next(&self) -> bool
        ensures { result ≡ is_some self.now.experiment.next }
    {
        self.experiment.has_next()
    }

    /// Returns the ending, if the experiment has ended.
    pub(crate) fn ending(&self) -> Option<Ending>
        ensures { result ≡ self.now.experiment.ending }
    {
        self.experiment.ending()
    }

    /// Returns the earliest due (its time in ns), or None if there is no next command.
    pub(crate) fn next_due(&self) -> Option<Due>
        ensures due { (p : Pocket) → result ≡ next_due_in (view p self.now.experiment) }
        ensures early { IfSome result (λ d. d.moment ≤ 10 ^ 15) }
        ensures ahead { (p : Pocket) → IsAlone p self.now.experiment →
            IfSome result (λ d. self.now.experiment.clock ≤ d.moment) }
    {
        laws::dues_stay_ahead();
        self.experiment.next_due()
    }

    /// Publishes records while the mail accepts them.
    #[inline(always)]
    pub(crate) fn publish(&mut self)
        requires told { (M.seen self.old.mail).letters
            ≡ take self.old.published self.old.experiment.net.log.records }
        requires short { self.old.published ≤ length self.old.experiment.net.log.records }
        ensures told { (M.seen self.new.mail).letters
            ≡ take self.new.published self.old.experiment.net.log.records }
        ensures short { self.new.published ≤ length self.old.experiment.net.log.records }
        ensures published { IsPublished M.seen self.old.experiment.net.log.records self.new.mail }
        ensures mail { IsToldMore M.seen self.old.mail self.new.mail }
        ensures rest { self.new
            ≡ record self.old { mail = self.new.mail; published = self.new.published } }
    {
        self.published = publish(
            &mut self.mail,
            self.experiment.records(),
            self.published,
            true,
        );
    }

    /// Makes the next event, and publishes records while the mail accepts them; checks the mail's
    /// other end if `look` is true. Moves the records to the mail, if it keeps them: one batch at a
    /// time, and the rest at the end.
    #[inline(always)]
    pub(crate) fn event(&mut self, shelf: &mut ReservedShelf, look: bool) -> Event
        requires going { IsGoing M.seen (own_pocket shelf.old) self.old.experiment
            self.old.published self.old.mail }
        requires next { IsSome self.old.experiment.next }
        ensures kept { IsKept M.seen (own_pocket shelf.new) self.new.experiment
            self.new.published self.new.mail }
        ensures makes { Makes result (own_pocket shelf.old) self.old.experiment
            (own_pocket shelf.new) self.new.experiment }
        ensures name { self.new.name ≡ self.old.name }
        ensures spec { self.new.experiment.spec ≡ self.old.experiment.spec }
        ensures consumed { self.new.experiment.consumed ≡ self.old.experiment.consumed }
        ensures mail { IsToldMore M.seen self.old.mail self.new.mail }
        ensures published { IsPublished M.seen self.new.experiment.net.log.records self.new.mail }
    {
        laws::records_grow();
        laws::records_are_not_read();
        let event = self.experiment.event(shelf, 0);
        let look = looks(look, event);
        self.published = publish(
            &mut self.mail,
            self.experiment.records(),
            self.published,
            look,
        );
        if event != Event::Ran || self.experiment.records().len() >= BATCH {
            keep(&mut self.experiment, &mut self.mail, &mut self.counts);
        }
        event
    }

    /// Reserves memory for one more command, so that the next `apply` needs no allocation. Nothing
    /// else changes.
    pub(crate) fn apply_ready(&mut self) -> Result<(), AllocError>
        ensures ready { OnOk result (0 < self.new.experiment.spare) }
        ensures same { self.new ≡ record self.old {
          experiment = record self.old.experiment { spare = self.new.experiment.spare };
        } }
    {
        self.experiment.apply_ready()
    }

    /// Removes the next command from the mail and returns it, if one is known to wait there.
    pub(crate) fn take_command(&mut self) -> Option<Timed>
        ensures some { IfSome result
            (λ t. M.seen self.new.mail ≡ record (M.seen self.old.mail) {
              given = (M.seen self.old.mail).given ++ t ∷ [];
              dry = (M.seen self.new.mail).dry;
            }) }
        ensures moment { IfSome result (λ t. t.moment ≤ 10 ^ 15) }
        ensures none { IfNone result
            (M.seen self.new.mail ≡ record (M.seen self.old.mail) { dry = true }) }
        ensures rest { self.new ≡ record self.old { mail = self.new.mail } }
    {
        self.mail.take_command()
    }

    /// Makes a command the next one, like `Experiment::apply`.
    pub(crate) fn apply(&mut self, command: &Timed) -> Result<(), ApplyError>
        requires { command.now.moment ≤ 10 ^ 15 }
        ensures rest { self.new ≡ record self.old { experiment = self.new.experiment } }
        ensures ok { OnOk result
            (self.new.experiment
            ≡ record self.old.experiment {
              next = Some command.now;
              consumed = self.old.experiment.consumed
                  ++ command.now ∷ [];
              spare = self.new.experiment.spare;
            }) }
        ensures free { OnOk result
            ((self.old.experiment.ending ≡ None) × (self.old.experiment.next ≡ None)
            × (last_moment 0 self.old.experiment.consumed ≤ command.now.moment)) }
        ensures err { OnErr result (self.new ≡ self.old) }
        ensures housed { (p : Pocket) → IsHousedIn p self.old.experiment →
            IsHousedIn p self.new.experiment }
        ensures alone { (p : Pocket) → IsAlone p self.old.experiment →
            IsAlone p self.new.experiment }
        ensures over { result ≡ Err ApplyError.Over → IsSome self.old.experiment.ending }
        ensures busy { result ≡ Err ApplyError.Busy →
            (self.old.experiment.ending ≡ None) × IsSome self.old.experiment.next }
        ensures backward { result ≡ Err ApplyError.Backward →
            (self.old.experiment.ending ≡ None) × (self.old.experiment.next ≡ None)
            × (command.now.moment < last_moment 0 self.old.experiment.consumed) }
        ensures memory { result ≡ Err ApplyError.NoMemory →
            (self.old.experiment.ending ≡ None) × (self.old.experiment.next ≡ None)
            × (last_moment 0 self.old.experiment.consumed ≤ command.now.moment)
            × (self.old.experiment.spare ≡ 0) }
    {
        self.experiment.apply(command)
    }

    /// Moves all packets from one shelf to another, like `Experiment::rehouse`.
    pub(crate) fn rehouse<S: Shelf, T: Shelf>(
        &mut self,
        from: &mut S,
        owner: Owner,
        to: &mut T,
        other: Owner,
    )
        requires housed { IsHousedIn (S.pocket from.old owner) self.old.experiment }
        requires empty { T.pocket to.old other ≡ empty_pocket (T.pocket to.old other).budget }
        requires room { length (net_keys self.old.experiment.net) ≤ T.room to.old other }
        requires budget { length (net_keys self.old.experiment.net)
            ≤ (T.pocket to.old other).budget }
        requires fits { self.old.experiment.spec.budget.packets ≤ (T.pocket to.old other).budget }
        ensures view { view (T.pocket to.new other) self.new.experiment
            ≡ view (S.pocket from.old owner) self.old.experiment }
        ensures housed { IsHousedIn (T.pocket to.new other) self.new.experiment }
        ensures alone { IsAlone (S.pocket from.old owner) self.old.experiment →
            IsAlone (T.pocket to.new other) self.new.experiment }
        ensures rest { self.new ≡ record self.old {
          experiment = record self.old.experiment { net = self.new.experiment.net };
        } }
        ensures records { self.new.experiment.net.log.records
            ≡ self.old.experiment.net.log.records }
        ensures count { (T.pocket to.new other).count ≡ (S.pocket from.old owner).count }
        ensures budget { (T.pocket to.new other).budget ≡ (T.pocket to.old other).budget }
        ensures gone { S.pocket from.new owner ≡ empty_pocket (S.pocket from.old owner).budget }
        ensures others_from { OthersStay owner (S.pocket from.old) (S.pocket from.new) }
        ensures others_to { OthersStay other (T.pocket to.old) (T.pocket to.new) }
    {
        self.experiment.rehouse(from, owner, to, other);
    }

    /// Returns the counters: the packets created, delivered, held, and dropped by cause.
    pub(crate) fn counters(&self) -> Counters
        requires { (p : Pocket) × IsHousedIn p self.now.experiment × IsAlone p self.now.experiment }
        ensures { (p : Pocket) → IsHousedIn p self.now.experiment →
            result ≡ counters_of (view p self.now.experiment).net }
    {
        laws::packets_add_up();
        self.counts.counters(&self.experiment)
    }

    /// Returns the mail alone.
    pub(crate) fn into_mail(self) -> M
        ensures { result ≡ self.mail }
    {
        let Body {
            name: _,
            experiment: _,
            mail,
            published: _,
            counts: _,
        } = self;
        mail
    }

    /// Returns the parts: the name, the commands so far, the mail, the records after those that the
    /// mail keeps, and the number of records published.
    pub(crate) fn into_parts(self) -> (u32, Vec<Timed>, M, Vec<Record>, u128)
        ensures name { result.0 ≡ self.name }
        ensures commands { result.1.items ≡ self.experiment.consumed }
        ensures mail { result.2 ≡ self.mail }
        ensures records { M.kept result.2 ++ result.3.items ≡ self.experiment.net.log.records }
        ensures published { result.4 ≡ self.published }
    {
        let Body {
            name,
            experiment,
            mail,
            published,
            counts: _,
        } = self;
        let (commands, records) = experiment.into_lists();
        (name, commands, mail, records, published)
    }
}

impl Body<ListMail> {
    ghost use Rattle.std.specs.Prelude.{◌≡◌, ◌≤◌, ◌<◌, ◌^◌, OnOk, IfErr, OnErr, length};
    ghost use Rattle.shard.specs.Posts.{with_command, Reads};

    /// Returns the records.
    pub(crate) fn records(&self) -> &[Record]
        ensures { result.now ≡ self.now.experiment.net.log.records }
    {
        self.experiment.records()
    }

    /// Adds a command to the mail, or returns it if 64 are waiting.
    pub(crate) fn put(&mut self, timed: Timed) -> Result<(), Timed>
        requires { timed.moment ≤ 10 ^ 15 }
        ensures ok { OnOk result
            (self.new ≡ record self.old { mail = with_command self.old.mail timed }) }
        ensures room { OnOk result (length self.old.mail.waiting < 64) }
        ensures err { OnErr result (self.new ≡ self.old) }
        ensures back { IfErr result (λ t. t ≡ timed) }
        ensures full { OnErr result (length self.old.mail.waiting ≡ 64) }
    {
        self.mail.put(timed)
    }

    /// Removes the first unread letter from the mail, and returns it.
    pub(crate) fn read(&mut self) -> Option<Record>
        ensures reads { Reads result self.old.mail self.new.mail }
        ensures same { self.new ≡ record self.old { mail = self.new.mail } }
    {
        self.mail.read()
    }
}
