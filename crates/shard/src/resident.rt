//! The part of a shard's calls that concerns one resident.

ghost use Rattle.std.specs.Prelude.{◌+◌, ◌^◌, ◌<◌, ◌≤◌};
ghost use Rattle.emu_model.specs.Moments.{end_of_time};

use crate::body::Body;
use crate::dossier::Dossier;
use crate::mail::Mail;
use crate::parcel::Parcel;
use crate::shard::Polled;
use crate::watch::Watch;
use emu_model::{Class, Due, Source, Spec, Timed};
use experiment::{ApplyError, Event};
use packet_store::{OwnShelf, Owner, ReservedShelf, Shelf, Store};
use std::marker::Model;
use timer_wheel::Agenda;
use unchecked::unreachable_unchecked;

/// The source of a resident's entry: it has one entry, whatever it does next.
const TURN: Source = Source {
    class: Class::NextCommand,
    number: 0,
};

/// A resident of a shard.
#[derive(Drop)]
pub(crate) struct Resident<M: Mail> {
    pub(crate) owner: Owner,
    // The body keeps its address while the resident moves.
    pub(crate) body: Box<Body<M>>,
    // The number that is added to the time of the next event to get its time on the agenda (ns), or
    // None if the resident is parked and has no entry there.
    pub(crate) offset: Option<u64>,
}

impl<M: Mail> Model for Resident<M> {
    ghost use Rattle.shard.specs.Bodies.{Residence};

    ghost Value = { Residence M };

    ghost view = { λ r. record {
      name = r.body.value.name;
      owner = r.owner;
      experiment = r.body.value.experiment;
      mail = r.body.value.mail;
      published = r.body.value.published;
      offset = r.offset;
    } };
}

// Returns an offset with which a time that isn't before its experiment's clock isn't before the
// agenda's: the present offset, if that is enough, otherwise a larger one.
fn offset_from(clock: u64, own: u64, moment: u64, offset: u64) -> u64
    requires own { own ≤ moment }
    requires early { moment ≤ 10 ^ 15 }
    requires late { offset ≤ clock }
    requires clock { clock < 2 ^ 62 + end_of_time }
    ensures late { result ≤ clock }
    ensures on { clock ≤ moment + result }
{
    if moment + offset < clock {
        return clock.saturating_sub(own);
    }
    offset
}

impl<M: Mail> Resident<M> {
    ghost use Rattle.std.specs.Prelude.{◌≡◌, ◌≢◌, ◌≤◌, ◌<◌, ◌+◌, ◌-◌, ◌^◌, ℕ, IsSome, IfSome, IfOk, IfErr, OnErr, Some, None, is_some};
    ghost use Rattle.packet_store.specs.Books.{pocket_of};
    ghost use Rattle.packet_store.specs.Pocket.{empty_pocket};
    ghost use Rattle.packet_store.specs.Own.{own_pocket};
    ghost use Rattle.packet_store.specs.Pocket.{Pocket};
    ghost use Rattle.experiment.specs.Dues.{next_due_in};
    ghost use Rattle.experiment.specs.Kept.{view, IsAlone};
    ghost use Rattle.shard.specs.Kept.{IsKept, IsGoing};
    ghost use Rattle.shard.specs.Seen.{IsPublished};
    ghost use Rattle.shard.specs.Seats.{IsDossierOf, IsSeated, standing, seat};
    ghost use Rattle.shard.specs.Turns.{Polls};
    ghost use Rattle.shard.specs.Steps.{IsLeast, IsStale, Advances, HeardAt, RunsOn, Runs};

    // Returns the name.
    pub(crate) fn name(&self) -> u32
        ensures { result ≡ self.now.name }
    {
        self.body.name()
    }

    // Returns the owner of the resident's packets.
    pub(crate) fn owner(&self) -> Owner
        ensures { result ≡ self.now.owner }
    {
        self.owner
    }

    // Returns the specification of the experiment.
    pub(crate) fn spec(&self) -> Spec
        ensures { result ≡ self.now.experiment.spec }
    {
        self.body.spec()
    }

    // Returns the number that is added to the time of the next event (ns), if there is an entry.
    fn offset(&self) -> Option<u64>
        ensures { result ≡ self.now.offset }
    {
        self.offset
    }

    // Returns the time of the last event (ns), or 0 before the first.
    fn clock(&self) -> u64
        ensures { result ≡ self.now.experiment.clock }
    {
        self.body.clock()
    }

    // Returns true if there is a next command.
    fn has_next(&self) -> bool
        ensures { result ≡ is_some self.now.experiment.next }
    {
        self.body.has_next()
    }

    // Returns the earliest due (its time in ns), or None if there is no next command.
    fn next_due(&self) -> Option<Due>
        ensures due { (p : Pocket) → result ≡ next_due_in (view p self.now.experiment) }
        ensures early { IfSome result (λ d. d.moment ≤ 10 ^ 15) }
        ensures ahead { (p : Pocket) → IsAlone p self.now.experiment →
            IfSome result (λ d. self.now.experiment.clock ≤ d.moment) }
    {
        self.body.next_due()
    }

    // Returns the commands so far, including the next one.
    pub(crate) fn consumed(&self) -> &[Timed]
        ensures { result.now ≡ self.now.experiment.consumed }
    {
        self.body.consumed()
    }

    // Sets the entry again, from the agenda's clock on. Parks the resident if it has no next
    // command, or if memory runs out.
    pub(crate) fn enter<A: Agenda>(&mut self, agenda: &mut A, slot: usize)
        requires alone { (p : Pocket) × IsAlone p self.old.experiment }
        requires early { A.time agenda.old < 2 ^ 62 + end_of_time }
        ensures seated { (p : Pocket) →
            IsGoing M.seen p self.old.experiment self.old.published self.old.mail
            → IsSeated M.seen p (A.entries agenda.new slot) (A.time agenda.old) self.new }
        ensures same { self.new ≡ record self.old { offset = self.new.offset } }
        ensures offset { IfSome self.new.offset
            (λ o. o ≡ A.time agenda.old - self.old.experiment.clock) }
        ensures others { (o : ℕ) → o ≢ slot → A.entries agenda.new o ≡ A.entries agenda.old o }
        ensures time { A.time agenda.new ≡ A.time agenda.old }
    {
        let next = self.next_due();
        let own = self.clock();
        self.offset = None;
        agenda.clear_owner(slot);
        let Some(due) = next else {
            return;
        };
        let offset = agenda.clock().saturating_sub(own);
        let Ok(()) = agenda.set(slot, TURN, due.moment + offset) else {
            return;
        };
        self.offset = Some(offset);
    }

    // Sets the entry again after the agenda was rewound; it replaces the old entry, so no memory is
    // needed. A parked resident tries to get an entry.
    pub(crate) fn begin_anew<A: Agenda>(&mut self, agenda: &mut A, slot: usize)
        requires was { (p : Pocket) × (clock : ℕ)
            × IsSeated M.seen p (A.entries agenda.old slot) clock self.old }
        requires start { A.time agenda.old ≡ 0 }
        ensures seated { (p : Pocket) →
            IsGoing M.seen p self.old.experiment self.old.published self.old.mail
            → IsSeated M.seen p (A.entries agenda.new slot) 0 self.new }
        ensures same { self.new ≡ record self.old { offset = self.new.offset } }
        ensures kept { IsSome self.old.offset → IsSome self.new.offset }
        ensures others { (o : ℕ) → o ≢ slot → A.entries agenda.new o ≡ A.entries agenda.old o }
        ensures time { A.time agenda.new ≡ 0 }
    {
        if self.offset().is_none() {
            self.enter(agenda, slot);
            return;
        }
        self.offset = Some(0);
        self.set_again(agenda, slot);
    }

    // Makes one step, and leaves the entry unchanged. Checks the mail's other end if `look` is
    // true.
    #[inline(always)]
    fn advance(&mut self, shelf: &mut ReservedShelf, look: bool) -> Event
        requires going { IsGoing M.seen
            (own_pocket shelf.old) self.old.experiment self.old.published self.old.mail }
        requires next { IsSome self.old.experiment.next }
        ensures advances { Advances M.seen result (own_pocket shelf.old) self.old
            (own_pocket shelf.new) self.new }
        ensures owner { self.new.owner ≡ self.old.owner }
        ensures offset { self.new.offset ≡ self.old.offset }
    {
        self.body.event(shelf, look)
    }

    // Makes one step and at most `more` others, with the resident's packets on a shelf of its own.
    fn advance_on<W: Watch>(&mut self, shelf: &mut ReservedShelf, more: u32, watch: &mut W) -> Event
        requires going { IsGoing M.seen
            (own_pocket shelf.old) self.old.experiment self.old.published self.old.mail }
        requires next { IsSome self.old.experiment.next }
        ensures runs { (n : ℕ) × HeardAt W.hears result self.old.name n watch.old watch.new
            × RunsOn M.seen W.may_refuse more n result
            (own_pocket shelf.old) self.old (own_pocket shelf.new) self.new }
        ensures owner { self.new.owner ≡ self.old.owner }
        ensures offset { self.new.offset ≡ self.old.offset }
    {
        for made in 0..u64::from(more) + 1 {
            let event = self.advance(shelf, made == 0);
            if event != Event::Ran {
                return event;
            }
            if !watch.ran(self.name()) || !self.has_next() {
                return Event::Ran;
            }
        }
        Event::Ran
    }

    // Makes steps like `advance_on`, and leaves the entry unchanged. Checks the mail's other end in
    // the first step, and in one that ends: the check costs more than everything else that a step
    // does with its mail. Looks up the shelf once for all steps.
    fn run_on<W: Watch>(&mut self, store: &mut Store, more: u32, watch: &mut W) -> Event
        requires going { IsGoing M.seen
            (pocket_of store.old self.old.owner) self.old.experiment self.old.published
            self.old.mail }
        requires next { IsSome self.old.experiment.next }
        ensures runs { (n : ℕ) × HeardAt W.hears result self.old.name n watch.old watch.new
            × RunsOn M.seen W.may_refuse more n result
            (pocket_of store.old self.old.owner) self.old
            (pocket_of store.new self.old.owner) self.new }
        ensures owner { self.new.owner ≡ self.old.owner }
        ensures offset { self.new.offset ≡ self.old.offset }
        ensures others { (o : ℕ) → o ≢ self.old.owner →
            pocket_of store.new o ≡ pocket_of store.old o }
    {
        let owner = self.owner;
        let Some(mut shelf) = store.lend(owner) else {
            unreachable!();
        };
        let event = self.advance_on(&mut shelf, more, watch);
        store.give_back(owner, shelf);
        event
    }

    // Makes one step and at most `more` others, while there is a next command, the experiment
    // doesn't end, and `watch` returns true. The entry must be the agenda's first.
    pub(crate) fn run<A: Agenda, W: Watch>(
        &mut self,
        store: &mut Store,
        agenda: &mut A,
        slot: usize,
        more: u32,
        watch: &mut W,
    ) -> Event
        requires least { IsLeast M.seen (pocket_of store.old self.old.owner)
            (A.entries agenda.old slot) (A.time agenda.old) self.old }
        ensures runs { (n : ℕ) × HeardAt W.hears result self.old.name n watch.old watch.new
            × Runs M.seen W.may_refuse more n result (pocket_of store.old self.old.owner) self.old
            (pocket_of store.new self.old.owner) (A.entries agenda.new slot)
            (A.time agenda.old) self.new }
        ensures others { (o : ℕ) → o ≢ self.old.owner →
            pocket_of store.new o ≡ pocket_of store.old o }
        ensures rows { (o : ℕ) → o ≢ slot → A.entries agenda.new o ≡ A.entries agenda.old o }
        ensures time { A.time agenda.new ≡ A.time agenda.old }
    {
        let event = self.run_on(store, more, watch);
        if event == Event::Ran {
            self.set_again(agenda, slot);
        }
        event
    }

    // Takes a command from the mail, or sets the entry of a parked resident again.
    pub(crate) fn poll<A: Agenda>(&mut self, agenda: &mut A, slot: usize) -> Polled
        requires seated { (p : Pocket)
            × IsSeated M.seen p (A.entries agenda.old slot) (A.time agenda.old) self.old }
        requires early { A.time agenda.old < 2 ^ 62 + end_of_time }
        ensures seated { (p : Pocket) →
            IsSeated M.seen p (A.entries agenda.old slot) (A.time agenda.old) self.old
            → IsSeated M.seen p (A.entries agenda.new slot) (A.time agenda.old) self.new }
        ensures polls { (p : Pocket) → Polls M.seen result (seat p self.old) (seat p self.new) }
        ensures published { IsPublished M.seen self.new.experiment.net.log.records self.new.mail }
        ensures owner { self.new.owner ≡ self.old.owner }
        ensures others { (o : ℕ) → o ≢ slot → A.entries agenda.new o ≡ A.entries agenda.old o }
        ensures time { A.time agenda.new ≡ A.time agenda.old }
    {
        let name = self.body.name();
        self.body.publish();
        if self.body.has_next() {
            if self.offset.is_some() {
                return Polled::Held(name);
            }
            self.enter(agenda, slot);
            if self.offset.is_some() {
                return Polled::Resumed(name);
            }
            return Polled::NoMemory(name);
        }
        let Ok(()) = self.body.apply_ready() else {
            return Polled::NoMemory(name);
        };
        let Some(timed) = self.body.take_command() else {
            return Polled::Empty(name);
        };
        match self.body.apply(&timed) {
            Ok(()) => {
                self.enter(agenda, slot);
                return Polled::Took(name);
            }
            Err(ApplyError::Backward) => return Polled::Empty(name),
            Err(_) => unreachable_unchecked!(),
        }
    }

    // Converts a parcel into a resident, whose packets keep their keys or get new ones. It has no
    // entry yet. Returns the unchanged parcel if memory runs out.
    pub(crate) fn settle(
        parcel: Parcel<M>,
        store: &mut Store,
        keeps_keys: bool,
    ) -> Result<Resident<M>, Parcel<M>>
        ensures going { IfOk result (λ r. IsGoing M.seen
            (pocket_of store.new r.owner) r.experiment r.published r.mail) }
        ensures stranger { IfOk result (λ r. pocket_of store.old r.owner ≡ empty_pocket 0) }
        ensures same { IfOk result (λ r. standing (pocket_of store.new r.owner) r ≡ parcel) }
        ensures others { IfOk result
            (λ r. (o : ℕ) → o ≢ r.owner → pocket_of store.new o ≡ pocket_of store.old o) }
        ensures err { OnErr result (store.new ≡ store.old) }
        ensures back { IfErr result (λ back. back ≡ parcel) }
    {
        if keeps_keys {
            return Resident::come_back(parcel, store);
        }
        Resident::move_in(parcel, store)
    }

    // Converts a parcel like `settle`, and moves its shelf into the store as it is.
    fn come_back(parcel: Parcel<M>, store: &mut Store) -> Result<Resident<M>, Parcel<M>>
        ensures going { IfOk result (λ r. IsGoing M.seen
            (pocket_of store.new r.owner) r.experiment r.published r.mail) }
        ensures stranger { IfOk result (λ r. pocket_of store.old r.owner ≡ empty_pocket 0) }
        ensures same { IfOk result (λ r. standing (pocket_of store.new r.owner) r ≡ parcel) }
        ensures others { IfOk result
            (λ r. (o : ℕ) → o ≢ r.owner → pocket_of store.new o ≡ pocket_of store.old o) }
        ensures err { OnErr result (store.new ≡ store.old) }
        ensures back { IfErr result (λ back. back ≡ parcel) }
    {
        let Parcel { body, shelf } = parcel;
        match store.settle(shelf) {
            Ok(owner) => Ok(Resident {
                owner,
                body,
                offset: None,
            }),
            Err(shelf) => Err(Parcel { body, shelf }),
        }
    }

    // Converts a parcel like `settle`, and gives each packet a new key.
    fn move_in(parcel: Parcel<M>, store: &mut Store) -> Result<Resident<M>, Parcel<M>>
        ensures going { IfOk result (λ r. IsGoing M.seen
            (pocket_of store.new r.owner) r.experiment r.published r.mail) }
        ensures stranger { IfOk result (λ r. pocket_of store.old r.owner ≡ empty_pocket 0) }
        ensures same { IfOk result (λ r. standing (pocket_of store.new r.owner) r ≡ parcel) }
        ensures others { IfOk result
            (λ r. (o : ℕ) → o ≢ r.owner → pocket_of store.new o ≡ pocket_of store.old o) }
        ensures err { OnErr result (store.new ≡ store.old) }
        ensures back { IfErr result (λ back. back ≡ parcel) }
    {
        let Ok(owner) = store.admit(parcel.spec().budget.packets) else {
            return Err(parcel);
        };
        let Parcel {
            mut body,
            mut shelf,
        } = parcel;
        // The packets are within the budget.
        let _held = shelf.count(0);
        body.rehouse(&mut shelf, 0, store, owner);
        Ok(Resident {
            owner,
            body,
            offset: None,
        })
    }

    // Converts a resident into a parcel, whose packets keep their keys.
    pub(crate) fn leave(self, store: &mut Store) -> Parcel<M>
        requires going { IsGoing M.seen
            (pocket_of store.old self.owner) self.experiment self.published self.mail }
        ensures same { result ≡ standing (pocket_of store.old self.owner) self }
        ensures gone { pocket_of store.new self.owner ≡ empty_pocket 0 }
        ensures others { (o : ℕ) → o ≢ self.owner → pocket_of store.new o ≡ pocket_of store.old o }
    {
        let Resident {
            owner,
            body,
            offset: _,
        } = self;
        let Some(shelf) = store.lift(owner) else {
            unreachable_unchecked!();
        };
        Parcel { body, shelf }
    }

    // Converts a resident that has ended into its dossier. Discards its packets.
    pub(crate) fn end(self, store: &mut Store) -> Dossier<M>
        requires kept { IsKept M.seen
            (pocket_of store.old self.owner) self.experiment self.published self.mail }
        requires ended { IsSome self.experiment.ending }
        ensures ends { IsDossierOf (pocket_of store.old self.owner) self result }
        ensures gone { pocket_of store.new self.owner ≡ empty_pocket 0 }
        ensures others { (o : ℕ) → o ≢ self.owner → pocket_of store.new o ≡ pocket_of store.old o }
    {
        let Resident {
            owner,
            body,
            offset: _,
        } = self;
        let body = Box::into_inner(body);
        let Some(ending) = body.ending() else {
            unreachable_unchecked!();
        };
        let spec = body.spec();
        let counters = body.counters();
        let events = body.events();
        store.dismiss(owner);
        let (name, commands, mail, records, published) = body.into_parts();
        Dossier {
            name,
            spec,
            commands,
            records,
            counters,
            ending,
            events,
            mail,
            published,
        }
    }

    // Sets the entry to the next due after a step. Parks the resident if there is no next command.
    fn set_again<A: Agenda>(&mut self, agenda: &mut A, slot: usize)
        requires stale { (p : Pocket)
            × IsStale M.seen p (A.entries agenda.old slot) (A.time agenda.old) self.old }
        ensures seated { (p : Pocket) →
            IsGoing M.seen p self.old.experiment self.old.published self.old.mail
            → IsSeated M.seen p (A.entries agenda.new slot) (A.time agenda.old) self.new }
        ensures same { self.new ≡ record self.old { offset = self.new.offset } }
        ensures entered { IsSome self.old.experiment.next → IsSome self.new.offset }
        ensures others { (o : ℕ) → o ≢ slot → A.entries agenda.new o ≡ A.entries agenda.old o }
        ensures time { A.time agenda.new ≡ A.time agenda.old }
    {
        let Some(offset) = self.offset() else {
            unreachable_unchecked!();
        };
        let own = self.clock();
        let Some(due) = self.next_due() else {
            self.offset = None;
            agenda.clear_owner(slot);
            return;
        };
        let later = offset_from(agenda.clock(), own, due.moment, offset);
        self.offset = Some(later);
        let Ok(()) = agenda.set(slot, TURN, due.moment + later) else {
            unreachable_unchecked!();
        };
    }
}
