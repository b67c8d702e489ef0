//! The residents of one worker, by slot.

ghost use Rattle.std.specs.Prelude.{◌≡◌, ◌<◌, ℕ, None, Some, IsSome, IfSome, IfNone, length, slice_index_or};
ghost use Rattle.std.specs.Prelude.{◌≢◌};
ghost use Rattle.packet_store.specs.Books.{pocket_of};
ghost use Rattle.packet_store.specs.Pocket.{Pocket};
ghost use Rattle.shard.specs.Kept.{IsKept};
ghost use Rattle.shard.specs.Seats.{IsDossierOf, IsShard, HasBegun};

use crate::dossier::Dossier;
use crate::mail::Mail;
use crate::parcel::Parcel;
use crate::posts::Vacant;
use crate::resident::Resident;
use crate::watch::{Unwatched, Watch};
use emu_model::{PacketBudget, Timed};
use experiment::Event;
use packet_store::{OwnShelf, Shelf, Store};
use std::alloc::{AllocError, Global};
use std::marker::Model;
use std::mem;
use timer_wheel::Agenda;
use unchecked::unreachable_unchecked;

/// The maximum number of residents of a shard.
pub const MAX_RESIDENTS: usize = 256;

/// The clock (ns) at which the agenda is rewound, so that its times stay below 2^63.
const LATEST_CLOCK: u64 = 1 << 62;

/// The result of a turn: an event of the resident with that name, the end of a resident, or nothing
/// if no resident has a next command on the agenda.
#[derive(Drop)]
pub enum Turned<M: Mail> {
    Ran(u32),
    Ended(Dossier<M>),
    Idle,
}

/// The reason why a parcel was not taken in, with the parcel.
#[derive(Drop)]
pub enum TakeInError<M: Mail> {
    /// There are 256 residents (30).
    Crowded(Parcel<M>),
    NoMemory(Parcel<M>),
}

/// The result of a poll, with the resident's name: the slot is vacant; a command was taken; a
/// parked resident has its entry again; the next command is still pending; no command was taken; or
/// memory ran out.
#[derive(Clone, Copy, Debug, PartialEq, Eq)]
pub enum Polled {
    Vacant,
    Took(u32),
    Resumed(u32),
    Held(u32),
    Empty(u32),
    NoMemory(u32),
}

/// The reason why a resident was not packed.
#[derive(Clone, Copy, Debug, PartialEq, Eq)]
pub enum PackError {
    Vacant = 31,
    NoMemory = 99,
}

/// The residents of one worker: each has a slot, a reservation in the one store, and, unless it is
/// parked, an entry in the one agenda at the time of its next event. Contracts see the resident of
/// each slot, and the agenda's clock (ns).
#[derive(Drop)]
pub struct Shard<A: Agenda, M: Mail> {
    alloc: Global,
    store: Store,
    agenda: A,
    pub(crate) slots: Vec<Option<Resident<M>>>,
    // The slot of the last turn, which `slot_of` checks first.
    turned: usize,
}

impl<A: Agenda, M: Mail> Model for Shard<A, M> {
    ghost use Rattle.packet_store.specs.Books.{pocket_of};
    ghost use Rattle.shard.specs.Stand.{Seating};

    ghost Value = { Seating M };

    ghost use Rattle.shard.specs.Seats.{seats_of, IsShard};

    ghost view = { λ s. record {
      seats = seats_of (pocket_of s.store) s.slots.items;
      clock = A.time s.agenda;
    } };

    ghost invariant = { λ s. IsShard M.seen (pocket_of s.store) (A.entries s.agenda)
        (A.time s.agenda) s.slots.items };
}

impl<A: Agenda, M: Mail> Shard<A, M> {
    ghost use Rattle.std.specs.Prelude.{◌≡◌, ◌≢◌, ℕ, ◌≤◌, ◌<◌, ◌^◌, None, Some, IsOk, IfOk, IfErr, IfSome, IfNone, OnErr, IsSome, length, IsTrue, IsFalse};
    ghost use Rattle.shard.specs.Stand.{seat_at, Seat, IsTold};
    ghost use Rattle.shard.specs.Turns.{TurnsSettled, ManyTurns, ManyTurnsSettled, HeardOf, NamesIt, TakenIn, ComesBack, HasVacancy, PackedAt, IsPoll, IsRebased};

    /// Creates a shard without residents, whose clock is 0.
    pub fn new(alloc: Global) -> Result<Self, AllocError>
        ensures vacant { IfOk result (λ s. (k : ℕ) → seat_at s.seats k ≡ None) }
        ensures clock { IfOk result (λ s. s.clock ≡ 0) }
    {
        Shard::with_clock(alloc, 0)
    }

    /// Creates a shard without residents, whose clock (ns) is at most 2^62.
    pub fn with_clock(alloc: Global, clock: u64) -> Result<Self, AllocError>
        requires { clock ≤ 2 ^ 62 }
        ensures vacant { IfOk result (λ s. (k : ℕ) → seat_at s.seats k ≡ None) }
        ensures clock { IfOk result (λ s. s.clock ≡ clock) }
    {
        let mut slots = Vec::new(alloc);
        slots.reserve(MAX_RESIDENTS)?;
        for _ in 0..MAX_RESIDENTS {
            slots.push_reserved(None);
        }
        Ok(Shard {
            alloc,
            store: Store::new(alloc),
            agenda: A::new(alloc, clock)?,
            slots,
            turned: 0,
        })
    }

    /// Makes one event of the resident whose entry is first, by time and then by slot. Publishes
    /// its records while its mail accepts them, and sets its entry again if it has a next command.
    /// Returns a resident that has ended, or that is halted because memory ran out, as a dossier.
    /// Rewinds the agenda first if its clock has reached 2^62 ns.
    pub fn turn(&mut self) -> Turned<M>
        ensures { TurnsSettled M.seen result self.old self.new }
    {
        self.turns(0, &mut Unwatched)
    }

    /// Makes a turn like `turn`, and then at most `more` further events of the same resident,
    /// whatever else is due before them: while it has a next command, doesn't end, and `watch`,
    /// which is called after each that ran, returns true.
    pub fn turns<W: Watch>(&mut self, more: u32, watch: &mut W) -> Turned<M>
        ensures { (ran name : ℕ) × HeardOf W.hears result name ran watch.old watch.new × NamesIt result name
            × ManyTurnsSettled M.seen W.may_refuse more ran result self.old self.new }
    {
        if self.agenda.clock() >= LATEST_CLOCK {
            self.rebase();
        }
        self.turns_now(more, watch)
    }

    // Makes the events of one resident.
    fn turns_now<W: Watch>(&mut self, more: u32, watch: &mut W) -> Turned<M>
        requires early { self.old.clock < 2 ^ 62 }
        ensures { (ran name : ℕ) × HeardOf W.hears result name ran watch.old watch.new × NamesIt result name
            × ManyTurns M.seen W.may_refuse more ran result self.old self.new }
    {
        let Some(entry) = self.agenda.move_to_least() else {
            return Turned::Idle;
        };
        let slot = entry.owner;
        let Some(resident) = &mut self.slots[slot] else {
            unreachable_unchecked!();
        };
        self.turned = slot;
        let name = resident.name();
        let event = resident.run(&mut self.store, &mut self.agenda, slot, more, watch);
        if event == Event::Ran {
            return Turned::Ran(name);
        }
        self.agenda.clear_owner(slot);
        Turned::Ended(take_ended(&mut self.slots[slot], &mut self.store))
    }

    /// Takes a command for a resident without a next one, or sets the entry of a parked resident
    /// again. Reserves memory for a command before it takes one; a command whose time is before the
    /// last is not consumed. Publishes records while the mail accepts them.
    pub fn poll(&mut self, slot: usize) -> Polled
        ensures { IsPoll M.seen result self.old self.new slot }
    {
        if slot >= self.slots.len() {
            return Polled::Vacant;
        }
        let Some(resident) = &mut self.slots[slot] else {
            return Polled::Vacant;
        };
        resident.poll(&mut self.agenda, slot)
    }

    /// Takes a parcel in at the first vacant slot. Its packets get new keys in the store, and its
    /// entry is added to the agenda, or it is parked if there is no memory for the entry. On error
    /// returns the unchanged parcel, and the shard is unchanged: `Crowded` before `NoMemory`.
    pub fn take_in(&mut self, parcel: Parcel<M>) -> Result<usize, TakeInError<M>>
        ensures ok { IfOk result (λ slot. (s : Seat M) × TakenIn parcel self.old self.new slot s) }
        ensures back { IfErr result (ComesBack parcel self.old) }
        ensures err { OnErr result (self.new ≡ self.old) }
        ensures memory { IfErr result (HasVacancy self.old) }
    {
        self.admit(parcel, false)
    }

    /// Takes in a parcel that was packed here, like `take_in`: its packets keep their keys, so the
    /// time doesn't grow with their number.
    pub fn take_back(&mut self, parcel: Parcel<M>) -> Result<usize, TakeInError<M>>
        ensures ok { IfOk result (λ slot. (s : Seat M) × TakenIn parcel self.old self.new slot s) }
        ensures back { IfErr result (ComesBack parcel self.old) }
        ensures err { OnErr result (self.new ≡ self.old) }
        ensures memory { IfErr result (HasVacancy self.old) }
    {
        self.admit(parcel, true)
    }

    // Takes a parcel in, whose packets keep their keys or get new ones.
    fn admit(&mut self, parcel: Parcel<M>, keeps_keys: bool) -> Result<usize, TakeInError<M>>
        ensures ok { IfOk result (λ slot. (s : Seat M) × TakenIn parcel self.old self.new slot s) }
        ensures back { IfErr result (ComesBack parcel self.old) }
        ensures err { OnErr result (self.new ≡ self.old) }
        ensures memory { IfErr result (HasVacancy self.old) }
    {
        let Some(slot) = first_vacant(self.slots.as_slice()) else {
            return Err(TakeInError::Crowded(parcel));
        };
        let mut resident = match Resident::settle(parcel, &mut self.store, keeps_keys) {
            Ok(resident) => resident,
            Err(parcel) => return Err(TakeInError::NoMemory(parcel)),
        };
        resident.enter(&mut self.agenda, slot);
        self.slots[slot] = Some(resident);
        Ok(slot)
    }

    /// Packs a resident into a parcel: one owned value with everything that it holds. Does not
    /// allocate, and the time doesn't grow with the number of its packets.
    pub fn pack(&mut self, slot: usize) -> Result<Parcel<M>, PackError>
        ensures ok { IfOk result
            (λ parcel. (s : Seat M) × PackedAt parcel self.old self.new slot s) }
        ensures vacant { result ≡ Err PackError.Vacant → seat_at self.old.seats slot ≡ None }
        ensures there { result ≡ Err PackError.NoMemory → IsSome (seat_at self.old.seats slot) }
        ensures succeeds { IsSome (seat_at self.old.seats slot) → IsOk result }
        ensures err { OnErr result (self.new ≡ self.old) }
    {
        if slot >= self.slots.len() {
            return Err(PackError::Vacant);
        }
        let Some(_resident) = &self.slots[slot] else {
            return Err(PackError::Vacant);
        };
        let Some(gone) = mem::replace(&mut self.slots[slot], None) else {
            unreachable_unchecked!();
        };
        self.agenda.clear_owner(slot);
        Ok(gone.leave(&mut self.store))
    }

    /// Rewinds the agenda: its clock is then 0, and each entry is set again to the resident's next
    /// due, below 2 * 10^15 ns, which needs no memory. A parked resident gets an entry again, or
    /// stays parked if memory runs out.
    pub fn rebase(&mut self)
        ensures { IsRebased self.old self.new }
    {
        self.agenda.rewind();
        begin_all_anew(&mut self.slots, &mut self.agenda);
    }

    /// Returns the slot of the resident with a name. The slot of the last turn is found at once;
    /// otherwise the time grows with the number of slots.
    pub fn slot_of(&self, name: u32) -> Option<usize>
        ensures some { IfSome result
            (λ slot. (s : Seat M) × (seat_at self.now.seats slot ≡ Some s)
            × (s.stand.name ≡ name)) }
        ensures none { IfNone result
            ((slot : ℕ) (s : Seat M) → seat_at self.now.seats slot ≡ Some s → s.stand.name ≢ name) }
    {
        if self.is_named(self.turned, name) {
            return Some(self.turned);
        }
        for slot in 0..self.slots.len() {
            if self.is_named(slot, name) {
                return Some(slot);
            }
        }
        None
    }

    // Returns true if the resident of a slot has a name.
    fn is_named(&self, slot: usize, name: u32) -> bool
        ensures yes { IsTrue result →
            (s : Seat M) × (seat_at self.now.seats slot ≡ Some s) × (s.stand.name ≡ name) }
        ensures no { IsFalse result → (s : Seat M) → seat_at self.now.seats slot ≡ Some s →
            s.stand.name ≢ name }
    {
        if slot >= self.slots.len() {
            return false;
        }
        let Some(resident) = &self.slots[slot] else {
            return false;
        };
        resident.name() == name
    }

    // Returns the resident of a slot. The contract relates its records and commands to the slot's
    // state.
    pub(crate) fn resident(&self, slot: usize) -> Result<&Resident<M>, Vacant>
        ensures there { IfOk result (λ r. (s : Seat M) × (seat_at self.now.seats slot ≡ Some s)
            × (r.now.experiment.net.log.records ≡ s.stand.state.net.records)
            × (r.now.experiment.consumed ≡ s.stand.consumed)) }
        ensures vacant { OnErr result (seat_at self.now.seats slot ≡ None) }
    {
        if slot >= self.slots.len() {
            return Err(Vacant);
        }
        let Some(resident) = &self.slots[slot] else {
            return Err(Vacant);
        };
        Ok(resident)
    }

    /// Returns the commands so far of a slot's resident, including the next one, or `Vacant` if the
    /// slot has none.
    pub fn consumed(&self, slot: usize) -> Result<&[Timed], Vacant>
        ensures there { IfOk result (λ cs. (s : Seat M) × (seat_at self.now.seats slot ≡ Some s)
            × (cs.now ≡ s.stand.consumed)) }
        ensures vacant { OnErr result (seat_at self.now.seats slot ≡ None) }
    {
        let resident = self.resident(slot)?;
        Ok(resident.consumed())
    }

    /// Reveals that the state of every resident is that of running it alone.
    pub fn reveal_invariant(&self)
        ensures { (slot : ℕ) (s : Seat M) → seat_at self.now.seats slot ≡ Some s →
            IsTold M.seen s.stand }
    {
        let _ = &self.agenda;
    }
}

// Removes a resident that has ended from its slot, and returns its dossier. A function of its own,
// since otherwise a turn that ends nobody would clear the memory for a dossier.
fn take_ended<M: Mail>(place: &mut Option<Resident<M>>, store: &mut Store) -> Dossier<M>
    requires there { IsSome place.old }
    requires kept { IfSome place.old
        (λ r. IsKept M.seen (pocket_of store.old r.owner) r.experiment r.published r.mail) }
    requires ended { IfSome place.old (λ r. IsSome r.experiment.ending) }
    ensures gone { place.new ≡ None }
    ensures ends { IfSome place.old (λ r. IsDossierOf (pocket_of store.old r.owner) r result) }
    ensures others { IfSome place.old
        (λ r. (o : ℕ) → o ≢ r.owner → pocket_of store.new o ≡ pocket_of store.old o) }
{
    let Some(gone) = mem::replace(place, None) else {
        unreachable_unchecked!();
    };
    gone.end(store)
}

// Returns the first vacant slot.
fn first_vacant<M: Mail>(slots: &[Option<Resident<M>>]) -> Option<usize>
    ensures some { IfSome result
        (λ k. (k < length slots.now) × (slice_index_or slots.now k None ≡ None)
        × ((j : ℕ) → j < k → IsSome (slice_index_or slots.now j None))) }
    ensures none { IfNone result
        ((j : ℕ) → j < length slots.now → IsSome (slice_index_or slots.now j None)) }
{
    for k in 0..slots.len() {
        if slots[k].is_none() {
            return Some(k);
        }
    }
    None
}

// Sets the entry of each resident again after the agenda was rewound.
fn begin_all_anew<A: Agenda, M: Mail>(slots: &mut Vec<Option<Resident<M>>>, agenda: &mut A)
    requires was { (pockets : ℕ → Pocket) × (clock : ℕ)
        × IsShard M.seen pockets (A.entries agenda.old) clock slots.old.items }
    requires start { A.time agenda.old ≡ 0 }
    ensures begun { (pockets : ℕ → Pocket) (clock : ℕ) →
        IsShard M.seen pockets (A.entries agenda.old) clock slots.old.items
        → HasBegun M.seen pockets (A.entries agenda.new) clock slots.old.items slots.new.items 256 }
    ensures time { A.time agenda.new ≡ 0 }
{
    for slot in 0..MAX_RESIDENTS {
        let Some(resident) = &mut slots[slot] else {
            continue;
        };
        resident.begin_anew(agenda, slot);
    }
}
