//! A shard with its deque, and the names of the parcels that arrived and left.

ghost use Rattle.std.specs.Prelude.{◌≡◌, ◌+◌, ◌≤◌, vec_len, vec_capacity, length};
ghost use Rattle.bench.specs.Custody.{Kept, AreResidents};
ghost use Rattle.bench.specs.Ends.{deque_view};
ghost use Rattle.crossbeam_deque.specs.Handles.{stealer_deque, worker_deque};

use crate::closing::{Closing, drain};
use crate::deque::{Deque, Peer};
use crate::mail::RingMail;
use crate::names::remove_one;
use crossbeam_deque::Steal;
use shard::{PackError, Parcel, Polled, Shard, TakeInError, Turned, Unwatched, Watch};
use std::alloc::{AllocError, Global};
use timer_wheel::Wheel;

/// The reason why a parcel is returned (44): there are 256 residents (30), or memory ran out.
pub type Refused = TakeInError<RingMail>;

/// The residents of one worker, its deque, and lists of names: admitted, adopted, ended and handed
/// out, and those of the residents. There is room for each name that an end or a close adds.
#[derive(Drop)]
pub struct Bench {
    shard: Shard<Wheel, RingMail>,
    deque: Deque,
    peered: bool,
    out: usize,
    admitted: Vec<u32>,
    adopted: Vec<u32>,
    ended: Vec<u32>,
    handed_out: Vec<u32>,
    resident: Vec<u32>,
    left: Vec<u32>,
    pub ghost kept: { Kept admitted.items adopted.items ended.items resident.items
        handed_out.items (deque_view deque) },
    pub ghost sits: { AreResidents resident.items shard.seats },
    pub ghost room_ended: { vec_len ended + vec_len resident ≤ vec_capacity ended },
    pub ghost counted: { length (deque_view deque).taken + out ≡ length (deque_view deque).pushed },
    pub ghost room_left: { (vec_len left ≡ 0) × (out ≤ vec_capacity left) },
}

/// The reason why a resident was not pushed: the slot is vacant (31); memory ran out, and the
/// resident stays; or the deque refused it (47), and it is handed out.
#[derive(Drop)]
pub enum OfferError {
    Vacant,
    NoMemory,
    DequeFull(Parcel<RingMail>),
}

/// The reason why nothing was retaken from the bench's own deque: it is empty; memory ran out, and
/// nothing was taken; or the parcel taken was refused, and is handed out.
#[derive(Drop)]
pub enum RetakeError {
    Empty,
    NoMemory,
    Refused(Refused),
}

/// The reason why nothing was adopted from another bench's deque: it is empty; another thread was
/// faster; memory ran out, and nothing was taken; or the parcel taken was refused, and is handed
/// out.
#[derive(Drop)]
pub enum AdoptError {
    Empty,
    Retry,
    NoMemory,
    Refused(Refused),
}

impl Bench {
    ghost use Rattle.std.specs.Prelude.{◌≡◌, ◌≢◌, ◌+◌, ◌≤◌, ℕ, None, Some, true, false, [], length, IfOk, OnOk, IfErr, OnErr, IfSome, IfNone};
    ghost use Rattle.shard.specs.Stand.{Seat, seat_at, IsTold};
    ghost use Rattle.shard.specs.Turns.{TurnsSettled, ManyTurnsSettled, HeardOf, NamesIt, IsPoll};
    ghost use Rattle.bench.specs.Rings.{ring_seen};
    ghost use Rattle.bench.specs.Custody.{hand, times, named, seated};
    ghost use Rattle.bench.specs.Ends.{peer_view};
    ghost use Rattle.bench.specs.Benches.{bench_seating, bench_view, IsNewBench, SameBench, SameLists, HasRoom, NotesEnd, Admits, AdmitFails, Offers, OfferFails, Retakes, RetakeFails, RetakeVacancy, Adopts, AdoptFails, AdoptVacancy};

    /// Creates a bench without residents, whose deque is empty.
    pub fn new(alloc: Global) -> Result<Bench, AllocError>
        ensures { IfOk result IsNewBench }
    {
        let shard = Shard::new(alloc)?;
        let deque = Deque::new(alloc)?;
        Ok(Bench {
            shard,
            deque,
            peered: false,
            out: 0,
            admitted: Vec::new(alloc),
            adopted: Vec::new(alloc),
            ended: Vec::new(alloc),
            handed_out: Vec::new(alloc),
            resident: Vec::new(alloc),
            left: Vec::new(alloc),
        })
    }

    /// Creates the thief's end of the deque. There is at most one.
    pub fn peer(&mut self) -> Result<Peer, AllocError>
        requires { self.old.peered ≡ false }
        ensures same { SameBench self.old self.new }
        ensures ok { IfOk result (λ p. (peer_view p ≡ hand [] []) × (self.new.peered ≡ true)) }
        ensures deque { IfOk result
            (λ p. stealer_deque p.thief ≡ worker_deque self.new.deque.owner) }
        ensures err { OnErr result (self.new.peered ≡ false) }
    {
        let peer = self.deque.peer()?;
        self.peered = true;
        Ok(peer)
    }

    // Reserves room for one more name in each list that may get it.
    fn make_room(&mut self) -> Result<(), AllocError>
        ensures same { SameBench self.old self.new × (self.new.peered ≡ self.old.peered) }
        ensures ok { OnOk result (HasRoom self.new) }
    {
        let most = self.resident.len() + 1;
        self.admitted.reserve(1)?;
        self.adopted.reserve(1)?;
        self.handed_out.reserve(1)?;
        self.resident.reserve(1)?;
        self.ended.reserve(most)
    }

    /// Takes a parcel in at the first vacant slot, or returns it unchanged.
    pub fn admit(&mut self, parcel: Parcel<RingMail>) -> Result<(), Refused>
        ensures ok { OnOk result (Admits parcel self.old self.new) }
        ensures err { IfErr result (λ e. AdmitFails e parcel self.old self.new) }
        ensures peered { self.new.peered ≡ self.old.peered }
    {
        if self.make_room().is_err() {
            return Err(TakeInError::NoMemory(parcel));
        }
        let name = parcel.name();
        match self.shard.take_in(parcel) {
            Ok(_slot) => {
                self.admitted.push_reserved(name);
                self.resident.push_reserved(name);
                return Ok(());
            }
            Err(refused) => return Err(refused),
        }
    }

    /// Makes one event of one resident. Does not allocate for the bench's lists.
    pub fn turn(&mut self) -> Turned<RingMail>
        ensures shard { TurnsSettled ring_seen result (bench_seating self.old)
            (bench_seating self.new) }
        ensures view { bench_view self.new ≡ bench_view self.old }
        ensures lists { NotesEnd result self.old self.new }
        ensures peered { self.new.peered ≡ self.old.peered }
    {
        self.turns(0, &mut Unwatched)
    }

    /// Makes a turn like `turn`, and then at most `more` further events of the same resident, while
    /// it has a next command, doesn't end, and `watch`, which is called after each that ran,
    /// returns true.
    pub fn turns<W: Watch>(&mut self, more: u32, watch: &mut W) -> Turned<RingMail>
        ensures shard { (ran name : ℕ) × HeardOf W.hears result name ran watch.old watch.new
            × NamesIt result name
            × ManyTurnsSettled ring_seen W.may_refuse more ran result (bench_seating self.old)
            (bench_seating self.new) }
        ensures view { bench_view self.new ≡ bench_view self.old }
        ensures lists { NotesEnd result self.old self.new }
        ensures peered { self.new.peered ≡ self.old.peered }
    {
        match self.shard.turns(more, watch) {
            Turned::Ended(dossier) => {
                let name = dossier.name();
                self.ended.push_reserved(name);
                remove_one(&mut self.resident, name);
                return Turned::Ended(dossier);
            }
            Turned::Ran(name) => return Turned::Ran(name),
            Turned::Idle => return Turned::Idle,
        }
    }

    /// Takes a command from the mail of a slot's resident, if it has no next one.
    pub fn poll(&mut self, slot: usize) -> Polled
        ensures shard { IsPoll ring_seen result (bench_seating self.old)
            (bench_seating self.new) slot }
        ensures view { bench_view self.new ≡ bench_view self.old }
        ensures lists { SameLists self.old self.new }
        ensures peered { self.new.peered ≡ self.old.peered }
    {
        self.shard.poll(slot)
    }

    /// Returns the slot of the resident with a name.
    pub fn slot_of(&self, name: u32) -> Option<usize>
        ensures some { IfSome result
            (λ slot. (s : Seat RingMail) × (seat_at (bench_seating self.now).seats slot ≡ Some s)
            × (s.stand.name ≡ name)) }
        ensures none { IfNone result
            ((slot : ℕ) (s : Seat RingMail) →
            seat_at (bench_seating self.now).seats slot ≡ Some s → s.stand.name ≢ name) }
    {
        self.shard.slot_of(name)
    }

    /// Returns the number of residents.
    pub fn residents(&self) -> usize
        ensures { result ≡ length self.now.resident.items }
    {
        self.resident.len()
    }

    /// Returns the number of parcels on the deque, some of which a thief may take meanwhile. The
    /// contract doesn't state the number.
    pub fn waiting(&mut self) -> usize
        ensures same { SameBench self.old self.new }
        ensures peered { self.new.peered ≡ self.old.peered }
    {
        self.deque.waiting()
    }

    /// Reveals that the state of every resident is that of running it alone.
    pub fn reveal_invariant(&self)
        ensures { (slot : ℕ) (s : Seat RingMail) →
            seat_at (bench_seating self.now).seats slot ≡ Some s → IsTold ring_seen s.stand }
    {
        self.shard.reveal_invariant();
    }

    /// Pushes a resident onto the deque.
    pub fn offer(&mut self, slot: usize) -> Result<(), OfferError>
        ensures ok { OnOk result (Offers slot self.old self.new) }
        ensures err { IfErr result (λ e. OfferFails e slot self.old self.new) }
        ensures peered { self.new.peered ≡ self.old.peered }
    {
        if self.shard.consumed(slot).is_err() {
            return Err(OfferError::Vacant);
        }
        let Some(out) = self.out.checked_add(1) else {
            return Err(OfferError::NoMemory);
        };
        if self.handed_out.reserve(1).is_err() {
            return Err(OfferError::NoMemory);
        }
        if self.left.reserve(out).is_err() {
            return Err(OfferError::NoMemory);
        }
        let parcel = match self.shard.pack(slot) {
            Ok(parcel) => parcel,
            Err(PackError::Vacant) => return Err(OfferError::Vacant),
            Err(PackError::NoMemory) => return Err(OfferError::NoMemory),
        };
        let name = parcel.name();
        remove_one(&mut self.resident, name);
        match self.deque.push(parcel) {
            Ok(()) => {
                self.out = out;
                return Ok(());
            }
            Err(parcel) => {
                self.handed_out.push_reserved(name);
                return Err(OfferError::DequeFull(parcel));
            }
        }
    }

    /// Takes back the parcel that the bench pushed first, unless it has been taken.
    pub fn retake(&mut self) -> Result<(), RetakeError>
        ensures ok { OnOk result (Retakes self.old self.new) }
        ensures err { IfErr result (λ e. RetakeFails e self.old self.new) }
        ensures vacancy { IfErr result (λ e. RetakeVacancy e self.old) }
        ensures peered { self.new.peered ≡ self.old.peered }
    {
        if self.make_room().is_err() {
            return Err(RetakeError::NoMemory);
        }
        let Some(parcel) = self.deque.pop() else {
            return Err(RetakeError::Empty);
        };
        self.out -= 1;
        let name = parcel.name();
        match self.shard.take_back(parcel) {
            Ok(_slot) => {
                self.resident.push_reserved(name);
                return Ok(());
            }
            Err(refused) => {
                self.handed_out.push_reserved(name);
                return Err(RetakeError::Refused(refused));
            }
        }
    }

    /// Takes the parcel that another bench pushed first, unless it has been taken.
    pub fn adopt(&mut self, peer: &mut Peer) -> Result<(), AdoptError>
        ensures ok { OnOk result
            (Adopts (peer_view peer.old) (peer_view peer.new) self.old self.new) }
        ensures err { IfErr result
            (λ e. AdoptFails e (peer_view peer.old) (peer_view peer.new) self.old self.new) }
        ensures vacancy { IfErr result (λ e. AdoptVacancy e self.old) }
        ensures peered { self.new.peered ≡ self.old.peered }
    {
        if self.make_room().is_err() {
            return Err(AdoptError::NoMemory);
        }
        let parcel = match peer.steal() {
            Steal::Success(parcel) => parcel,
            Steal::Empty => return Err(AdoptError::Empty),
            Steal::Retry => return Err(AdoptError::Retry),
        };
        let name = parcel.name();
        match self.shard.take_in(parcel) {
            Ok(_slot) => {
                self.adopted.push_reserved(name);
                self.resident.push_reserved(name);
                return Ok(());
            }
            Err(refused) => {
                self.adopted.push_reserved(name);
                self.handed_out.push_reserved(name);
                return Err(AdoptError::Refused(refused));
            }
        }
    }

    /// Closes the bench, and returns its lists, with the residents and what its deque still holds.
    /// Does not allocate.
    pub fn close(self) -> Closing
        ensures lists { (result.admitted ≡ self.admitted) × (result.adopted ≡ self.adopted)
            × (result.ended ≡ self.ended) × (result.handed_out ≡ self.handed_out) }
        ensures resident { (x : ℕ) →
            times x result.resident.items ≡ seated x (bench_seating self).seats }
        ensures deque { (x : ℕ) →
            named x (bench_view self).taken + times x result.deque.items
            ≤ named x (bench_view self).pushed }
    {
        let Bench {
            shard: _,
            mut deque,
            peered: _,
            out: _,
            admitted,
            adopted,
            ended,
            handed_out,
            resident,
            mut left,
        } = self;
        drain(&mut deque, &mut left);
        Closing {
            admitted,
            adopted,
            ended,
            resident,
            handed_out,
            deque: left,
        }
    }
}
