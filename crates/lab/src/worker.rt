//! The work of one worker: it makes turns of the residents of its bench, sometimes offers one of
//! them, and fetches others when it has nothing to do.

ghost use Rattle.std.specs.Prelude.{◌≡◌, ◌||◌, not, None, true, OnOk, IfErr, IsTrue};
ghost use Rattle.lab.specs.Desks.{LosesNone, Readmits, HandsOver, parcel_of};
ghost use Rattle.lab.specs.Plans.{IsWorkFault, IsMemory, is_honest};

use crate::plan::{Gate, Plan};
use alone::{Progress, RunFault};
use bench::{AdoptError, Bench, Closing, OfferError, Peer, RetakeError, RingMail};
use shard::{Dossier, MAX_RESIDENTS, Parcel, Polled, TakeInError, Turned, Watch};
use std::alloc::Global;
use std::marker::PhantomData;
use std::sync::Wait;
use std::sync::atomic::{AtomicBool, AtomicU64, Ordering};
use std::thread;

/// The number of turns that one experiment makes before another: its data is in the processor's
/// caches then.
const AT_ONCE: u32 = 1024;

/// A bench with this many residents admits no more. This bounds the memory for shelves.
const MAX_ACTIVE: usize = 2;

/// The state that the workers share: how many experiments have ended, and whether there is a fault.
/// No contract states anything about either.
#[derive(Drop)]
pub(crate) struct Board {
    ended: AtomicU64,
    fault: AtomicBool,
    total: u64,
}

impl Board {
    pub(crate) fn new(total: u64) -> Board {
        Board {
            ended: AtomicU64::new(0),
            fault: AtomicBool::new(false),
            total,
        }
    }

    /// Returns true if there is nothing left to do.
    pub(crate) fn is_over(&self) -> bool {
        self.fault.load(Ordering::SeqCst) || self.ended.load(Ordering::SeqCst) >= self.total
    }

    /// Makes all workers stop.
    pub(crate) fn stop(&self) {
        self.fault.store(true, Ordering::SeqCst);
    }

    // Counts an experiment that has ended.
    fn count<P: Progress>(&self, progress: &P) {
        let before = self.ended.fetch_add(1, Ordering::SeqCst);
        progress.note_ends(before.wrapping_add(1), self.total);
    }
}

/// The work of one worker: its bench with its number, the peer from which it may adopt, and the
/// parcels that wait for it, the first one at the end.
#[derive(Drop)]
pub(crate) struct Job {
    pub number: u32,
    pub bench: Bench,
    pub peer: Option<Peer>,
    pub waiting: Vec<Parcel<RingMail>>,
}

/// The results of a worker: its closed bench, the dossiers of the experiments that ended there, the
/// parcels that still wait, and its fault.
#[derive(Drop)]
pub(crate) struct Given {
    pub closing: Closing,
    pub dossiers: Vec<Dossier<RingMail>>,
    pub waiting: Vec<Parcel<RingMail>>,
    pub fault: Option<RunFault>,
}

/// The result of joining a worker. Its type guarantees that a gate that always returns true was
/// never the cause of a fault.
#[derive(Drop)]
pub(crate) struct Report<G: Gate> {
    pub of: PhantomData<G>,
    pub given: Given,
    pub ghost honest: { is_honest G.may_refuse given.fault ≡ true },
}

// An observer that calls the gate after each turn of a bench, and counts the turns.
#[derive(Drop)]
struct Watching<'a, G: Gate> {
    gate: &'a G,
    bench: u32,
    turns: u32,
    refused: bool,
    ghost honest: { IsTrue refused → G.may_refuse ≡ true },
}

impl<G: Gate> Watch for Watching<'_, G> {
    ghost may_refuse = { G.may_refuse };

    ghost hears = { λ name answer old new. G.may_return old.gate.now old.bench name answer
        × (new.refused ≡ (old.refused || not answer)) };

    fn ran(&mut self, name: u32) -> bool {
        self.turns = self.turns.wrapping_add(1);
        if self.gate.ran(self.bench, name) {
            return true;
        }
        self.refused = true;
        false
    }
}

// The state of a worker, and the number of turns since it last offered a resident.
#[derive(Drop)]
struct Desk {
    number: u32,
    bench: Bench,
    peer: Option<Peer>,
    dossiers: Vec<Dossier<RingMail>>,
    // The parcels that wait, the first one at the end. A shelf gets its memory when its parcel is
    // admitted.
    waiting: Vec<Parcel<RingMail>>,
    turns: u32,
    // The next slot to poll for a resident that can start.
    cursor: usize,
}

impl Desk {
    // Admits a parcel that was returned, or that waited.
    fn admit_again(&mut self, parcel: Parcel<RingMail>) -> Result<(), RunFault>
        ensures ok { OnOk result (Readmits parcel self.old self.new) }
        ensures err { IfErr result IsMemory }
    {
        let Ok(()) = self.bench.admit(parcel) else {
            return Err(RunFault::Memory);
        };
        Ok(())
    }

    // Admits a parcel that could not be taken in.
    fn admit_refused(&mut self, refused: TakeInError<RingMail>) -> Result<(), RunFault>
        ensures ok { OnOk result (Readmits (parcel_of refused) self.old self.new) }
        ensures err { IfErr result IsMemory }
    {
        match refused {
            TakeInError::Crowded(parcel) => return self.admit_again(parcel),
            TakeInError::NoMemory(parcel) => return self.admit_again(parcel),
        }
    }

    // Pushes the resident of a slot onto the deque.
    #[tactic(auto, using(crate::proofs::Desking::loses_none, crate::proofs::Desking::loses_none_again))]
    fn offer(&mut self, slot: usize) -> Result<(), RunFault>
        ensures ok { OnOk result (LosesNone self.old self.new) }
        ensures err { IfErr result IsMemory }
    {
        match self.bench.offer(slot) {
            Ok(()) => return Ok(()),
            Err(OfferError::Vacant) => return Ok(()),
            Err(OfferError::NoMemory) => return Err(RunFault::Memory),
            Err(OfferError::DequeFull(parcel)) => {
                self.admit_again(parcel)?;
                return Ok(());
            }
        }
    }

    // Takes the parcel that another bench pushed first. Returns true if there was one.
    #[tactic(auto, using(crate::proofs::Desking::loses_none, crate::proofs::Desking::loses_none_adopted, crate::proofs::Desking::loses_none_again))]
    fn adopt(&mut self) -> Result<bool, RunFault>
        ensures ok { OnOk result (LosesNone self.old self.new) }
        ensures err { IfErr result IsMemory }
    {
        let Some(peer) = &mut self.peer else {
            return Ok(false);
        };
        match self.bench.adopt(peer) {
            Ok(()) => return Ok(true),
            Err(AdoptError::Empty) => return Ok(false),
            Err(AdoptError::Retry) => return Ok(false),
            Err(AdoptError::NoMemory) => return Err(RunFault::Memory),
            Err(AdoptError::Refused(refused)) => {
                self.admit_refused(refused)?;
                return Ok(true);
            }
        }
    }

    // Takes back the parcel that this bench pushed first, or else the one that another bench did.
    // Returns true if there was one.
    #[tactic(auto, using(crate::proofs::Desking::loses_none, crate::proofs::Desking::loses_none_both, crate::proofs::Desking::loses_none_again))]
    fn fetch(&mut self) -> Result<bool, RunFault>
        ensures ok { OnOk result (LosesNone self.old self.new) }
        ensures err { IfErr result IsMemory }
    {
        match self.bench.retake() {
            Ok(()) => return Ok(true),
            Err(RetakeError::Empty) => return self.adopt(),
            Err(RetakeError::NoMemory) => return Err(RunFault::Memory),
            Err(RetakeError::Refused(refused)) => {
                self.admit_refused(refused)?;
                return Ok(true);
            }
        }
    }

    // Polls a slot.
    #[tactic(auto, using(crate::proofs::Desking::loses_none))]
    fn poll(&mut self, slot: usize) -> Result<(), RunFault>
        ensures ok { OnOk result (LosesNone self.old self.new) }
        ensures err { IfErr result IsMemory }
    {
        match self.bench.poll(slot) {
            Polled::NoMemory(_) => return Err(RunFault::Memory),
            _ => return Ok(()),
        }
    }

    // Polls residents in turn, until one that couldn't make a turn before can make one. Returns
    // true if there is one. A bench therefore works on one experiment after the other, whose data
    // stays in the processor's caches.
    #[tactic(auto, using(crate::proofs::Desking::loses_none, crate::proofs::Desking::loses_none_both))]
    fn start_next(&mut self) -> Result<bool, RunFault>
        ensures ok { OnOk result (LosesNone self.old self.new) }
        ensures err { IfErr result IsMemory }
    {
        let mut left = self.bench.residents();
        for _ in 0..MAX_RESIDENTS {
            if left == 0 {
                return Ok(false);
            }
            let slot = self.cursor;
            self.cursor = slot.wrapping_add(1) % MAX_RESIDENTS;
            match self.bench.poll(slot) {
                Polled::NoMemory(_) => return Err(RunFault::Memory),
                Polled::Vacant => {}
                Polled::Took(_) | Polled::Resumed(_) => return Ok(true),
                _ => left -= 1,
            }
        }
        Ok(false)
    }

    // Admits the first waiting parcel, if few residents wait for their commands. Returns true if it
    // did.
    #[tactic(auto, using(crate::proofs::Desking::loses_none))]
    fn admit_next(&mut self) -> Result<bool, RunFault>
        ensures ok { OnOk result (LosesNone self.old self.new) }
        ensures err { IfErr result IsMemory }
    {
        if self.bench.residents() >= MAX_ACTIVE {
            return Ok(false);
        }
        let Some(parcel) = self.waiting.pop() else {
            return Ok(false);
        };
        // The parcel gets the first vacant slot, so polling finds it at once.
        self.cursor = 0;
        self.admit_again(parcel)?;
        Ok(true)
    }

    // Returns true if the deque has fewer parcels than it should: it should have one more if there
    // is another bench that may have nothing to do.
    #[tactic(auto, using(crate::proofs::Desking::loses_none))]
    fn runs_low(&mut self) -> bool
        ensures { LosesNone self.old self.new }
    {
        let ahead = if self.peer.is_some() { 1 } else { 0 };
        self.bench.waiting() <= ahead
    }

    // Polls a resident after its turns, to get its next command and publish its records, and offers
    // it if enough turns were made.
    #[tactic(auto, using(crate::proofs::Desking::loses_none, crate::proofs::Desking::loses_none_both))]
    fn after(&mut self, name: u32, moves: u32) -> Result<(), RunFault>
        ensures ok { OnOk result (LosesNone self.old self.new) }
        ensures err { IfErr result IsMemory }
    {
        let Some(slot) = self.bench.slot_of(name) else {
            return Ok(());
        };
        self.poll(slot)?;
        if moves > 0 && self.turns >= moves {
            self.turns = 0;
            self.offer(slot)?;
        }
        Ok(())
    }

    // Returns the number of turns that may follow the next one at once.
    fn more(&self, moves: u32) -> u32 {
        if moves == 0 {
            return AT_ONCE - 1;
        }
        moves
            .saturating_sub(self.turns)
            .clamp(1, AT_ONCE)
            .saturating_sub(1)
    }

    // Makes some turns of one resident. Returns true if any ran.
    #[tactic(auto, using(crate::proofs::Desking::loses_none, crate::proofs::Desking::loses_none_both, crate::proofs::Desking::loses_none_ended))]
    fn turn<G: Gate, P: Progress>(
        &mut self,
        moves: u32,
        board: &Board,
        gate: &G,
        progress: &P,
    ) -> Result<bool, RunFault>
        ensures ok { OnOk result (LosesNone self.old self.new) }
        ensures err { IfErr result (IsWorkFault G.may_refuse) }
    {
        if self.dossiers.reserve(1).is_err() {
            return Err(RunFault::Memory);
        }
        let more = self.more(moves);
        let mut watching = Watching {
            gate,
            bench: self.number,
            turns: 0,
            refused: false,
        };
        let turned = self.bench.turns(more, &mut watching);
        self.turns = self.turns.wrapping_add(watching.turns);
        if watching.refused {
            return Err(RunFault::Gate);
        }
        match turned {
            Turned::Ran(name) => {
                self.after(name, moves)?;
                return Ok(true);
            }
            Turned::Ended(dossier) => {
                self.dossiers.push_reserved(dossier);
                board.count(progress);
                return Ok(true);
            }
            Turned::Idle => return Ok(false),
        }
    }

    // Makes a turn, or else finds a resident that can make one. Returns true if there was anything
    // to do.
    #[tactic(auto, using(crate::proofs::Desking::loses_none_both))]
    fn work_on<G: Gate, P: Progress>(
        &mut self,
        moves: u32,
        board: &Board,
        gate: &G,
        progress: &P,
    ) -> Result<bool, RunFault>
        ensures ok { OnOk result (LosesNone self.old self.new) }
        ensures err { IfErr result (IsWorkFault G.may_refuse) }
    {
        if self.turn(moves, board, gate, progress)? {
            return Ok(true);
        }
        if self.runs_low() && (self.start_next()? || self.admit_next()?) {
            return Ok(true);
        }
        let found = self.fetch()?;
        Ok(found)
    }

    // Works until there is nothing left to do.
    #[tactic(auto, using(crate::proofs::Desking::loses_none, crate::proofs::Desking::loses_none_both))]
    fn work_all<G: Gate, R: Wait, P: Progress>(
        &mut self,
        rt: &R,
        moves: u32,
        board: &Board,
        gate: &G,
        progress: &P,
    ) -> Result<(), RunFault>
        ensures ok { OnOk result (LosesNone self.old self.new) }
        ensures err { IfErr result (IsWorkFault G.may_refuse) }
    {
        for _ in rt.forever() {
            if board.is_over() {
                return Ok(());
            }
            if !self.work_on(moves, board, gate, progress)? {
                thread::yield_now();
            }
        }
        unreachable!()
    }
}

/// Runs a bench until all experiments have ended, or there is a fault in any worker.
#[tactic(auto, using(crate::proofs::Desking::hands_over))]
pub(crate) fn work<G: Gate, R: Wait, P: Progress>(
    rt: &R,
    alloc: Global,
    job: Job,
    plan: Plan,
    board: &Board,
    gate: &G,
    progress: &P,
) -> Report<G>
    ensures { result.given.fault ≡ None → HandsOver job.bench job.waiting.items result.given }
{
    let Job {
        number,
        bench,
        peer,
        waiting,
    } = job;
    let mut desk = Desk {
        number,
        bench,
        peer,
        dossiers: Vec::new(alloc),
        waiting,
        turns: 0,
        cursor: 0,
    };
    let done = desk.work_all(rt, plan.moves, board, gate, progress);
    if done.is_err() {
        board.stop();
    }
    let Desk {
        number: _,
        bench,
        peer: _,
        dossiers,
        waiting,
        turns: _,
        cursor: _,
    } = desk;
    let given = Given {
        closing: bench.close(),
        dossiers,
        waiting,
        fault: done.err(),
    };
    Report {
        of: PhantomData,
        given,
    }
}
