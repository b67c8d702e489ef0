//! A pipe together with its packets, the actions on it, and a log of its events.

ghost use Rattle.std.specs.Prelude.{[], ◌∷◌, IfSome};
ghost use Rattle.pipe_core.specs.Moves.{AreNamed};

use super::*;
use emu_model::{
    DropCause, Load, Packet, PacketBudget, PipeNumber, Place, Protocol, Refusal, RuleNumber, Size,
};
use packet_store::{Key, OwnShelf, Owner, Shelf, Store};
use pipe_core::{Pipe, Shown};
use std::alloc::Global;
use std::marker::Model;
use std::mem;
use std::process::Abort;

/// The destinations 10.0.0.2 and 10.0.0.3.
pub const FIRST: u32 = 0x0a00_0002;

pub const SECOND: u32 = 0x0a00_0003;

/// A pipe with a shelf of its own, on which its keys refer to its packets.
#[derive(Drop)]
struct Bench {
    budget: usize,
    shelf: OwnShelf,
    pipe: Pipe,
    drops: Vec<Packet>,
}

impl Model for Bench {
    ghost use Rattle.std.specs.Prelude.{◌≡◌};
    ghost use Rattle.packet_store.specs.Own.{own_pocket};
    ghost use Rattle.pipe_core.specs.Moves.{AreNamed};
    ghost use Rattle.pipe_core.specs.Keyed.{KeyedPipe, keys_of};

    ghost Value = { KeyedPipe };

    ghost view = { λ b. b.pipe };

    ghost invariant = { λ b. AreNamed (own_pocket b.shelf) (keys_of b.pipe.slots)
        × ((own_pocket b.shelf).budget ≡ b.budget) };
}

/// The next event in a pipe.
#[derive(Clone, Copy)]
struct Next {
    moment: u64,
    leaves: bool,
    index: usize,
}

/// An action on a pipe.
#[derive(Clone, Copy)]
pub enum Act {
    /// A packet with this number and this size in bytes arrives for this destination.
    Send {
        now: u64,
        number: u64,
        dst: u32,
        size: u16,
    },
    /// All events before a time.
    Run {
        until: u64,
    },
    /// A new configuration, and whether it is refused.
    Configure {
        config: PipeConfig,
        refusal: Option<Refusal>,
    },
    /// The listing of this instance.
    Show {
        index: usize,
        shown: Option<Shown>,
    },
    /// The pipe moves to a store, which then holds this number of packets, and from there to a new
    /// shelf.
    Travel {
        stood: usize,
    },
    /// The pipe gives up all its packets.
    Delete,
}

/// Returns the arrival of a packet of 1000 bytes at time 0.
pub fn thousand(number: u64, dst: u32) -> Act {
    Act::Send {
        now: 0,
        number,
        dst,
        size: 1000,
    }
}

/// The fate of a packet.
#[derive(Clone, Copy, PartialEq)]
pub enum Fate {
    Full,
    Finished,
    Dropped,
    Left,
    Gone,
}

/// The fate of the packet with this number, and its time (ns), which is 0 if the packet was refused
/// as `full` or has gone.
pub type Note = (Fate, u64, u64);

/// Returns the earlier of two events. If both have the same time, an exit is first, and otherwise
/// the first of the two.
fn earlier_of(best: Option<Next>, next: Next) -> Option<Next> {
    match best {
        Some(best)
            if best.moment < next.moment
                || (best.moment == next.moment && (best.leaves || !next.leaves)) => { Some(best) }
        _ => Some(next),
    }
}

impl Bench {
    /// Creates pipe 1 with a shelf of 64 packets.
    fn new(alloc: Global, config: PipeConfig) -> Option<Self> {
        let number = PipeNumber::new(1)?;
        let limit = PacketBudget::new(64)?;
        let budget = limit.get() as usize;
        let shelf = OwnShelf::new(alloc, limit);
        let pipe = Pipe::new(alloc, 0, number, config);
        let drops = Vec::new(alloc);
        Some(Bench {
            budget,
            shelf,
            pipe,
            drops,
        })
    }

    /// Lets a packet arrive, and returns the pipe's result, or `None` if the bench is full, the
    /// time is too late, or an allocation fails.
    fn arrive(&mut self, now: u64, packet: &Packet) -> Option<Option<DropCause>> {
        if now >= END || self.shelf.count(0) >= self.budget {
            return None;
        }
        let ready = self.pipe.arrive_ready(&mut self.shelf, 0, now, packet);
        if ready.is_err() {
            return None;
        }
        Some(self.pipe.arrive(&mut self.shelf, 0, now, packet))
    }

    /// Returns the number of the packet that leaves an instance first.
    fn exit(&mut self, index: usize) -> Option<u64> {
        if index >= self.pipe.instances() {
            return None;
        }
        match self.pipe.exit(&mut self.shelf, 0, index) {
            Some(packet) => Some(packet.number),
            None => None,
        }
    }

    /// Returns the number of the packet that would leave first.
    fn front(&self, index: usize) -> Option<u64> {
        if index >= self.pipe.instances() {
            return None;
        }
        match self.pipe.front(&self.shelf, 0, index) {
            Some(packet) => Some(packet.number),
            None => None,
        }
    }

    /// Finishes the packet in service in an instance when it is due, and returns its number, or
    /// `None` if nothing can finish or an allocation fails.
    fn finish(&mut self, index: usize) -> Option<u64> {
        if index >= self.pipe.instances() {
            return None;
        }
        let now = self.pipe.dues(index).finish?;
        if now >= END {
            return None;
        }
        let plain = self.pipe.drops_none(index, now);
        match self
            .pipe
            .finish(&mut self.shelf, 0, index, now, plain, &mut self.drops)
        {
            Ok(packet) => Some(packet.number),
            Err(_) => None,
        }
    }

    /// Sets a new configuration.
    fn configure(&mut self, config: PipeConfig) -> Option<Refusal> {
        self.pipe.configure(config)
    }

    /// Lets the pipe give up all its packets. Returns `None` if an allocation fails.
    fn delete(&mut self) -> Option<Vec<Packet>> {
        match self.pipe.delete(&mut self.shelf, 0) {
            Ok(gone) => Some(gone),
            Err(_) => None,
        }
    }

    /// Moves the pipe to a store, in which another owner has a packet, and from there to a new
    /// shelf. Returns the number of packets that were in the store, or `None` if an allocation
    /// fails and the pipe did not move.
    fn travel(&mut self, alloc: Global) -> Option<usize> {
        let limit = PacketBudget::new(64)?;
        let mut store = Store::new(alloc);
        let stood = self.travel_by(alloc, &mut store, limit);
        drop(store);
        stood
    }

    /// Moves the pipe as `travel` does, through this store.
    fn travel_by(
        &mut self,
        alloc: Global,
        store: &mut Store,
        limit: PacketBudget,
    ) -> Option<usize> {
        let budget = limit.get() as usize;
        let beside = store.admit(limit).ok()?;
        keep(store, beside, 99)?;
        let owner = store.admit(limit).ok()?;
        if self.shelf.count(0) > budget {
            return None;
        }
        let mut home = OwnShelf::new(alloc, limit);
        let Ok(()) = home.reserve(budget) else {
            drop(home);
            return None;
        };
        self.pipe.rehouse(&mut self.shelf, 0, store, owner);
        let stood = store.count(owner);
        self.pipe.rehouse(store, owner, &mut home, 0);
        drop(mem::replace(&mut self.shelf, home));
        self.budget = budget;
        Some(stood)
    }

    /// Lets a packet of this size in bytes arrive. A failed call must change nothing, and is
    /// repeated.
    fn send(&mut self, now: u64, number: u64, dst: u32, size: u16) -> Option<Option<DropCause>> {
        let Some(packet) = packet(number, dst, size) else {
            return None;
        };
        let held = self.shelf.count(0);
        let instances = self.pipe.instances();
        if let Some(answer) = self.arrive(now, &packet) {
            return Some(answer);
        }
        if self.shelf.count(0) != held || self.pipe.instances() != instances {
            return None;
        }
        self.arrive(now, &packet)
    }

    /// Returns the next exit or finish.
    fn next(&self) -> Option<Next> {
        let mut best: Option<Next> = None;
        for index in 0..self.pipe.instances() {
            let dues = self.pipe.dues(index);
            if let Some(moment) = dues.exit {
                let leaves = true;
                best = earlier_of(
                    best,
                    Next {
                        moment,
                        leaves,
                        index,
                    },
                );
            }
            if let Some(moment) = dues.finish {
                let leaves = false;
                best = earlier_of(
                    best,
                    Next {
                        moment,
                        leaves,
                        index,
                    },
                );
            }
        }
        best
    }

    /// Processes the next exit or finish before a time, or returns `None` if there is none. A
    /// finish that fails must change nothing, and is repeated.
    fn step(&mut self, until: u64, notes: &mut Vec<Note>) -> Option<()> {
        let next = self.next()?;
        if next.moment >= until {
            return None;
        }
        if next.leaves {
            let front = self.front(next.index)?;
            let number = self.exit(next.index)?;
            if number != front {
                return None;
            }
            return notes.push((Fate::Left, next.moment, number)).ok();
        }
        let before = self.pipe.shown(next.index);
        let number = match self.finish(next.index) {
            Some(number) => number,
            None => {
                if self.pipe.shown(next.index) != before {
                    return None;
                }
                self.finish(next.index)?
            }
        };
        for dropped in &self.drops {
            notes
                .push((Fate::Dropped, next.moment, dropped.number))
                .ok()?;
        }
        notes.push((Fate::Finished, next.moment, number)).ok()
    }

    /// Processes all events before a time.
    fn run(&mut self, until: u64, notes: &mut Vec<Note>) {
        for _ in 0..200 {
            if self.step(until, notes).is_none() {
                break;
            }
        }
    }

    /// Lets the pipe give up all its packets, and retries once if an allocation fails, after which
    /// nothing must have changed.
    fn give_up(&mut self, notes: &mut Vec<Note>) -> Option<()> {
        let (held, instances) = (self.shelf.count(0), self.pipe.instances());
        let gone = match self.delete() {
            Some(gone) => gone,
            None if self.shelf.count(0) == held && self.pipe.instances() == instances => {
                self.delete()?
            }
            None => return None,
        };
        for packet in &gone {
            notes.push((Fate::Gone, 0, packet.number)).ok()?;
        }
        if self.shelf.count(0) != 0 || self.pipe.instances() != 0 {
            return None;
        }
        Some(())
    }

    /// Moves the pipe, and retries once if an allocation fails.
    fn travel_in_the_end(&mut self, alloc: Global) -> Option<usize> {
        match self.travel(alloc) {
            Some(stood) => Some(stood),
            None => self.travel(alloc),
        }
    }

    /// Performs one action on the pipe. Returns `None` if the result isn't the expected one, or if
    /// the action fails twice.
    fn act(&mut self, alloc: Global, act: &Act, notes: &mut Vec<Note>) -> Option<()> {
        let as_wanted = match *act {
            Act::Send {
                now,
                number,
                dst,
                size,
            } => match self.send(now, number, dst, size)? {
                None => true,
                Some(DropCause::Full) => notes.push((Fate::Full, 0, number)).is_ok(),
                Some(_) => false,
            },
            Act::Run { until } => {
                self.run(until, notes);
                true
            }
            Act::Configure { config, refusal } => self.configure(config) == refusal,
            Act::Show { index, shown } => self.pipe.shown(index) == shown,
            Act::Travel { stood } => self.travel_in_the_end(alloc) == Some(stood),
            Act::Delete => self.give_up(notes).is_some(),
        };
        if as_wanted { Some(()) } else { None }
    }

    /// Performs one action after the other.
    fn play(&mut self, alloc: Global, acts: &[Act], notes: &mut Vec<Note>) -> Option<()> {
        for act in acts {
            self.act(alloc, act, notes)?;
        }
        Some(())
    }
}

/// Creates a list with a capacity of 64. Retries once if the growth fails.
fn room_for_64(alloc: Global) -> Vec<Note> {
    let mut notes = Vec::new(alloc);
    if notes.reserve(64).is_err() {
        let _ = notes.reserve(64);
    }
    notes
}

/// Checks the log of a pipe after these actions.
pub fn plays(rt: &(impl Abort + AllocGlobal), config: PipeConfig, acts: &[Act], wanted: &[Note]) {
    let mut notes = room_for_64(rt.alloc());
    let mut bench = Bench::new(rt.alloc(), config).expect(rt, "a pipe");
    let played = bench.play(rt.alloc(), acts, &mut notes);
    drop(bench);
    assert_holds!(rt; played.is_some());
    assert_holds!(rt; notes.as_slice() == wanted);
}

fn packet(number: u64, dst: u32, size: u16) -> Option<Packet> {
    Some(Packet {
        proto: Protocol::Udp,
        src: 0x0a00_0001,
        sport: 1000,
        dst,
        dport: 2000,
        size: Size::new(size)?,
        number,
        load: Load::Plain,
        place: Place {
            number: RuleNumber::new(100)?,
            order: 0,
        },
    })
}

/// Stores a packet with this number.
pub fn keep<S: Shelf>(shelf: &mut S, owner: Owner, number: u64) -> Option<Key>
    ensures { IfSome result (λ key. AreNamed (S.pocket shelf.new owner) (key ∷ [])) }
{
    let Some(packet) = packet(number, FIRST, 1000) else {
        return None;
    };
    match shelf.put(owner, packet) {
        Ok(key) => Some(key),
        Err(_) => None,
    }
}

pub fn number_at<S: Shelf>(shelf: &S, owner: Owner, key: Key) -> Option<u64> {
    match shelf.look(owner, key) {
        Some(packet) => Some(packet.number),
        None => None,
    }
}
