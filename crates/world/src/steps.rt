//! One step of the workers.

ghost use Rattle.std.specs.Prelude.{◌≡◌, ℕ, ◌≤◌};
ghost use Rattle.world.specs.Runs.{refusals_of};
ghost use Rattle.world.specs.Steps.{did_bring, did_end, did_poll};

use crate::home::{Desk, Home};
use crate::world::World;
use emu_model::{Ending, Spec, Timed};
use shard::{ListMail, Parcel, Polled, Turned};
use timer_wheel::Agenda;

/// The maximum number of names.
const MAX_NAMES: usize = 1_000_000;

/// A step of the workers: the next name is registered; a command is posted to a name; a name that
/// is handed out is admitted to a shard; a shard makes a turn; a slot's resident is polled, or
/// offered to its shard's deque; the front of a shard's own deque is taken in again, or that of
/// another one is adopted; a shard's agenda is rewound; a letter of a name is read.
#[derive(Clone, Copy)]
pub enum Step {
    Registered(Spec),
    Post { name: u32, timed: Timed },
    Admit { name: u32, shard: usize },
    Turn { shard: usize },
    Poll { shard: usize, slot: usize },
    Offer { shard: usize, slot: usize },
    Retake { shard: usize },
    Adopt { shard: usize, from: usize },
    Rebase { shard: usize },
    ReadLetter { name: u32 },
}

/// The result of a step: it was done; it can't be done, and nothing changed, except that a shard's
/// agenda may have been rewound; or memory ran out.
#[derive(Clone, Copy, Debug, PartialEq, Eq)]
pub enum Did {
    Done,
    Still,
    NoMemory,
}

impl Did {
    // Returns 1 if memory ran out, otherwise 0.
    pub(crate) fn refusals(self) -> u64
        ensures value { result ≡ refusals_of self }
        ensures few { result ≤ 1 }
    {
        match self {
            Did::NoMemory => 1,
            Did::Done => 0,
            Did::Still => 0,
        }
    }

    // Returns the result of taking a name from a deque, given the result of taking it in. A name
    // that is refused is handed out.
    pub(crate) fn bring_outcome(self) -> Did
        ensures { result ≡ did_bring self }
    {
        match self {
            Did::NoMemory => Did::NoMemory,
            Did::Done => Did::Done,
            Did::Still => Did::Done,
        }
    }
}

// Returns the result of a turn that ended a resident, given its ending.
fn end_outcome(ending: Ending) -> Did
    ensures { result ≡ did_end ending }
{
    match ending {
        Ending::Halted => Did::NoMemory,
        Ending::Ended => Did::Done,
        Ending::Spent => Did::Done,
    }
}

// Returns the result of a step, given that of its poll.
fn poll_outcome(answer: Polled) -> Did
    ensures { result ≡ did_poll answer }
{
    match answer {
        Polled::Vacant => Did::Still,
        Polled::NoMemory(_) => Did::NoMemory,
        Polled::Took(_) => Did::Done,
        Polled::Resumed(_) => Did::Done,
        Polled::Held(_) => Did::Done,
        Polled::Empty(_) => Did::Done,
    }
}

impl<A: Agenda> World<A> {
    ghost use Rattle.std.specs.Prelude.{◌≡◌, ℕ, Some};
    ghost use Rattle.world.specs.Steps.{IsRegistered, IsWorldTurn, IsWorldPoll, IsWorldRebase};
    ghost use Rattle.world.specs.Runs.{Does};
    ghost use Rattle.world.specs.Tenants.{Tenant, shown};
    ghost use Rattle.world.specs.Places.{tenant_at, AreAtOnePlace};
    ghost use Rattle.world.specs.Kept.{IsAlone, IsAloneState, IsPosted, AreLetters};

    // Registers the next name.
    fn register(&mut self, spec: Spec) -> Did
        ensures { IsRegistered spec result self.old self.new }
    {
        let name = self.desks.len();
        if name >= MAX_NAMES {
            return Did::Still;
        }
        let Ok(()) = self.desks.reserve(1) else {
            return Did::NoMemory;
        };
        let Ok(mail) = ListMail::new(self.alloc) else {
            return Did::NoMemory;
        };
        let Ok(parcel) = Parcel::open(self.alloc, name as u32, spec, mail) else {
            return Did::NoMemory;
        };
        parcel.reveal_invariant();
        self.desks.push_reserved(Desk {
            home: Home::Handed(parcel),
            closed: false,
            last: 0,
        });
        Did::Done
    }

    // Makes one event of a shard.
    fn turn(&mut self, i: usize) -> Did
        ensures { IsWorldTurn i result self.old self.new }
    {
        if i >= self.shards.len() {
            return Did::Still;
        }
        let shard = &mut self.shards[i];
        let turned = shard.turn();
        shard.reveal_invariant();
        match turned {
            Turned::Ran(_) => return Did::Done,
            Turned::Ended(dossier) => {
                dossier.reveal_invariant();
                let ending = dossier.ending();
                let desk = &mut self.desks[dossier.name() as usize];
                desk.go(Home::Left(dossier));
                return end_outcome(ending);
            }
            Turned::Idle => return Did::Still,
        }
    }

    // Polls a slot.
    fn poll(&mut self, i: usize, slot: usize) -> Did
        ensures { IsWorldPoll i slot result self.old self.new }
    {
        if i >= self.shards.len() {
            return Did::Still;
        }
        let shard = &mut self.shards[i];
        let answer = shard.poll(slot);
        shard.reveal_invariant();
        poll_outcome(answer)
    }

    // Rewinds a shard's agenda.
    fn rebase(&mut self, i: usize) -> Did
        ensures { IsWorldRebase i result self.old self.new }
    {
        if i >= self.shards.len() {
            return Did::Still;
        }
        let shard = &mut self.shards[i];
        shard.rebase();
        Did::Done
    }

    /// Makes one step of the workers. Afterwards, each name is still as if it were alone.
    pub fn step(&mut self, step: Step) -> Did
        ensures case { Does step result self.old self.new }
        ensures headline { (n : ℕ) (t : Tenant) → tenant_at self.new n ≡ Some t →
            IsAlone (shown t.life) }
        ensures whole { (n : ℕ) (t : Tenant) → tenant_at self.new n ≡ Some t → IsAloneState t.life }
        ensures posted { (n : ℕ) (t : Tenant) → tenant_at self.new n ≡ Some t →
            IsPosted (shown t.life) }
        ensures letters { (n : ℕ) (t : Tenant) → tenant_at self.new n ≡ Some t →
            AreLetters (shown t.life) }
        ensures one_place { AreAtOnePlace self.new }
    {
        let did = self.do_step(step);
        self.reveal_invariant();
        did
    }

    // Makes the step itself.
    fn do_step(&mut self, step: Step) -> Did
        ensures { Does step result self.old self.new }
    {
        match step {
            Step::Registered(spec) => return self.register(spec),
            Step::Post { name, timed } => return self.post(name, timed),
            Step::Admit { name, shard } => return self.admit(name, shard),
            Step::Turn { shard } => return self.turn(shard),
            Step::Poll { shard, slot } => return self.poll(shard, slot),
            Step::Offer { shard, slot } => return self.offer(shard, slot),
            Step::Retake { shard } => return self.bring(shard, shard),
            Step::Adopt { shard, from } => return self.bring(shard, from),
            Step::Rebase { shard } => return self.rebase(shard),
            Step::ReadLetter { name } => return self.read_letter(name),
        }
    }
}
