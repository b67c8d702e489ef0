//! Agendas for which an allocation fails although another agenda would succeed.

use emu_model::Source;
use std::alloc::{AllocError, Global};
use std::marker::Model;
use timer_wheel::{Agenda, Entry, Owner};

/// An agenda for which the allocation of every entry fails.
#[derive(Drop)]
pub struct GivesUp {
    clock: u64,
}

impl Agenda for GivesUp {
    ghost use Rattle.timer_wheel.specs.Rows.{no_dues};

    ghost entries = { λ a o. no_dues };

    ghost time = { λ a. a.clock };

    ghost spare = { λ a. 0 };

    fn new(_alloc: Global, clock: u64) -> Result<GivesUp, AllocError> {
        Ok(GivesUp { clock })
    }

    fn clock(&self) -> u64 {
        self.clock
    }

    fn set(&mut self, _owner: Owner, _source: Source, _due: u64) -> Result<(), AllocError> {
        Err(AllocError)
    }

    fn clear(&mut self, _owner: Owner, _source: Source) {}

    fn clear_owner(&mut self, _owner: Owner) {}

    fn move_to_least(&mut self) -> Option<Entry> {
        None
    }

    fn rewind(&mut self) {
        self.clock = 0;
    }

    fn restart(&mut self) {
        self.rewind();
    }
}

/// An agenda for which the allocation of the first entry after its clock was set to 0 fails, if the
/// owner has no entry. A test that sees the failure knows that time has restarted. The agenda
/// recognises an owner without entries because the owner was cleared just before, as a shard does.
#[derive(Drop)]
pub struct Anew<A: Agenda> {
    within: A,
    refuses: bool,
    // The owner that was cleared in the last call.
    cleared: Option<Owner>,
}

impl<A: Agenda> Model for Anew<A> {
    ghost use Rattle.std.specs.Prelude.{◌≡◌, IfSome};
    ghost use Rattle.timer_wheel.specs.Rows.{no_dues};

    ghost Value = { A };

    ghost view = { λ a. a.within };

    ghost invariant = { λ a. IfSome a.cleared (λ o. A.entries a.within o ≡ no_dues) };
}

impl<A: Agenda> Anew<A> {
    ghost use Rattle.std.specs.Prelude.{◌≡◌, IsTrue};
    ghost use Rattle.timer_wheel.specs.Rows.{no_dues};

    // Returns true if an owner was cleared in the last call.
    fn is_cleared(&self, owner: Owner) -> bool
        ensures { IsTrue result → A.entries self.now owner ≡ no_dues }
    {
        let Some(cleared) = self.cleared else {
            return false;
        };
        cleared == owner
    }
}

impl<A: Agenda> Agenda for Anew<A> {
    ghost entries = { λ a. A.entries a };

    ghost time = { λ a. A.time a };

    ghost spare = { λ a. 0 };

    fn new(alloc: Global, clock: u64) -> Result<Anew<A>, AllocError> {
        Ok(Anew {
            within: A::new(alloc, clock)?,
            refuses: false,
            cleared: None,
        })
    }

    fn clock(&self) -> u64 {
        self.within.clock()
    }

    fn set(&mut self, owner: Owner, source: Source, due: u64) -> Result<(), AllocError> {
        if self.refuses && self.is_cleared(owner) {
            self.refuses = false;
            return Err(AllocError);
        }
        self.cleared = None;
        self.within.set(owner, source, due)
    }

    fn clear(&mut self, owner: Owner, source: Source) {
        self.cleared = None;
        self.within.clear(owner, source);
    }

    fn clear_owner(&mut self, owner: Owner) {
        self.within.clear_owner(owner);
        self.cleared = Some(owner);
    }

    fn move_to_least(&mut self) -> Option<Entry> {
        self.cleared = None;
        self.within.move_to_least()
    }

    fn rewind(&mut self) {
        self.cleared = None;
        self.within.rewind();
        self.refuses = true;
    }

    fn restart(&mut self) {
        self.cleared = None;
        self.within.restart();
        self.refuses = true;
    }
}
