//! A session of a caller that is not Rattle, and the answers that the caller hasn't received yet.

ghost use Rattle.std.specs.Prelude.{◌≡◌, ◌++◌, ℕ, List, false, OnOk};
ghost use Rattle.dnlab_c.specs.Guests.{IsSaidTo, HandsOver, Hears, Ends, fresh, next_line};

use crate::answer::{Answer, DONE, all_well, no_end, no_memory, put};
use session::{Answer as Said, Session, put_answer};
use std::alloc::{AllocError, Global};
use std::marker::Model;

/// A session, the answers that the caller hasn't received yet, the number of lines it has
/// processed, and whether an allocation has failed.
#[derive(Drop)]
pub struct Guest {
    session: Session,
    out: Vec<u8>,
    lines: u64,
    is_lost: bool,
}

impl Model for Guest {
    ghost use Rattle.dnlab_c.specs.Guests.{KeptGuest};

    ghost Value = { KeptGuest };

    ghost view = { λ g. record {
      session = g.session;
      out = g.out.items;
      lines = g.lines;
      is_lost = g.is_lost;
    } };
}

impl Guest {
    /// Creates a session without experiments. Does not allocate.
    pub fn new(alloc: Global) -> Self
        ensures { result ≡ fresh }
    {
        Guest {
            session: Session::new(alloc, None),
            out: Vec::new(alloc),
            lines: 0,
            is_lost: false,
        }
    }

    // Passes a line to the session, and appends the answer to the earlier ones. `AllocError` leaves
    // a prefix of the answer.
    fn hear(&mut self, line: &[u8]) -> Result<(), AllocError>
        ensures hears { OnOk result ((said : List ℕ) × (self.new.out ≡ self.old.out ++ said)
            × IsSaidTo line.now said self.old.session self.new.session) }
        ensures lines { OnOk result (self.new.lines ≡ next_line self.old.lines) }
        ensures same { self.new.is_lost ≡ self.old.is_lost }
    {
        self.lines = self.lines.saturating_add(1);
        let Some(cause) = self.session.take(line, &mut self.out)? else {
            return Ok(());
        };
        put_answer(&mut self.out, Said::Fault(cause))
    }

    // Writes the answers to the room if it holds all of them, and otherwise keeps them.
    fn hand_over(&mut self, room: &mut [u8]) -> Answer
        ensures hands { HandsOver self.old.out room.old room.new self.new.out result }
        ensures same { self.new ≡ record self.old { out = self.new.out } }
    {
        let answer = put(self.out.as_slice(), room);
        if answer.status == DONE {
            self.out.clear();
        }
        answer
    }

    /// Processes a line, without its line feed, and writes the answer, after the answers that an
    /// earlier room was too small for. If this room is too small, all of it is kept for the next
    /// call. Once an allocation has failed, every later call reports it.
    pub fn take(&mut self, line: &[u8], room: &mut [u8]) -> Answer
        ensures { Hears line.now room.old room.new self.old self.new result }
    {
        if self.is_lost {
            return no_memory();
        }
        let Ok(()) = self.hear(line) else {
            self.is_lost = true;
            return no_memory();
        };
        self.hand_over(room)
    }

    /// Returns the result of a session whose input ends here: a fault if an experiment has no end.
    #[tactic(auto, using(crate::proofs::Answering::end_open))]
    pub fn end(&self) -> Answer
        ensures { Ends self.now result }
    {
        if self.is_lost {
            return no_memory();
        }
        if !self.session.is_whole() {
            return no_end(self.lines.saturating_add(1));
        }
        all_well()
    }
}
