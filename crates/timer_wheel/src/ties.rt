//! The sources that are due at one time, in order.
ghost use Rattle.std.specs.Prelude.{◌≡◌, ◌+◌, ◌<◌, [], ◌∷◌, ◌++◌, length, slice_get, IsTrue, IsFalse};
ghost use Rattle.std.specs.List.Sorted.{IsPermutation};
ghost use Rattle.timer_wheel.specs.Ties.{IsRising};

use crate::Owner;
use emu_model::Source;
use std::alloc::Global;
use std::marker::Model;

/// A source of an owner.
#[derive(Clone, Copy, PartialEq, Eq, PartialOrd, Ord)]
pub struct Tie {
    pub owner: Owner,
    pub source: Source,
}

/// Sources of owners, and the number of those that were passed.
#[derive(Drop)]
pub struct Ties {
    items: Vec<Tie>,
    next: usize,
}

impl Model for Ties {
    ghost use Rattle.timer_wheel.specs.Ties.{TiesBook};

    ghost Value = { TiesBook };

    ghost view = { λ t. record { items = t.items.items; next = t.next } };
}

impl Ties {
    /// Creates an empty list. Does not allocate.
    pub fn new(alloc: Global) -> Ties
        ensures { result ≡ record { items = []; next = 0 } }
    {
        Ties {
            items: Vec::new(alloc),
            next: 0,
        }
    }

    /// Reserves room for `count` sources, if there is memory.
    pub fn make_room(&mut self, count: usize)
        ensures { self.new ≡ self.old }
    {
        if count <= self.items.capacity() {
            return;
        }
        let _ = self.items.reserve(count - self.items.len());
    }

    /// Returns the first source that was not passed.
    pub fn top(&self) -> Option<Tie>
        ensures { result ≡ slice_get self.now.items self.now.next }
    {
        self.items.get(self.next).copied()
    }

    /// Passes a source.
    pub fn advance(&mut self)
        requires { self.old.next < length self.old.items }
        ensures { self.new ≡ record self.old { next = self.old.next + 1 } }
    {
        self.next += 1;
    }

    /// Removes all sources.
    pub fn clear(&mut self)
        ensures { self.new ≡ record { items = []; next = 0 } }
    {
        self.items.clear();
        self.next = 0;
    }

    /// Adds a source at the end if there is room, and returns true if there was.
    pub fn push(&mut self, tie: Tie) -> bool
        ensures pushed { IsTrue result →
            self.new ≡ record self.old { items = self.old.items ++ tie ∷ [] } }
        ensures full { IsFalse result → self.new ≡ self.old }
    {
        if self.items.len() == self.items.capacity() {
            return false;
        }
        self.items.push_reserved(tie);
        true
    }

    /// Sorts the sources by owner, class and number.
    pub fn sort(&mut self)
        ensures rising { IsRising self.new.items }
        ensures permutation { IsPermutation self.old.items self.new.items }
        ensures next { self.new.next ≡ self.old.next }
    {
        self.items.sort_unstable();
    }
}
