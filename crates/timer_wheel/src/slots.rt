//! The slots of all levels, and three other lists.
ghost use Rattle.std.specs.Prelude.{◌≡◌, ◌≢◌, ℕ, ◌<◌, [], ◌∷◌, ◌++◌, length, slice_get, slice_set, Some, IfOk, OnOk, OnErr, IfSome, IfNone, IsTrue};
ghost use Rattle.timer_wheel.specs.Marks.{mark_at};

use crate::marks::Marks;
use crate::ring::Ring;
use std::alloc::{AllocError, Global};
use std::marker::Model;

/// The number of slots: lists from 0 up.
pub const SLOTS: usize = 2048;

/// The list of keys whose entries are ties: due now, and sorted.
pub const TIES: usize = 2048;

/// The list of keys in transit from slot to slot.
pub const LOOSE: usize = 2049;

/// The list of keys without an entry.
pub const FREE: usize = 2050;

/// Keys in lists, and a mark for each slot that isn't empty. Contracts see the list of each key.
#[derive(Drop)]
pub struct Slots {
    keys: Ring,
    marks: Marks,
}

impl Model for Slots {
    ghost use Rattle.std.specs.Prelude.{ℕ, List};

    ghost Value = { List ℕ };

    ghost use Rattle.timer_wheel.specs.Filled.{IsMarked};

    ghost view = { λ s. s.keys };

    ghost invariant = { λ s. IsMarked s.keys s.marks };
}

// Marks a slot if it has a key, and removes its mark if it has none. Other lists have no mark.
fn renew(marks: &mut Marks, keys: &Ring, list: usize)
    ensures other { (q : ℕ) → q ≢ list → mark_at marks.new q ≡ mark_at marks.old q }
    ensures there { list < 2048 → mark_at marks.new list ≡ 1 →
        (k : ℕ) × (slice_get keys.now k ≡ Some list) }
    ensures none { list < 2048 → mark_at marks.new list ≡ 0 → (k : ℕ) →
        slice_get keys.now k ≢ Some list }
{
    if list >= SLOTS {
        return;
    }
    let Some(_) = keys.first(list) else {
        marks.unmark(list);
        return;
    };
    marks.mark(list);
}

impl Slots {
    /// Creates slots without keys.
    pub fn new(alloc: Global) -> Result<Slots, AllocError>
        ensures { IfOk result (λ s. s ≡ []) }
    {
        Ok(Slots {
            keys: Ring::new(alloc)?,
            marks: Marks::new(),
        })
    }

    /// Returns the number of keys.
    pub fn len(&self) -> usize
        ensures { result ≡ length self.now }
    {
        self.keys.len()
    }

    /// Returns the list of a key.
    pub fn list(&self, key: usize) -> usize
        requires { key < length self.now }
        ensures { slice_get self.now key ≡ Some result }
    {
        self.keys.list(key)
    }

    /// Returns the first slot that has a key.
    pub fn first(&self) -> Option<usize>
        ensures within { IfSome result (λ p. p < 2048) }
        ensures filled { IfSome result (λ p. (k : ℕ) × (slice_get self.now k ≡ Some p)) }
        ensures first { IfSome result
            (λ p. (q : ℕ) → q < p → (k : ℕ) → slice_get self.now k ≢ Some q) }
        ensures none { IfNone result
            ((q : ℕ) → q < 2048 → (k : ℕ) → slice_get self.now k ≢ Some q) }
    {
        self.marks.first()
    }

    /// Returns a key of a list.
    pub fn first_of(&self, list: usize) -> Option<usize>
        requires { list < 2051 }
        ensures some { IfSome result (λ k. slice_get self.now k ≡ Some list) }
        ensures within { IfSome result (λ k. k < length self.now) }
        ensures none { IfNone result ((k : ℕ) → slice_get self.now k ≢ Some list) }
    {
        self.keys.first(list)
    }

    /// Returns true only if a list has at most one key.
    pub fn is_alone(&self, list: usize) -> bool
        requires { list < 2051 }
        ensures { IsTrue result → (j k : ℕ) → slice_get self.now j ≡ Some list →
            slice_get self.now k ≡ Some list → j ≡ k }
    {
        self.keys.is_alone(list)
    }

    /// Adds one more key, without an entry.
    pub fn add(&mut self) -> Result<(), AllocError>
        ensures ok { OnOk result (self.new ≡ self.old ++ 2050 ∷ []) }
        ensures err { OnErr result (self.new ≡ self.old) }
    {
        self.keys.add(FREE)
    }

    /// Moves a key to a list.
    pub fn put(&mut self, key: usize, list: usize)
        requires known { key < length self.old }
        requires list { list < 2051 }
        ensures { self.new ≡ slice_set self.old key list }
    {
        let was = self.keys.list(key);
        self.keys.put(key, list);
        renew(&mut self.marks, &self.keys, was);
        renew(&mut self.marks, &self.keys, list);
    }
}
