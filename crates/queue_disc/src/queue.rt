//! A queue under a discipline: its limit alone, or CoDel (RFC 8289, section 5) as well.

ghost use Rattle.std.specs.Prelude.{◌≡◌, ◌*◌, ◌^◌, ◌<◌, ◌≤◌, true, [], ◌∷◌, length, map, drop, IfOk, OnOk, OnErr, IsOk, IsTrue, MatchOption, slice_get};
ghost use Rattle.emu_model.specs.Moments.{IsMoment};
ghost use Rattle.emu_model.specs.DropTail.{bytes_of, accepts};
ghost use Rattle.emu_model.specs.Codel.{initial_control};
ghost use Rattle.emu_model.specs.Pipes.{dequeue, configured_control};
ghost use Rattle.queue_disc.specs.Queues.{with_item, put_last, passed, head_is_short, is_plain, IsDequeue};

use crate::entries::Queued;
use crate::plan::{DropPlan, plan_drops, stays_short};
use crate::state::{CodelState, Times};
use crate::tail::DropTail;
use emu_model::{Discipline, QueueLimit, Size};
use std::alloc::{AllocError, Global};
use std::marker::Model;

/// A queue with a limit and a discipline. Under its limit alone, CoDel's state doesn't change.
#[derive(Drop)]
pub struct Queue<A> {
    pub(crate) tail: DropTail<A>,
    pub(crate) discipline: Discipline,
    pub(crate) control: CodelState,
}

impl<A> Model for Queue<A> {
    ghost use Rattle.queue_disc.specs.Queues.{DisciplinedQueue};

    ghost Value = { DisciplinedQueue A };

    ghost view = { λ q. record {
      limit = q.tail.limit;
      discipline = q.discipline;
      control = q.control;
      waiting = q.tail.waiting;
      capacity = q.tail.capacity;
    } };
}

/// The items that a dequeue dropped, in order, and the one that it passed to the server.
#[derive(Drop)]
pub struct Dequeued<A> {
    pub dropped: Vec<Queued<A>>,
    pub given: Option<Queued<A>>,
}

impl<A> Queue<A> {
    /// Creates an empty queue, with CoDel's initial state. Does not allocate.
    pub fn new(alloc: Global, limit: QueueLimit, discipline: Discipline) -> Self
        ensures { result ≡ record {
          limit = limit;
          discipline = discipline;
          control = initial_control;
          waiting = [];
          capacity = result.capacity;
        } }
    {
        Queue {
            tail: DropTail::new(alloc, limit),
            discipline,
            control: CodelState::new(),
        }
    }

    /// Returns true if the limit accepts another item of `size` bytes.
    #[inline(always)]
    pub fn accepts(&self, size: Size) -> bool
        ensures { result ≡ accepts self.now.limit self.now.waiting size }
    {
        self.tail.accepts(size)
    }

    /// Reserves the memory that `enqueue_reserved` of this item may need.
    #[inline(always)]
    pub fn enqueue_ready(&mut self, size: Size, _now: u64) -> Result<(), AllocError>
        ensures same { self.new ≡ record self.old { capacity = self.new.capacity } }
        ensures room { OnOk result
            (accepts self.old.limit self.old.waiting size ≡ true →
            length self.new.waiting < self.new.capacity) }
        ensures grows { self.old.capacity ≤ self.new.capacity }
        ensures unchanged { OnErr result (self.new ≡ self.old) }
        ensures full { OnErr result
            ((accepts self.old.limit self.old.waiting size ≡ true)
            × (self.old.capacity ≤ length self.old.waiting)) }
    {
        if self.tail.accepts(size) {
            self.tail.reserve()
        } else {
            Ok(())
        }
    }

    /// Appends an item of `size` bytes, stamped with `now`; the limit must accept it, and there
    /// must be room. Does not allocate.
    #[inline(always)]
    pub fn enqueue_reserved(&mut self, item: A, size: Size, now: u64)
        requires accepted { accepts self.old.limit self.old.waiting size ≡ true }
        requires room { length self.old.waiting < self.old.capacity }
        ensures { self.new ≡ put_last now item size self.old }
    {
        self.tail.enqueue_reserved(item, size, now);
    }

    /// Dequeues an item at `now` (ns) by the discipline; under CoDel, by RFC 8289, section 5.5.
    /// Allocates only if it drops; if allocation fails, the queue is unchanged.
    #[inline(always)]
    pub fn dequeue(&mut self, now: u64) -> Result<Dequeued<A>, AllocError>
        requires early { IsMoment now }
        ensures ok { IfOk result
            (λ d. IsDequeue now d.dropped.items d.given self.old self.new) }
        ensures same { self.new
            ≡ record self.old { control = self.new.control; waiting = self.new.waiting } }
        ensures unchanged { OnErr result (self.new ≡ self.old) }
        ensures no_drop { let q = self.old in
            (dequeue q.discipline now q.control q.waiting).dropped ≡ [] → IsOk result }
        ensures lone { length self.old.waiting ≤ 1 → IsOk result }
    {
        let plain = self.drops_none(now);
        self.dequeue_knowing(now, plain)
    }

    /// Dequeues an item like `dequeue`, for a caller that may know that it is certain to drop
    /// nothing (see `drops_none`).
    #[inline(always)]
    pub fn dequeue_knowing(&mut self, now: u64, plain: bool) -> Result<Dequeued<A>, AllocError>
        requires early { IsMoment now }
        requires plain { IsTrue plain → is_plain self.old.discipline self.old.control now self.old.waiting ≡ true }
        ensures ok { IfOk result
            (λ d. IsDequeue now d.dropped.items d.given self.old self.new) }
        ensures same { self.new
            ≡ record self.old { control = self.new.control; waiting = self.new.waiting } }
        ensures unchanged { OnErr result (self.new ≡ self.old) }
        ensures no_drop { let q = self.old in
            (dequeue q.discipline now q.control q.waiting).dropped ≡ [] → IsOk result }
        ensures plainly { IsTrue plain → IsOk result }
        ensures none { IsTrue plain → IfOk result (λ d. d.dropped.items ≡ []) }
    {
        if plain {
            let given = self.dequeue_plainly(now);
            let dropped = Vec::new(self.tail.allocator());
            return Ok(Dequeued { dropped, given });
        }
        self.dequeue_long(now)
    }

    /// Returns true if a dequeue at `now` (ns) is certain to drop nothing: nothing waits, the
    /// head's sojourn is short, or CoDel drops later.
    #[inline(always)]
    pub fn drops_none(&self, now: u64) -> bool
        ensures plain { result ≡ is_plain self.now.discipline self.now.control now self.now.waiting }
        ensures none { let q = self.now in
            IsTrue result → (dequeue q.discipline now q.control q.waiting).dropped ≡ [] }
    {
        match self.discipline {
            Discipline::TailDrop => true,
            Discipline::ControlledDelay { .. } => {
                self.control.drops_later(now) || self.is_short(now)
            }
        }
    }

    // Returns true if nothing waits, or the head's sojourn is short; always under the limit alone.
    #[inline(always)]
    fn is_short(&self, now: u64) -> bool
        ensures { result ≡ head_is_short self.now.discipline now self.now.waiting }
    {
        match self.discipline {
            Discipline::TailDrop => true,
            Discipline::ControlledDelay { target, interval } => {
                stays_short(&self.tail, Times { target, interval }, now)
            }
        }
    }

    // Dequeues an item at a time (ns) at which `drops_none` is true. Does not allocate.
    #[tactic(auto, using(crate::proofs::Later::later_gives))]
    #[inline(always)]
    fn dequeue_plainly(&mut self, now: u64) -> Option<Queued<A>>
        requires { is_plain self.old.discipline self.old.control now self.old.waiting ≡ true }
        ensures given { IsDequeue now [] result self.old self.new }
        ensures same { self.new
            ≡ record self.old { control = self.new.control; waiting = self.new.waiting } }
    {
        if let Discipline::ControlledDelay { .. } = self.discipline {
            let short = self.is_short(now);
            self.control.give_head(short, now);
        }
        self.tail.dequeue()
    }

    // Dequeues an item like `dequeue`, and judges the head and the items behind it.
    #[inline(never)]
    fn dequeue_long(&mut self, now: u64) -> Result<Dequeued<A>, AllocError>
        requires early { IsMoment now }
        ensures ok { IfOk result
            (λ d. IsDequeue now d.dropped.items d.given self.old self.new) }
        ensures same { self.new
            ≡ record self.old { control = self.new.control; waiting = self.new.waiting } }
        ensures unchanged { OnErr result (self.new ≡ self.old) }
        ensures no_drop { let q = self.old in
            (dequeue q.discipline now q.control q.waiting).dropped ≡ [] → IsOk result }
    {
        let DropPlan { drops, control } = plan_drops(
            &self.tail,
            self.discipline,
            self.control,
            now,
        );
        let mut dropped = Vec::with_capacity(self.tail.allocator(), drops)?;
        self.tail.take_into(drops, &mut dropped);
        let given = self.tail.dequeue();
        self.control = control;
        Ok(Dequeued { dropped, given })
    }

    /// Updates CoDel's state for an item that arrives at `now` (ns) while nothing waits, and is
    /// served at once.
    #[inline(always)]
    pub fn pass(&mut self, now: u64)
        ensures { self.new ≡ passed now self.old }
    {
        if let Discipline::ControlledDelay { .. } = self.discipline {
            self.control.rest();
        }
    }

    /// Removes the head, without the discipline. Does not allocate.
    pub fn take(&mut self) -> Option<Queued<A>>
        ensures given { MatchOption result (self.old.waiting ≡ [])
            (λ w. self.old.waiting ≡ w ∷ self.new.waiting) }
        ensures rest { self.new ≡ record self.old { waiting = drop 1 self.old.waiting } }
    {
        self.tail.dequeue()
    }

    /// Returns the number of items that wait.
    #[inline(always)]
    pub fn waiting(&self) -> usize
        ensures waiting { result ≡ length self.now.waiting }
        ensures fits { result < 2 ^ 63 }
    {
        self.tail.waiting()
    }

    /// Returns the bytes of the items that wait.
    pub fn bytes(&self) -> u64
        ensures bytes { result ≡ bytes_of self.now.waiting }
        ensures few { result ≤ 1500000 }
    {
        self.tail.bytes()
    }

    /// Changes the limit and the discipline. Keeps the items; keeps CoDel's state if the discipline
    /// and its times are unchanged.
    pub fn configure(&mut self, limit: QueueLimit, discipline: Discipline)
        ensures { self.new ≡ record self.old {
          limit = limit;
          discipline = discipline;
          control = configured_control self.old.discipline discipline self.old.control;
        } }
    {
        let is_same = self.discipline == discipline;
        self.tail.set_limit(limit);
        self.discipline = discipline;
        if !is_same {
            self.control = CodelState::new();
        }
    }
}

impl<A: Copy> Queue<A> {
    /// Returns the item that waits at a place, the head at 0.
    pub fn at(&self, place: usize) -> Option<A>
        ensures { result ≡ slice_get (map (λ w. w.item) self.now.waiting) place }
    {
        self.tail.at(place)
    }

    /// Replaces the item at a place, the head at 0. Nothing else changes. Does not allocate.
    pub fn replace(&mut self, place: usize, item: A)
        requires { place < length self.old.waiting }
        ensures { self.new ≡ record self.old { waiting = with_item self.old.waiting place item } }
    {
        self.tail.replace(place, item);
    }
}
