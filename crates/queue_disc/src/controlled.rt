//! A queue under CoDel (RFC 8289, section 5), without other disciplines.

ghost use Rattle.std.specs.Prelude.{◌≡◌, ◌+◌, ◌*◌, ◌^◌, ◌<◌, ◌≤◌, true, false, [], ◌∷◌, ◌++◌, length, map, IfErr, IfOk, OnOk, OnErr, IsOk, slice_get};
ghost use Rattle.emu_model.specs.Moments.{IsMoment};
ghost use Rattle.emu_model.specs.DropTail.{bytes_of, accepts};
ghost use Rattle.emu_model.specs.Codel.{codel_dequeue, initial_control};
ghost use Rattle.queue_disc.specs.Queues.{with_item};

use crate::entries::{EnqueueError, Queued, Refused};
use crate::queue::{Dequeued, Queue};
use crate::tail::DropTail;
use emu_model::{CodelTime, Discipline, QueueLimit, Size};
use std::alloc::{AllocError, Global};
use std::marker::Model;

/// A queue with a limit, whose head is dropped while the packets that wait have waited for long.
#[derive(Drop)]
pub struct Codel<A> {
    pub(crate) queue: Queue<A>,
}

impl<A> Model for Codel<A> {
    ghost use Rattle.queue_disc.specs.Queues.{CodelQueue, codel_queue, IsControlled};

    ghost Value = { CodelQueue A };

    ghost view = { λ q. codel_queue q.queue };

    ghost invariant = { λ q. IsControlled q.queue.discipline };
}

impl<A> Codel<A> {
    /// Creates an empty queue in CoDel's initial state. Does not allocate. `target` and `interval`
    /// are in nanoseconds.
    pub fn new(alloc: Global, limit: QueueLimit, target: CodelTime, interval: CodelTime) -> Self
        ensures times { result.times ≡ record { target = target; interval = interval } }
        ensures limit { result.limit ≡ limit }
        ensures control { result.control ≡ initial_control }
        ensures empty { result.waiting ≡ [] }
    {
        let discipline = Discipline::ControlledDelay { target, interval };
        Codel {
            queue: Queue::new(alloc, limit, discipline),
        }
    }

    /// Appends an item of `size` bytes, stamped with `now`. On error the queue is unchanged and the
    /// item is returned: `Full` because of the limit, `NoMemory` if an allocation fails.
    pub fn enqueue(&mut self, item: A, size: Size, now: u64) -> Result<(), Refused<A>>
        ensures ok { OnOk result (self.new ≡ record self.old {
          waiting = self.old.waiting ++ record { item = item; size = size; stamp = now } ∷ [];
          capacity = self.new.capacity;
        }) }
        ensures accepted { OnOk result (accepts self.old.limit self.old.waiting size ≡ true) }
        ensures grows { self.old.capacity ≤ self.new.capacity }
        ensures in_place { OnOk result
            (length self.old.waiting < self.old.capacity → self.new.capacity ≡ self.old.capacity) }
        ensures unchanged { OnErr result (self.new ≡ self.old) }
        ensures returned { IfErr result (λ e. e.item ≡ item) }
        ensures full { IfErr result
            (λ e. e.cause ≡ EnqueueError.Full →
            accepts self.old.limit self.old.waiting size ≡ false) }
        ensures no_memory { IfErr result (λ e. e.cause ≡ EnqueueError.NoMemory →
            (accepts self.old.limit self.old.waiting size ≡ true)
            × (self.old.capacity ≤ length self.old.waiting)) }
    {
        self.queue.tail.enqueue(item, size, now)
    }

    /// Reserves the memory that `enqueue` of this item may need.
    #[inline(always)]
    pub fn enqueue_ready(&mut self, size: Size, now: u64) -> Result<(), AllocError>
        ensures ok { OnOk result (self.new ≡ record self.old { capacity = self.new.capacity }) }
        ensures room { OnOk result
            (accepts self.old.limit self.old.waiting size ≡ true →
            length self.new.waiting < self.new.capacity) }
        ensures grows { self.old.capacity ≤ self.new.capacity }
        ensures unchanged { OnErr result (self.new ≡ self.old) }
        ensures full { OnErr result
            ((accepts self.old.limit self.old.waiting size ≡ true)
            × (self.old.capacity ≤ length self.old.waiting)) }
    {
        self.queue.enqueue_ready(size, now)
    }

    /// Dequeues an item at `now`, in nanoseconds, by `dequeue` of RFC 8289 (section 5.5). Allocates
    /// only if it drops. If allocation fails, the queue is unchanged.
    #[inline(always)]
    pub fn dequeue(&mut self, now: u64) -> Result<Dequeued<A>, AllocError>
        requires early { IsMoment now }
        ensures ok { IfOk result
            (λ d. record {
              dropped = d.dropped.items;
              given = d.given;
              rest = self.new.waiting;
              control = self.new.control;
            }
            ≡ codel_dequeue self.old.times now self.old.control self.old.waiting) }
        ensures same { self.new
            ≡ record self.old { control = self.new.control; waiting = self.new.waiting } }
        ensures unchanged { OnErr result (self.new ≡ self.old) }
        ensures no_drop { let q = self.old in
            (codel_dequeue q.times now q.control q.waiting).dropped ≡ [] → IsOk result }
        ensures lone { length self.old.waiting ≤ 1 → IsOk result }
    {
        self.queue.dequeue(now)
    }

    /// Returns the number of items that wait.
    #[inline(always)]
    pub fn waiting(&self) -> usize
        ensures waiting { result ≡ length self.now.waiting }
        ensures fits { result < 2 ^ 63 }
    {
        self.queue.waiting()
    }

    /// Returns the bytes of the items that wait.
    #[inline(always)]
    pub fn bytes(&self) -> u64
        ensures bytes { result ≡ bytes_of self.now.waiting }
        ensures few { result ≤ 1500000 }
    {
        self.queue.bytes()
    }
}

impl<A: Copy> Codel<A> {
    /// Returns the item that waits at a place, the head at 0.
    pub fn at(&self, place: usize) -> Option<A>
        ensures { result ≡ slice_get (map (λ w. w.item) self.now.waiting) place }
    {
        self.queue.at(place)
    }

    /// Replaces the item at a place, the head at 0. Its size, its stamp and CoDel's state stay.
    /// Does not allocate.
    pub fn replace(&mut self, place: usize, item: A)
        requires { place < length self.old.waiting }
        ensures { self.new ≡ record self.old { waiting = with_item self.old.waiting place item } }
    {
        self.queue.replace(place, item);
    }
}
