//! Drop-tail (ipfw(8), queue): a limit, the items that wait, and the sum of their bytes.

ghost use Rattle.std.specs.Prelude.{◌≡◌, ◌+◌, ◌-◌, ◌*◌, ◌^◌, ◌<◌, ◌≤◌, true, false, [], ◌∷◌, ◌++◌, length, map, drop, IfErr, OnOk, OnErr, IsTrue, MatchOption, slice_get, take, vec_len, vec_capacity};
ghost use Rattle.emu_model.specs.DropTail.{bytes_of, accepts};
ghost use Rattle.queue_disc.specs.Queues.{with_item, IsLimit};

use crate::entries::{EnqueueError, Queued, Refused};
use crate::laws;
use emu_model::{QueueLimit, Size};
use std::alloc::{AllocError, Global};
use std::collections::VecDeque;
use std::marker::Model;

/// The number of places of the first allocation.
const LEAST_GROWTH: usize = 4;

/// A queue with a limit, first in first out.
#[derive(Drop)]
pub struct DropTail<A> {
    limit: QueueLimit,
    waiting: VecDeque<Queued<A>>,
    bytes: u64,
}

impl<A> Model for DropTail<A> {
    ghost use Rattle.std.specs.Prelude.{◌≡◌, ◌≤◌};
    ghost use Rattle.std.specs.VecDeque.{deque_capacity};
    ghost use Rattle.queue_disc.specs.Queues.{TailQueue, IsCounted, IsLimit};

    ghost Value = { TailQueue A };

    ghost view = { λ q. record {
      limit = q.limit;
      waiting = q.waiting.items;
      capacity = deque_capacity q.waiting;
    } };

    ghost invariant = { λ q. IsCounted q.bytes q.waiting.items × IsLimit q.limit };
}

impl<A> DropTail<A> {
    /// Creates an empty queue. Does not allocate.
    pub fn new(alloc: Global, limit: QueueLimit) -> Self
        ensures limit { result.limit ≡ limit }
        ensures empty { result.waiting ≡ [] }
    {
        laws::limit_in_range(&limit);
        DropTail {
            limit,
            waiting: VecDeque::new(alloc),
            bytes: 0,
        }
    }

    /// Appends an item of `size` bytes, stamped with `now`. On error the queue is unchanged and the
    /// item is returned: `Full` because of the limit, `NoMemory` if an allocation fails.
    pub fn enqueue(&mut self, item: A, size: Size, now: u64) -> Result<(), Refused<A>>
        ensures ok { OnOk result (self.new ≡ record self.old {
          waiting = self.old.waiting ++ record { item = item; size = size; stamp = now } ∷ [];
          capacity = self.new.capacity;
        }) }
        ensures accepted { OnOk result (accepts self.old.limit self.old.waiting size ≡ true) }
        ensures grows { self.old.capacity ≤ self.new.capacity }
        ensures in_place { OnOk result
            (length self.old.waiting < self.old.capacity → self.new.capacity ≡ self.old.capacity) }
        ensures unchanged { OnErr result (self.new ≡ self.old) }
        ensures returned { IfErr result (λ e. e.item ≡ item) }
        ensures full { IfErr result
            (λ e. e.cause ≡ EnqueueError.Full →
            accepts self.old.limit self.old.waiting size ≡ false) }
        ensures no_memory { IfErr result (λ e. e.cause ≡ EnqueueError.NoMemory →
            (accepts self.old.limit self.old.waiting size ≡ true)
            × (self.old.capacity ≤ length self.old.waiting)) }
    {
        if !self.accepts(size) {
            return Err(Refused {
                item,
                cause: EnqueueError::Full,
            });
        }
        let Ok(()) = self.reserve() else {
            return Err(Refused {
                item,
                cause: EnqueueError::NoMemory,
            });
        };
        self.enqueue_reserved(item, size, now);
        Ok(())
    }

    /// Appends an item like `enqueue`; the limit must accept it, and there must be room. Does not
    /// allocate.
    #[inline(always)]
    pub fn enqueue_reserved(&mut self, item: A, size: Size, now: u64)
        requires accepted { accepts self.old.limit self.old.waiting size ≡ true }
        requires room { length self.old.waiting < self.old.capacity }
        ensures { self.new
            ≡ record self.old {
              waiting = self.old.waiting
                  ++ record { item = item; size = size; stamp = now } ∷ [];
            } }
    {
        self.bytes += u64::from(size.get());
        self.waiting.push_back_reserved(Queued {
            item,
            size,
            stamp: now,
        });
    }

    /// Removes the head, and returns it. Does not allocate.
    #[inline(always)]
    pub fn dequeue(&mut self) -> Option<Queued<A>>
        ensures given { MatchOption result (self.old.waiting ≡ [])
            (λ w. self.old.waiting ≡ w ∷ self.new.waiting) }
        ensures rest { self.new ≡ record self.old { waiting = drop 1 self.old.waiting } }
    {
        let head = self.waiting.pop_front()?;
        self.bytes -= u64::from(head.size.get());
        Some(head)
    }

    /// Returns the number of items that wait.
    #[inline(always)]
    pub fn waiting(&self) -> usize
        ensures waiting { result ≡ length self.now.waiting }
        ensures fits { result < 2 ^ 63 }
    {
        self.waiting.len()
    }

    /// Returns the bytes of the items that wait.
    #[inline(always)]
    pub fn bytes(&self) -> u64
        ensures bytes { result ≡ bytes_of self.now.waiting }
        ensures few { result ≤ 1500000 }
    {
        self.bytes
    }

    /// Returns true if the limit accepts another item of `size` bytes.
    #[inline(always)]
    pub fn accepts(&self, size: Size) -> bool
        ensures value { result ≡ accepts self.now.limit self.now.waiting size }
        ensures few { IsTrue result → bytes_of self.now.waiting + size ≤ 1500000 }
    {
        match self.limit {
            QueueLimit::Slots(slots) => self.waiting.len() < usize::from(slots.get()),
            QueueLimit::KBytes(kbytes) => {
                self.bytes + u64::from(size.get()) <= 1024 * u64::from(kbytes.get())
            }
        }
    }

    /// Changes the limit. Keeps the items, even if they exceed the limit.
    pub fn set_limit(&mut self, limit: QueueLimit)
        ensures { self.new ≡ record self.old { limit = limit } }
    {
        laws::limit_in_range(&limit);
        self.limit = limit;
    }

    /// Returns the item that waits at a place with its size and stamp, the head at 0.
    #[inline(always)]
    pub(crate) fn get(&self, index: usize) -> Option<&Queued<A>>
        ensures item { MatchOption result (drop index self.now.waiting ≡ [])
            (λ w. drop index self.now.waiting ≡ w.now ∷ drop (index + 1) self.now.waiting) }
        ensures fits { length self.now.waiting < 2 ^ 63 }
    {
        self.waiting.get(index)
    }

    /// Moves `count` items from the head to the end of a list that has room for them.
    pub(crate) fn take_into(&mut self, count: usize, list: &mut Vec<Queued<A>>)
        requires enough { count ≤ length self.old.waiting }
        requires room { vec_len list.old + count ≤ vec_capacity list.old }
        ensures taken { list.new.items ≡ list.old.items ++ take count self.old.waiting }
        ensures rest { self.new ≡ record self.old { waiting = drop count self.old.waiting } }
    {
        for _ in 0..count {
            if let Some(head) = self.dequeue() {
                list.push_reserved(head);
            }
        }
    }

    pub(crate) fn allocator(&self) -> Global {
        *self.waiting.allocator()
    }

    /// Reserves room for one more item: doubles the number of places if none is free.
    #[inline(always)]
    pub(crate) fn reserve(&mut self) -> Result<(), AllocError>
        ensures ok { OnOk result (self.new ≡ record self.old { capacity = self.new.capacity }) }
        ensures room { OnOk result (length self.new.waiting < self.new.capacity) }
        ensures grows { self.old.capacity ≤ self.new.capacity }
        ensures in_place { length self.old.waiting < self.old.capacity → self.new ≡ self.old }
        ensures unchanged { OnErr result (self.new ≡ self.old) }
        ensures full { OnErr result (self.old.capacity ≤ length self.old.waiting) }
    {
        if self.waiting.len() < self.waiting.capacity() {
            return Ok(());
        }
        self.grow()
    }

    /// Doubles the number of places.
    #[inline(never)]
    fn grow(&mut self) -> Result<(), AllocError>
        ensures ok { OnOk result (self.new ≡ record self.old { capacity = self.new.capacity }) }
        ensures room { OnOk result (length self.new.waiting < self.new.capacity) }
        ensures grows { self.old.capacity ≤ self.new.capacity }
        ensures unchanged { OnErr result (self.new ≡ self.old) }
    {
        match self
            .waiting
            .reserve_exact(self.waiting.len().max(LEAST_GROWTH))
        {
            Ok(()) => Ok(()),
            Err(_) => Err(AllocError),
        }
    }
}

impl<A: Copy> DropTail<A> {
    /// Returns the item that waits at a place, the head at 0.
    pub fn at(&self, place: usize) -> Option<A>
        ensures { result ≡ slice_get (map (λ w. w.item) self.now.waiting) place }
    {
        let waiting = self.waiting.get(place)?;
        Some(waiting.item)
    }

    /// Replaces the item at a place, the head at 0. Its size and its stamp stay. Does not allocate.
    pub fn replace(&mut self, place: usize, item: A)
        requires { place < length self.old.waiting }
        ensures { self.new ≡ record self.old { waiting = with_item self.old.waiting place item } }
    {
        self.waiting[place].item = item;
    }
}
