//! A delay line (our choice): items that have finished leave after their delay, in order.

ghost use Rattle.std.specs.Prelude.{◌≡◌, ◌+◌, ◌*◌, ◌^◌, ◌<◌, ◌≤◌, length, map, slice_get, IsOk, OnOk, OnErr};
ghost use Rattle.emu_model.specs.Moments.{IsMoment, milliseconds};
ghost use Rattle.emu_model.specs.Delay.{enter, leave, empty_line, first_exit, first_item};
ghost use Rattle.link_core.specs.Flight.{with_item};

use emu_model::Delay;
use std::alloc::{AllocError, Global};
use std::collections::VecDeque;
use std::marker::Model;

const NANOSECONDS_PER_MILLISECOND: u64 = 1_000_000;

/// An item in flight, and the time (ns) at which it leaves.
#[derive(Drop)]
struct Underway<A> {
    item: A,
    exit: u64,
}

/// A line that keeps finished items until they leave: after their delay, and never before items
/// that entered earlier. Contracts see the line, and the number of entries for which there is room.
#[derive(Drop)]
pub struct DelayLine<A> {
    in_flight: VecDeque<Underway<A>>,
    last: u64,
}

impl<A> Model for DelayLine<A> {
    ghost use Rattle.std.specs.Prelude.{◌-◌};
    ghost use Rattle.std.specs.VecDeque.{deque_len, deque_capacity};
    ghost use Rattle.link_core.specs.Lane.{Lane};

    ghost Value = { Lane A };

    ghost use Rattle.link_core.specs.Flight.{flight_of};

    ghost view = { λ l. record {
      line = record { in_flight = flight_of l.in_flight.items; last = l.last };
      spare = deque_capacity l.in_flight - deque_len l.in_flight;
    } };
}

impl<A: Drop> DelayLine<A> {
    /// Creates an empty line. Does not allocate.
    pub fn new(alloc: Global) -> Self
        ensures { result.line ≡ empty_line }
    {
        DelayLine {
            in_flight: VecDeque::new(alloc),
            last: 0,
        }
    }

    /// Adds an item that finished at `finish` (ns): it leaves after its delay (ms), at least 1 ns
    /// later, and not before items that entered earlier. If allocation fails, the line is
    /// unchanged.
    #[inline(always)]
    pub fn enter(&mut self, item: A, finish: u64, delay: Delay) -> Result<(), AllocError>
        requires { IsMoment finish }
        ensures ok { OnOk result
            (self.new.line ≡ enter item finish (milliseconds delay) self.old.line) }
        ensures err { OnErr result (self.new.line ≡ self.old.line) }
        ensures succeeds { 0 < self.old.spare → IsOk result }
        ensures room { self.old.spare ≤ self.new.spare + 1 }
    {
        self.room_for_one()?;
        let wait = (u64::from(delay.get()) * NANOSECONDS_PER_MILLISECOND).max(1);
        let exit = self.last.max(finish + wait);
        self.in_flight.push_back_reserved(Underway { item, exit });
        self.last = exit;
        Ok(())
    }

    /// Reserves the memory for an `enter` with the same arguments, which then doesn't fail until
    /// another item enters.
    #[inline(always)]
    pub fn enter_ready(&mut self, _finish: u64, _delay: Delay) -> Result<(), AllocError>
        ensures ready { OnOk result (0 < self.new.spare) }
        ensures refused { OnErr result (self.old.spare ≡ 0) }
        ensures line { self.new.line ≡ self.old.line }
        ensures room { self.old.spare ≤ self.new.spare }
    {
        self.room_for_one()
    }

    // Reserves room for one more item, if there is none.
    #[inline(always)]
    fn room_for_one(&mut self) -> Result<(), AllocError>
        ensures ready { OnOk result (0 < self.new.spare) }
        ensures refused { OnErr result (self.old.spare ≡ 0) }
        ensures line { self.new.line ≡ self.old.line }
        ensures room { self.old.spare ≤ self.new.spare }
    {
        if self.in_flight.len() < self.in_flight.capacity() {
            return Ok(());
        }
        self.in_flight.reserve(1)
    }

    /// Removes the first item to leave, and returns it, or None if nothing is in flight.
    #[inline(always)]
    pub fn leave(&mut self) -> Option<A>
        ensures item { result ≡ first_item self.old.line.in_flight }
        ensures line { self.new.line ≡ leave self.old.line }
        ensures room { self.old.spare ≤ self.new.spare }
    {
        let gone = self.in_flight.pop_front()?;
        Some(gone.item)
    }

    /// Returns the time (ns) at which the first item leaves.
    #[inline(always)]
    pub fn due(&self) -> Option<u64>
        ensures { result ≡ first_exit self.now.line.in_flight }
    {
        self.in_flight.front().map(|first| first.exit)
    }

    /// Returns the number of items in flight.
    pub fn in_flight(&self) -> usize
        ensures in_flight { result ≡ length self.now.line.in_flight }
        ensures fits { result < 2 ^ 63 }
    {
        self.in_flight.len()
    }
}

impl<A: Copy> DelayLine<A> {
    /// Returns the first item to leave, without removing it.
    #[inline(always)]
    pub fn front(&self) -> Option<A>
        ensures { result ≡ first_item self.now.line.in_flight }
    {
        self.in_flight.front().map(|first| first.item)
    }

    /// Returns the item in flight at a place, the first to leave at 0.
    pub fn at(&self, place: usize) -> Option<A>
        ensures { result ≡ slice_get (map (λ x. x.item) self.now.line.in_flight) place }
    {
        match self.in_flight.get(place) {
            Some(underway) => Some(underway.item),
            None => None,
        }
    }

    /// Replaces the item at a place, the first to leave at 0. Its exit stays. Does not allocate.
    pub fn replace(&mut self, place: usize, item: A)
        requires { place < length self.old.line.in_flight }
        ensures { self.new ≡ record self.old {
          line = record self.old.line { in_flight = with_item self.old.line.in_flight place item };
        } }
    {
        self.in_flight[place].item = item;
    }
}
