//! One instance of a pipe, which holds the keys of its packets. An arrival, a finish and an exit
//! change the keys exactly as the definitions change the packets, whatever packets the keys refer
//! to.

ghost use Rattle.std.specs.Prelude.{min, ◌≡◌, ℕ, ◌+◌, ◌-◌, ◌*◌, ◌^◌, ◌<◌, ◌≤◌, true, [], Some, None, option_map, is_some, IsSome, IsTrue, length, slice_get, slice_set, IfOk, OnOk, OnErr, IsOk, map};
ghost use Rattle.emu_model.specs.Moments.{IsMoment};
ghost use Rattle.emu_model.specs.declared.packets.Packet.{Packet};
ghost use Rattle.emu_model.specs.FlowIds.{FlowId};
ghost use Rattle.emu_model.specs.Loss.{is_lost};
ghost use Rattle.emu_model.specs.DropTail.{bytes_of, accepts};
ghost use Rattle.emu_model.specs.Delay.{leave, first_item, first_exit};
ghost use Rattle.emu_model.specs.Pipes.{dequeue, initial_instance, instance_configure};
ghost use Rattle.emu_model.specs.Commands.{shown_words};
ghost use Rattle.queue_disc.specs.Queues.{is_plain};
ghost use Rattle.pipe_core.specs.KeyedInstance.{seen_instance, keys_in, IsTuned};
ghost use Rattle.pipe_core.specs.Blanks.{blank};
ghost use Rattle.pipe_core.specs.Turns.{configured, IsAccept, IsFinish};

use crate::leftovers::Leftovers;
use crate::service::Service;
use emu_model::{Delay, LossRate, PipeConfig, PipeNumber, Size};
use link_core::DelayLine;
use loss_stream::LossStream;
use packet_store::Key;
use queue_disc::{Queue, Queued};
use std::alloc::{AllocError, Global};
use std::marker::Model;
use unchecked::unreachable_unchecked;

/// An instance of a pipe. Packets wait only while another one is in service.
#[derive(Drop)]
pub struct Instance {
    queue: Queue<Key>,
    service: Service,
    line: DelayLine<Key>,
    stream: LossStream,
}

impl Model for Instance {
    ghost use Rattle.std.specs.Prelude.{◌≡◌, [], None};
    ghost use Rattle.pipe_core.specs.KeyedInstance.{KeyedInstance};

    ghost Value = { KeyedInstance };

    ghost view = { λ i. record {
      queue = i.queue;
      service = i.service;
      delay_line = i.line;
      draws = i.stream;
    } };

    ghost invariant = { λ i. i.service.busy ≡ None → i.queue.waiting ≡ [] };
}

/// The key of the packet that finished, and the packets that CoDel dropped at that finish, in
/// order.
#[derive(Drop)]
pub struct Finished {
    pub key: Key,
    pub dropped: Vec<Queued<Key>>,
}

/// The times of an instance's next exit and next finish (ns).
#[derive(Clone, Copy, Debug, PartialEq)]
pub struct InstanceDues {
    pub exit: Option<u64>,
    pub finish: Option<u64>,
}

/// The statistics of an instance: the packets that wait, their bytes, whether a packet is in
/// service, the packets in flight, and the loss words drawn (shown as at most 2^64 - 1).
#[derive(Clone, Copy, Debug, PartialEq)]
pub struct Shown {
    pub waiting: u64,
    pub bytes: u64,
    pub busy: bool,
    pub in_flight: u64,
    pub drawn: u64,
}

impl Instance {
    /// Creates an empty instance. Does not allocate.
    pub fn new(alloc: Global, config: &PipeConfig, seed: u64, pipe: PipeNumber, number: u8) -> Self
        ensures tuned { IsTuned config.now result }
        ensures opening { (f : ℕ → Packet) (id : FlowId) →
            seen_instance f id result ≡ initial_instance id }
        ensures keys { keys_in result ≡ [] }
        ensures draws { result.draws
            ≡ record { seed = seed; pipe = pipe; instance = number; drawn = 0 } }
    {
        Instance {
            queue: Queue::new(alloc, config.queue, config.discipline),
            service: Service::new(config.bw),
            line: DelayLine::new(alloc),
            stream: LossStream::new(seed, pipe, number),
        }
    }

    /// Draws the loss word of an arriving packet, at every loss rate, and returns true if the
    /// packet is lost. The count of drawn words saturates at 2^128 - 1.
    #[inline(always)]
    pub fn lose(&mut self, plr: LossRate) -> bool
        ensures answer { let d = self.old.draws in
            result ≡ is_lost d.seed d.pipe d.instance d.drawn plr }
        ensures drawn { self.new ≡ record self.old {
          draws = record self.old.draws { drawn = min (self.old.draws.drawn + 1) (2 ^ 128 - 1) };
        } }
    {
        self.stream.lose(plr)
    }

    /// Returns true if the queue limit accepts a packet of `size` bytes.
    #[inline(always)]
    pub fn accepts(&self, size: Size) -> bool
        ensures { result ≡ accepts self.now.queue.limit self.now.queue.waiting size }
    {
        self.queue.accepts(size)
    }

    /// Reserves the memory that `accept` of this packet may need: none if no packet is in service.
    #[inline(always)]
    pub fn accept_ready(&mut self, size: Size, now: u64) -> Result<(), AllocError>
        ensures ready { OnOk result
            (accepts self.old.queue.limit self.old.queue.waiting size ≡ true →
            IsSome self.new.service.busy →
            length self.new.queue.waiting < self.new.queue.capacity) }
        ensures same { self.new
            ≡ record self.old {
              queue = record self.old.queue { capacity = self.new.queue.capacity };
            } }
        ensures grows { self.old.queue.capacity ≤ self.new.queue.capacity }
        ensures unchanged { OnErr result (self.new ≡ self.old) }
        ensures refused { OnErr result
            ((accepts self.old.queue.limit self.old.queue.waiting size ≡ true)
            × IsSome self.old.service.busy
            × (self.old.queue.capacity ≤ length self.old.queue.waiting)) }
    {
        if self.service.is_busy() {
            self.queue.enqueue_ready(size, now)
        } else {
            Ok(())
        }
    }

    /// Accepts a packet of `size` bytes at `now` (ns): starts its service if the instance is idle,
    /// otherwise enqueues it. Returns true if the packet waits. The queue limit must accept the
    /// packet.
    #[inline(always)]
    pub fn accept(&mut self, key: Key, size: Size, now: u64) -> bool
        requires early { IsMoment now }
        requires accepted { accepts self.old.queue.limit self.old.queue.waiting size ≡ true }
        requires ready { IsSome self.old.service.busy →
            length self.old.queue.waiting < self.old.queue.capacity }
        ensures came { IsAccept now key size self.old self.new }
        ensures waits { result ≡ is_some self.old.service.busy }
    {
        if self.service.is_busy() {
            self.queue.enqueue_reserved(key, size, now);
            return true;
        }
        self.queue.pass(now);
        self.service.start(key, size, now);
        false
    }

    /// Finishes the packet in service at `now` (ns), when it is due: the packet enters the delay
    /// line with this delay (ms), and the service of the next packet starts. If the caller knows
    /// that the finish is `plain` (see `drops_none`), memory is needed only if the delay line is
    /// full. Allocates before it changes anything; if allocation fails, only spare capacity
    /// changes.
    #[inline(always)]
    pub fn finish(&mut self, now: u64, delay: Delay, plain: bool) -> Result<Finished, AllocError>
        requires early { IsMoment now }
        requires due { option_map (λ s. s.period.finish) self.old.service.busy ≡ Some now }
        requires plain { IsTrue plain →
            is_plain self.old.queue.discipline self.old.queue.control now self.old.queue.waiting ≡ true }
        ensures ok { IfOk result (λ r. IsFinish now delay r.key r.dropped.items self.old self.new) }
        ensures unchanged { OnErr result
            (self.new
            ≡ record self.old { delay_line = record self.old.delay_line { spare = self.new.delay_line.spare } }) }
        ensures succeeds { let q = self.old.queue in
            0 < self.old.delay_line.spare →
            (dequeue q.discipline now q.control q.waiting).dropped ≡ [] → IsOk result }
        ensures plainly { IsTrue plain → 0 < self.old.delay_line.spare → IsOk result }
        ensures none { IsTrue plain → IfOk result (λ r. r.dropped.items ≡ []) }
    {
        let Some(key) = self.service.key() else {
            unreachable_unchecked!();
        };
        self.line.enter_ready(now, delay)?;
        let dequeued = self.queue.dequeue_knowing(now, plain)?;
        let Ok(()) = self.line.enter(key, now, delay) else {
            unreachable_unchecked!();
        };
        self.service.follow(dequeued.given);
        Ok(Finished {
            key,
            dropped: dequeued.dropped,
        })
    }

    /// Returns true if a finish at `now` (ns) is certain to drop nothing.
    #[inline(always)]
    pub fn drops_none(&self, now: u64) -> bool
        ensures plain { result ≡ is_plain self.now.queue.discipline self.now.queue.control now self.now.queue.waiting }
        ensures none { let q = self.now.queue in
            IsTrue result → (dequeue q.discipline now q.control q.waiting).dropped ≡ [] }
    {
        self.queue.drops_none(now)
    }

    /// Returns true if a packet is in service.
    #[inline(always)]
    pub fn is_busy(&self) -> bool
        ensures { result ≡ is_some self.now.service.busy }
    {
        self.service.is_busy()
    }

    /// Returns the number of packets that wait.
    #[inline(always)]
    pub fn waiting(&self) -> usize
        ensures { result ≡ length self.now.queue.waiting }
    {
        self.queue.waiting()
    }

    /// Returns the key of the next packet to leave, without removing it, or None if nothing is in
    /// flight.
    #[inline(always)]
    pub fn front(&self) -> Option<Key>
        ensures { result ≡ first_item self.now.delay_line.line.in_flight }
    {
        self.line.front()
    }

    /// Removes the key of the next packet to leave, and returns it, or None if nothing is in
    /// flight.
    #[inline(always)]
    pub fn exit(&mut self) -> Option<Key>
        ensures item { result ≡ first_item self.old.delay_line.line.in_flight }
        ensures rest { self.new
            ≡ record self.old {
              delay_line = record {
                line = leave self.old.delay_line.line;
                spare = self.new.delay_line.spare;
              };
            } }
        ensures room { self.old.delay_line.spare ≤ self.new.delay_line.spare }
    {
        self.line.leave()
    }

    /// Changes the configuration. Drops nothing. The packet in service keeps its finish, and its
    /// busy period ends there. CoDel's state is reset if the discipline or CoDel's times change.
    /// Does not allocate.
    pub fn configure(&mut self, old: &PipeConfig, new: &PipeConfig)
        requires { IsTuned old.now self.old }
        ensures exact { self.new ≡ configured old.now new.now self.old }
        ensures tuned { IsTuned new.now self.new }
        ensures shown { (f : ℕ → Packet) (id : FlowId) →
            seen_instance f id self.new
            ≡ instance_configure old.now new.now (seen_instance f id self.old) }
        ensures keys { keys_in self.new ≡ keys_in self.old }
    {
        self.queue.configure(new.queue, new.discipline);
        self.service.configure(new.bw);
    }

    /// Returns the number of keys that the instance holds.
    pub fn key_count(&self) -> usize
        ensures { result ≡ length (keys_in self.now) }
    {
        let moving = self.line.in_flight() + usize::from(self.service.is_busy());
        moving + self.queue.waiting()
    }

    /// Returns the key at a place, in this order: in flight, in service, waiting.
    pub fn key_at(&self, place: usize) -> Option<Key>
        ensures { result ≡ slice_get (keys_in self.now) place }
    {
        let in_flight = self.line.in_flight();
        if place < in_flight {
            return self.line.at(place);
        }
        let behind = place - in_flight;
        match self.service.key() {
            Some(key) => {
                if behind == 0 {
                    return Some(key);
                }
                self.queue.at(behind - 1)
            }
            None => self.queue.at(behind),
        }
    }

    /// Replaces the key at a place, in the order of `key_at`. Nothing else changes. Does not
    /// allocate.
    pub fn replace_key(&mut self, place: usize, key: Key)
        requires { place < length (keys_in self.old) }
        ensures keys { keys_in self.new ≡ slice_set (keys_in self.old) place key }
        ensures blank { blank self.new ≡ blank self.old }
    {
        let in_flight = self.line.in_flight();
        if place < in_flight {
            self.line.replace(place, key);
            return;
        }
        let behind = place - in_flight;
        if !self.service.is_busy() {
            self.queue.replace(behind, key);
            return;
        }
        if behind == 0 {
            self.service.replace(key);
            return;
        }
        self.queue.replace(behind - 1, key);
    }

    /// Converts the instance into an iterator over its keys, in this order: in flight, in service,
    /// waiting.
    pub fn into_leftovers(self) -> Leftovers
        ensures { result ≡ keys_in self }
    {
        let Instance {
            queue,
            service,
            line,
            stream: _,
        } = self;
        Leftovers::new(line, service.key(), queue)
    }

    /// Returns the times of the next exit and the next finish (ns).
    #[inline(always)]
    pub fn dues(&self) -> InstanceDues
        ensures exit { result.exit ≡ first_exit self.now.delay_line.line.in_flight }
        ensures finish { result.finish ≡ option_map (λ s. s.period.finish) self.now.service.busy }
    {
        InstanceDues {
            exit: self.line.due(),
            finish: self.service.due(),
        }
    }

    /// Returns the statistics for a listing.
    pub fn shown(&self) -> Shown
        ensures { result ≡ record {
          waiting = length self.now.queue.waiting;
          bytes = bytes_of self.now.queue.waiting;
          busy = is_some self.now.service.busy;
          in_flight = length self.now.delay_line.line.in_flight;
          drawn = shown_words self.now.draws.drawn;
        } }
    {
        Shown {
            waiting: self.queue.waiting() as u64,
            bytes: self.queue.bytes(),
            busy: self.service.is_busy(),
            in_flight: self.line.in_flight() as u64,
            drawn: u64::try_from(self.stream.drawn()).unwrap_or(u64::MAX),
        }
    }
}
