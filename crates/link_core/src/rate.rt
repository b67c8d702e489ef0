//! A rate server (our choice): each busy period is rounded up once, as a whole.

ghost use Rattle.std.specs.Prelude.{◌≡◌, ℕ, ◌*◌, ◌^◌, ◌<◌, Some, None, option_map};
ghost use Rattle.std.specs.Option.{ForSome};
ghost use Rattle.emu_model.specs.Moments.{IsMoment};
ghost use Rattle.emu_model.specs.Rate.{begin, follow, cut_period};
ghost use Rattle.link_core.specs.Server.{period_at};
ghost use Rattle.link_core.specs.Served.{period_of, Tells};

use emu_model::{Bandwidth, Size};
use std::marker::Model;

/// The time of one byte at one bit per second: 8 bits, in nanoseconds.
const BYTE_WORK: u64 = 8_000_000_000;

/// A busy period: its start, the bytes served in it, including the packet in service, and the time
/// that they reach, in whole nanoseconds and a remainder below the rate.
#[derive(Clone, Copy)]
struct Busy {
    start: u64,
    sum: u64,
    reached: u64,
    left_over: u64,
}

impl Busy {
    /// Creates a period in which nothing has been served.
    #[inline(always)]
    fn at(start: u64) -> Self
        ensures period { period_of result ≡ period_at start }
        ensures tells { (bw : ℕ) → Tells bw result }
    {
        Busy {
            start,
            sum: 0,
            reached: start,
            left_over: 0,
        }
    }

    /// Returns the finish, rounded up to a whole nanosecond.
    #[inline(always)]
    fn finish(self) -> u64
        requires { (period_of self).finish < 2 ^ 64 }
        ensures { result ≡ (period_of self).finish }
    {
        self.reached + self.left_over.min(1)
    }

    /// Returns the period with one more packet, whose work includes the remainder.
    #[inline(always)]
    fn with_packet(self, bw: Bandwidth, size: Size) -> Self
        requires tells { Tells bw self }
        requires early { IsMoment (period_of self).finish }
        ensures period { period_of result ≡ follow bw size (period_of self) }
        ensures tells { Tells bw result }
    {
        let rate = bw.get();
        if rate == 0 {
            return self;
        }
        let size = u64::from(size.get());
        let work = BYTE_WORK * size + self.left_over;
        Busy {
            start: self.start,
            sum: self.sum + size,
            reached: self.reached + work / rate,
            left_over: work % rate,
        }
    }
}

/// A server that serves one packet after the other at a rate. The finishes of a busy period are
/// computed from its summed bytes, so rounding errors don't add up; a step divides the work of one
/// packet only.
#[derive(Drop)]
pub struct RateServer {
    bw: Bandwidth,
    busy: Option<Busy>,
}

impl Model for RateServer {
    ghost use Rattle.std.specs.Prelude.{option_map};
    ghost use Rattle.link_core.specs.Server.{Server};

    ghost Value = { Server };

    ghost use Rattle.link_core.specs.Served.{period_of, TellsIfBusy};

    ghost view = { λ s. record { bw = s.bw; busy = option_map period_of s.busy } };

    ghost invariant = { λ s. TellsIfBusy s.bw s.busy };
}

impl RateServer {
    /// Creates an idle server.
    pub fn new(bw: Bandwidth) -> Self
        ensures { result ≡ record { bw = bw; busy = None } }
    {
        RateServer { bw, busy: None }
    }

    /// Starts a busy period at `now` (ns) with a packet.
    #[inline(always)]
    pub fn start(&mut self, now: u64, size: Size)
        requires early { IsMoment now }
        ensures { self.new ≡ record self.old { busy = Some (begin self.old.bw now size) } }
    {
        self.busy = Some(Busy::at(now).with_packet(self.bw, size));
    }

    /// Starts the service of the next packet at the finish of the one before. Does nothing if the
    /// server is idle.
    #[inline(always)]
    pub fn follow(&mut self, size: Size)
        requires { ForSome self.old.busy (λ p. IsMoment p.finish) }
        ensures { self.new
            ≡ record self.old { busy = option_map (follow self.old.bw size) self.old.busy } }
    {
        if let Some(busy) = self.busy {
            self.busy = Some(busy.with_packet(self.bw, size));
        }
    }

    /// Ends the busy period.
    pub fn rest(&mut self)
        ensures { self.new ≡ record self.old { busy = None } }
    {
        self.busy = None;
    }

    /// Changes the rate. A packet in service keeps its finish, and the next one starts a new busy
    /// period there.
    pub fn configure(&mut self, bw: Bandwidth)
        ensures { self.new ≡ record { bw = bw; busy = option_map cut_period self.old.busy } }
    {
        self.bw = bw;
        if let Some(busy) = self.busy {
            self.busy = Some(Busy::at(busy.finish()));
        }
    }

    /// Returns the finish (ns) of the packet in service.
    #[inline(always)]
    pub fn due(&self) -> Option<u64>
        ensures { result ≡ option_map (λ p. p.finish) self.now.busy }
    {
        self.busy.map(|busy| busy.finish())
    }
}
