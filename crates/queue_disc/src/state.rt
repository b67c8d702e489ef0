//! CoDel's state, with one small function for each step of RFC 8289's `dequeue` (section 5.5) and
//! of its helpers (5.6).

ghost use Rattle.std.specs.Prelude.{◌≡◌, ◌+◌, ◌-◌, ◌*◌, ◌^◌, ◌<◌, ◌≤◌, ◌==◌, ◌&&◌, ◌||◌, not, nat_lt, nat_le};
ghost use Rattle.emu_model.specs.Moments.{IsMoment};
ghost use Rattle.emu_model.specs.Codel.{initial_control, count_up, enter_drop_state};
ghost use Rattle.emu_model.proofs.CodelParts.{found_by, look_empty, stop_dropping, set_next};
ghost use Rattle.queue_disc.specs.Queues.{drops_later, given};

use crate::law::control_law;
use emu_model::CodelTime;
use std::marker::Model;

/// The maximum size of a packet, in bytes: a queue with no more than that behind the head is short
/// (our choice).
const MAX_PACKET: u64 = 1500;

/// The number of intervals within which dropping counts as recent.
const RECENT_INTERVALS: u64 = 16;

#[derive(Clone, Copy)]
pub(crate) struct Times {
    pub(crate) target: CodelTime,
    pub(crate) interval: CodelTime,
}

impl Model for Times {
    ghost use Rattle.emu_model.specs.Codel.{Times as CodelTimes};

    ghost Value = { CodelTimes };

    ghost view = { λ t. record { target = t.target; interval = t.interval } };

    ghost inverse = { λ t. record { target = t.target; interval = t.interval } };
}

impl Times {
    /// Returns true if the sojourn since `stamp` is short, or no more than one maximum-size packet
    /// is left behind.
    #[inline(always)]
    pub(crate) fn is_short(self, now: u64, stamp: u64, left: u64) -> bool
        ensures { result ≡ (nat_lt (now - stamp) self.target || nat_le left 1500) }
    {
        now.saturating_sub(stamp) < self.target.get() || left <= MAX_PACKET
    }
}

/// The result of examining a head: whether it may be dropped, and the time (ns) at which its
/// sojourn has been long for an interval.
#[derive(Clone, Copy)]
pub(crate) struct Found {
    ok_to_drop: bool,
    first_above_time: u64,
}

impl Model for Found {
    ghost use Rattle.emu_model.proofs.CodelParts.{Found as CodelFound};

    ghost Value = { CodelFound };

    ghost view = { λ f. record {
      ok_to_drop = f.ok_to_drop;
      first_above_time = f.first_above_time;
    } };

    ghost inverse = { λ f. record {
      ok_to_drop = f.ok_to_drop;
      first_above_time = f.first_above_time;
    } };
}

impl Found {
    /// Returns true if the head may be dropped: its sojourn has been long for an interval.
    pub(crate) fn ok_to_drop(self) -> bool
        ensures { result ≡ self.ok_to_drop }
    {
        self.ok_to_drop
    }
}

#[derive(Clone, Copy)]
pub(crate) struct CodelState {
    first_above_time: u64,
    drop_next: u64,
    count: u32,
    last_count: u32,
    dropping: bool,
}

impl Model for CodelState {
    ghost use Rattle.emu_model.specs.Moments.{end_of_time};
    ghost use Rattle.std.specs.Prelude.{◌+◌, ◌*◌, ◌^◌, ◌≤◌};
    ghost use Rattle.emu_model.specs.Codel.{CodelState as CodelControl};

    ghost Value = { CodelControl };

    ghost view = { λ c. record {
      first_above_time = c.first_above_time;
      drop_next = c.drop_next;
      count = c.count;
      last_count = c.last_count;
      dropping = c.dropping;
    } };

    ghost invariant = { λ c. c.drop_next ≤ end_of_time + 6 * 10 ^ 10 };

    ghost inverse = { λ c. record {
      first_above_time = c.first_above_time;
      drop_next = c.drop_next;
      count = c.count;
      last_count = c.last_count;
      dropping = c.dropping;
    } };
}

impl CodelState {
    pub(crate) fn new() -> Self
        ensures { result ≡ initial_control }
    {
        CodelState {
            first_above_time: 0,
            drop_next: 0,
            count: 0,
            last_count: 0,
            dropping: false,
        }
    }

    pub(crate) fn is_dropping(self) -> bool
        ensures { result ≡ self.dropping }
    {
        self.dropping
    }

    /// Returns true if the time of the next drop has been reached.
    pub(crate) fn is_due(self, now: u64) -> bool
        ensures { result ≡ not (nat_lt now self.drop_next) }
    {
        self.drop_next <= now
    }

    /// Examines a head whose sojourn is short, or isn't (RFC 8289, section 5.6, `dodequeue`).
    pub(crate) fn examine(self, times: Times, now: u64, short: bool) -> Found
        requires early { IsMoment now }
        ensures { result ≡ found_by times now self.first_above_time short }
    {
        if short {
            return Found {
                ok_to_drop: false,
                first_above_time: 0,
            };
        }
        if self.first_above_time == 0 {
            return Found {
                ok_to_drop: false,
                first_above_time: now + times.interval.get(),
            };
        }
        Found {
            ok_to_drop: self.first_above_time <= now,
            first_above_time: self.first_above_time,
        }
    }

    /// Returns the state after a head was examined.
    pub(crate) fn look(self, found: Found) -> Self
        ensures { result ≡ record self { first_above_time = found.first_above_time } }
    {
        CodelState {
            first_above_time: found.first_above_time,
            ..self
        }
    }

    /// Returns the state after the queue was found empty.
    pub(crate) fn look_empty(self) -> Self
        ensures { result ≡ look_empty self }
    {
        CodelState {
            first_above_time: 0,
            ..self
        }
    }

    /// Updates the state after a head whose sojourn is short, or after an empty queue.
    #[inline(always)]
    pub(crate) fn rest(&mut self)
        ensures { self.new ≡ stop_dropping (look_empty self.old) }
    {
        self.first_above_time = 0;
        self.dropping = false;
    }

    /// Returns true if a head whose sojourn is long is not dropped yet: its sojourn hasn't been
    /// long for an interval, or the time of the next drop hasn't been reached. A sojourn that is
    /// long for the first time is judged by the full dequeue.
    #[inline(always)]
    pub(crate) fn drops_later(self, now: u64) -> bool
        ensures { result ≡ drops_later self now }
    {
        self.first_above_time != 0
            && (now < self.first_above_time || (self.dropping && now < self.drop_next))
    }

    /// Updates the state after a head was dequeued at `now` (ns): its sojourn is short, or it is
    /// not dropped yet.
    #[inline(always)]
    pub(crate) fn give_head(&mut self, short: bool, now: u64)
        ensures { self.new ≡ given short now self.old }
    {
        if short {
            self.rest();
        } else if now < self.first_above_time {
            self.dropping = false;
        }
    }

    pub(crate) fn stop_dropping(self) -> Self
        ensures { result ≡ stop_dropping self }
    {
        CodelState {
            dropping: false,
            ..self
        }
    }

    pub(crate) fn count_up(self) -> Self
        ensures { result ≡ count_up self }
    {
        CodelState {
            count: self.count.saturating_add(1),
            ..self
        }
    }

    /// Sets the time of the next drop after the last one.
    pub(crate) fn set_next(self, times: Times) -> Self
        requires some { 1 ≤ self.count }
        requires early { IsMoment self.drop_next }
        ensures { result ≡ set_next times self.drop_next self }
    {
        CodelState {
            drop_next: control_law(self.drop_next, self.count, times.interval),
            ..self
        }
    }

    /// Starts dropping, with a higher count if dropping ended a short while ago.
    pub(crate) fn enter_drop_state(self, times: Times, now: u64) -> Self
        requires early { IsMoment now }
        ensures { result ≡ enter_drop_state times now self }
    {
        let delta = self.count.saturating_sub(self.last_count);
        let since = now.saturating_sub(self.drop_next);
        let is_recent = since < RECENT_INTERVALS * times.interval.get();
        let count = if delta > 1 && is_recent { delta } else { 1 };
        CodelState {
            dropping: true,
            count,
            last_count: count,
            drop_next: control_law(now, count, times.interval),
            ..self
        }
    }
}
