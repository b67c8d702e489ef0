//! The state of a sender, and its changes: one function for each rule.

ghost use Rattle.std.specs.Prelude.{◌≡◌, ◌+◌, ◌-◌, ◌*◌, ◌<◌, ◌≤◌, true, false, Some, None, option_map, min, max};
ghost use Rattle.emu_model.specs.Moments.{IsMoment};
ghost use Rattle.emu_model.specs.Reno.{initial_sender, total_bytes, has_room, halved_ssthresh, window_after, round_trip, timeout_after, sample_after, estimate_after, ack_new, ack_duplicate, enter_recovery, is_new, is_duplicate, ack, expire, emit, emitted};
ghost use Rattle.reno_core.specs.States.{sender_of, sample_of};
ghost use Rattle.reno_core.specs.Sound.{IsSound, IsFlow, IsEstimate};

use crate::times::{Estimate, FIRST_RTO, MAX_RTO, Sample, nanoseconds};
use emu_model::{FlowSpec, Timing};

/// The value at which cwnd and the count of duplicates saturate (our choice).
const MAX_WORD: u64 = 4_294_967_295;

/// The smallest segment size for which a sender begins with three segments instead of four (RFC
/// 5681, section 3.1).
const LARGE_SEGMENT: u64 = 1096;

/// The state of a sender: the bytes below `snd_una` are acknowledged, `snd_nxt` is the next byte to
/// send, and all bytes below `snd_max` were sent at least once (RFC 5681). Times are in
/// nanoseconds.
#[derive(Clone, Copy)]
pub(crate) struct State {
    pub(crate) snd_una: u64,
    pub(crate) snd_nxt: u64,
    pub(crate) snd_max: u64,
    pub(crate) cwnd: u64,
    pub(crate) ssthresh: u64,
    pub(crate) duplicates: u64,
    pub(crate) recovery: bool,
    pub(crate) resend: bool,
    // True if the last timer expired, and no new data has been acknowledged since.
    pub(crate) backed_off: bool,
    pub(crate) rto: u64,
    pub(crate) timer: Option<u64>,
    pub(crate) sample: Option<Sample>,
    pub(crate) estimate: Option<Estimate>,
}

/// Returns the size of a segment in bytes.
pub(crate) fn segment_bytes(flow: &FlowSpec) -> u64
    ensures value { result ≡ flow.now.smss }
    ensures least { 1 ≤ result }
    ensures most { result ≤ 1460 }
{
    u64::from(flow.smss.get())
}

/// Returns the size of all segments in bytes.
pub(crate) fn total_bytes(flow: &FlowSpec) -> u64
    ensures value { result ≡ total_bytes flow.now }
    ensures most { result ≤ 1460000000 }
{
    u64::from(flow.segments.get()) * segment_bytes(flow)
}

impl State {
    /// Creates the state before the first segment (RFC 5681, section 3.1).
    pub(crate) fn new(flow: &FlowSpec) -> Self
        ensures sender { sender_of result ≡ initial_sender flow.now }
        ensures flow { IsFlow flow.now }
    {
        let smss = segment_bytes(flow);
        let _total = flow.segments.get();
        State {
            snd_una: 0,
            snd_nxt: 0,
            snd_max: 0,
            cwnd: if smss < LARGE_SEGMENT {
                4 * smss
            } else {
                3 * smss
            },
            ssthresh: u64::from(flow.ssthresh.get()),
            duplicates: 0,
            recovery: false,
            resend: false,
            backed_off: false,
            rto: match flow.timing {
                Timing::Fixed(time) => nanoseconds(time),
                Timing::Adaptive => FIRST_RTO,
            },
            timer: None,
            sample: None,
            estimate: None,
        }
    }

    /// Returns true if a segment at `snd_nxt` is left to send, and fits the smaller of both
    /// windows.
    #[inline(always)]
    pub(crate) fn has_room(&self, flow: &FlowSpec) -> bool
        requires { IsSound flow.now (sender_of self.now) }
        ensures { result ≡ has_room flow.now (sender_of self.now) }
    {
        let window = self.cwnd.min(u64::from(flow.rwnd.get()));
        self.snd_nxt < total_bytes(flow)
            && self.snd_nxt + segment_bytes(flow) - self.snd_una <= window
    }

    /// Returns half of the data in flight, but at least two segments (RFC 5681, equation 4).
    fn halved_ssthresh(&self, flow: &FlowSpec) -> u64
        requires { self.now.snd_una ≤ self.now.snd_max }
        ensures { result ≡ halved_ssthresh flow.now (sender_of self.now) }
    {
        ((self.snd_max - self.snd_una) / 2).max(2 * segment_bytes(flow))
    }

    /// Returns the window after an acknowledgement of `count` new bytes: at the end of recovery, in
    /// slow start, or in congestion avoidance (RFC 5681, sections 3.1 and 3.2).
    fn window_after(&self, flow: &FlowSpec, count: u64) -> u64
        requires { IsSound flow.now (sender_of self.now) }
        ensures { result ≡ window_after flow.now count (sender_of self.now) }
    {
        if self.recovery {
            return self.ssthresh;
        }
        let smss = segment_bytes(flow);
        if self.cwnd < self.ssthresh {
            return (self.cwnd + count.min(smss)).min(MAX_WORD);
        }
        (self.cwnd + (smss * smss / self.cwnd).max(1)).min(MAX_WORD)
    }

    /// Returns the round-trip time that an acknowledgement of all bytes below `upto` completes, if
    /// any.
    #[inline(always)]
    fn round_trip(&self, now: u64, upto: u64) -> Option<u64>
        ensures { result ≡ round_trip now upto (option_map sample_of self.now.sample) }
    {
        match self.sample {
            Some(sample) if sample.end <= upto => Some(now.saturating_sub(sample.sent)),
            _ => None,
        }
    }

    /// Completes a sample, and sets the timeout after an acknowledgement of new data: the fixed
    /// one, or a new estimate.
    #[inline(always)]
    fn take_round_trip(&mut self, flow: &FlowSpec, now: u64, upto: u64)
        requires early { IsMoment now }
        requires estimate { IsEstimate (sender_of self.old).estimate }
        ensures { let r = round_trip now upto (sender_of self.old).sample in
            sender_of self.new ≡ record (sender_of self.old) {
              rto = timeout_after flow.now.timing r (sender_of self.old);
              sample = sample_after r (sender_of self.old).sample;
              estimate = estimate_after r (sender_of self.old).estimate;
            } }
    {
        if let Some(time) = self.round_trip(now, upto) {
            let estimate = Estimate::after(time, self.estimate);
            self.sample = None;
            self.estimate = Some(estimate);
            self.rto = estimate.timeout();
        }
        if let Timing::Fixed(time) = flow.timing {
            self.rto = nanoseconds(time);
        }
    }

    /// Processes an acknowledgement of new data (RFC 5681, sections 3.1 and 3.2; RFC 6298, 5.2 and
    /// 5.3).
    #[inline(always)]
    fn ack_new(&mut self, flow: &FlowSpec, now: u64, upto: u64)
        requires early { IsMoment now }
        requires sound { IsSound flow.now (sender_of self.old) }
        requires new { is_new flow.now upto (sender_of self.old) ≡ true }
        ensures { sender_of self.new ≡ ack_new flow.now now upto (sender_of self.old) }
    {
        self.cwnd = self.window_after(flow, upto - self.snd_una);
        self.take_round_trip(flow, now, upto);
        self.snd_una = upto;
        self.snd_nxt = self.snd_nxt.max(upto);
        self.duplicates = 0;
        self.recovery = false;
        self.resend = false;
        self.backed_off = false;
        self.timer = if upto < self.snd_max {
            Some(now + self.rto)
        } else {
            None
        };
    }

    /// Enters recovery at the third duplicate, to retransmit the segment at `snd_una` (RFC 5681,
    /// section 3.2, steps 2 and 3).
    fn enter_recovery(&mut self, flow: &FlowSpec)
        requires sound { IsSound flow.now (sender_of self.old) }
        ensures { sender_of self.new ≡ enter_recovery flow.now (sender_of self.old) }
    {
        self.ssthresh = self.halved_ssthresh(flow);
        self.cwnd = (self.ssthresh + 3 * segment_bytes(flow)).min(MAX_WORD);
        self.resend = true;
        self.recovery = true;
        self.sample = None;
    }

    /// Counts a duplicate, which inflates the window in recovery (RFC 5681, section 3.2, step 4).
    fn ack_duplicate(&mut self, flow: &FlowSpec)
        requires sound { IsSound flow.now (sender_of self.old) }
        ensures { sender_of self.new ≡ ack_duplicate flow.now (sender_of self.old) }
    {
        self.duplicates = (self.duplicates + 1).min(MAX_WORD);
        if self.recovery {
            self.cwnd = (self.cwnd + segment_bytes(flow)).min(MAX_WORD);
        } else if self.duplicates == 3 {
            self.enter_recovery(flow);
        }
    }

    #[inline(always)]
    fn is_new(&self, flow: &FlowSpec, upto: u64) -> bool
        ensures { result ≡ is_new flow.now upto (sender_of self.now) }
    {
        self.snd_una < upto && upto <= self.snd_max && upto % segment_bytes(flow) == 0
    }

    #[inline(always)]
    fn is_duplicate(&self, upto: u64) -> bool
        ensures { result ≡ is_duplicate upto (sender_of self.now) }
    {
        upto == self.snd_una && self.snd_una < self.snd_max
    }

    /// Processes an acknowledgement of all bytes below `upto`. One that is neither of new data nor
    /// a duplicate changes nothing.
    #[inline(always)]
    pub(crate) fn ack(&mut self, flow: &FlowSpec, now: u64, upto: u64)
        requires early { IsMoment now }
        requires sound { IsSound flow.now (sender_of self.old) }
        ensures { sender_of self.new ≡ ack flow.now now upto (sender_of self.old) }
    {
        if self.is_new(flow, upto) {
            self.ack_new(flow, now, upto);
        } else if self.is_duplicate(upto) {
            self.ack_duplicate(flow);
        }
    }

    /// Processes the expiry of the timer (RFC 5681, section 3.1; doubling: RFC 6298, section 5.5).
    pub(crate) fn expire(&mut self, flow: &FlowSpec, now: u64)
        requires early { IsMoment now }
        requires sound { IsSound flow.now (sender_of self.old) }
        ensures { sender_of self.new ≡ expire flow.now now (sender_of self.old) }
    {
        if !self.backed_off {
            self.ssthresh = self.halved_ssthresh(flow);
        }
        self.cwnd = segment_bytes(flow);
        self.snd_nxt = self.snd_una;
        self.duplicates = 0;
        self.recovery = false;
        self.resend = false;
        self.backed_off = true;
        self.rto = (2 * self.rto).min(MAX_RTO);
        self.timer = Some(now + self.rto);
        self.sample = None; // its segment may be sent again
    }

    /// Sends one segment, and returns its first byte.
    #[inline(always)]
    pub(crate) fn emit(&mut self, flow: &FlowSpec, now: u64) -> u64
        requires early { IsMoment now }
        requires sound { IsSound flow.now (sender_of self.old) }
        ensures sender { sender_of self.new ≡ emit flow.now now (sender_of self.old) }
        ensures first { result ≡ emitted (sender_of self.old) }
    {
        if self.timer.is_none() {
            self.timer = Some(now + self.rto);
        }
        if self.resend {
            self.resend = false;
            return self.snd_una;
        }
        let first = self.snd_nxt;
        let end = first + segment_bytes(flow);
        // A segment that was sent before is not timed (RFC 6298, section 3, Karn).
        if self.sample.is_none() && first == self.snd_max {
            self.sample = Some(Sample { end, sent: now });
        }
        self.snd_nxt = end;
        self.snd_max = self.snd_max.max(end);
        first
    }
}
