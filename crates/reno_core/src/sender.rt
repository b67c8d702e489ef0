//! A Reno sender.

ghost use Rattle.std.specs.Prelude.{◌≡◌, ◌+◌, ◌%◌, ◌<◌, true};
ghost use Rattle.emu_model.specs.Moments.{IsMoment};
ghost use Rattle.emu_model.specs.Reno.{total_bytes, initial_sender, ack, expire, emit, emitted, may_emit};
ghost use Rattle.reno_core.specs.Sound.{IsSound};

use crate::state::State;
use emu_model::FlowSpec;
use std::marker::Model;

/// A sender of a flow's segments by RFC 5681, with a fixed retransmission timeout or those of RFC
/// 6298. Positions and windows are in bytes, times in nanoseconds. Does not allocate.
#[derive(Drop)]
pub struct Sender {
    flow: FlowSpec,
    state: State,
}

impl Model for Sender {
    ghost use Rattle.reno_core.specs.Sending.{Sending};

    ghost Value = { Sending };

    ghost use Rattle.reno_core.specs.States.{sender_of};
    ghost use Rattle.reno_core.specs.Sound.{IsSound};

    ghost view = { λ s. record { flow = s.flow; sender = sender_of s.state } };

    ghost invariant = { λ s. IsSound s.flow (sender_of s.state) };
}

impl Sender {
    /// Creates a sender that has sent nothing.
    pub fn new(flow: FlowSpec) -> Self
        ensures { result ≡ record { flow = flow; sender = initial_sender flow } }
    {
        let state = State::new(&flow);
        Sender { flow, state }
    }

    /// Returns the flow whose segments the sender sends.
    pub fn flow(&self) -> FlowSpec
        ensures flow { result ≡ self.now.flow }
        ensures sound { IsSound self.now.flow self.now.sender }
    {
        self.flow
    }

    /// Returns a reference to the flow.
    #[inline(always)]
    pub fn flow_ref(&self) -> &FlowSpec
        ensures flow { result.now ≡ self.now.flow }
    {
        &self.flow
    }

    /// Processes an acknowledgement of all bytes below `upto` at `now`.
    #[inline(always)]
    pub fn ack(&mut self, now: u64, upto: u64)
        requires early { IsMoment now }
        ensures { self.new
            ≡ record self.old { sender = ack self.old.flow now upto self.old.sender } }
    {
        self.state.ack(&self.flow, now, upto);
    }

    /// Processes the expiry of the timer at `now`.
    pub fn expire(&mut self, now: u64)
        requires early { IsMoment now }
        ensures { self.new
            ≡ record self.old { sender = expire self.old.flow now self.old.sender } }
    {
        self.state.expire(&self.flow, now);
    }

    /// Sends one segment at `now`, and returns its first byte.
    #[inline(always)]
    pub fn emit(&mut self, now: u64) -> u64
        requires early { IsMoment now }
        requires may { may_emit self.old.flow self.old.sender ≡ true }
        ensures sender { self.new
            ≡ record self.old { sender = emit self.old.flow now self.old.sender } }
        ensures first { result ≡ emitted self.old.sender }
        ensures whole { result % self.old.flow.smss ≡ 0 }
        ensures within { result < total_bytes self.old.flow }
    {
        self.state.emit(&self.flow, now)
    }

    /// Returns true if a segment may be sent now: a retransmission, or one that the windows allow.
    #[inline(always)]
    pub fn may_emit(&self) -> bool
        ensures { result ≡ may_emit self.now.flow self.now.sender }
    {
        self.state.resend || self.state.has_room(&self.flow)
    }

    /// Returns the time (ns) at which the timer is due, if it is running.
    #[inline(always)]
    pub fn due(&self) -> Option<u64>
        ensures { result ≡ self.now.sender.timer }
    {
        self.state.timer
    }

    /// Returns the congestion window in bytes.
    #[inline(always)]
    pub fn cwnd(&self) -> u64
        ensures { result ≡ self.now.sender.cwnd }
    {
        self.state.cwnd
    }

    /// Returns the slow start threshold in bytes.
    #[inline(always)]
    pub fn ssthresh(&self) -> u64
        ensures { result ≡ self.now.sender.ssthresh }
    {
        self.state.ssthresh
    }
}
