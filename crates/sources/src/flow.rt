//! A flow: its sender and its receiver.

ghost use Rattle.std.specs.Prelude.{◌≡◌, ◌+◌, ◌*◌, ◌<◌, ◌≤◌, ◌++◌, option_to_list, true, OnOk, IfSome, IfNone, OnErr};
ghost use Rattle.emu_model.specs.Moments.{IsMoment};
ghost use Rattle.emu_model.specs.Dues.{flow_dues};
ghost use Rattle.emu_model.specs.Net.{Net, put_flow, note, data_send, ack_send, take_ack};
ghost use Rattle.emu_model.specs.Reno.{emit, emitted, expire, with_segment, missing};
ghost use Rattle.emu_model.specs.declared.records.Record.TheVariants.{AckTaken};
ghost use Rattle.sources.specs.Kept.{opened_flow};
ghost use Rattle.sources.specs.Leaves.{expiry_due, emission_due};
ghost use Rattle.sources.specs.Sends.{may_send};

use crate::sends::{Sending, Window};
use due_index::DueNumber;
use emu_model::{FlowNumber, FlowSpec, Origin, Protocol, SendSpec, Size, Source};
use reno_core::{Receiver, Sender};
use std::alloc::{AllocError, Global};
use std::marker::Model;
use unchecked::unreachable_unchecked;

/// The size (bytes) of a header, and of an acknowledgement (our choice).
const HEADER: u16 = 40;

#[derive(Drop)]
pub(crate) struct Flow {
    number: FlowNumber,
    sender: Sender,
    receiver: Receiver,
    stopped: bool,
}

/// The dues of a flow: its timer, and a segment that it may send.
#[derive(Clone, Copy)]
pub(crate) struct FlowDues {
    pub(crate) expiry: DueNumber,
    pub(crate) emission: DueNumber,
}

impl Model for Flow {
    ghost use Rattle.std.specs.Prelude.{◌≡◌};
    ghost use Rattle.sources.specs.Kept.{KeptFlow};

    ghost Value = { KeptFlow };

    ghost view = { λ f. record {
      state = record {
        number = f.number;
        flow = f.sender.flow;
        sender = f.sender.sender;
        stopped = f.stopped;
        came = f.receiver.came;
      };
      room = f.receiver.room;
    } };

    ghost invariant = { λ f. f.receiver.smss ≡ f.sender.flow.smss };
}

impl Flow {
    /// Creates a flow that has sent nothing. Does not allocate.
    pub(crate) fn new(alloc: Global, number: FlowNumber, flow: &FlowSpec) -> Self
        ensures { result.state ≡ opened_flow number flow.now }
    {
        Flow {
            number,
            sender: Sender::new(*flow),
            receiver: Receiver::new(alloc, flow.smss),
            stopped: false,
        }
    }

    /// Returns the flow's number.
    #[inline(always)]
    pub(crate) fn number(&self) -> FlowNumber
        ensures { result ≡ self.now.state.number }
    {
        self.number
    }

    /// Stops the sender: it sends no more segments, and ignores acknowledgements.
    pub(crate) fn stop(&mut self)
        ensures { self.new ≡ record self.old { state = record self.old.state { stopped = true } } }
    {
        self.stopped = true;
    }

    /// Returns the header of the flow's segments.
    #[inline(always)]
    pub(crate) fn send(&self) -> SendSpec
        ensures { result ≡ data_send self.now.state.flow }
    {
        let flow = self.sender.flow_ref();
        let Some(size) = Size::new(flow.smss.get() + HEADER) else {
            unreachable_unchecked!()
        };
        SendSpec {
            proto: Protocol::Tcp,
            src: flow.src,
            sport: flow.sport,
            dst: flow.dst,
            dport: flow.dport,
            size,
        }
    }

    /// Returns the header of the flow's acknowledgements.
    #[inline(always)]
    pub(crate) fn reply(&self) -> SendSpec
        ensures { result ≡ ack_send self.now.state.flow }
    {
        let flow = self.sender.flow_ref();
        let Some(size) = Size::new(HEADER) else {
            unreachable_unchecked!()
        };
        SendSpec {
            proto: Protocol::Tcp,
            src: flow.dst,
            sport: flow.dport,
            dst: flow.src,
            dport: flow.sport,
            size,
        }
    }

    /// Sends one segment at `now` (ns), and returns its origin.
    #[inline(always)]
    pub(crate) fn emit(&mut self, now: u64) -> Origin
        requires early { IsMoment now }
        requires may { may_send self.old.state ≡ true }
        ensures flow { let f = self.old.state in
            self.new ≡ record self.old { state = record f { sender = emit f.flow now f.sender } } }
        ensures result { let f = self.old.state in
            result ≡ Origin.BySender f.number (emitted f.sender) }
    {
        let first = self.sender.emit(now);
        Origin::BySender {
            flow: self.number,
            first,
        }
    }

    /// Reserves the memory for a `take` of any segment.
    #[inline(always)]
    pub(crate) fn take_ready(&mut self, first: u64) -> Result<(), AllocError>
        ensures ready { OnOk result (0 < self.new.room) }
        ensures state { self.new.state ≡ self.old.state }
        ensures grows { self.old.room ≤ self.new.room }
        ensures refused { OnErr result (self.old.room ≡ 0) }
    {
        self.receiver.take_ready(first)
    }

    /// Receives the segment that begins at byte `first`, and returns its acknowledgement.
    #[inline(always)]
    pub(crate) fn take(&mut self, first: u64) -> Sending
        requires { 0 < self.old.room }
        ensures flow { let f = self.old.state in
            self.new.state ≡ record f { came = with_segment first f.came } }
        ensures result { let f = self.old.state in
            result ≡ record {
              origin = Origin.ByReceiver f.number (missing f.flow.smss (with_segment first f.came));
              send = ack_send f.flow;
            } }
    {
        let send = self.reply();
        let Ok(upto) = self.receiver.take(first) else {
            unreachable_unchecked!()
        };
        Sending {
            origin: Origin::ByReceiver {
                flow: self.number,
                upto,
            },
            send,
        }
    }

    /// Passes an acknowledgement of all bytes below `upto` to the sender, unless the flow is
    /// stopped. Returns the sender's window after it, or None if the flow is stopped.
    #[inline(always)]
    pub(crate) fn take_ack(&mut self, now: u64, upto: u64) -> Option<Window>
        requires early { IsMoment now }
        ensures taken { IfSome result (λ w. (n : Net) → take_ack now upto n self.old.state
            ≡ note (AckTaken now self.old.state.number w.cwnd w.ssthresh)
            (put_flow self.new.state n)) }
        ensures ignored { IfNone result ((n : Net) → take_ack now upto n self.old.state ≡ n) }
        ensures same { IfNone result (self.new ≡ self.old) }
        ensures number { self.new.state.number ≡ self.old.state.number }
        ensures header { self.new.state.flow ≡ self.old.state.flow }
    {
        if !self.stopped {
            self.sender.ack(now, upto);
            return Some(self.window());
        }
        None
    }

    /// Handles the expiry of the flow's timer at `now` (ns), and returns the sender's window after
    /// it.
    pub(crate) fn expire(&mut self, now: u64) -> Window
        requires early { IsMoment now }
        ensures flow { let f = self.old.state in
            self.new
            ≡ record self.old { state = record f { sender = expire f.flow now f.sender } } }
        ensures window { result ≡ record {
          cwnd = self.new.state.sender.cwnd;
          ssthresh = self.new.state.sender.ssthresh;
        } }
    {
        self.sender.expire(now);
        self.window()
    }

    #[inline(always)]
    fn window(&self) -> Window
        ensures { result ≡ record {
          cwnd = self.now.state.sender.cwnd;
          ssthresh = self.now.state.sender.ssthresh;
        } }
    {
        Window {
            cwnd: self.sender.cwnd(),
            ssthresh: self.sender.ssthresh(),
        }
    }

    /// Returns the due of the flow's timer.
    #[inline(always)]
    pub(crate) fn timer(&self) -> DueNumber
        ensures { result ≡ expiry_due self.now.state }
    {
        if self.stopped {
            return DueNumber::none();
        }
        DueNumber::at_some(self.sender.due(), Source::expiry(self.number))
    }

    /// Returns true if the flow may send a segment now.
    #[inline(always)]
    pub(crate) fn may_send(&self) -> bool
        ensures { result ≡ may_send self.now.state }
    {
        !self.stopped && self.sender.may_emit()
    }

    /// Returns the flow's dues, given that the last event was at `clock` (ns).
    pub(crate) fn dues(&self, clock: u64) -> FlowDues
        ensures expiry { result.expiry ≡ expiry_due self.now.state }
        ensures emission { result.emission ≡ emission_due clock self.now.state }
        ensures all { option_to_list result.expiry ++ option_to_list result.emission
            ≡ flow_dues clock self.now.state }
    {
        if self.stopped {
            return FlowDues {
                expiry: DueNumber::none(),
                emission: DueNumber::none(),
            };
        }
        let expiry = DueNumber::at_some(self.sender.due(), Source::expiry(self.number));
        let emission = if self.sender.may_emit() {
            DueNumber::at(clock, Source::emission(self.number))
        } else {
            DueNumber::none()
        };
        FlowDues { expiry, emission }
    }
}
