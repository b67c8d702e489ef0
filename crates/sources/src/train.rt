//! A train.

ghost use Rattle.std.specs.Prelude.{◌≡◌, ◌+◌, ◌*◌, ◌<◌, option_to_list, true};
ghost use Rattle.emu_model.specs.Moments.{IsMoment};
ghost use Rattle.emu_model.specs.Dues.{train_dues};
ghost use Rattle.sources.specs.Leaves.{packet_due};
ghost use Rattle.sources.specs.Sends.{has_left};

use due_index::DueNumber;
use emu_model::{FlowNumber, Origin, SendSpec, Source, TrainSpec};
use std::marker::Model;

/// A train, its start (ns), and the number of packets that it has sent.
#[derive(Drop)]
pub(crate) struct Train {
    number: FlowNumber,
    train: TrainSpec,
    start: u64,
    sent: u32,
}

impl Model for Train {
    ghost use Rattle.emu_model.specs.Net.{TrainState};
    ghost use Rattle.sources.specs.Kept.{IsTrain};

    ghost Value = { TrainState };

    ghost view = { λ t. record {
      number = t.number;
      train = t.train;
      start = t.start;
      sent = t.sent;
    } };

    ghost invariant = { λ t. IsTrain
        (record { number = t.number; train = t.train; start = t.start; sent = t.sent }) };
}

impl Train {
    pub(crate) fn new(number: FlowNumber, train: &TrainSpec, now: u64) -> Self
        requires early { IsMoment now }
        ensures { result ≡ record { number = number; train = train.now; start = now; sent = 0 } }
    {
        Train {
            number,
            train: *train,
            start: now,
            sent: 0,
        }
    }

    #[inline(always)]
    pub(crate) fn send(&self) -> SendSpec
        ensures { result ≡ self.now.train.packet }
    {
        self.train.packet
    }

    /// Sends one packet, and returns its origin.
    #[inline(always)]
    pub(crate) fn emit(&mut self) -> Origin
        requires { has_left self.old ≡ true }
        ensures train { self.new ≡ record self.old { sent = self.old.sent + 1 } }
        ensures result { result ≡ Origin.ByTrain self.old.number }
    {
        let _most = self.train.count.get();
        self.sent += 1;
        Origin::ByTrain(self.number)
    }

    /// Returns the due of the next packet, or none if no packet is left.
    #[inline(always)]
    pub(crate) fn due(&self) -> DueNumber
        ensures due { result ≡ packet_due self.now }
        ensures all { option_to_list result ≡ train_dues self.now }
    {
        if self.sent >= self.train.count.get() {
            return DueNumber::none();
        }
        let moment = self.start + u64::from(self.sent) * self.train.gap.get();
        DueNumber::at(moment, Source::emission(self.number))
    }
}
