//! Retransmission timeouts: fixed, or from round-trip times (RFC 6298).

ghost use Rattle.std.specs.Prelude.{◌≡◌, ◌*◌, ◌^◌, ◌<◌, ◌≤◌, option_map};
ghost use Rattle.emu_model.specs.Moments.{IsMoment};
ghost use Rattle.emu_model.specs.Reno.{most_rto, new_estimate, estimated_timeout};
ghost use Rattle.reno_core.specs.States.{estimate_of};
ghost use Rattle.reno_core.specs.Sound.{IsEstimate};

use emu_model::Timeout;

const NANOSECONDS_PER_MILLISECOND: u64 = 1_000_000;

/// The RTO before a round trip was measured, in nanoseconds (RFC 6298, section 2.1).
pub(crate) const FIRST_RTO: u64 = 1_000_000_000;

/// The minimum of adaptive timeouts, in nanoseconds (RFC 6298, section 2.4).
pub(crate) const LEAST_RTO: u64 = 1_000_000_000;

/// The maximum of retransmission timeouts, in nanoseconds (RFC 6298, section 2.5).
pub(crate) const MAX_RTO: u64 = 60_000_000_000;

/// A segment whose acknowledgement is timed: its end, and the time (ns) at which it was sent.
#[derive(Clone, Copy)]
pub(crate) struct Sample {
    pub(crate) end: u64,
    pub(crate) sent: u64,
}

/// The estimate of the round-trip time from the samples so far, in nanoseconds (RFC 6298, section
/// 2).
#[derive(Clone, Copy)]
pub(crate) struct Estimate {
    pub(crate) srtt: u64,
    pub(crate) rttvar: u64,
}

impl Estimate {
    /// Returns the estimate after a round trip; quotients are rounded down (sections 2.2 and 2.3).
    pub(crate) fn after(round_trip: u64, before: Option<Estimate>) -> Self
        requires trip { IsMoment round_trip }
        requires before { IsEstimate (option_map estimate_of before) }
        ensures { estimate_of result ≡ new_estimate round_trip (option_map estimate_of before) }
    {
        match before {
            None => Estimate {
                srtt: round_trip,
                rttvar: round_trip / 2,
            },
            Some(Estimate { srtt, rttvar }) => Estimate {
                srtt: (7 * srtt + round_trip) / 8,
                rttvar: (3 * rttvar + srtt.abs_diff(round_trip)) / 4,
            },
        }
    }

    /// Returns the timeout (ns), with a granularity of 1 ns.
    pub(crate) fn timeout(self) -> u64
        requires srtt { IsMoment self.srtt }
        requires rttvar { IsMoment self.rttvar }
        ensures { result ≡ estimated_timeout (estimate_of self) }
    {
        let time = self.srtt + (4 * self.rttvar).max(1);
        time.max(LEAST_RTO).min(MAX_RTO)
    }
}

/// Converts a fixed timeout to nanoseconds.
pub(crate) fn nanoseconds(time: Timeout) -> u64
    ensures value { result ≡ time * 10 ^ 6 }
    ensures least { 1000000 ≤ result }
    ensures most { result ≤ most_rto }
{
    u64::from(time.get()) * NANOSECONDS_PER_MILLISECOND
}
