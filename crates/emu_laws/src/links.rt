//! Laws about a pipe's delay and rate: they are the configured ones.

ghost use Rattle.emu_laws.specs.PipeDelay.{DelayIsKept, IdleTakesItsTime};
ghost use Rattle.emu_laws.specs.PipeRate.{RateIsKept};
ghost use Rattle.emu_laws.specs.ServiceMoments.{ServiceIsOnTime};

/// A packet that finishes leaves the pipe after the delay at the earliest (at least 1 ns), and
/// exactly then if no packet before it leaves later.
pub fn delay_is_kept()
    ensures { DelayIsKept }
{}

/// To pass through an idle instance, a packet takes the time of its bits at the rate, rounded up
/// once, plus the delay, exact to the nanosecond.
pub fn idle_takes_its_time()
    ensures { IdleTakesItsTime }
{}

/// In any interval of a busy period, no more bits finish than the rate allows in the interval plus
/// one nanosecond (each finish is rounded up), plus one packet.
pub fn rate_is_kept()
    ensures { RateIsKept }
{}

/// In every state of every run, the packet in service finishes when all bits of its busy period,
/// including its own, have been sent at the rate of its pipe, rounded up once.
pub fn service_is_on_time()
    ensures { ServiceIsOnTime }
{}
