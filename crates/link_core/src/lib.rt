//! The parts that make a link slow: a server that sends at a rate, and a line that delays (our
//! choice).
#![tactic(auto)]

mod delay;
mod link_laws;
mod rate;

pub use delay::DelayLine;
pub use link_laws::{configuration_begins_anew, periods_are_rounded_once};
pub use rate::RateServer;
