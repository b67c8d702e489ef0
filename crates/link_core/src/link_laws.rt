//! The laws of a link that `emu_model` doesn't have, each stated as the contract of a function with
//! an empty body, so that the checker proves it.

ghost use Rattle.link_core.specs.LinkLaws.{PeriodsAreRoundedOnce, ConfigurationBeginsAnew};

/// A busy period takes as long as its bytes take at the rate, and less than a nanosecond more.
pub fn periods_are_rounded_once()
    ensures { PeriodsAreRoundedOnce }
{}

/// After a configuration the packet in service keeps its finish, and the next packet starts a busy
/// period there.
pub fn configuration_begins_anew()
    ensures { ConfigurationBeginsAnew }
{}
