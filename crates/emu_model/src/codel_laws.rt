//! The laws of CoDel's dropping state, each stated as the contract of a function with an empty
//! body, so that the checker proves it.

ghost use Rattle.emu_model.specs.CodelLaws.{DropsAreOnTime, DroppingBeginsWithOne, ReentryGoesOn};

/// While CoDel is dropping, each drop happens at the time of the control law (RFC 8289, section
/// 5.6).
pub fn drops_are_on_time()
    ensures { DropsAreOnTime }
{}

/// Dropping begins with one packet (RFC 8289, section 5.5).
pub fn dropping_begins_with_one()
    ensures { DroppingBeginsWithOne }
{}

/// Dropping that begins again soon continues at the rate that was reached (RFC 8289, section 5.5).
pub fn reentry_goes_on()
    ensures { ReentryGoesOn }
{}
