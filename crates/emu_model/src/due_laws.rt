//! The laws about the times of dues, each stated as the contract of a function with an empty body,
//! so that the checker proves it.

ghost use Rattle.emu_model.specs.DueLaws.{DuesStayAhead, DuesStayBelow};

/// No due of an experiment, and no remaining command, is before the time of its last event.
pub fn dues_stay_ahead()
    ensures { DuesStayAhead }
{}

/// If the commands are in range and at times of at most 10^15 ns, all dues of an experiment are
/// before 2 * 10^15 ns.
pub fn dues_stay_below()
    ensures { DuesStayBelow }
{}
