//! Laws about what an experiment holds, and what it records.

ghost use Rattle.emu_laws.specs.NumberBounds.{NumbersAreBounded};
ghost use Rattle.emu_laws.specs.WorkBound.{HeldWithinBudget, RecordsAreBounded};

/// In every state of every run, no more packets wait, are in service or are in flight than the
/// budget allows.
pub fn held_within_budget()
    ensures { HeldWithinBudget }
{}

/// A step makes at most six records, and after n steps an experiment has made at most 6 * n,
/// counting the packets that it holds, but not the lines of `show` and `pipe show`.
pub fn records_are_bounded()
    ensures { RecordsAreBounded }
{}

/// In every run, no record is later than the latest command, a step creates at most one packet,
/// and records name only packets that were created: so with commands at 10^15 ns at the latest and
/// a budget of at most 10^7 steps, each time has 63 bits and each number of a packet 32.
pub fn numbers_are_bounded()
    ensures { NumbersAreBounded }
{}
