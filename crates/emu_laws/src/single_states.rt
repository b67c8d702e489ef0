//! Laws about single states: the byte that a receiver misses, the numbers of instances, the first
//! due, and two runs of CoDel.

ghost use Rattle.emu_laws.specs.Missing.{MissingIsLeast};
ghost use Rattle.emu_laws.specs.InstanceNumbers.{NumbersCountIdentifiers};
ghost use Rattle.emu_laws.specs.LeastDue.{LeastDueIsLeast};
ghost use Rattle.emu_laws.specs.CodelRuns.{DroppingEndsInTime};
ghost use Rattle.emu_laws.specs.BoundsMet.{BoundsAreMet, SearchGoesAllWays};

/// A receiver acknowledges the smallest byte that has not arrived, and every whole segment below it
/// has arrived (RFC 5681, section 4.2: the next byte that is expected).
pub fn missing_is_least()
    ensures { MissingIsLeast }
{}

/// The number of an instance is the number of different identifiers that arrived before the first
/// packet with its own (our choice).
pub fn numbers_count_identifiers()
    ensures { NumbersCountIdentifiers }
{}

/// No due is before the earliest due, which is one of them (our choice).
pub fn least_due_is_least()
    ensures { LeastDueIsLeast }
{}

/// In two runs with a target of 5 ms and an interval of 100 ms, dropping ends as soon as one packet
/// is left behind the head, and the second drop follows the control law (RFC 8289, section 5.5).
pub fn dropping_ends_in_time()
    ensures { DroppingEndsInTime }
{}

/// The bounds of ten laws are reached by examples, so none of these laws holds with a tighter one:
/// `held_within_budget`, `records_are_bounded` (in a step), `flight_fits_window`,
/// `new_data_fits_windows`, `too_small_window_sends_nothing`, `rate_is_kept`, `wait_is_bounded`,
/// `deliveries_wait`, `codel_drops_by_control` and `drops_after_interval` (our choice).
pub fn bounds_are_met()
    ensures { BoundsAreMet }
{}

/// In one search a rule counts, one jumps, one doesn't match, and one allows, which ends the search
/// (ipfw(8)).
pub fn search_goes_all_ways()
    ensures { SearchGoesAllWays }
{}
