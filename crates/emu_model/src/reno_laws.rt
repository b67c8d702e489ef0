//! The laws of a Reno sender, each stated as the contract of a function with an empty body, so that
//! the checker proves it.

ghost use Rattle.emu_model.specs.RenoLaws.{NewDataClears, NewDataSetsTimer, ExpiryClears, ExpiryBacksOff, SecondExpiryHolds, EmissionKeepsTimer, WindowGrowsBySegments, SlowStartGrows, ThirdDuplicateResends};

/// An acknowledgement of new data clears the state that a loss left (RFC 5681, sections 3.1 and
/// 3.2).
pub fn new_data_clears()
    ensures { NewDataClears }
{}

/// An acknowledgement of new data restarts the timer, or stops it if nothing is left to acknowledge
/// (RFC 6298, section 5).
pub fn new_data_sets_timer()
    ensures { NewDataSetsTimer }
{}

/// An expiry clears the state that a loss left, and restarts with one segment (RFC 5681, section
/// 3.1).
pub fn expiry_clears()
    ensures { ExpiryClears }
{}

/// An expiry starts the timer with a timeout that is no shorter (RFC 6298, section 5.5).
pub fn expiry_backs_off()
    ensures { ExpiryBacksOff }
{}

/// A second expiry in a row keeps the threshold (RFC 5681, section 3.1).
pub fn second_expiry_holds()
    ensures { SecondExpiryHolds }
{}

/// Sending leaves a running timer alone, and starts one that isn't running (RFC 6298, section 5.1).
pub fn emission_keeps_timer()
    ensures { EmissionKeepsTimer }
{}

/// Outside recovery, an acknowledgement of new data grows the window by one byte to one segment
/// (RFC 5681, section 3.1).
pub fn window_grows_by_segments()
    ensures { WindowGrowsBySegments }
{}

/// In slow start the window grows by a segment for each segment that is acknowledged (RFC 5681).
pub fn slow_start_grows()
    ensures { SlowStartGrows }
{}

/// The third duplicate acknowledgement retransmits the missing segment (RFC 5681, section 3.2).
pub fn third_duplicate_resends()
    ensures { ThirdDuplicateResends }
{}
