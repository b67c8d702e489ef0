//! The laws of Reno, each stated as the contract of a function with an empty body, so that the
//! checker proves it.

ghost use Rattle.reno_core.specs.RenoLaws.{PositionsStayInOrder, WindowHoldsASegment, LossLeavesTwoSegments, SecondExpiryHolds, TimedIsSentOnce, AdaptiveTimeIsBounded, NumberNeverFalls, SegmentsAreASet};

/// After any history, the bytes that a sender treats as acknowledged were sent, and those that it
/// sent belong to the flow.
pub fn positions_stay_in_order()
    ensures { PositionsStayInOrder }
{}

/// After any history, the window holds at least one segment (RFC 5681, section 3.1).
pub fn window_holds_a_segment()
    ensures { WindowHoldsASegment }
{}

/// A third duplicate and a first expiry leave ssthresh at two segments or more (RFC 5681, equation
/// 4).
pub fn loss_leaves_two_segments()
    ensures { LossLeavesTwoSegments }
{}

/// A second expiry in a row keeps ssthresh (RFC 5681, section 3.1).
pub fn second_expiry_holds()
    ensures { SecondExpiryHolds }
{}

/// After any history, the segment that is timed was sent once (RFC 6298, section 3, Karn).
pub fn timed_is_sent_once()
    ensures { TimedIsSentOnce }
{}

/// After any history, an adaptive timeout is from 1 s to 60 s (RFC 6298, section 2).
pub fn adaptive_time_is_bounded()
    ensures { AdaptiveTimeIsBounded }
{}

/// A receiver never retracts an acknowledgement.
pub fn number_never_falls()
    ensures { NumberNeverFalls }
{}

/// The order in which segments arrive makes no difference, nor does a segment that arrives again.
pub fn segments_are_a_set()
    ensures { SegmentsAreASet }
{}
