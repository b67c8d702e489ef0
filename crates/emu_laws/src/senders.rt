//! Laws about senders: a sender respects the receiver's window, and treats as acknowledged only
//! what has arrived.

ghost use Rattle.emu_laws.specs.AckedArrived.{AckedHasArrived};
ghost use Rattle.emu_laws.specs.SenderWindow.{FlightFitsWindow, NewDataFitsWindows, DoneFlowsAreSilent, SequenceIsInOrder, TooSmallWindowSendsNothing};

/// In every state of every run, the data that a flow has sent and that is not acknowledged is at
/// most the receiver's window (RFC 5681, section 3.1).
pub fn flight_fits_window()
    ensures { FlightFitsWindow }
{}

/// A segment of new data is sent only if it ends within the smaller of cwnd and rwnd, counted from
/// the first byte that is not acknowledged (RFC 5681, section 3.1). Retransmissions after a loss
/// ignore both windows.
pub fn new_data_fits_windows()
    ensures { NewDataFitsWindows }
{}

/// A flow that is stopped, or whose bytes are all acknowledged, has no segment due.
pub fn done_flows_are_silent()
    ensures { DoneFlowsAreSilent }
{}

/// In every state of every run, the bytes that a sender treats as acknowledged have arrived at the
/// receiver, and so have those that each acknowledgement in flight covers (RFC 5681, section 4.2).
pub fn acked_has_arrived()
    ensures { AckedHasArrived }
{}

/// In every state of every run, the end of a flow's acknowledged bytes, the next byte that it sends
/// and the end of what it has ever sent are in this order, and none is beyond its data.
pub fn sequence_is_in_order()
    ensures { SequenceIsInOrder }
{}

/// A flow whose segments are larger than the receiver's window never sends.
pub fn too_small_window_sends_nothing()
    ensures { TooSmallWindowSendsNothing }
{}
