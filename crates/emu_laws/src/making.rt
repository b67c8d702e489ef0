//! Laws about creation: nothing is invented.

ghost use Rattle.emu_laws.specs.AcksAnswer.{AcksAnswerSegments};
ghost use Rattle.emu_laws.specs.AcksCounted.{AcksMatchSegments};
ghost use Rattle.emu_laws.specs.EndsHeld.{EndsWereHeld};

use emu_model::laws;

/// In every run, the record before that of an acknowledgement's creation is that of the delivery of
/// a segment of the same flow, at the same time (RFC 5681, section 4.2).
pub fn acks_answer_segments()
    ensures { AcksAnswerSegments }
{}

/// In every state, for each flow, as many acknowledgements are delivered, dropped or held as
/// segments were delivered.
pub fn acks_match_segments()
    ensures { AcksMatchSegments }
{}

/// In each step of every run, a packet that is delivered was held at the start of the step, and one
/// that is dropped was held then or is created in the step; and each ends once.
pub fn ends_were_held()
    ensures { EndsWereHeld }
{
    laws::each_packet_once();
}
