//! Laws about the packets that wait in a pipe.

ghost use Rattle.emu_laws.specs.NeverIdle.{NeverIdle};
ghost use Rattle.emu_laws.specs.QueueBound.{QueuesAreBounded};
ghost use Rattle.emu_laws.specs.QueueTurn.{QueueIsServedInTurn};
ghost use Rattle.emu_laws.specs.WaitBound.{WaitIsBounded};

/// In every state of every run, an instance in which packets wait has a packet in service.
pub fn never_idle()
    ensures { NeverIdle }
{}

/// If each command that configures a pipe sets at most n slots, at most n packets wait in each of
/// its instances in every state; if each sets at most n KBytes, at most n * 1024 bytes wait.
pub fn queues_are_bounded()
    ensures { QueuesAreBounded }
{}

/// A packet that arrives finishes within the transmission time of the packet in service and of all
/// that wait, itself included, if none is dropped on the way and no `config` ends the busy period.
pub fn wait_is_bounded()
    ensures { WaitIsBounded }
{}

/// The packets that wait in a drop-tail queue finish in order, as packets of the busy period of the
/// one in service.
pub fn queue_is_served_in_turn()
    ensures { QueueIsServedInTurn }
{}
