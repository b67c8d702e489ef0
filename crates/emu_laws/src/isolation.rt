//! Laws about isolation: no instance sees the events at another.

ghost use Rattle.emu_laws.specs.ExitLines.{ExitsAreRecorded};
ghost use Rattle.emu_laws.specs.RunHistories.{StepsAreHistories, RunsAreHistories};
ghost use Rattle.emu_laws.specs.Isolation.{OthersDoNotInterfere, SameEventsSameState, InstancesAreIsolated};

/// An event at another instance leaves this one unchanged: its pipe's configuration, its queue, the
/// packet in service, its delay line, CoDel's state and its loss stream.
pub fn others_do_not_interfere()
    ensures { OthersDoNotInterfere }
{}

/// If an instance has the same state in two nets with the same seed, an event at it leaves it in
/// the same state in both, and the same packets finish, leave and are dropped there.
pub fn same_events_same_state()
    ensures { SameEventsSameState }
{}

/// If an instance sees the same events in two histories, from the same state on, it ends in the
/// same state, and the same was recorded of it in the same order, whatever happened at other
/// instances.
pub fn instances_are_isolated()
    ensures { InstancesAreIsolated }
{}

/// Each step of a run changes the pipes by a history of events, which has all packets that finish
/// in pipes in that step or are dropped by them.
pub fn steps_are_histories()
    ensures { StepsAreHistories }
{}

/// The whole run does so too, in every state, starting without pipes: what is stated about
/// histories holds for runs.
pub fn runs_are_histories()
    ensures { RunsAreHistories }
{}

/// The first record of an exit from an instance is about the packet that leaves it: it is delivered
/// or, if `one_pass` is 0, passes on.
pub fn exits_are_recorded()
    ensures { ExitsAreRecorded }
{}
