//! Laws about whole runs: when the instances act, and what the records say together.

ghost use Rattle.emu_laws.specs.DeliveryDelay.{DeliveriesWait};
ghost use Rattle.emu_laws.specs.RecordOrder.{RecordsAreInOrder};
ghost use Rattle.emu_laws.specs.Isolation.{MomentsAreTheirOwn};

use emu_model::laws;

/// In a run a packet finishes in an instance, and the first one in flight leaves it, exactly when
/// the instance's own state says so: the times of its events don't depend on anything else either.
pub fn moments_are_their_own()
    ensures { MomentsAreTheirOwn }
{
    laws::dues_differ();
}

/// If the times of the commands don't decrease, the records of a run are in the order of their
/// times.
pub fn records_are_in_order()
    ensures { RecordsAreInOrder }
{
    laws::dues_stay_ahead();
}

/// If, in addition, each `config` of a pipe sets at least a given delay, each packet that finishes
/// in the pipe is delivered no sooner than after that delay, and after at least 1 ns.
pub fn deliveries_wait()
    ensures { DeliveriesWait }
{
    laws::dues_stay_ahead();
    laws::dues_differ();
    laws::each_packet_once();
}
