//! A law that relates two worlds.

ghost use Rattle.world.specs.Kept.{AgreeOnNames};

use crate::world::World;
use emu_model::laws;
use timer_wheel::Agenda;

/// If two worlds gave a name the same specification, and the consumed commands of one are a prefix
/// of those of the other, the name's records are equal up to the smaller number of events, whatever
/// else was done in the worlds: the records with fewer events are a prefix of the others; after the
/// same number of events the counters are equal, too.
pub fn two_worlds<A: Agenda, B: Agenda>(one: &World<A>, other: &World<B>)
    ensures { AgreeOnNames one.now other.now }
{
    laws::records_grow();
    laws::later_commands_wait();
    let _ = &one.alloc;
    let _ = &other.alloc;
}
