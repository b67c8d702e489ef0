//! Laws about drops: a packet that is dropped has a cause.

ghost use Rattle.emu_laws.specs.CodelCauses.{CodelDropsByControl, DropsAfterInterval};
ghost use Rattle.emu_laws.specs.LossCauses.{FullAtLimit, LostBelowRate};
ghost use Rattle.emu_laws.specs.Losses.{AcksPassTheBudget, NothingIsLost, CodelDropsNothing, NoQueueIsFull, RoomDropsNothing, NothingGoesWithPipes, PipesDropNothing};
ghost use Rattle.emu_laws.specs.RunCauses.{DropsHaveCauses};

use emu_model::laws;

/// A packet that arrives at a pipe is dropped as full only if it and the packets that wait in its
/// instance would exceed the limit (ipfw(8), queue).
pub fn full_at_limit()
    ensures { FullAtLimit }
{}

/// A packet that arrives at a pipe is lost only if its loss word is below the pipe's loss rate
/// (ipfw(8), plr).
pub fn lost_below_rate()
    ensures { LostBelowRate }
{}

/// CoDel drops only packets at the head, each of which has waited for at least the target and has
/// more than one maximum-size packet behind it, and only once the times have been reached that
/// CoDel set when the sojourn time rose above the target and, while it drops, for the next drop
/// (RFC 8289, sections 5.5 and 5.6).
pub fn codel_drops_by_control()
    ensures { CodelDropsByControl }
{}

/// CoDel drops only if each packet that it has dequeued since a time one interval ago had waited
/// for at least the target (RFC 8289, section 5.6).
pub fn drops_after_interval()
    ensures { DropsAfterInterval }
{}

/// In each step of every run, each drop that is recorded has its cause in the state before the
/// step: the rules deny the packet, or send it into a pipe that doesn't exist, has no instance for
/// it, has a loss word below its rate or a queue at its limit; or CoDel may drop it, its pipe is
/// deleted, or the budget is used up.
pub fn drops_have_causes()
    ensures { DropsHaveCauses }
{}

/// In runs in which each `config` sets loss rate 0, nothing is lost (ipfw(8), plr).
pub fn nothing_is_lost()
    ensures { NothingIsLost }
{}

/// In runs in which each `config` sets drop-tail, CoDel drops nothing.
pub fn codel_drops_nothing()
    ensures { CodelDropsNothing }
{}

/// In runs in which each `config` sets as many slots as packets may be held, nothing is dropped at
/// a full queue (ipfw(8), queue).
pub fn no_queue_is_full()
    ensures { NoQueueIsFull }
{}

/// In runs in which each queue has, in each state, room for each packet that is held or may be
/// created, nothing is dropped at a full queue (ipfw(8), queue).
pub fn room_drops_nothing()
    ensures { RoomDropsNothing }
{}

/// In runs in which no pipe is deleted, nothing is dropped with its pipe.
pub fn nothing_goes_with_pipes()
    ensures { NothingGoesWithPipes }
{}

/// In every run, no acknowledgement is dropped because of the budget: the segment that it
/// acknowledges has left.
pub fn acks_pass_the_budget()
    ensures { AcksPassTheBudget }
{}

/// In runs in which each `config` sets loss rate 0 and drop-tail, no pipe is deleted and no queue
/// was full, each packet created is delivered or held, once, unless a rule denies it, it finds no
/// pipe or no instance, or it exceeds the budget.
pub fn pipes_drop_nothing()
    ensures { PipesDropNothing }
{
    laws::each_packet_once();
}
