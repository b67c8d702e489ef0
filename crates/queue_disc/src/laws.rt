//! What the prover can't see by itself; a call compiles to nothing.

ghost use Rattle.queue_disc.specs.Queues.{IsLimit};

use emu_model::QueueLimit;

/// A limit has the range of its type.
pub(crate) fn limit_in_range(limit: &QueueLimit)
    ensures { IsLimit limit.now }
{
    match limit {
        QueueLimit::Slots(slots) => {
            let _ = slots.get();
        }
        QueueLimit::KBytes(kbytes) => {
            let _ = kbytes.get();
        }
    }
}
