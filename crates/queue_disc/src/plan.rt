//! The drops of a dequeue, planned before anything is removed.

ghost use Rattle.std.specs.Prelude.{◌≡◌, ◌+◌, ◌*◌, ◌^◌, ◌<◌, length, drop};
ghost use Rattle.emu_model.specs.Moments.{IsMoment};
ghost use Rattle.emu_model.specs.DropTail.{bytes_of};
ghost use Rattle.emu_model.specs.Codel.{codel_dequeue};
ghost use Rattle.emu_model.specs.Pipes.{dequeue};
ghost use Rattle.queue_disc.specs.Queues.{stays_short};
ghost use Rattle.queue_disc.specs.Judged.{plan_of, drops_first, drops_on};

use crate::state::{CodelState, Times};
use crate::tail::DropTail;
use emu_model::Discipline;

/// The number of drops from the head, and the state after the dequeue.
pub(crate) struct DropPlan {
    pub(crate) drops: usize,
    pub(crate) control: CodelState,
}

/// Returns true if nothing waits, or the head's sojourn is short.
#[inline(always)]
pub(crate) fn stays_short<A>(queue: &DropTail<A>, times: Times, now: u64) -> bool
    ensures { result ≡ stays_short times now queue.now.waiting }
{
    let Some(head) = queue.get(0) else {
        return true;
    };
    times.is_short(now, head.stamp, queue.bytes() - u64::from(head.size.get()))
}

pub(crate) fn plan_drops<A>(
    queue: &DropTail<A>,
    discipline: Discipline,
    control: CodelState,
    now: u64,
) -> DropPlan
    requires early { IsMoment now }
    ensures { result ≡ plan_of (dequeue discipline now control queue.now.waiting) }
{
    match discipline {
        Discipline::TailDrop => DropPlan { drops: 0, control },
        Discipline::ControlledDelay { target, interval } => {
            plan_head(queue, Times { target, interval }, control, now)
        }
    }
}

fn plan_head<A>(queue: &DropTail<A>, times: Times, control: CodelState, now: u64) -> DropPlan
    requires early { IsMoment now }
    ensures { result ≡ plan_of (codel_dequeue times now control queue.now.waiting) }
{
    let Some(head) = queue.get(0) else {
        return DropPlan {
            drops: 0,
            control: control.look_empty().stop_dropping(),
        };
    };
    let left = queue.bytes() - u64::from(head.size.get());
    let short = times.is_short(now, head.stamp, left);
    let found = control.examine(times, now, short);
    let seen = control.look(found);
    if !found.ok_to_drop() {
        return DropPlan {
            drops: 0,
            control: seen.stop_dropping(),
        };
    }
    if control.is_dropping() {
        return plan_dropping(queue, times, seen, now, left);
    }
    judge_first(queue, times, seen, now, left)
}

/// Plans the drops if the head may be dropped and dropping begins; `left` bytes are behind it.
fn judge_first<A>(
    queue: &DropTail<A>,
    times: Times,
    seen: CodelState,
    now: u64,
    left: u64,
) -> DropPlan
    requires early { IsMoment now }
    requires left { left ≡ bytes_of (drop 1 queue.now.waiting) }
    ensures { result ≡ drops_first times now seen (drop 1 queue.now.waiting) }
{
    let looked = match queue.get(1) {
        Some(next) => {
            let behind = left - u64::from(next.size.get());
            let short = times.is_short(now, next.stamp, behind);
            seen.look(seen.examine(times, now, short))
        }
        None => seen.look_empty(),
    };
    DropPlan {
        drops: 1,
        control: looked.enter_drop_state(times, now),
    }
}

/// Plans the drops if the head may be dropped, while dropping; `left` bytes are behind it.
fn plan_dropping<A>(
    queue: &DropTail<A>,
    times: Times,
    seen: CodelState,
    now: u64,
    mut left: u64,
) -> DropPlan
    requires early { IsMoment now }
    requires some { 0 < length queue.now.waiting }
    requires fits { length queue.now.waiting < 2 ^ 63 }
    requires left { left ≡ bytes_of (drop 1 queue.now.waiting) }
    ensures { result ≡ drops_on times now seen (drop 1 queue.now.waiting) }
{
    let mut control = seen;
    let mut drops = 0;
    while control.is_due(now) {
        drops += 1;
        let counted = control.count_up();
        let Some(next) = queue.get(drops) else {
            return DropPlan {
                drops,
                control: counted.look_empty().stop_dropping(),
            };
        };
        left -= u64::from(next.size.get());
        let short = times.is_short(now, next.stamp, left);
        let found = counted.examine(times, now, short);
        let looked = counted.look(found);
        if !found.ok_to_drop() {
            return DropPlan {
                drops,
                control: looked.stop_dropping(),
            };
        }
        control = looked.set_next(times);
    }
    DropPlan { drops, control }
}
