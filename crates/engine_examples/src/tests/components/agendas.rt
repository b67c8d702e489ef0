//! Event queues, with orders and times chosen by hand.

use crate::tests::wants::assert_same;
use emu_model::{Class, Source};
use std::alloc::{AllocError, Global};
use timer_wheel::*;

// Times in increasing order; the last is the latest that a shard uses.
const DUES: [u64; 7] = [
    0,
    255,
    256,
    65_535,
    65_536,
    4_294_967_296,
    4_613_686_018_427_387_904,
];

fn expiry(number: u32) -> Source {
    Source {
        class: Class::Expiry,
        number,
    }
}

// Schedules a source at a time that isn't before the clock.
fn put<A: Agenda>(
    agenda: &mut A,
    owner: Owner,
    source: Source,
    due: u64,
) -> Result<(), AllocError> {
    if due < agenda.clock() {
        return Ok(());
    }
    agenda.set(owner, source, due)
}

// Schedules a source, and retries once if an allocation fails. The second try must succeed.
fn puts<A: Agenda>(agenda: &mut A, owner: Owner, source: Source, due: u64) -> bool {
    put(agenda, owner, source, due).is_ok() || put(agenda, owner, source, due).is_ok()
}

// Pops the first entry, and returns its due, owner, class and number. The clock must have moved to
// its due before.
fn pop<A: Agenda>(agenda: &mut A) -> Option<(u64, Owner, u8, u32)> {
    let least = agenda.move_to_least()?;
    if agenda.clock() != least.due {
        return None;
    }
    let entry = agenda.pop_least()?;
    if entry.due != least.due || entry.owner != least.owner || entry.source != least.source {
        return None;
    }
    Some((
        entry.due,
        entry.owner,
        entry.source.class as u8,
        entry.source.number,
    ))
}

// Schedules all times in decreasing order, with increasing numbers, and pops them in increasing
// order.
fn falls_and_rises<A: Agenda>(agenda: &mut A) -> bool {
    let mut number = 0;
    for due in DUES.iter().rev() {
        if !puts(agenda, 0, expiry(number), *due) {
            return false;
        }
        number = 7u32.min(number.saturating_add(1));
    }
    let mut number = 7u32;
    for due in DUES.iter() {
        number = number.saturating_sub(1);
        if pop(agenda) != Some((*due, 0, 3, number)) || agenda.clock() != *due {
            return false;
        }
    }
    pop(agenda) == None
}

// Checks that entries with the same due, three owners and two sources of one of them, are popped by
// owner, class and number.
fn ties<A: Agenda>(agenda: &mut A) -> bool {
    let finish = Source {
        class: Class::Finish,
        number: 7,
    };
    for (owner, source) in [
        (2, expiry(4)),
        (1, expiry(9)),
        (0, expiry(1)),
        (1, expiry(5)),
        (1, finish),
    ] {
        if !puts(agenda, owner, source, 256) {
            return false;
        }
    }
    for popped in [
        Some((256, 0, 3, 1)),
        Some((256, 1, 2, 7)),
        Some((256, 1, 3, 5)),
        Some((256, 1, 3, 9)),
        Some((256, 2, 3, 4)),
        None,
    ] {
        if pop(agenda) != popped {
            return false;
        }
    }
    true
}

// Checks that a new due replaces the old one, and that the dues of an owner, one due, and all dues
// can be removed.
fn replaces_and_clears<A: Agenda>(agenda: &mut A) -> bool {
    for (owner, number, due) in [(0, 1, 900), (0, 1, 70), (0, 2, 60), (1, 2, 50), (1, 3, 40)] {
        if !puts(agenda, owner, expiry(number), due) {
            return false;
        }
    }
    agenda.clear_owner(1);
    agenda.clear(0, expiry(2));
    agenda.clear(0, expiry(9));
    let first = pop(agenda) == Some((70, 0, 3, 1)) && pop(agenda) == None;
    let clock = agenda.clock();
    let again = puts(agenda, 3, expiry(1), 300) && puts(agenda, 2, expiry(1), 80);
    agenda.rewind();
    let rewound = agenda.clock() == 0 && pop(agenda) == Some((80, 2, 3, 1));
    agenda.restart();
    let empty = agenda.clock() == 0 && pop(agenda) == None;
    first && clock == 70 && again && rewound && empty
}

// Checks that a failed call changes nothing. Passes with ample memory, and if any one of its
// allocations fails.
fn refused_changes_nothing<A: Agenda>(agenda: &mut A) -> bool {
    for number in 0..40 {
        if !puts(agenda, 0, expiry(number), 300) {
            return false;
        }
    }
    for number in 0..40 {
        if pop(agenda) != Some((300, 0, 3, number)) {
            return false;
        }
    }
    pop(agenda) == None
}

// Checks that a source keeps its due if scheduling a new one fails.
fn refused_keeps_the_due<A: Agenda>(agenda: &mut A) -> bool {
    if !puts(agenda, 4, expiry(6), 65_536) {
        return false;
    }
    let due = match put(agenda, 4, expiry(6), 255) {
        Ok(()) => 255,
        Err(_) => 65_536,
    };
    pop(agenda) == Some((due, 4, 3, 6)) && pop(agenda) == None
}

// Creates an event queue, and retries once if an allocation fails.
fn new_agenda<A: Agenda>(alloc: Global, clock: u64) -> Option<A> {
    match A::new(alloc, clock).ok() {
        Some(agenda) => Some(agenda),
        None => A::new(alloc, clock).ok(),
    }
}

// Runs all checks on new event queues of one kind, and returns the first that failed. Each queue is
// dropped by a call, because each place where one may be dropped is proved with all its parts.
fn fault_of<A: Agenda + Drop>(alloc: Global) -> Option<&'static str> {
    for (name, clock) in [
        ("rising order", 0),
        ("ties", 256),
        ("ties from 0 on", 0),
        ("ties from 1 on", 1),
        ("ties from 255 on", 255),
        ("replaced and cleared", 5),
        ("refused", 0),
        ("refused replacement", 0),
    ] {
        let Some(mut agenda) = new_agenda::<A>(alloc, clock) else {
            return Some("no agenda");
        };
        let passed = match name {
            "rising order" => falls_and_rises(&mut agenda),
            "replaced and cleared" => replaces_and_clears(&mut agenda),
            "refused" => refused_changes_nothing(&mut agenda),
            "refused replacement" => refused_keeps_the_due(&mut agenda),
            _ => ties(&mut agenda),
        };
        drop(agenda);
        if !passed {
            return Some(name);
        }
    }
    None
}

#[test]
fn a_list_in_order_and_refused(rt: HostRuntime) {
    assert_same(&rt, fault_of::<ListAgenda>(rt.alloc()), None);
}

#[test]
fn a_wheel_in_order_and_refused(rt: HostRuntime) {
    assert_same(&rt, fault_of::<Wheel>(rt.alloc()), None);
}

// Checks that two event queues agree during a walk of 500 insertions, with numbers from a Lehmer
// generator (multiplier 48271, modulus 2^31 - 1), and in what is left afterwards.
fn answer_alike<A: Agenda, B: Agenda>(one: &mut A, other: &mut B) -> bool {
    let mut word = 1u64;
    for _ in 0..500 {
        word = word % 2_147_483_647 * 48_271 % 2_147_483_647;
        let owner = (word % 5) as usize;
        let source = expiry((word / 5 % 7) as u32);
        let step = word % 9 * (word / 35 % 9000);
        let due = other.clock().saturating_add(step << (word / 7 % 4 * 12));
        if put(one, owner, source, due).is_err() || put(other, owner, source, due).is_err() {
            return false;
        }
        if word % 3 == 0 && pop(one) != pop(other) {
            return false;
        }
        if word % 11 == 0 {
            one.clear(owner, expiry(2));
            other.clear(owner, expiry(2));
        }
        if word % 97 == 0 {
            one.clear_owner(owner);
            other.clear_owner(owner);
        }
    }
    for _ in 0..36 {
        if pop(one) != pop(other) {
            return false;
        }
    }
    pop(one) == None
}

fn kinds_answer_alike<A: Agenda + Drop, B: Agenda + Drop>(alloc: Global) -> bool {
    let Some(mut one) = new_agenda::<A>(alloc, 0) else {
        return false;
    };
    let alike = match new_agenda::<B>(alloc, 0) {
        Some(mut other) => {
            let alike = answer_alike(&mut one, &mut other);
            drop(other);
            alike
        }
        None => false,
    };
    drop(one);
    alike
}

#[test]
fn wheel_answers_as_the_list(rt: HostRuntime) {
    assert_holds!(&rt; kinds_answer_alike::<Wheel, ListAgenda>(rt.alloc()));
}

// Adds more entries to one slot than the stack could hold if there was a call for each.
fn takes_many<A: Agenda>(agenda: &mut A) -> bool {
    for number in 0..200_000 {
        if put(agenda, 0, expiry(number), 4_294_967_296).is_err() {
            return false;
        }
    }
    true
}

fn drops_a_long_slot<A: Agenda + Drop>(alloc: Global) -> bool {
    let Some(mut agenda) = new_agenda::<A>(alloc, 0) else {
        return false;
    };
    let first = takes_many(&mut agenda);
    agenda.restart();
    let second = takes_many(&mut agenda);
    drop(agenda);
    first && second
}

#[test]
fn wheel_drops_a_long_slot(rt: HostRuntime) {
    assert_holds!(&rt; drops_a_long_slot::<Wheel>(rt.alloc()));
}
