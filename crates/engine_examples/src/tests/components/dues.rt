use crate::tests::wants::{assert_same, assert_with_message};
use due_index::{DueIndex, DueNumber};
use emu_model::{Class, Due, Source};
use std::process::Abort;

fn due(moment: u64, class: Class, number: u32) -> Option<Due> {
    Some(Due {
        moment,
        source: Source { class, number },
    })
}

/// Adds a place, and retries once if an allocation fails, after which the index must be unchanged.
fn pushes(rt: &impl Abort, index: &mut DueIndex, due: Option<Due>) {
    let before = index.len();
    if index.push_ready().is_err() {
        assert_with_message(rt, index.len() == before, "it has changed");
        index.push_ready().expect(rt, "memory");
    }
    index.push(DueNumber::of(due));
}

/// Sets the due at a place.
fn changes(rt: &impl Abort, index: &mut DueIndex, place: usize, due: Option<Due>) {
    assert!(rt; place < index.len(), "no such place");
    index.set(place, DueNumber::of(due));
}

fn least_is(rt: &impl Abort, index: &DueIndex, due: Option<Due>) {
    assert_holds!(rt; index.least().due() == due);
}

fn follows_each_change(rt: &impl Abort, index: &mut DueIndex) {
    least_is(rt, index, None);
    for moment in &[60, 40, 50, 20, 30, 10] {
        pushes(rt, index, due(*moment, Class::Expiry, 7));
    }
    assert_same(rt, index.len(), 6);
    for (place, moment, least) in &[
        (5, 70, 20),
        (3, 80, 30),
        (4, 90, 40),
        (0, 35, 35),
        (0, 65, 40),
        (1, 55, 50),
        (2, 52, 52),
        (2, 54, 54),
        (2, 99, 55),
    ] {
        changes(rt, index, *place, due(*moment, Class::Expiry, 7));
        least_is(rt, index, due(*least, Class::Expiry, 7));
    }
}

// Checks six sources by hand: a change of any of them is visible at once, up and down.
#[test]
fn least_follows_each_change(rt: HostRuntime) {
    let mut index = DueIndex::new(rt.alloc());
    follows_each_change(&rt, &mut index);
}

// Adds sources that are due at one time, and a last one that is due at the next.
fn ties(rt: &impl Abort, index: &mut DueIndex) {
    pushes(rt, index, due(5, Class::Emission, 1));
    pushes(rt, index, due(5, Class::Expiry, 9));
    pushes(rt, index, due(5, Class::Expiry, 4));
    pushes(rt, index, due(5, Class::Finish, 512));
    pushes(rt, index, due(5, Class::Exit, 513));
    pushes(rt, index, due(6, Class::Exit, 0));
}

fn ties_go(rt: &impl Abort, index: &mut DueIndex) {
    for (class, number, place) in &[
        (Class::Exit, 513, 4),
        (Class::Finish, 512, 3),
        (Class::Expiry, 4, 2),
        (Class::Expiry, 9, 1),
        (Class::Emission, 1, 0),
    ] {
        least_is(rt, index, due(5, *class, *number));
        changes(rt, index, *place, None);
    }
    least_is(rt, index, due(6, Class::Exit, 0));
    changes(rt, index, 5, None);
    least_is(rt, index, None);
}

// Checks that sources with the same time are ordered by class, and then by number.
#[test]
fn ties_go_by_class_and_number(rt: HostRuntime) {
    let mut index = DueIndex::new(rt.alloc());
    ties(&rt, &mut index);
    ties_go(&rt, &mut index);
}

fn some_are_empty(rt: &impl Abort, index: &mut DueIndex) {
    pushes(rt, index, None);
    pushes(rt, index, due(3, Class::Exit, 256));
    pushes(rt, index, None);
    least_is(rt, index, due(3, Class::Exit, 256));
    index.clear();
    assert_same(rt, index.len(), 0);
    least_is(rt, index, None);
    pushes(rt, index, due(8, Class::Exit, 512));
    pushes(rt, index, None);
    least_is(rt, index, due(8, Class::Exit, 512));
}

// Checks an index with places where nothing is due, and one from which all dues are gone.
#[test]
fn places_may_be_empty(rt: HostRuntime) {
    let mut index = DueIndex::new(rt.alloc());
    some_are_empty(&rt, &mut index);
}

/// Checks growth. Passes with ample memory, and if any one allocation fails.
#[test]
fn growth_may_be_refused_memory(rt: HostRuntime) {
    let mut index = DueIndex::new(rt.alloc());
    for number in 0..40 {
        let earlier = due(1000 - u64::from(number), Class::Expiry, number);
        pushes(&rt, &mut index, earlier);
        least_is(&rt, &index, earlier);
    }
}
