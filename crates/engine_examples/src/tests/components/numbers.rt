use crate::tests::wants::{assert_same, assert_with_message};
use due_index::NumberTable;
use std::process::Abort;

/// Maps a number to a place, and retries once if an allocation fails, after which the numbers
/// around it must be unchanged.
fn leads(rt: &impl Abort, table: &mut NumberTable, number: u16, place: u16) {
    let before = around(table, number);
    if table.make_room(number).is_err() {
        assert_with_message(rt, around(table, number) == before, "it has changed");
        table.make_room(number).expect(rt, "memory");
    }
    table.set(number, usize::from(place));
}

/// Returns the places of a number and of its neighbours.
fn around(table: &NumberTable, number: u16) -> [Option<usize>; 3] {
    [
        table.get(number.saturating_sub(1)),
        table.get(number),
        table.get(number.saturating_add(1)),
    ]
}

// Checks numbers that are far apart, in no order, and the last of all.
fn numbers_lead(rt: &impl Abort, table: &mut NumberTable) {
    assert_holds!(rt; table.get(0).is_none());
    for (number, place) in &[(7, 0), (1, 1), (65535, 2), (300, 65535), (0, 4)] {
        leads(rt, table, *number, *place);
    }
    for (number, place) in &[
        (0, Some(4)),
        (1, Some(1)),
        (2, None),
        (6, None),
        (7, Some(0)),
        (8, None),
        (300, Some(65535)),
        (65534, None),
        (65535, Some(2)),
    ] {
        assert_same(rt, table.get(*number), *place);
    }
    leads(rt, table, 7, 9);
    assert_same(rt, table.get(7), Some(9));
    assert_same(rt, table.get(1), Some(1));
}

#[test]
fn numbers_lead_to_their_places(rt: HostRuntime) {
    let mut table = NumberTable::new(rt.alloc());
    numbers_lead(&rt, &mut table);
}

/// Checks many numbers. Passes with ample memory, and if any one allocation fails.
fn many_numbers_lead(rt: &impl Abort, table: &mut NumberTable) {
    for number in 1..40 {
        leads(rt, table, number, 40 - number);
        assert_same(rt, table.get(number), Some(usize::from(40 - number)));
    }
    for number in 1..40 {
        assert_holds!(rt; table.get(number).is_some());
    }
}

#[test]
fn growth_may_be_refused_memory(rt: HostRuntime) {
    let mut table = NumberTable::new(rt.alloc());
    many_numbers_lead(&rt, &mut table);
}
