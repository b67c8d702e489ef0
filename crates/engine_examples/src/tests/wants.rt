//! The assertions of the tests. `assert!` and `assert_eq!` are proved at each place where they are
//! used, and a call is not.

use emu_model::Record;
use std::fmt::Debug;
use std::process::Abort;

pub fn assert_same<T: Debug + Drop + PartialEq>(rt: &impl Abort, given: T, wanted: T) {
    assert_eq!(rt; given, wanted);
}

/// Checks a condition, and reports the message if it is false.
pub fn assert_with_message(rt: &impl Abort, holds: bool, what: &str) {
    assert!(rt; holds, "{what}");
}

/// Checks that a record is at its place.
pub fn assert_record(rt: &impl Abort, records: &[Record], place: usize, wanted: Record) {
    let is_there = place < records.len() && records[place] == wanted;
    assert_same(rt, (place, is_there), (place, true));
}

/// Checks that from a place on there are exactly these records.
pub fn assert_records(rt: &impl Abort, records: &[Record], first: usize, wanted: &[Record]) {
    assert_same(rt, records.len(), first.saturating_add(wanted.len()));
    for (place, record) in wanted.iter().enumerate() {
        assert_record(rt, records, first.saturating_add(place), *record);
    }
}
