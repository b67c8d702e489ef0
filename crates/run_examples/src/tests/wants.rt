//! The assertions of the tests. `assert!` and `assert_eq!` are proved at each place where they are
//! used, and a call is not.

use std::fmt::Debug;
use std::process::Abort;

pub fn assert_same<T: Debug + Drop + PartialEq>(rt: &impl Abort, given: T, wanted: T) {
    assert_eq!(rt; given, wanted);
}

/// Checks a condition, and reports the message if it is false.
pub fn assert_with_message(rt: &impl Abort, holds: bool, what: &str) {
    assert!(rt; holds, "{what}");
}
