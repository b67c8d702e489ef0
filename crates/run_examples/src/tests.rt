//! The tests, by subject.

/// Checks a condition, and reports it as it is written if it is false.
macro_rules! assert_holds {
    ($rt:expr; $cond:expr) => {
        crate::tests::wants::assert_with_message($rt, $cond, concat!("assertion failed: ", stringify!($cond)))
    };
}

mod benches;
mod calls;
mod explained;
mod reports;
mod scenarios;
mod shards;
mod wants;
mod worlds;
