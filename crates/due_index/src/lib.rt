//! An index that finds the first of many dues, each of which is set by its place, and a table that
//! maps a number to its place (our choice).
#![tactic(auto)]

mod index;
mod number;
mod table;
mod tree;

pub use index::DueIndex;
pub use number::DueNumber;
pub use table::NumberTable;
