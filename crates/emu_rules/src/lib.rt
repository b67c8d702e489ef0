//! The rule list of an emulated link (ipfw(8)): rules by number, those with the same number in the
//! order in which they were added, the default last; a search starts at the first rule or after a
//! given one. The crate has the matching of rules, the place where a search continues, the
//! precomputed jumps, and the cached searches.
#![tactic(auto)]

mod cache;
mod counted;
mod list;
mod matching;
mod search;

pub use counted::CountedRule;
pub use list::{AddError, RuleList};
pub use search::{Match, NO_RULE};
