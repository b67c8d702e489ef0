//! All flows and trains of one experiment: Reno flows (RFC 5681, RFC 6298), and trains of equal
//! packets (our choice).
#![tactic(auto)]

mod dues;
mod flow;
mod index;
mod numbers;
mod sends;
mod sources;
mod train;

pub use sends::{Sending, Window};
pub use sources::{SourcePlace, Traffic};
