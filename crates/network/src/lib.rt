//! Everything that moves packets in one experiment: rules, pipes, the link of `allow`, flows and
//! trains, and the records. The design is ours; the terms are those of ipfw(8).
#![tactic(auto)]

mod arrivals;
mod commands;
mod deliveries;
mod dues;
mod events;
mod flow_cache;
mod housing_law;
pub mod laws;
mod rehousing;
mod state;

pub use flow_cache::{CacheEntry, FlowCache, Lookup, Route};
pub use state::Network;
