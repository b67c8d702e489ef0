//! The queue of a pipe, under ipfw(8)'s limits alone (drop-tail) or under CoDel (RFC 8289, section
//! 5) as well; and either on its own. It keeps the items in order, with their sizes and times of
//! arrival, and the sum of the sizes, so no call traverses a list unless CoDel drops.
#![tactic(auto)]

mod controlled;
mod entries;
mod law;
mod laws;
mod plan;
mod queue;
mod state;
mod tail;

pub use controlled::Codel;
pub use entries::{EnqueueError, Queued, Refused};
pub use law::control_law;
pub use queue::{Dequeued, Queue};
pub use tail::DropTail;
