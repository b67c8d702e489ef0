//! Tenants, their rings, and the benches on which their experiments run: each bench owns one shard,
//! and passes experiments on through a deque. No experiment is lost, and none is run twice. Our
//! choice.
#![tactic(auto)]

mod bench;
mod closing;
mod custody;
mod deque;
mod hand;
mod mail;
mod names;
mod outcome;
mod registry;
mod tenant;

pub use bench::{AdoptError, Bench, OfferError, Refused, RetakeError};
pub use closing::{Closing, Lost, audit};
pub use deque::Peer;
pub use hand::{Hand, Stamp};
pub use mail::{Moments, RingMail};
pub use outcome::Outcome;
pub use registry::{OpenError, Registry};
pub use tenant::{PostError, RefusedPost, Strange, Tenant};
