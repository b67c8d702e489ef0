//! A pipe with its instances (ipfw(8), traffic shaper and dynamic pipes), over any shelf of
//! packets. An instance is a queue, a server, a delay line and a stream of loss words; it holds the
//! keys of its packets.
#![tactic(auto)]

mod instance;
mod keys_law;
pub mod laws;
mod leftovers;
mod pipe;
mod rehouse;
mod service;
mod slot;
mod takes;

pub use instance::{Finished, Instance, InstanceDues, Shown};
pub use leftovers::Leftovers;
pub use pipe::{Arrival, NO_INSTANCE, Pipe};
pub use rehouse::rehouse_line;
