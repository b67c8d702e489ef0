//! One sender, and all sources of an experiment.

mod all_senders;
mod senders;
