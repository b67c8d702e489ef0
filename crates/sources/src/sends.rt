//! The results that sources return to the experiment.

use emu_model::{Origin, SendSpec};

/// A packet to be created: who creates it, and its header.
#[derive(Clone, Copy)]
pub struct Sending {
    pub origin: Origin,
    pub send: SendSpec,
}

/// A sender's congestion window and slow start threshold, in bytes.
#[derive(Clone, Copy)]
pub struct Window {
    pub cwnd: u64,
    pub ssthresh: u64,
}
