//! A Reno sender and its receiver (RFC 5681; adaptive retransmission timeouts: RFC 6298; the reply
//! to each segment: our choice).
#![tactic(auto)]

mod receiver;
mod sender;
mod sender_laws;
mod state;
mod times;

pub use receiver::Receiver;
pub use sender::Sender;
pub use sender_laws::{
    adaptive_time_is_bounded, loss_leaves_two_segments, number_never_falls,
    positions_stay_in_order, second_expiry_holds, segments_are_a_set, timed_is_sent_once,
    window_holds_a_segment,
};
