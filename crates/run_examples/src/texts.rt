//! Scenarios and reports that the tests use. They are those of examples/, and tools/gate/texts writes
//! them.

mod floods;
mod flows;
mod many;
mod pipes;
mod queues;

pub use floods::{FLOOD, FLOOD_REPORT, NEIGHBOUR};
pub use flows::{
    FAST_RETRANSMIT, FAST_RETRANSMIT_REPORT, RENO_FOUR_SEGMENTS, RENO_FOUR_SEGMENTS_REPORT,
};
pub use many::{FOUR_EXPERIMENTS, FOUR_EXPERIMENTS_REPORT};
pub use pipes::{
    LISTINGS, LISTINGS_REPORT, NEW_RATE, NEW_RATE_REPORT, ONE_PACKET, ONE_PACKET_REPORT, ONE_SLOT,
    ONE_SLOT_REPORT, PACKET_BUDGET, PACKET_BUDGET_REPORT, STEP_BUDGET, STEP_BUDGET_REPORT,
    TWO_PIPES_IN_TURN, TWO_PIPES_IN_TURN_REPORT,
};
pub use queues::{CODEL_ONE_DROP, CODEL_ONE_DROP_REPORT, CODEL_TWO_DROPS, CODEL_TWO_DROPS_REPORT};
