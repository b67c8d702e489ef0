//! Laws about the definitions of `emu_model`, each stated as the contract of a function that does
//! nothing, so that the checker proves it. Nothing depends on them: they state what a reader
//! expects of the definitions, and show where a definition would mean something else.
//!
//! There are also worked examples and random scenarios, computed by the definitions: no code, only
//! theorems, in `proofs/`. Most of these files were written by `tools/definitions/spell` from a
//! scenario and its report; `AdaptiveSamples`, `Bounds` and the files named `..Steps` have theorems
//! about single words, worked out by hand.
#![tactic(auto)]

mod isolation;
mod links;
mod losses;
mod making;
mod queues;
mod runs;
mod searches;
mod senders;
mod single_states;
mod tracing;
mod work;

pub use isolation::{
    exits_are_recorded, instances_are_isolated, others_do_not_interfere, runs_are_histories,
    same_events_same_state, steps_are_histories,
};
pub use links::{delay_is_kept, idle_takes_its_time, rate_is_kept, service_is_on_time};
pub use losses::{
    acks_pass_the_budget, codel_drops_by_control, codel_drops_nothing, drops_after_interval,
    drops_have_causes, full_at_limit, lost_below_rate, no_queue_is_full, nothing_goes_with_pipes,
    nothing_is_lost, pipes_drop_nothing, room_drops_nothing,
};
pub use making::{acks_answer_segments, acks_match_segments, ends_were_held};
pub use queues::{never_idle, queue_is_served_in_turn, queues_are_bounded, wait_is_bounded};
pub use runs::{deliveries_wait, moments_are_their_own, records_are_in_order};
pub use searches::searches_are_decided;
pub use senders::{
    acked_has_arrived, done_flows_are_silent, flight_fits_window, new_data_fits_windows,
    sequence_is_in_order, too_small_window_sends_nothing,
};
pub use single_states::{
    bounds_are_met, dropping_ends_in_time, least_due_is_least, missing_is_least,
    numbers_count_identifiers, search_goes_all_ways,
};
pub use tracing::tracing_only_adds;
pub use work::{held_within_budget, numbers_are_bounded, records_are_bounded};
