//! The laws of an experiment that waits for commands, and of sessions. A call `laws::name()` does
//! nothing; the prover knows the theorem from there on.

ghost use Rattle.std.specs.Prelude.{◌≤◌, ◌^◌};

pub use crate::sessions::{
    ended_sessions_are_whole, ended_states_are_whole, sessions_are_alone, transcripts_are_whole,
};
pub use crate::waits::{
    commands_come_alone, commands_go_on, steps_before_wait, waits_agree, waits_begin,
    waits_pass_events, waits_read_no_records, waits_rise, waits_settle,
};
use emu_model::Spec;

/// A step budget has the range of its type.
pub(crate) fn few_steps(spec: &Spec)
    ensures { spec.now.budget.steps ≤ 10 ^ 7 }
{
    let _high = spec.budget.steps.get();
}
