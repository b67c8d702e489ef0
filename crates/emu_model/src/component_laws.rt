//! The laws of the components, each stated as the contract of a function with an empty body, so
//! that the checker proves it.

ghost use Rattle.emu_model.specs.ComponentLaws.{FinishesAreFolded, FinishesRoundOnce, ExitsAreFolded, ExitsNeverFall, ControlStepIsGreatest, LossHasItsExtremes, AcceptsWithinLimit, CodelKeepsOrder, CodelSparesTheQuick};

/// The finishes of a whole busy period are those of its steps.
pub fn finishes_are_folded()
    ensures { FinishesAreFolded }
{}

/// A busy period is rounded once: each finish is computed from the sum of all sizes so far.
pub fn finishes_round_once()
    ensures { FinishesRoundOnce }
{}

/// The exits of a whole list of entries are those of its steps.
pub fn exits_are_folded()
    ensures { ExitsAreFolded }
{}

/// Exits never decrease, so links don't reorder packets.
pub fn exits_never_fall()
    ensures { ExitsNeverFall }
{}

/// The control law's step is the largest integer that fits (RFC 8289, section 5.6).
pub fn control_step_is_greatest()
    ensures { ControlStepIsGreatest }
{}

/// A loss rate of 0 loses nothing, and a loss rate of 1 loses everything (ipfw(8), plr).
pub fn loss_has_its_extremes()
    ensures { LossHasItsExtremes }
{}

/// The packets that a queue of slots or bytes accepts never exceed its limit (ipfw(8), queue).
pub fn accepts_within_limit()
    ensures { AcceptsWithinLimit }
{}

/// CoDel preserves the order of packets (RFC 8289, section 5.5).
pub fn codel_keeps_order()
    ensures { CodelKeepsOrder }
{}

/// CoDel drops no packet whose sojourn time is below the target (RFC 8289, section 5.6).
pub fn codel_spares_the_quick()
    ensures { CodelSparesTheQuick }
{}
