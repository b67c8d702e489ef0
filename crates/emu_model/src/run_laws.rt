//! The laws of `alone`, each stated as the contract of a function with an empty body, so that the
//! checker proves it.

ghost use Rattle.emu_model.specs.RunLaws.{RecordsGrow, RecordsAreNotRead, LaterCommandsWait, PacketsAddUp, DuesDiffer, BudgetEnds};

/// The list of records only grows.
pub fn records_grow()
    ensures { RecordsGrow }
{}

/// Earlier records don't affect a step, and are kept.
pub fn records_are_not_read()
    ensures { RecordsAreNotRead }
{}

/// Later commands don't affect the steps that were made without them.
pub fn later_commands_wait()
    ensures { LaterCommandsWait }
{}

/// Each packet created is delivered, held or dropped.
pub fn packets_add_up()
    ensures { PacketsAddUp }
{}

/// Each source has at most one due, so the next event is unique.
pub fn dues_differ()
    ensures { DuesDiffer }
{}

/// A step budget ends an experiment whose last command is `end`.
pub fn budget_ends()
    ensures { BudgetEnds }
{}
