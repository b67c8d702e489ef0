//! Laws about events that are made before the next command is known, each stated as the contract of
//! a function that does nothing.

ghost use Rattle.experiment.specs.Waits.{StepsBeforeWait, WaitsAgree, WaitsPassEvents, WaitsReadNoRecords, WaitsSettle, CommandsComeAlone, WaitsBegin, WaitsRise, CommandsGoOn};

use emu_model::laws;

/// Events that are due before a time may be made before it is known which command arrives then or
/// later.
pub fn steps_before_wait()
    ensures { StepsBeforeWait }
{}

/// After such events, a command at that time or later finds the experiment in the state of running
/// alone on all commands.
pub fn commands_come_alone()
    ensures { CommandsComeAlone }
{}

/// If no command is left, an experiment that runs alone waits for a command at any time.
pub fn waits_begin()
    ensures { WaitsBegin }
{
    laws::later_commands_wait();
}

/// An experiment that waits for a command at a time or later also waits for one at a later time.
pub fn waits_rise()
    ensures { WaitsRise }
{}

/// If nothing is due before a command, the command is executed next: the state after it is that of
/// running alone, and the experiment waits for commands at that time or later.
pub fn commands_go_on()
    ensures { CommandsGoOn }
{
    laws::later_commands_wait();
}

/// Earlier records, which may have been discarded, don't affect an event that is made before the
/// next command is known.
pub fn waits_read_no_records()
    ensures { WaitsReadNoRecords }
{
    laws::records_are_not_read();
}

/// Two waits that extend past the time of the earliest event make the same event, however far they
/// extend.
pub fn waits_agree()
    ensures { WaitsAgree }
{}

/// An event that is made before the next command is known is before the time that is waited for.
pub fn waits_pass_events()
    ensures { WaitsPassEvents }
{}

/// If the earliest due is not an event before a time, no event is due before that time.
pub fn waits_settle()
    ensures { WaitsSettle }
{}
