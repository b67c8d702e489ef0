//! Laws: the lines that a session reports about an ended experiment are the report of running the
//! experiment alone. Each law is the contract of a function with an empty body.

ghost use Rattle.session.specs.RunLaws.{EndedRunsAreReports, SpentRunsAreReports, EarlierCommandsCome};

/// If the last step was a command, the lines are the report of the commands that arrived, followed
/// by any others.
pub fn ended_runs_are_reports()
    ensures { EndedRunsAreReports }
{
    emu_model::laws::later_commands_wait();
    experiment::laws::ended_states_are_whole();
}

/// If the steps were spent while time passed, the lines are the report of the commands that
/// arrived, followed by any with that time or a later one.
pub fn spent_runs_are_reports()
    ensures { SpentRunsAreReports }
{
    experiment::laws::ended_states_are_whole();
}

/// If the last step would be spent on an event, a command at that event's time or earlier is
/// processed in its place. One past that time is therefore the earliest time at which commands
/// change nothing.
pub fn earlier_commands_come()
    ensures { EarlierCommandsCome }
{
    experiment::laws::commands_go_on();
    emu_model::laws::records_are_not_read();
    experiment::laws::waits_settle();
}
