//! Sessions: the laws of `waits`, for any list of actions.

ghost use Rattle.experiment.specs.Sessions.{SessionsAreAlone, EndedSessionsAreWhole, TranscriptsAreWhole, EndedStatesAreWhole};

use emu_model::laws;

/// Whatever is done in a session, its state is that of running alone on the commands so far,
/// followed by any that arrive then or later.
pub fn sessions_are_alone()
    ensures { SessionsAreAlone }
{
    laws::later_commands_wait();
}

/// A session that has ended has shown the whole trace of any transcript that continues from there.
pub fn ended_sessions_are_whole()
    ensures { EndedSessionsAreWhole }
{
    laws::later_commands_wait();
}

/// A session that a command ended has shown the whole trace of its transcript.
pub fn transcripts_are_whole()
    ensures { TranscriptsAreWhole }
{
    laws::later_commands_wait();
}

/// A state that has ended has the whole trace, whatever commands follow.
pub fn ended_states_are_whole()
    ensures { EndedStatesAreWhole }
{}
