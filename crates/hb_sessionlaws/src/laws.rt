// Laws of what sessions ask.
ghost use Rattle.hb_sessionlaws.specs.Lives.{LivesObey, StepsSit};
ghost use Rattle.hb_sessionlaws.specs.Sessions.{EndedSessionsObey, SessionsObey};

use hb_session::{ends_follow, runs_follow};

/// What a session asks from its next transaction on obeys, however far it came.
pub fn sessions_obey()
    ensures { SessionsObey }
{
    runs_follow();
}

/// And so it does up to the transaction's end.
pub fn ended_sessions_obey()
    ensures { EndedSessionsObey }
{
    ends_follow();
}

/// Transaction after transaction all that a session asks obeys, and it counts those that begun.
pub fn lives_obey()
    ensures { LivesObey }
{}

/// Each step of a session is one of its life, with the one call that it adds.
pub fn steps_sit()
    ensures { StepsSit }
{}
