// Laws of sessions.
ghost use Rattle.hb_session.specs.Runs.{EndsFollow, RunsFollow, TransactionsFollow};

/// What a session asks and shows follows the talk of what it is given, however far it came.
pub fn runs_follow()
    ensures { RunsFollow }
{}

/// Up to the end of a transaction.
pub fn ends_follow()
    ensures { EndsFollow }
{}

/// From a first statement to the end of its transaction.
pub fn transactions_follow()
    ensures { TransactionsFollow }
{}
