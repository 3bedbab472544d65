// Laws of locks and of logs.
ghost use Rattle.hb_loglaws.specs.Locking.{LocksExclude};
ghost use Rattle.hb_loglaws.specs.Saying.{RightLogsSay, RightLogsAreHalves};
ghost use Rattle.hb_loglaws.specs.Settled.{RedoIsOfCommits, SettledIsHeld, PointsStay};

/// Locks that agree let no other branch write what a branch reads.
pub fn locks_exclude()
    ensures { LocksExclude }
{}

/// In a right log each transaction votes and ends once, and those that wrote at a place ascend in number.
pub fn right_logs_say()
    ensures { RightLogsSay }
{}

/// A right log is right in both halves.
pub fn right_logs_are_halves()
    ensures { RightLogsAreHalves }
{}

/// Redo of a right log gives what its commits put, one after another.
pub fn redo_is_of_commits()
    ensures { RedoIsOfCommits }
{}

/// Where no branch is in doubt, redo of a log gives the rows that the decisions leave.
pub fn settled_is_held()
    ensures { SettledIsHeld }
{}

/// Redo from a point of an area file stays redo of the whole log while the log grows.
pub fn points_stay()
    ensures { PointsStay }
{}
