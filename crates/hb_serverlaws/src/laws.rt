// Laws of a server's runs.
ghost use Rattle.hb_serverlaws.specs.Locking.{LocksAreKept, DoubtsStay};
ghost use Rattle.hb_serverlaws.specs.Logging.{LogIsKept, NowIsRedo, RoomIsKept, RecordsWereAsked, VotesStand, CommitsStand};

/// In each state of a run the locks agree, are closed and cover what was written.
pub fn locks_are_kept()
    ensures { LocksAreKept }
{}

/// A branch in doubt keeps its locks and changes until it is ended, through stops, faults and starts.
pub fn doubts_stay()
    ensures { DoubtsStay }
{}

/// A server's log stays right along its run.
pub fn log_is_kept()
    ensures { LogIsKept }
{}

/// What a server knows is redo of its whole log.
pub fn now_is_redo()
    ensures { NowIsRedo }
{}

/// The log keeps room for the ends of all branches in doubt.
pub fn room_is_kept()
    ensures { RoomIsKept }
{}

/// Each record since a server's start is of a request that was answered or that faulted.
pub fn records_were_asked()
    ensures { RecordsWereAsked }
{}

/// A vote that was answered stands in each later log, with what its transaction wrote.
pub fn votes_stand()
    ensures { VotesStand }
{}

/// A commit that was answered stands in each later log.
pub fn commits_stand()
    ensures { CommitsStand }
{}
