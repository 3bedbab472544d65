// The laws of a session's life.
ghost use Rattle.hb_lives.specs.Joining.{ListsAreTold};
ghost use Rattle.hb_lives.specs.Lives.{LivesAreStretches, LivesAreTold};
ghost use Rattle.hb_lives.specs.Stretches.{StretchesAreTxns};
ghost use Rattle.hb_lives.specs.Systems.{AddedAreOfSystem};
ghost use Rattle.hb_lives.specs.Unfinished.{CutCommitsAreBare, UnfinishedAreRight};

/// A session's list that is made of stretches is as the law of composition asks: each transaction is a stretch of it, right, and asked
/// nothing of behind it; and each item is one's, or did nothing.
pub fn stretches_are_txns()
    ensures { StretchesAreTxns }
{}

/// What a session asks and shows, transaction after transaction, is made of such stretches.
pub fn lives_are_stretches()
    ensures { LivesAreStretches }
{}

/// So its whole list is, from its first statement on.
pub fn lives_are_told()
    ensures { LivesAreTold }
{}

/// And its calls are as a system answers them, where what the nodes' lists hold in the end is.
pub fn added_are_of_system()
    ensures { AddedAreOfSystem }
{}

/// What the law of composition asks of all lists and transactions is so where it is so of the operator's list and of each session's.
pub fn lists_are_told()
    ensures { ListsAreTold }
{}

/// A statement that is cut off has decided nothing and locked by the table of locks, also with the calls that begin its transaction before
/// it, and calls of no transaction behind it.
pub fn unfinished_are_right()
    ensures { UnfinishedAreRight }
{}

/// And a COMMIT that is cut off has neither read nor written a row, nor locked.
pub fn cut_commits_are_bare()
    ensures { CutCommitsAreBare }
{}
