// The laws of a session's items.
ghost use Rattle.hb_sessionitems.specs.GivingUp.{ClosedSessionsAreRight, GivenUpSessionsAreRight};
ghost use Rattle.hb_sessionitems.specs.Owning.{ClosedSessionsAreOwn, GivenUpSessionsAreOwn, SessionsAreOwn, UnbegunSessionsAskNothing};
ghost use Rattle.hb_sessionitems.specs.Sitting.{SessionsAreRight};
ghost use Rattle.hb_sessionitems.specs.Txns.{ClosedSessionsAreTxns, GivenUpSessionsAreTxns, SessionsAreTxns, UnbegunSessionsAreLoose};

/// What a session asks and shows from its first statement to the end of a transaction is made of items, one for each statement that had
/// its reply, and each is right by what was spent before it.
pub fn sessions_are_right()
    ensures { SessionsAreRight }
{}

/// So it is where a statement that waits is abandoned, or the session finds no memory: the last item is of that statement, with the
/// reply for which the transaction was rolled back.
pub fn given_up_sessions_are_right()
    ensures { GivenUpSessionsAreRight }
{}

/// Where a transaction is given up between two statements, the rolling back is an item of its own.
pub fn closed_sessions_are_right()
    ensures { ClosedSessionsAreRight }
{}

/// Where answers are a system's, the first of the items that made a call begins the transaction, and each other asks something of it.
pub fn sessions_are_own()
    ensures { SessionsAreOwn }
{}

/// A transaction that was not begun asks nothing of any.
pub fn unbegun_sessions_ask_nothing()
    ensures { UnbegunSessionsAskNothing }
{}

/// Of a transaction that is given up amid a statement the items are its own too, if it is this one that is rolled back.
pub fn given_up_sessions_are_own()
    ensures { GivenUpSessionsAreOwn }
{}

/// And so are those of one that is given up between two statements.
pub fn closed_sessions_are_own()
    ensures { ClosedSessionsAreOwn }
{}

/// Where the first statement is no COMMIT or ROLLBACK, the items of a transaction that was begun are a right transaction of the
/// session's next owner.
pub fn sessions_are_txns()
    ensures { SessionsAreTxns }
{}

/// So are those of a transaction that is given up amid a statement.
pub fn given_up_sessions_are_txns()
    ensures { GivenUpSessionsAreTxns }
{}

/// And those of one that is given up between two statements, with the rolling back.
pub fn closed_sessions_are_txns()
    ensures { ClosedSessionsAreTxns }
{}

/// What was not begun had one reply, and with it is an item of no transaction.
pub fn unbegun_sessions_are_loose()
    ensures { UnbegunSessionsAreLoose }
{}
