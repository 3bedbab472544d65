// The laws of a transaction's items.
ghost use Rattle.hb_itemlaws.specs.Dividing.{TransactionsAreRight};
ghost use Rattle.hb_itemlaws.specs.GivingUp.{ClosedAreRight, GivenUpAreRight};
ghost use Rattle.hb_itemlaws.specs.Owning.{ClosedAreOwn, GivenUpAreOwn, TransactionsAreOwn, UnbegunAskNothing};
ghost use Rattle.hb_itemlaws.specs.Txns.{ClosedHadReplies, ClosedTxnsAreRight, GivenUpNameOwner, TransactionsNameOwner, TxnsAreRight, UnbegunAreLoose};

/// What a session asks and shows in a transaction of plain statements, from its Begin to its end, is made of items, one for each
/// statement that had its reply, and each is right by what was spent before it: it is faithful, or it is a COMMIT that tells what was
/// decided.
pub fn transactions_are_right()
    ensures { TransactionsAreRight }
{}

/// A transaction tells no unknown outcome but that of its own owner.
pub fn transactions_name_owner()
    ensures { TransactionsNameOwner }
{}

/// Of the items that a transaction is made of, those that are not idle are a right transaction: statements, each with its one reply,
/// that are so bound whatever their calls are answered.
pub fn txns_are_right()
    ensures { TxnsAreRight }
{}

/// A transaction that is given up amid a statement, and rolled back for a reply from outside, is made of right items too: the last one
/// is of that statement, with that reply.
pub fn given_up_are_right()
    ensures { GivenUpAreRight }
{}

/// Given up between two statements it is made of the right items of those that had their replies, and of the rolling back, which is of
/// no statement.
pub fn closed_are_right()
    ensures { ClosedAreRight }
{}

/// Where one is given up between two statements, one had its reply.
pub fn closed_had_replies()
    ensures { ClosedHadReplies }
{}

/// One that is given up tells no unknown outcome.
pub fn given_up_name_owner()
    ensures { GivenUpNameOwner }
{}

/// Of these items, too, those that are not idle are a right transaction.
pub fn closed_txns_are_right()
    ensures { ClosedTxnsAreRight }
{}

/// Where answers are a system's, the first of a transaction's items that are not idle begins it, and each other asks something of it, or
/// nothing while it is open.
pub fn transactions_are_own()
    ensures { TransactionsAreOwn }
{}

/// What was not begun asks nothing of any transaction.
pub fn unbegun_ask_nothing()
    ensures { UnbegunAskNothing }
{}

/// It had one reply, and with it is an item of no transaction.
pub fn unbegun_are_loose()
    ensures { UnbegunAreLoose }
{}

/// So it is with the items of a transaction that is given up amid a statement.
pub fn given_up_are_own()
    ensures { GivenUpAreOwn }
{}

/// And with those of one that is given up between two statements.
pub fn closed_are_own()
    ensures { ClosedAreOwn }
{}
