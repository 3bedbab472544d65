// Laws of the items of statements.
ghost use Rattle.std.specs.Prelude.{IsTrue};
ghost use Rattle.hb_model.specs.declared.statement.Statement.{Statement};
ghost use Rattle.hb_model.specs.Plain.{is_plain};
ghost use Rattle.hb_faithful.specs.Planned.{GivenUpIsFaithful, PlanIsFaithful, PlanReplies, PlanTellsUndone, RollingBackCloses, UnfinishedIsRight, is_planned};

/// Calls that follow the plan of a plain statement, behind those that begin its transaction and before those that roll it back, are
/// faithful with the plan's reply: all that is said of a faithful item holds of them.
pub fn plans_are_faithful()
    ensures { (st : Statement) → IsTrue (is_plain st) → PlanIsFaithful st }
{}

/// A statement that is given up in its plan, and whose transaction is then rolled back, is faithful with a reply from outside.
pub fn given_up_are_faithful()
    ensures { (st : Statement) → GivenUpIsFaithful st }
{}

/// Calls that begin the plan of a statement decide nothing, and their locks are in the table of locks.
pub fn unfinished_are_right()
    ensures { (st : Statement) → UnfinishedIsRight st }
{}

/// The reply of a plan says that the transaction was rolled back exactly where a session rolls it back for it.
pub fn plans_tell_undone()
    ensures { (st : Statement) → IsTrue (is_planned st) → PlanTellsUndone st }
{}

/// The reply of a plan leaves the transaction open, or says that it was rolled back; and a SELECT alone shows rows.
pub fn plans_reply()
    ensures { (st : Statement) → IsTrue (is_planned st) → PlanReplies st }
{}

/// The calls of a rolling back close an item: they lock, read, write and decide nothing, and there is an Abort.
pub fn rolling_back_closes()
    ensures { RollingBackCloses }
{}
