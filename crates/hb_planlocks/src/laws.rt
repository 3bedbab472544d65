// A law of all plans.
ghost use Rattle.hb_model.specs.declared.statement.Statement.{Statement};
ghost use Rattle.hb_planlocks.specs.Asked.{PlanLocksByTable};

/// Each lock that a statement's plan asks for is in the table of locks, as long as the rows of scans lie where they were asked for.
pub fn plans_lock_by_table()
    ensures { (st : Statement) → PlanLocksByTable st }
{}
