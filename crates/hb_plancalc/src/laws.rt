// A law of all plans.
ghost use Rattle.hb_model.specs.declared.statement.Statement.{Statement};
ghost use Rattle.hb_plancalc.specs.Counted.{PlanCounts};

/// No plan decides a transaction, and what its use counts is what was granted and written.
pub fn plans_count()
    ensures { (st : Statement) → PlanCounts st }
{}
