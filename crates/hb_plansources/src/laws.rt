// A law of all plans.
ghost use Rattle.hb_model.specs.declared.statement.Statement.{Statement};
ghost use Rattle.hb_plansources.specs.Sourcing.{PlanIsSourced};

/// The rows that a statement's plan shows are selections of user rows that it was answered; what it writes for users it made of such rows,
/// or of an INSERT's values. So it is whatever the answers are, as long as a system can give them.
pub fn plans_are_sourced()
    ensures { (st : Statement) → PlanIsSourced st }
{}
