// The law of the plan of an UPDATE.
ghost use Rattle.std.specs.Prelude.{List, Option, ℕ};
ghost use Rattle.hb_model.specs.declared.condition.Pred.{Pred};
ghost use Rattle.hb_model.specs.declared.statement.Set.{Set};
ghost use Rattle.hb_model.specs.declared.statement.Statement.TheVariants as statement;
ghost use Rattle.hb_planlaws.specs.Planned.{PlanDoes};

/// The plan of an UPDATE does what the statement does: it puts each row that the condition chooses, with its assignments, where it lies, or refuses.
pub fn update_does()
    ensures { (name : List ℕ) (sets : List Set) (pred : Option Pred) → PlanDoes (statement.Update name sets pred) }
{}
