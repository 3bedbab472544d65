// Laws of the plans of statements on a table's rows.
ghost use Rattle.std.specs.Prelude.{List, Option, ℕ};
ghost use Rattle.hb_types.specs.declared.value.Value.{Value};
ghost use Rattle.hb_model.specs.declared.condition.Pred.{Pred};
ghost use Rattle.hb_model.specs.declared.statement.Statement.TheVariants as statement;
ghost use Rattle.hb_model.specs.declared.statement.What.{What};
ghost use Rattle.hb_planlaws.specs.Planned.{PlanDoes};

/// The plan of an INSERT does what the statement does: it puts the row where new rows of its group go, or refuses.
pub fn insert_does()
    ensures { (name : List ℕ) (values : List Value) → PlanDoes (statement.Insert name values) }
{}

/// The plan of a SELECT does what the statement does, whether its condition asks for one key or all rows are scanned.
pub fn select_does()
    ensures { (w : What) (name : List ℕ) (pred : Option Pred) → PlanDoes (statement.Select w name pred) }
{}

/// The plan of a DELETE does what the statement does: it removes the rows that the condition chooses, where they lie, or refuses.
pub fn delete_does()
    ensures { (name : List ℕ) (pred : Option Pred) → PlanDoes (statement.Delete name pred) }
{}
