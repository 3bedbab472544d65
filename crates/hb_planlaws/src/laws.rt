// Laws of plans.
ghost use Rattle.std.specs.Prelude.{ℕ, Bool, List, Some};
ghost use Rattle.hb_model.specs.declared.condition.Pred.{Pred};
ghost use Rattle.hb_model.specs.declared.statement.Statement.TheVariants as statement;
ghost use Rattle.hb_model.specs.declared.statement.What.{What};
ghost use Rattle.hb_planlaws.specs.Planned.{IsByKey, PlanDoes, PlanDoesWhere};
ghost use Rattle.hb_planlaws.specs.Telling.{DictionaryTells};

/// The dictionary's rows of a system tell its tables by name, and where each lies.
pub fn dictionary_tells()
    ensures { DictionaryTells }
{}

/// The plan of LOCK TABLE does what the statement does, whichever table, and where there is none.
pub fn lock_table_does()
    ensures { (name : List ℕ) (exclusive : Bool) → PlanDoes (statement.LockTable name exclusive) }
{}

/// The plan of a SELECT whose condition asks for one key does what the statement does, refusals and routes of two areas included.
pub fn select_by_key_does()
    ensures { (w : What) (name : List ℕ) (pred : Pred) → PlanDoesWhere (IsByKey name (Some pred)) (statement.Select w name (Some pred)) }
{}
