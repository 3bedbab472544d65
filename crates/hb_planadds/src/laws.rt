// The law of the plan of ADD RDAREA.
ghost use Rattle.std.specs.Prelude.{List, ℕ};
ghost use Rattle.hb_model.specs.declared.statement.Statement.TheVariants as statement;
ghost use Rattle.hb_planlaws.specs.Planned.{PlanDoes};

/// The plan of ADD RDAREA does what the statement does: it writes the row of the member and those of the entries that change, or refuses.
pub fn add_area_does()
    ensures { (table area : List ℕ) → PlanDoes (statement.AddArea table area) }
{}
