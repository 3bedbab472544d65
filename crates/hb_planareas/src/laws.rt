// The law of the plan of CREATE RDAREA.
ghost use Rattle.std.specs.Prelude.{List, ℕ};
ghost use Rattle.hb_model.specs.declared.statement.Statement.TheVariants as statement;
ghost use Rattle.hb_model.specs.Valid.{IsName};
ghost use Rattle.hb_planlaws.specs.Planned.{PlanDoes};

/// The plan of CREATE RDAREA with a valid name does what the statement does: it writes the area's row, or refuses.
pub fn create_area_does()
    ensures { (name node : List ℕ) → IsName name → PlanDoes (statement.CreateArea name node) }
{}
