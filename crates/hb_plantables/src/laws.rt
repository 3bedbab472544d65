// The law of the plan of CREATE TABLE.
ghost use Rattle.std.specs.Prelude.{List, ℕ, ◌≤◌, length};
ghost use Rattle.hb_types.specs.declared.value.Column.{Column};
ghost use Rattle.hb_types.specs.Lists.{Each};
ghost use Rattle.hb_model.specs.declared.statement.Statement.TheVariants as statement;
ghost use Rattle.hb_model.specs.Valid.{IsName};
ghost use Rattle.hb_planlaws.specs.Planned.{PlanDoes};

/// The plan of CREATE TABLE with valid names and at least one area does what the statement does: it writes the rows of the table,
/// its members and its entries, or refuses.
pub fn create_table_does()
    ensures { (name : List ℕ) (columns : List Column) (key : List ℕ) (areas : List (List ℕ)) → IsName name → Each (λ c. IsName c.name) columns → 1 ≤ length areas
        → PlanDoes (statement.CreateTable name columns key areas) }
{}
