// Rows whose numbers are within INTEGER.
ghost use Rattle.std.specs.Prelude.{List, Option, All};
ghost use Rattle.hb_types.specs.declared.value.Value.{Value};
ghost use Rattle.hb_types.specs.declared.value.Column.{Column};
ghost use Rattle.hb_types.specs.Lists.{Each};
ghost use Rattle.hb_types.specs.Rows.{HasBytes};
ghost use Rattle.hb_model.specs.declared.condition.Pred.{Pred};
ghost use Rattle.hb_model.specs.declared.table.Table.{Table};
ghost use Rattle.hb_model.specs.Rows.{chosen};
ghost use Rattle.hb_model.specs.Valid.{FitsAll};
ghost use Rattle.hb_sqlrow.specs.Narrow.{IsNarrow, AreNarrow};

/// Rows that fit their columns, rows that were read from bytes, and what is chosen of such rows.
pub fn rows_are_narrow()
    ensures fitting { (columns : List Column) (rows : List (List Value)) → Each (FitsAll columns) rows → AreNarrow rows }
    ensures read { (row : List Value) → All HasBytes row → Each IsNarrow row }
    ensures chosen { (t : Table) (p : Option Pred) → AreNarrow t.rows → AreNarrow (chosen t p) }
{}
