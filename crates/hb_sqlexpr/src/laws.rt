// What stands behind an overflow.
ghost use Rattle.std.specs.Prelude.{◌≡◌, List, Some, None, true, false};
ghost use Rattle.hb_types.specs.declared.value.Value.{Value};
ghost use Rattle.hb_types.specs.declared.value.Column.{Column};
ghost use Rattle.hb_model.specs.declared.expression.Expr.{Expr};
ghost use Rattle.hb_model.specs.declared.condition.Pred.{Pred};
ghost use Rattle.std.specs.List.{list_all};
ghost use Rattle.hb_types.specs.Numbers.{is_integer};
ghost use Rattle.hb_model.specs.Kinds.{Kind, kind_of, is_typed};
ghost use Rattle.hb_model.specs.Valid.{FitsAll};
ghost use Rattle.hb_model.specs.Values.{value_of, holds_at};
ghost use Rattle.hb_sqlexpr.specs.Exact.{exact_of, exact_truth, limited};

/// Values and truths are those without a limit, where each number on the way is within INTEGER, and none else. Where the row fits the columns
/// and the types agree, none comes only of a number outside INTEGER.
pub fn overflow_is_a_number_outside()
    ensures value { (columns : List Column) (row : List Value) (e : Expr) → value_of columns row e ≡ limited (exact_of columns row e) }
    ensures truth { (columns : List Column) (row : List Value) (p : Pred) → holds_at columns row p ≡ limited (exact_truth columns row p) }
    ensures value_outside { (columns : List Column) (row : List Value) (e : Expr) (k : Kind) → FitsAll columns row → kind_of columns e ≡ Some k → value_of columns row e ≡ None → list_all is_integer (exact_of columns row e).numbers ≡ false }
    ensures truth_outside { (columns : List Column) (row : List Value) (p : Pred) → FitsAll columns row → is_typed columns p ≡ true → holds_at columns row p ≡ None → list_all is_integer (exact_truth columns row p).numbers ≡ false }
{}
