// What the parsers find is what the grammar derives.
ghost use Rattle.hb_sqlcond.specs.Grammar.{IsExpr, IsPred};
ghost use Rattle.hb_sqlcond.specs.ExprSteps.{start_expr, step_expr, whole_expr};
ghost use Rattle.hb_sqlcond.specs.PredSteps.{start_pred, step_pred, whole_pred};
ghost use Rattle.hb_sqlcond.specs.Runs.{Reads, in_expr, in_pred};

/// `ExprParser` reads expressions.
pub fn expressions_are_read()
    ensures { Reads start_expr step_expr whole_expr in_expr IsExpr }
{}

/// `PredParser` reads conditions.
pub fn conditions_are_read()
    ensures { Reads start_pred step_pred whole_pred in_pred IsPred }
{}
