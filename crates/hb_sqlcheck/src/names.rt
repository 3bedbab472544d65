// Names that are no column.
ghost use Rattle.std.specs.Prelude.{◌≡◌};
ghost use Rattle.std.specs.List.{list_any};
ghost use Rattle.std.specs.Str.{bytes_eq};
ghost use Rattle.hb_model.specs.Kinds.{names_in, names_in_pred};
ghost use Rattle.hb_sqlcheck.specs.Checks.{unknown_in};

use hb_model::{Expr, Pred};
use hb_types::Column;

// Whether a name is a column.
fn is_known(columns: &[Column], name: &[u8]) -> bool
    ensures { result ≡ list_any (λ c. bytes_eq c.name name.now) columns.now }
{
    columns.iter().any(|c| c.name.as_slice() == name)
}

/// Whether a name is no column.
pub fn is_unknown(columns: &[Column], name: &[u8]) -> bool
    ensures { result ≡ unknown_in columns.now name.now }
{
    !is_known(columns, name)
}

/// Whether an expression has a name that is no column.
#[tactic(auto, using(crate::proofs::Levels::names))]
pub fn expr_has_unknown(columns: &[Column], expr: &Expr) -> bool
    ensures { result ≡ list_any (unknown_in columns.now) (names_in expr.now) }
{
    match expr {
        Expr::Int(_) | Expr::Text(_) => false,
        Expr::Name(name) => is_unknown(columns, name.as_slice()),
        Expr::Neg(a) => expr_has_unknown(columns, a.get()),
        Expr::Add(a, b) | Expr::Sub(a, b) | Expr::Mul(a, b) => {
            expr_has_unknown(columns, a.get()) || expr_has_unknown(columns, b.get())
        }
    }
}

/// Whether a condition has a name that is no column.
#[tactic(auto, using(crate::proofs::Levels::pred_names))]
pub fn pred_has_unknown(columns: &[Column], pred: &Pred) -> bool
    ensures { result ≡ list_any (unknown_in columns.now) (names_in_pred pred.now) }
{
    match pred {
        Pred::Test(_, a, b) => expr_has_unknown(columns, a) || expr_has_unknown(columns, b),
        Pred::Not(p) => pred_has_unknown(columns, p.get()),
        Pred::And(p, q) | Pred::Or(p, q) => {
            pred_has_unknown(columns, p.get()) || pred_has_unknown(columns, q.get())
        }
    }
}
