// Whether values are numbers or texts.
ghost use Rattle.std.specs.Prelude.{◌≡◌, find, option_map};
ghost use Rattle.std.specs.Str.{bytes_eq};
ghost use Rattle.hb_model.specs.Kinds.{kind_of_column as kind_in_column, numbers as numbers_of, kind_of as kind_in, both_alike, is_typed as typed_in};
ghost use Rattle.hb_sqlcheck.specs.Checks.{kind_told};

use hb_model::{Expr, Pred};
use hb_types::Column;

/// Whether a value is a number or a text.
#[derive(Clone, Copy, Debug, PartialEq, Eq)]
pub enum Kind {
    Number,
    Letters,
}

/// The kind of a column's values.
pub(crate) fn kind_of_column(column: &Column) -> Kind
    ensures { kind_told result ≡ kind_in_column column.now }
{
    if column.size == 0 {
        Kind::Number
    } else {
        Kind::Letters
    }
}

// A number, of numbers.
fn numbers(a: Option<Kind>, b: Option<Kind>) -> Option<Kind>
    ensures { option_map kind_told result ≡ numbers_of (option_map kind_told a) (option_map kind_told b) }
{
    match a {
        Some(Kind::Number) => match b {
            Some(Kind::Number) => Some(Kind::Number),
            _ => None,
        },
        _ => None,
    }
}

fn kind_named(columns: &[Column], name: &[u8]) -> Option<Kind>
    ensures { option_map kind_told result ≡ option_map kind_in_column (find (λ c. bytes_eq c.name name.now) columns.now) }
{
    match columns.iter().find(|c| c.name.as_slice() == name) {
        Some(column) => Some(kind_of_column(column)),
        None => None,
    }
}

/// The kind of an expression; none where it has arithmetic on a text.
#[tactic(auto, using(crate::proofs::Levels::kinds))]
pub fn kind_of(columns: &[Column], expr: &Expr) -> Option<Kind>
    ensures { option_map kind_told result ≡ kind_in columns.now expr.now }
{
    match expr {
        Expr::Int(_) => Some(Kind::Number),
        Expr::Text(_) => Some(Kind::Letters),
        Expr::Name(name) => kind_named(columns, name.as_slice()),
        Expr::Neg(a) => {
            let a = kind_of(columns, a.get());
            numbers(a, a)
        }
        Expr::Add(a, b) | Expr::Sub(a, b) | Expr::Mul(a, b) => {
            numbers(kind_of(columns, a.get()), kind_of(columns, b.get()))
        }
    }
}

fn alike(a: Option<Kind>, b: Option<Kind>) -> bool
    ensures { result ≡ both_alike (option_map kind_told a) (option_map kind_told b) }
{
    match a {
        Some(a) => match b {
            Some(b) => a == b,
            None => false,
        },
        None => false,
    }
}

/// Whether a condition compares only like with like.
#[tactic(auto, using(crate::proofs::Levels::types))]
pub fn is_typed(columns: &[Column], pred: &Pred) -> bool
    ensures { result ≡ typed_in columns.now pred.now }
{
    match pred {
        Pred::Test(_, a, b) => alike(kind_of(columns, a), kind_of(columns, b)),
        Pred::Not(p) => is_typed(columns, p.get()),
        Pred::And(p, q) | Pred::Or(p, q) => {
            is_typed(columns, p.get()) && is_typed(columns, q.get())
        }
    }
}
