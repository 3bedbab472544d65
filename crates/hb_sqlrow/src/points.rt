// Keys of rows, and the key of a point statement.
ghost use Rattle.std.specs.Prelude.{◌≡◌};
ghost use Rattle.std.specs.Option.{option_or};
ghost use Rattle.hb_model.specs.declared.expression.Expr.{out-Expr};
ghost use Rattle.hb_model.specs.Rows.{number_of as number_in, key_of as key_in, key_name as name_of_key, key_tested as tested_key, point_key as key_tested_in, point as point_of};

use hb_model::{Expr, Op, Pred, Table};
use hb_types::Value;

// The number of a value, 0 of a text.
pub(crate) fn number_of(value: &Value) -> i128
    ensures { result ≡ number_in value.now }
{
    match value {
        Value::Int(n) => *n,
        Value::Text(_) => 0,
    }
}

/// The key of a row, 0 where it has none.
pub fn key_of(table: &Table, row: &[Value]) -> i128
    ensures { result ≡ key_in table.now row.now }
{
    match row.get(table.key as usize) {
        Some(value) => number_of(value),
        None => 0,
    }
}

/// The name of the key column.
pub fn key_name(table: &Table) -> &[u8]
    ensures { result.now ≡ name_of_key table.now }
{
    match table.columns.as_slice().get(table.key as usize) {
        Some(column) => column.name.as_slice(),
        None => &[],
    }
}

#[tactic(auto, using(crate::proofs::Levels::opened))]
fn key_tested(key: &[u8], op: Op, a: &Expr, b: &Expr) -> Option<i128>
    ensures { result ≡ tested_key key.now op (out-Expr a.now) (out-Expr b.now) }
{
    match op {
        Op::Eq => match a {
            Expr::Name(name) => match b {
                Expr::Int(n) => {
                    if name.as_slice() == key {
                        Some(*n)
                    } else {
                        None
                    }
                }
                _ => None,
            },
            _ => None,
        },
        _ => None,
    }
}

/// The integer of the first member `key = integer` of a list joined by AND at the top.
#[tactic(auto, using(crate::proofs::Levels::members))]
pub fn point_key(key: &[u8], pred: &Pred) -> Option<i128>
    ensures { result ≡ key_tested_in key.now pred.now }
{
    match pred {
        Pred::Test(op, a, b) => key_tested(key, *op, a, b),
        Pred::And(p, q) => match point_key(key, p.get()) {
            Some(n) => Some(n),
            None => point_key(key, q.get()),
        },
        Pred::Not(_) | Pred::Or(_, _) => None,
    }
}

/// The key of a point statement with this condition.
pub fn point(table: &Table, pred: &Option<Pred>) -> Option<i128>
    ensures { result ≡ point_of table.now pred.now }
{
    match pred {
        Some(pred) => point_key(key_name(table), pred),
        None => None,
    }
}
