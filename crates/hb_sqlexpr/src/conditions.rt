// The truth of a condition at a row.
ghost use Rattle.std.specs.Prelude.{◌≡◌, Some, None, IfOk, OnErr, ◌&&◌, ◌||◌};
ghost use Rattle.hb_sqlexpr.specs.Seen.{seen};
ghost use Rattle.hb_model.specs.Values.{value_cmp, agrees as agrees_with, both, holds_at, value_of};

use crate::borrowed::Borrowed;
use crate::expressions::evaluated;
use crate::fault::Overflow;
use hb_model::{Expr, Op, Pred};
use hb_types::{Column, Value};
use std::cmp::Ordering;

// Texts compare by bytes, a prefix first.
fn compare(a: Borrowed, b: Borrowed) -> Ordering
    ensures { result ≡ value_cmp (seen a.entry) (seen b.entry) }
{
    match a {
        Borrowed::Int(a) => match b {
            Borrowed::Int(b) => a.cmp(&b),
            Borrowed::Text(_) => Ordering::Less,
        },
        Borrowed::Text(a) => match b {
            Borrowed::Int(_) => Ordering::Greater,
            Borrowed::Text(b) => a.cmp(b),
        },
    }
}

fn agrees(op: Op, order: Ordering) -> bool
    ensures { result ≡ agrees_with op order }
{
    match op {
        Op::Eq => order.is_eq(),
        Op::Ne => order.is_ne(),
        Op::Lt => order.is_lt(),
        Op::Le => order.is_le(),
        Op::Gt => order.is_gt(),
        Op::Ge => order.is_ge(),
    }
}

fn tested(op: Op, a: &Expr, b: &Expr, columns: &[Column], row: &[Value]) -> Option<bool>
    ensures { result ≡ both (λ x y. Some (agrees_with op (value_cmp x y))) (value_of columns.now row.now a.now) (value_of columns.now row.now b.now) }
{
    let a = evaluated(a, columns, row);
    let b = evaluated(b, columns, row);
    Some(agrees(op, compare(a?, b?)))
}

// Both truths, where both are there.
fn and(p: Option<bool>, q: Option<bool>) -> Option<bool>
    ensures { result ≡ both (λ x y. Some (x && y)) p q }
{
    let p = p?;
    let q = q?;
    Some(p && q)
}

fn or(p: Option<bool>, q: Option<bool>) -> Option<bool>
    ensures { result ≡ both (λ x y. Some (x || y)) p q }
{
    let left = p?;
    let right = q?;
    Some(left || right)
}

// The truth of a condition; none where a number on the way is outside INTEGER.
#[tactic(auto, using(crate::proofs::Levels::truths))]
pub(crate) fn truth(pred: &Pred, columns: &[Column], row: &[Value]) -> Option<bool>
    ensures { result ≡ holds_at columns.now row.now pred.now }
{
    match pred {
        Pred::Test(op, a, b) => tested(*op, a, b, columns, row),
        Pred::Not(p) => truth(p.get(), columns, row).map(|p| !p),
        Pred::And(p, q) => and(truth(p.get(), columns, row), truth(q.get(), columns, row)),
        Pred::Or(p, q) => or(truth(p.get(), columns, row), truth(q.get(), columns, row)),
    }
}

/// Whether a condition holds at a row. Every part is evaluated, from left to right, both sides of AND and OR too.
pub fn holds(pred: &Pred, columns: &[Column], row: &[Value]) -> Result<bool, Overflow>
    ensures truth { IfOk result (λ b. holds_at columns.now row.now pred.now ≡ Some b) }
    ensures overflow { OnErr result (holds_at columns.now row.now pred.now ≡ None) }
{
    match truth(pred, columns, row) {
        Some(truth) => Ok(truth),
        None => Err(Overflow),
    }
}
