// The value of an expression at a row.
ghost use Rattle.std.specs.Prelude.{◌≡◌, ◌+ℤ◌, ◌-ℤ◌, ◌*ℤ◌, Some, None, option_map, IfOk, OnErr, IsErrOf};
ghost use Rattle.hb_sqlexpr.specs.Seen.{seen};
ghost use Rattle.hb_model.specs.Values.{within as within_integer, both, arithmetic, place_of as place_in, value_in, value_of};

use crate::borrowed::Borrowed;
use crate::fault::{ExprFault, Overflow};
use hb_model::Expr;
use hb_types::{Column, Value};
use std::alloc::Global;

const LEAST: i128 = -2_147_483_648;

const GREATEST: i128 = 2_147_483_647;

// A number where it is within INTEGER.
fn within<'a>(n: i128) -> Option<Borrowed<'a>>
    ensures { option_map seen result ≡ within_integer n }
{
    if LEAST <= n && n <= GREATEST {
        Some(Borrowed::Int(n))
    } else {
        None
    }
}

fn sum<'a>(a: Option<Borrowed<'a>>, b: Option<Borrowed<'a>>) -> Option<Borrowed<'a>>
    ensures { option_map seen result ≡ both (arithmetic ◌+ℤ◌) (option_map seen a.entry) (option_map seen b.entry) }
{
    let a = a?.number()?;
    let b = b?.number()?;
    within(a.checked_add(b)?)
}

fn difference<'a>(a: Option<Borrowed<'a>>, b: Option<Borrowed<'a>>) -> Option<Borrowed<'a>>
    ensures { option_map seen result ≡ both (arithmetic ◌-ℤ◌) (option_map seen a.entry) (option_map seen b.entry) }
{
    let a = a?.number()?;
    let b = b?.number()?;
    within(a.checked_sub(b)?)
}

fn product<'a>(a: Option<Borrowed<'a>>, b: Option<Borrowed<'a>>) -> Option<Borrowed<'a>>
    ensures { option_map seen result ≡ both (arithmetic ◌*ℤ◌) (option_map seen a.entry) (option_map seen b.entry) }
{
    let a = a?.number()?;
    let b = b?.number()?;
    within(a.checked_mul(b)?)
}

/// Where the column of this name stands in a row.
pub fn place_of(columns: &[Column], name: &[u8]) -> Option<usize>
    ensures { result ≡ place_in columns.now name.now }
{
    columns.iter().position(|c| c.name.as_slice() == name)
}

// The value that stands in the column of this name.
fn named<'a>(columns: &[Column], row: &'a [Value], name: &[u8]) -> Option<Borrowed<'a>>
    ensures { option_map seen result ≡ value_in columns.now row.now name.now }
{
    match place_of(columns, name) {
        Some(at) => match row.get(at) {
            Some(value) => Some(Borrowed::of(value)),
            None => None,
        },
        None => None,
    }
}

// The value of an expression; none where a number on the way is outside INTEGER.
#[tactic(auto, using(crate::proofs::Levels::levels))]
pub(crate) fn evaluated<'a>(
    expr: &'a Expr,
    columns: &[Column],
    row: &'a [Value],
) -> Option<Borrowed<'a>>
    ensures { option_map seen result ≡ value_of columns.now row.now expr.now }
{
    match expr {
        Expr::Int(n) => within(*n),
        Expr::Text(text) => Some(Borrowed::Text(text.as_slice())),
        Expr::Name(name) => named(columns, row, name.as_slice()),
        Expr::Neg(a) => difference(Some(Borrowed::Int(0)), evaluated(a.get(), columns, row)),
        Expr::Add(a, b) => sum(
            evaluated(a.get(), columns, row),
            evaluated(b.get(), columns, row),
        ),
        Expr::Sub(a, b) => difference(
            evaluated(a.get(), columns, row),
            evaluated(b.get(), columns, row),
        ),
        Expr::Mul(a, b) => product(
            evaluated(a.get(), columns, row),
            evaluated(b.get(), columns, row),
        ),
    }
}

/// The value of an expression at a row, with its text where that stands.
pub fn value_ref<'a>(
    expr: &'a Expr,
    columns: &[Column],
    row: &'a [Value],
) -> Result<Borrowed<'a>, Overflow>
    ensures value { IfOk result (λ v. value_of columns.now row.now expr.now ≡ Some (seen v)) }
    ensures overflow { OnErr result (value_of columns.now row.now expr.now ≡ None) }
{
    match evaluated(expr, columns, row) {
        Some(value) => Ok(value),
        None => Err(Overflow),
    }
}

/// The value of an expression at a row. Every part is evaluated, from left to right.
pub fn value(
    alloc: Global,
    expr: &Expr,
    columns: &[Column],
    row: &[Value],
) -> Result<Value, ExprFault>
    ensures value { IfOk result (λ v. value_of columns.now row.now expr.now ≡ Some v) }
    ensures overflow { IsErrOf result ExprFault.Overflow → value_of columns.now row.now expr.now ≡ None }
{
    match evaluated(expr, columns, row) {
        Some(value) => Ok(value.copy(alloc)?),
        None => Err(ExprFault::Overflow),
    }
}
