// Why an INSERT is refused.
ghost use Rattle.std.specs.Prelude.{◌≡◌, true, None, [], ◌∷◌, length, ◌==◌, ◌&&◌, not, IfOk};
ghost use Rattle.std.specs.List.{list_any, list_all, zip};
ghost use Rattle.hb_types.specs.Numbers.{is_integer};
ghost use Rattle.hb_types.specs.Rows.{row_bytes, IsRow};
ghost use Rattle.hb_model.specs.declared.reply.Reply.TheVariants as reply;
ghost use Rattle.hb_planrows.specs.PlanRows.{IsPlain};
ghost use Rattle.std.specs.Ordering.{int_eq};
ghost use Rattle.hb_model.specs.Kinds.{same_kind, kind_of_column, kind_of_value};
ghost use Rattle.hb_model.specs.Refusals.{first_refusal, insert_refusals, values_typed, is_outside as outside};
ghost use Rattle.hb_model.specs.Rows.{is_long as long, key_of as key_in};

use hb_codec::encode_row;
use hb_model::{Reply, Table};
use hb_sqlrow::key_of;
use hb_types::{Bytes, Column, NoMemory, Value};
use std::alloc::Global;

// Whether a value is of a column's kind.
fn is_of_kind(column: &Column, value: &Value) -> bool
    ensures { result ≡ same_kind (kind_of_column column.now) (kind_of_value value.now) }
{
    match value {
        Value::Int(_) => column.size == 0,
        Value::Text(_) => column.size != 0,
    }
}

fn are_of_kind(columns: &[Column], values: &[Value]) -> bool
    ensures { result ≡ list_all (λ p. same_kind (kind_of_column p.0) (kind_of_value p.1)) (zip columns.now values.now) }
{
    columns
        .iter()
        .zip(values.iter())
        .all(|(column, value)| is_of_kind(column, value))
}

fn is_outside(value: &Value) -> bool
    ensures { result ≡ outside value.now }
{
    match value {
        Value::Int(n) => !(-2_147_483_648 <= *n && *n <= 2_147_483_647),
        Value::Text(_) => false,
    }
}

fn is_long(size: u16, value: &Value) -> bool
    ensures { result ≡ long size value.now }
{
    match value {
        Value::Int(_) => false,
        Value::Text(text) => (size as usize) < text.as_slice().len(),
    }
}

fn are_long(columns: &[Column], values: &[Value]) -> bool
    ensures { result ≡ list_any (λ p. long p.0.size p.1) (zip columns.now values.now) }
{
    columns
        .iter()
        .zip(values.iter())
        .any(|(column, value)| is_long(column.size, value))
}

fn is_taken(table: &Table, key: i128) -> bool
    ensures { result ≡ list_any (λ row. int_eq (key_in table.now row) key) table.now.rows }
{
    table
        .rows
        .as_slice()
        .iter()
        .any(|row| key_of(table, row.as_slice()) == key)
}

// The first refusal of four tests.
fn first_of(mistyped: bool, outside: bool, long: bool, taken: bool) -> Option<Reply>
    ensures { result ≡ first_refusal ((mistyped, reply.WrongType) ∷ (outside, reply.Overflow) ∷ (long, reply.TooLong) ∷ (taken, reply.KeyTaken) ∷ []) }
{
    if mistyped {
        Some(Reply::WrongType)
    } else if outside {
        Some(Reply::Overflow)
    } else if long {
        Some(Reply::TooLong)
    } else if taken {
        Some(Reply::KeyTaken)
    } else {
        None
    }
}

fn are_typed(columns: &[Column], values: &[Value]) -> bool
    ensures { result ≡ ((length values.now == length columns.now) && list_all (λ p. same_kind (kind_of_column p.0) (kind_of_value p.1)) (zip columns.now values.now)) }
{
    values.len() == columns.len() && are_of_kind(columns, values)
}

fn is_mistyped(table: &Table, values: &[Value]) -> bool
    ensures { result ≡ not (values_typed table.now values.now) }
{
    !are_typed(table.columns.as_slice(), values)
}

fn is_too_long(table: &Table, values: &[Value]) -> bool
    ensures { result ≡ list_any (λ p. long p.0.size p.1) (zip table.now.columns values.now) }
{
    are_long(table.columns.as_slice(), values)
}

fn is_key_taken(table: &Table, values: &[Value]) -> bool
    ensures { result ≡ list_any (λ row. int_eq (key_in table.now row) (key_in table.now values.now)) table.now.rows }
{
    is_taken(table, key_of(table, values))
}

fn are_outside(values: &[Value]) -> bool
    ensures { result ≡ list_any outside values.now }
{
    values.iter().any(|value| is_outside(value))
}

/// The first refusal of an INSERT of these values into a table.
pub fn insert_refusal(table: &Table, values: &[Value]) -> Option<Reply>
    ensures { result ≡ first_refusal (insert_refusals table.now values.now) }
{
    first_of(
        is_mistyped(table, values),
        are_outside(values),
        is_too_long(table, values),
        is_key_taken(table, values),
    )
}

#[tactic(auto, using(std::proofs::lemmas::Int::ints))]
fn narrow(n: i128) -> i32
    requires { is_integer n ≡ true }
    ensures { result ≡ n }
{
    n as i32
}

/// The key of values that a table takes as a row.
#[tactic(auto, using(crate::proofs::Accepted::key_within))]
pub fn inserted_key(table: &Table, values: &[Value]) -> i32
    requires { first_refusal (insert_refusals table.now values.now) ≡ None }
    ensures { result ≡ key_in table.now values.now }
{
    narrow(key_of(table, values))
}

/// The bytes of values that a table takes as a row.
#[tactic(auto, using(crate::proofs::Accepted::have_row, crate::proofs::RowSizes::is_row))]
pub fn inserted_row(alloc: Global, table: &Table, values: &[Value]) -> Result<Bytes, NoMemory>
    requires plain { IsPlain table.now }
    requires accepted { first_refusal (insert_refusals table.now values.now) ≡ None }
    ensures row { IfOk result (λ bytes. bytes ≡ row_bytes values.now) }
    ensures sound { IfOk result IsRow }
{
    encode_row(alloc, values)
}
