// What is made of a row by assignments.
ghost use Rattle.std.specs.Prelude.{◌≡◌, None, Some, List, ℕ, slice_set, unwrap_or, IfOk, IfErr, OnOk};
ghost use Rattle.hb_types.specs.declared.value.Value.{Value};
ghost use Rattle.hb_model.specs.Rows.{is_long as longer, is_too_long as too_long, value_refusal, put_value as put_at, assigned as assigned_row, assigning_refusal};
ghost use Rattle.hb_model.specs.Values.{place_of as place_in, value_of};
ghost use Rattle.hb_sqlexpr.specs.Seen.{seen};
ghost use Rattle.hb_sqlrow.specs.Refused.{IsReplyOf};

use crate::fault::SetFault;
use hb_model::{Row, Set, Table};
use hb_sqlexpr::{Borrowed, place_of, value_ref};
use hb_types::{Column, Value, copied_items};
use sqlite_items::Items;
use std::alloc::Global;

fn is_long(size: u16, value: Borrowed) -> bool
    ensures { result ≡ longer size (seen value.entry) }
{
    match value {
        Borrowed::Int(_) => false,
        Borrowed::Text(text) => (size as usize) < text.len(),
    }
}

// Whether a value is a text longer than the column of this name.
fn is_too_long(columns: &[Column], name: &[u8], value: Borrowed) -> bool
    ensures { result ≡ too_long columns.now name.now (seen value.entry) }
{
    columns
        .iter()
        .any(|c| c.name.as_slice() == name && is_long(c.size, value))
}

// What an assignment puts into a row.
fn assigning(alloc: Global, table: &Table, set: &Set, row: &[Value]) -> Result<Value, SetFault>
    ensures value { IfOk result (λ v. value_of table.now.columns row.now set.now.value ≡ Some v) }
    ensures accepted { IfOk result (λ v. value_refusal table.now.columns set.now.name (value_of table.now.columns row.now set.now.value) ≡ None) }
    ensures refused { IfErr result (λ e. IsReplyOf e (value_refusal table.now.columns set.now.name (value_of table.now.columns row.now set.now.value))) }
{
    let columns = table.columns.as_slice();
    match value_ref(&set.value, columns, row) {
        Ok(value) => {
            if is_too_long(columns, set.name.as_slice(), value) {
                return Err(SetFault::TooLong);
            }
            Ok(value.copy(alloc)?)
        }
        Err(_) => Err(SetFault::Overflow),
    }
}

fn put_value(row: &mut Row, at: Option<usize>, value: Value)
    ensures { row.new ≡ put_at row.old at (Some value) }
{
    if let Some(at) = at {
        if at < row.as_slice().len() {
            row.set(at, value);
        }
    }
}

/// A row with its assignments, which use its old values.
pub fn assigned(alloc: Global, table: &Table, sets: &[Set], row: &Row) -> Result<Row, SetFault>
    ensures row { IfOk result (λ new. new ≡ assigned_row table.now sets.now row.now) }
    ensures accepted { IfOk result (λ _. assigning_refusal table.now sets.now row.now ≡ None) }
    ensures refused { IfErr result (λ e. IsReplyOf e (assigning_refusal table.now sets.now row.now)) }
{
    let mut new = copied_items(alloc, row)?;
    for set in sets {
        let value = assigning(alloc, table, set, row.as_slice())?;
        put_value(
            &mut new,
            place_of(table.columns.as_slice(), set.name.as_slice()),
            value,
        );
    }
    Ok(new)
}
