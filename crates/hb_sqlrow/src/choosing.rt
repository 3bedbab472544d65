// The rows that a condition chooses.
ghost use Rattle.std.specs.Prelude.{◌≡◌, Bool, true, false, not, ◌&&◌, map, is_none, IfOk, OnErr, IsErrOf};
ghost use Rattle.hb_model.specs.Rows.{truth as truth_at, is_keyed as keyed_by, considers, chooses as chooses_row, chosen as chosen_rows, outside, overflows, point as point_of};

use crate::points::{key_of, point};
use hb_model::{Pred, Row, Table};
use hb_sqlexpr::{ExprFault, Overflow, holds};
use hb_types::Value;
use sqlite_items::Items;
use std::alloc::Global;

fn truth(table: &Table, pred: &Option<Pred>, row: &[Value]) -> Result<bool, Overflow>
    ensures truth { IfOk result (λ b. truth_at table.now pred.now row.now ≡ Some b) }
    ensures overflow { OnErr result (truth_at table.now pred.now row.now ≡ None) }
{
    match pred {
        Some(pred) => holds(pred, table.columns.as_slice(), row),
        None => Ok(true),
    }
}

fn is_keyed(table: &Table, point: Option<i128>, row: &[Value]) -> bool
    ensures { result ≡ keyed_by table.now point row.now }
{
    match point {
        Some(key) => key_of(table, row) == key,
        None => true,
    }
}

fn is_outside(point: Option<i128>) -> bool
    ensures { result ≡ outside point }
{
    match point {
        Some(key) => !(-2_147_483_648 <= key && key <= 2_147_483_647),
        None => false,
    }
}

fn chooses_at(
    table: &Table,
    point: Option<i128>,
    pred: &Option<Pred>,
    row: &[Value],
) -> Result<bool, Overflow>
    requires { point ≡ point_of table.now pred.now }
    ensures chosen { IfOk result (λ b. b ≡ chooses_row table.now pred.now row.now) }
    ensures told { IfOk result (λ _. (considers table.now pred.now row.now && is_none (truth_at table.now pred.now row.now)) ≡ false) }
    ensures overflow { OnErr result ((considers table.now pred.now row.now && is_none (truth_at table.now pred.now row.now)) ≡ true) }
{
    if is_keyed(table, point, row) {
        truth(table, pred, row)
    } else {
        Ok(false)
    }
}

/// Whether a condition chooses a row.
pub fn chooses(table: &Table, pred: &Option<Pred>, row: &[Value]) -> Result<bool, Overflow>
    ensures chosen { IfOk result (λ b. b ≡ chooses_row table.now pred.now row.now) }
    ensures told { IfOk result (λ _. (considers table.now pred.now row.now && is_none (truth_at table.now pred.now row.now)) ≡ false) }
    ensures overflow { OnErr result ((considers table.now pred.now row.now && is_none (truth_at table.now pred.now row.now)) ≡ true) }
{
    chooses_at(table, point(table, pred), pred, row)
}

/// Those of the rows that a condition chooses, in their order.
pub fn chosen<'a>(
    alloc: Global,
    table: &Table,
    pred: &Option<Pred>,
    rows: &'a [Row],
) -> Result<Items<&'a Row>, ExprFault>
    ensures chosen { IfOk result (λ found. map (λ r. r.now) found ≡ chosen_rows (record table.now { rows = rows.now }) pred.now) }
    ensures told { IfOk result (λ _. overflows (record table.now { rows = rows.now }) pred.now ≡ false) }
    ensures overflow { IsErrOf result ExprFault.Overflow → overflows (record table.now { rows = rows.now }) pred.now ≡ true }
{
    let key = point(table, pred);
    if is_outside(key) {
        return Err(ExprFault::Overflow);
    }
    let mut found = Items::new(alloc);
    for row in rows {
        if chooses_at(table, key, pred, row.as_slice())? {
            found.push(row)?;
        }
    }
    Ok(found)
}
