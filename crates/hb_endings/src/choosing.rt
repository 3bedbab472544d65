// The rows that a condition chooses.
ghost use Rattle.std.specs.Prelude.{◌≡◌, true, false, map, IfOk, IsErrOf};
ghost use Rattle.hb_model.specs.Rows.{outside, overflows, point as point_of};
ghost use Rattle.hb_talk.specs.Plans.{with_lying};
ghost use Rattle.hb_endings.specs.Rows.{chosen_of};

use hb_model::{Pred, Row, Table};
use hb_planrows::Lying;
use hb_sqlexpr::ExprFault;
use hb_sqlrow::{chooses, point};
use hb_types::NoMemory;
use sqlite_items::Items;
use std::alloc::Global;

// Whether the key of a point statement is outside INTEGER.
pub(crate) fn is_outside(table: &Table, pred: &Option<Pred>) -> bool
    ensures { result ≡ outside (point_of table.now pred.now) }
{
    match point(table, pred) {
        Some(key) => !(-2_147_483_648 <= key && key <= 2_147_483_647),
        None => false,
    }
}

/// Those of the rows that a condition chooses, in their order.
pub(crate) fn chosen<'a>(
    alloc: Global,
    table: &Table,
    pred: &Option<Pred>,
    rows: &'a [Lying],
) -> Result<Items<&'a Lying>, ExprFault>
    ensures chosen { IfOk result (λ found. map (λ l. l.now) found ≡ chosen_of table.now pred.now rows.now) }
    ensures told { IfOk result (λ _. overflows (with_lying table.now rows.now) pred.now ≡ false) }
    ensures overflow { IsErrOf result ExprFault.Overflow → overflows (with_lying table.now rows.now) pred.now ≡ true }
{
    if is_outside(table, pred) {
        return Err(ExprFault::Overflow);
    }
    let mut found = Items::new(alloc);
    for l in rows {
        if chooses(table, pred, l.1.as_slice())? {
            found.push(l)?;
        }
    }
    Ok(found)
}

// The rows without their places.
pub(crate) fn rows_of<'a>(alloc: Global, found: &[&'a Lying]) -> Result<Vec<&'a Row>, NoMemory>
    ensures { IfOk result (λ rows. map (λ row. row.now) rows.items ≡ map (λ l. l.1) (map (λ l. l.now) found.now)) }
{
    let mut rows = Vec::new(alloc);
    for l in found {
        rows.push(&l.1)?;
    }
    Ok(rows)
}
