// The table of a name among the rows of tables.
ghost use Rattle.std.specs.Prelude.{◌≡◌, ℕ, ◌≤◌, pos, Some, None, option_map, IfOk, IfSome, MatchOption};
ghost use Rattle.hb_model.specs.Told.{table_among, found_in};
ghost use Rattle.hb_planrows.specs.PlanRows.{TellsTable, TellTables, IsPlain, named};

use hb_dict::{DictFault, TableDef, read_table};
use hb_model::Table;
use hb_types::{NoMemory, Stored};
use sqlite_items::Items;
use std::alloc::Global;

// A table's number, from the key of its row.
fn number_in(key: i64) -> Option<u16>
    ensures { MatchOption result ((n : ℕ) → n ≤ 65535 → key ≡ pos n → ⊥) (λ n. key ≡ pos n) }
{
    if 0 <= key && key <= 65535 {
        Some(key as u16)
    } else {
        None
    }
}

/// The table that a row tells, with its number. A row that is none is passed over.
pub fn table_in_row(alloc: Global, row: &Stored) -> Result<Option<(u16, Table)>, NoMemory>
    ensures told { TellsTable row.now → IfOk result (λ f. f ≡ found_in row.now) }
    ensures plain { IfOk result (λ f. IfSome f (λ t. IsPlain t.1)) }
{
    let number = match number_in(row.place.key) {
        Some(number) => number,
        None => return Ok(None),
    };
    match read_table(alloc, row.row.as_slice()) {
        Ok(table) => {
            let TableDef {
                name,
                hash: _,
                key,
                columns,
            } = table;
            let rows = Items::new(alloc);
            Ok(Some((
                number,
                Table {
                    name,
                    columns,
                    key,
                    rows,
                },
            )))
        }
        Err(DictFault::NotOfShape) => Ok(None),
        Err(DictFault::NoMemory) => Err(NoMemory),
    }
}

// The table that a row tells, if it is of this name.
fn told_as(alloc: Global, row: &Stored, name: &[u8]) -> Result<Option<(u16, Table)>, NoMemory>
    ensures told { TellsTable row.now → IfOk result (λ f. f ≡ named name.now (found_in row.now)) }
    ensures plain { IfOk result (λ f. IfSome f (λ t. IsPlain t.1)) }
{
    match table_in_row(alloc, row)? {
        Some((number, table)) => {
            if table.name.as_slice() == name {
                Ok(Some((number, table)))
            } else {
                Ok(None)
            }
        }
        None => Ok(None),
    }
}

/// The table of a name among the rows of the dictionary's tables, with its number. Rows that are none are passed over.
pub fn find_table(
    alloc: Global,
    rows: &[Stored],
    name: &[u8],
) -> Result<Option<(u16, Table)>, NoMemory>
    ensures found { TellTables rows.now → IfOk result (λ f. f ≡ table_among rows.now name.now) }
    ensures plain { IfOk result (λ f. IfSome f (λ t. IsPlain t.1)) }
{
    for row in rows {
        match told_as(alloc, row, name)? {
            Some(found) => return Ok(Some(found)),
            None => {}
        }
    }
    Ok(None)
}
