// The tables that rows of the dictionary tell.
ghost use Rattle.std.specs.Prelude.{◌≡◌, filter_map, IfOk};
ghost use Rattle.std.specs.List.{list_any};
ghost use Rattle.std.specs.Str.{bytes_eq};
ghost use Rattle.hb_model.specs.Told.{found_in};
ghost use Rattle.hb_planrows.specs.PlanRows.{TellTables};

use crate::putting::push_some;
use hb_model::Table;
use hb_planrows::table_in_row;
use hb_types::{NoMemory, Stored};
use std::alloc::Global;

/// A table's number, and the table without rows.
pub type Found = (u16, Table);

/// The tables that rows tell. Rows that are none are passed over.
pub fn read_tables(alloc: Global, rows: &[Stored]) -> Result<Vec<Found>, NoMemory>
    ensures { TellTables rows.now → IfOk result (λ tables. tables.items ≡ filter_map found_in rows.now) }
{
    let mut tables = Vec::new(alloc);
    for row in rows {
        push_some(&mut tables, table_in_row(alloc, row)?)?;
    }
    Ok(tables)
}

/// Whether there is a table of this name.
pub(crate) fn has_table(tables: &[Found], name: &[u8]) -> bool
    ensures { result ≡ list_any (λ f. bytes_eq f.1.name name.now) tables.now }
{
    tables.iter().any(|f| f.1.name.as_slice() == name)
}
