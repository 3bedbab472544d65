//! The rows of the dictionary: areas, tables, members and entries, both ways.
#![tactic(auto)]

mod area;
mod columns;
mod entry;
mod fault;
mod row;
mod table;

pub use area::{AreaDef, area_row, member_row, read_area, read_member};
pub use entry::{entry_row, read_entry};
pub use fault::DictFault;
pub use table::{TableDef, read_table, table_row};
