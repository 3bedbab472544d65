// Tables with their rows.

use hb_types::{Column, Text, Value};
use sqlite_items::Items;

/// A row, seen as the list of its values.
pub type Row = Items<Value>;

/// A table with its rows in ascending key order.
#[derive(Drop)]
pub struct Table {
    pub name: Text,
    pub columns: Items<Column>,
    pub key: u8,
    pub rows: Items<Row>,
}
