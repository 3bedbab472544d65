// Rows of tables.
ghost use Rattle.std.specs.Prelude.{◌≡◌, ◌≤◌, true, false, Some, length, option_and_then, IfOk, IsErrOf};
ghost use Rattle.hb_types.specs.Lists.{Each};
ghost use Rattle.hb_types.specs.Rows.{row_bytes, values_in};
ghost use Rattle.hb_model.specs.Dictionary.{table_row as values_of_table, table_in};
ghost use Rattle.hb_dict.specs.declared.table.TableDef.{TableDef};
ghost use Rattle.hb_dict.specs.DictionaryRows.{IsTaken, IsTableRow, AreTable, table_told, table_values};

use crate::columns::{columns_of, put_columns};
use crate::fault::DictFault;
use crate::row::{small, values_of};
use hb_codec::encode_row;
use hb_types::{Bytes, Column, NoMemory, Text, Value};
use sqlite_items::Items;
use std::alloc::Global;

/// A table without its rows: hash 1 is HASHA, the key is a column's position from 0.
#[derive(Debug, Drop)]
pub struct TableDef {
    pub name: Text,
    pub hash: u8,
    pub key: u8,
    pub columns: Items<Column>,
}

fn values_in_row(alloc: Global, table: &TableDef) -> Result<Items<Value>, NoMemory>
    ensures { IfOk result (λ values. values ≡ table_values table.now) }
{
    let mut values = Items::new(alloc);
    values.push(Value::Text(table.name.copy(alloc)?))?;
    values.push(Value::Int(table.hash as i128))?;
    values.push(Value::Int(table.key as i128))?;
    put_columns(alloc, &mut values, table.columns.as_slice())?;
    Ok(values)
}

/// The row of a table.
pub fn table_row(alloc: Global, table: &TableDef) -> Result<Bytes, NoMemory>
    requires taken { IsTaken table.now }
    requires named { length table.now.name ≤ 30 }
    requires columns_named { Each (λ c. length c.name ≤ 30) table.now.columns }
    ensures row { IfOk result (λ bytes. bytes ≡ row_bytes (values_of_table (table_told table.now))) }
    ensures read { IfOk result (λ bytes. IsTableRow bytes table.now) }
{
    let values = values_in_row(alloc, table)?;
    encode_row(alloc, values.as_slice())
}

// Whether CREATE TABLE takes a definition, where the sizes of its columns are in their limit.
fn is_taken(table: &TableDef) -> bool
    ensures taken { result ≡ true → Each (λ c. c.size ≤ 255) table.now.columns → IsTaken table.now }
    ensures not_taken { result ≡ false → IsTaken table.now → ⊥ }
{
    let columns = table.columns.as_slice();
    match columns.get(table.key as usize) {
        Some(key) => table.hash == 1 && columns.len() <= 16 && key.size == 0,
        None => false,
    }
}

// The table that the values of a row are, whether CREATE TABLE takes it or not.
fn table_of(alloc: Global, values: &[Value]) -> Result<TableDef, DictFault>
    ensures table { IfOk result (λ d. AreTable values.now d) }
    ensures refused { IsErrOf result DictFault.NotOfShape → (d : TableDef) → AreTable values.now d → ⊥ }
{
    match values {
        [Value::Text(name), hash, key, rest @ ..] => match small(hash) {
            Some(hash) => match small(key) {
                Some(key) => {
                    let columns = columns_of(alloc, rest)?;
                    let name = name.copy(alloc)?;
                    Ok(TableDef {
                        name,
                        hash,
                        key,
                        columns,
                    })
                }
                None => Err(DictFault::NotOfShape),
            },
            None => Err(DictFault::NotOfShape),
        },
        _ => Err(DictFault::NotOfShape),
    }
}

/// The table that a row tells.
pub fn read_table(alloc: Global, row: &[u8]) -> Result<TableDef, DictFault>
    ensures table { IfOk result (λ d. IsTableRow row.now d) }
    ensures told { IfOk result (λ d. option_and_then table_in (values_in row.now) ≡ Some (table_told d)) }
    ensures refused { IsErrOf result DictFault.NotOfShape → (d : TableDef) → IsTableRow row.now d → ⊥ }
{
    let values = values_of(alloc, row)?;
    let table = table_of(alloc, values.as_slice())?;
    if is_taken(&table) {
        Ok(table)
    } else {
        Err(DictFault::NotOfShape)
    }
}
