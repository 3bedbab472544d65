// Rows of entries.
ghost use Rattle.std.specs.Prelude.{◌≡◌, ℕ, Some, IfOk, IfSome, IfNone, IsErrOf};
ghost use Rattle.hb_types.specs.declared.entry.Entry.{Entry};
ghost use Rattle.hb_types.specs.Rows.{row_bytes};
ghost use Rattle.hb_model.specs.Dictionary.{entry_row as entry_values};
ghost use Rattle.hb_model.specs.Told.{entry_of};
ghost use Rattle.hb_dict.specs.DictionaryRows.{IsEntryRow, AreAreas};

use crate::fault::DictFault;
use crate::row::{area_number, values_of};
use hb_codec::encode_row;
use hb_types::{Bytes, Entry, NoMemory, Value};
use std::alloc::Global;

/// The row of an entry.
pub fn entry_row(alloc: Global, entry: Entry) -> Result<Bytes, NoMemory>
    ensures { IfOk result (λ bytes. bytes ≡ row_bytes (entry_values entry)) }
{
    let (a, b) = match entry {
        Entry::At(a) => (a, 0),
        Entry::Moving(a, b) => (a, b),
    };
    let values = [Value::Int(a as i128), Value::Int(b as i128)];
    encode_row(alloc, &values)
}

// The entry that the values of a row are; area 0 is one of ds, and holds no group.
fn entry_in(values: &[Value]) -> Option<Entry>
    ensures entry { IfSome result (λ e. values.now ≡ entry_values e) }
    ensures areas { IfSome result (λ e. AreAreas e) }
    ensures refused { IfNone result ((e : Entry) → AreAreas e → values.now ≡ entry_values e → ⊥) }
{
    match values {
        [a, b] => match area_number(a) {
            Some(0) => None,
            Some(a) => match area_number(b) {
                Some(0) => Some(Entry::At(a)),
                Some(b) => Some(Entry::Moving(a, b)),
                None => None,
            },
            None => None,
        },
        _ => None,
    }
}

/// The entry that a row tells.
pub fn read_entry(alloc: Global, row: &[u8]) -> Result<Entry, DictFault>
    ensures entry { IfOk result (λ e. IsEntryRow row.now e) }
    ensures told { IfOk result (λ e. entry_of (Some row.now) ≡ Some e) }
    ensures refused { IsErrOf result DictFault.NotOfShape → (e : Entry) → IsEntryRow row.now e → ⊥ }
{
    let values = values_of(alloc, row)?;
    match entry_in(values.as_slice()) {
        Some(entry) => Ok(entry),
        None => Err(DictFault::NotOfShape),
    }
}
