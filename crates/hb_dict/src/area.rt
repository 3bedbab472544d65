// Rows of areas and of members.
ghost use Rattle.std.specs.Prelude.{◌≡◌, ℕ, ◌≤◌, ◌/◌, ◌∷◌, [], pos, length, Option, Some, None, option_map, option_and_then, if◌then◌else◌, IfOk, IfSome, IfNone, IsErrOf};
ghost use Rattle.std.specs.Ordering.{int_eq};
ghost use Rattle.hb_types.specs.declared.value.Value.TheVariants as value_is;
ghost use Rattle.hb_types.specs.Rows.{row_bytes, values_in};
ghost use Rattle.hb_model.specs.Dictionary.{area_row as area_values, member_row as member_values, area_in, member_in};
ghost use Rattle.hb_dict.specs.DictionaryRows.{IsAreaRow, IsMemberRow};
ghost use Rattle.hb_dict.specs.declared.area.AreaDef.{AreaDef};

use crate::fault::DictFault;
use crate::row::{area_number, small, values_of};
use hb_codec::encode_row;
use hb_types::{Bytes, NoMemory, Text, Value};
use std::alloc::Global;

/// An area: its name and the number of its back end.
#[derive(Debug, Drop)]
pub struct AreaDef {
    pub name: Text,
    pub bes: u8,
}

/// The row of an area.
pub fn area_row(alloc: Global, name: &Text, bes: u8) -> Result<Bytes, NoMemory>
    requires { length name.now ≤ 30 }
    ensures row { IfOk result (λ bytes. (number : ℕ) → number / 256 ≡ bes → bytes ≡ row_bytes (area_values (record { number = number; name = name.now }))) }
    ensures read { IfOk result (λ bytes. IsAreaRow bytes (record { name = name.now; bes = bes })) }
{
    let name = name.copy(alloc)?;
    let values = [Value::Text(name), Value::Int(bes as i128)];
    encode_row(alloc, &values)
}

/// The row of a member of a table.
pub fn member_row(alloc: Global, area: u16) -> Result<Bytes, NoMemory>
    ensures row { IfOk result (λ bytes. bytes ≡ row_bytes (member_values area)) }
    ensures read { IfOk result (λ bytes. IsMemberRow bytes area) }
{
    let values = [Value::Int(area as i128)];
    encode_row(alloc, &values)
}

// The area that the values of a row are.
fn area_of(alloc: Global, values: &[Value]) -> Result<AreaDef, DictFault>
    ensures area { IfOk result (λ d. values.now ≡ value_is.Text d.name ∷ value_is.Int (pos d.bes) ∷ []) }
    ensures number { IfOk result (λ d. d.bes ≤ 255) }
    ensures refused { IsErrOf result DictFault.NotOfShape → (d : AreaDef) → d.bes ≤ 255 → values.now ≡ value_is.Text d.name ∷ value_is.Int (pos d.bes) ∷ [] → ⊥ }
{
    match values {
        [Value::Text(name), number] => match small(number) {
            Some(bes) => {
                let name = name.copy(alloc)?;
                Ok(AreaDef { name, bes })
            }
            None => Err(DictFault::NotOfShape),
        },
        _ => Err(DictFault::NotOfShape),
    }
}

/// The area that a row tells.
pub fn read_area(alloc: Global, row: &[u8]) -> Result<AreaDef, DictFault>
    ensures area { IfOk result (λ d. IsAreaRow row.now d) }
    ensures told { IfOk result (λ d. (number : ℕ) → option_and_then (area_in number) (values_in row.now) ≡ (if int_eq (pos d.bes) (pos (number / 256)) then Some (record { number = number; name = d.name }) else None)) }
    ensures refused { IsErrOf result DictFault.NotOfShape → (d : AreaDef) → IsAreaRow row.now d → ⊥ }
{
    let values = values_of(alloc, row)?;
    area_of(alloc, values.as_slice())
}

// The area that the values of a member's row are.
fn member_of(values: &[Value]) -> Option<u16>
    ensures area { IfSome result (λ area. values.now ≡ member_values area) }
    ensures refused { IfNone result ((area : ℕ) → area ≤ 65535 → values.now ≡ member_values area → ⊥) }
{
    match values {
        [number] => area_number(number),
        _ => None,
    }
}

/// The area that a member's row tells.
pub fn read_member(alloc: Global, row: &[u8]) -> Result<u16, DictFault>
    ensures member { IfOk result (λ area. IsMemberRow row.now area) }
    ensures told { IfOk result (λ area. option_and_then member_in (values_in row.now) ≡ Some area) }
    ensures refused { IsErrOf result DictFault.NotOfShape → (area : ℕ) → IsMemberRow row.now area → ⊥ }
{
    let values = values_of(alloc, row)?;
    match member_of(values.as_slice()) {
        Some(area) => Ok(area),
        None => Err(DictFault::NotOfShape),
    }
}
