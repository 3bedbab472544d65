// The values of a row.
ghost use Rattle.std.specs.Prelude.{◌≡◌, ℕ, ◌≤◌, pos, List, length, IfOk, IfSome, IfNone, IsErrOf};
ghost use Rattle.hb_types.specs.declared.value.Value.{Value};
ghost use Rattle.hb_types.specs.declared.value.Value.TheVariants as values;
ghost use Rattle.hb_types.specs.Rows.{IsRowOf};

use crate::fault::DictFault;
use hb_codec::{CodecFault, decode_row};
use hb_types::Value;
use sqlite_items::Items;
use std::alloc::Global;

pub(crate) fn values_of(alloc: Global, row: &[u8]) -> Result<Items<Value>, DictFault>
    ensures values { IfOk result (λ vs. IsRowOf row.now vs) }
    ensures refused { IsErrOf result DictFault.NotOfShape → (vs : List Value) → IsRowOf row.now vs → ⊥ }
{
    match decode_row(alloc, row) {
        Ok(values) => Ok(values),
        Err(CodecFault::NotARecord { place: _ }) => Err(DictFault::NotOfShape),
        Err(CodecFault::NoMemory) => Err(DictFault::NoMemory),
    }
}

// A number of a byte.
pub(crate) fn small(value: &Value) -> Option<u8>
    ensures found { IfSome result (λ n. value.now ≡ values.Int (pos n)) }
    ensures none { IfNone result ((n : ℕ) → n ≤ 255 → value.now ≡ values.Int (pos n) → ⊥) }
{
    match value {
        Value::Int(n) => {
            if 0 <= *n && *n <= 255 {
                Some(*n as u8)
            } else {
                None
            }
        }
        Value::Text(_) => None,
    }
}

// An area's number, or 0.
pub(crate) fn area_number(value: &Value) -> Option<u16>
    ensures found { IfSome result (λ n. value.now ≡ values.Int (pos n)) }
    ensures none { IfNone result ((n : ℕ) → n ≤ 65535 → value.now ≡ values.Int (pos n) → ⊥) }
{
    match value {
        Value::Int(n) => {
            if 0 <= *n && *n <= 65535 {
                Some(*n as u16)
            } else {
                None
            }
        }
        Value::Text(_) => None,
    }
}
