// A row as a record of comma-separated values.
ghost use Rattle.std.specs.Prelude.{◌≡◌, ◌++◌, ◌∷◌, [], OnOk, IfOk};
ghost use Rattle.std.specs.List.{list_any};
ghost use Rattle.hb_print.specs.Records.{wants_quotes, doubled, field_text, value_text, further_fields, record_text};

use crate::put::put;
use hb_types::{NoMemory, Value};
use std::alloc::Global;

fn wants_quotes(field: &[u8]) -> bool
    ensures { result ≡ list_any wants_quotes field.now }
{
    for b in field {
        if *b == b',' || *b == b'"' || *b == b'\r' || *b == b'\n' {
            return true;
        }
    }
    false
}

#[tactic(auto, unfolding(crate::specs::Records::doubled))]
fn put_byte(out: &mut Vec<u8>, b: u8) -> Result<(), NoMemory>
    ensures { OnOk result (out.new.items ≡ out.old.items ++ doubled (b ∷ [])) }
{
    if b == b'"' {
        put(out, b"\"\"")?;
    } else {
        put(out, &[b])?;
    }
    Ok(())
}

fn put_doubled(out: &mut Vec<u8>, field: &[u8]) -> Result<(), NoMemory>
    ensures { OnOk result (out.new.items ≡ out.old.items ++ doubled field.now) }
{
    for b in field {
        put_byte(out, *b)?;
    }
    Ok(())
}

#[tactic(auto, unfolding(crate::specs::Records::field_text), using(crate::proofs::Pieces::pieces))]
fn put_field(out: &mut Vec<u8>, field: &[u8]) -> Result<(), NoMemory>
    ensures { OnOk result (out.new.items ≡ out.old.items ++ field_text field.now) }
{
    if wants_quotes(field) {
        put(out, b"\"")?;
        put_doubled(out, field)?;
        put(out, b"\"")?;
    } else {
        put(out, field)?;
    }
    Ok(())
}

fn put_value(alloc: Global, out: &mut Vec<u8>, value: &Value) -> Result<(), NoMemory>
    ensures { OnOk result (out.new.items ≡ out.old.items ++ field_text (value_text value.now)) }
{
    match value {
        Value::Int(n) => {
            let text = n.to_string(alloc)?;
            put_field(out, text.as_bytes())?;
        }
        Value::Text(text) => put_field(out, text.as_slice())?,
    }
    Ok(())
}

fn put_further_fields(alloc: Global, out: &mut Vec<u8>, row: &[Value]) -> Result<(), NoMemory>
    ensures { OnOk result (out.new.items ≡ out.old.items ++ further_fields row.now) }
{
    for value in row {
        put(out, b",")?;
        put_value(alloc, out, value)?;
    }
    Ok(())
}

#[tactic(auto, unfolding(crate::specs::Records::record_text), using(crate::proofs::Pieces::pieces))]
pub(crate) fn record_text(alloc: Global, row: &[Value]) -> Result<Vec<u8>, NoMemory>
    ensures { IfOk result (λ v. v.items ≡ record_text row.now) }
{
    let mut out = Vec::new(alloc);
    if let [first, further @ ..] = row {
        put_value(alloc, &mut out, first)?;
        put_further_fields(alloc, &mut out, further)?;
    }
    if out.is_empty() {
        put(&mut out, b"\"\"")?;
    }
    Ok(out)
}
