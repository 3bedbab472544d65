// Rows that fit their table.
ghost use Rattle.std.specs.Prelude.{◌≡◌, true, false, IfOk, OnOk};
ghost use Rattle.hb_types.specs.Lists.{Each};
ghost use Rattle.hb_types.specs.Places.{IsPlace};
ghost use Rattle.hb_model.specs.Valid.{Fits, FitsAll};
ghost use Rattle.hb_talk.specs.Plans.{lying_rows};
ghost use Rattle.hb_endings.specs.Rows.{AreOf, IsAtServer, IsFit, Suits};
ghost use Rattle.hb_endings.specs.Kept.{Keeps};

use hb_model::Table;
use hb_planrows::{Lying, rows_lying};
use hb_types::{Column, NoMemory, Place, Stored, Value};
use std::alloc::Global;

// Whether a column takes a value.
fn is_fit(column: &Column, value: &Value) -> bool
    ensures yes_where { result ≡ true → Fits column.now value.now }
    ensures not_where { result ≡ false → Fits column.now value.now → ⊥ }
{
    match value {
        Value::Int(n) => column.size == 0 && -2_147_483_648 <= *n && *n <= 2_147_483_647,
        Value::Text(text) => column.size != 0 && text.as_slice().len() <= column.size as usize,
    }
}

// Whether a table with these columns takes values as a row.
fn are_fit(columns: &[Column], values: &[Value]) -> bool
    ensures yes_where { result ≡ true → FitsAll columns.now values.now }
    ensures not_where { result ≡ false → FitsAll columns.now values.now → ⊥ }
{
    match columns {
        [column, columns @ ..] => match values {
            [value, values @ ..] => is_fit(column, value) && are_fit(columns, values),
            [] => false,
        },
        [] => values.is_empty(),
    }
}

// Whether a place is in an area of ds or of a back end.
fn is_at_server(place: Place) -> bool
    ensures yes_where { result ≡ true → IsPlace place × IsAtServer place }
    ensures not_where { result ≡ false → IsAtServer place → ⊥ }
{
    place.space.area < 2304
}

fn suits(table: &Table, l: &Lying) -> bool
    ensures yes_where { result ≡ true → IsFit table.now l.now }
    ensures not_where { result ≡ false → Suits table.now l.now → ⊥ }
{
    is_at_server(l.0) && are_fit(table.columns.as_slice(), l.1.as_slice())
}

// Adds a row, if it suits.
fn keep(table: &Table, kept: &mut Vec<Lying>, l: Lying) -> Result<(), NoMemory>
    ensures { OnOk result (Keeps table.now l kept.old.items kept.new.items) }
{
    if suits(table, &l) {
        kept.push(l)?;
    }
    Ok(())
}

// Those of the rows that suit.
fn all_kept(alloc: Global, table: &Table, rows: Vec<Lying>) -> Result<Vec<Lying>, NoMemory>
    ensures fit { IfOk result (λ kept. Each (IsFit table.now) kept.items) }
    ensures all { Each (Suits table.now) rows.items → IfOk result (λ kept. kept.items ≡ rows.items) }
{
    let mut kept = Vec::new(alloc);
    for l in rows {
        keep(table, &mut kept, l)?;
    }
    Ok(kept)
}

/// The rows with their places, by ascending key. One that doesn't fit the table, or lies at no server, is passed over.
pub(crate) fn rows_fitting(
    alloc: Global,
    table: &Table,
    rows: &[Stored],
) -> Result<Vec<Lying>, NoMemory>
    ensures fit { IfOk result (λ ls. Each (IsFit table.now) ls.items) }
    ensures all { AreOf table.now rows.now → IfOk result (λ ls. ls.items ≡ lying_rows rows.now) }
{
    all_kept(alloc, table, rows_lying(alloc, rows)?)
}
