// What is shown of rows.
ghost use Rattle.std.specs.Prelude.{◌≡◌, ◌≤ℤ◌, ◌++◌, ◌∷◌, [], pos, negsuc, map, OnOk, filter_map, take, ◌+ℤ◌, fold, unwrap_or, IfOk};
ghost use Rattle.hb_model.specs.Rows.{shown as shown_rows, total as total_of, number_of as number_in};
ghost use Rattle.hb_model.specs.Values.{value_in};
ghost use Rattle.hb_types.specs.declared.value.Value.TheVariants as value;
ghost use Rattle.std.specs.Option.{option_copied};
ghost use Rattle.hb_types.specs.Lists.{Each};
ghost use Rattle.hb_sqlrow.specs.Narrow.{AreNarrow, IsNarrow};

use crate::points::number_of;
use hb_model::{Row, Table, What};
use hb_sqlexpr::place_of;
use hb_types::{Column, NoMemory, Text, Value, copied_items};
use sqlite_items::Items;
use std::alloc::Global;

fn all(alloc: Global, rows: &[&Row]) -> Result<Items<Row>, NoMemory>
    ensures { IfOk result (λ r. r ≡ map (λ x. x.now) rows.now) }
{
    let mut out = Items::new(alloc);
    for row in rows {
        out.push(copied_items(alloc, *row)?)?;
    }
    Ok(out)
}

// The value that stands in the column of this name.
fn value_at<'a>(columns: &[Column], row: &'a [Value], name: &[u8]) -> Option<&'a Value>
    ensures { option_copied result ≡ value_in columns.now row.now name.now }
{
    row.get(place_of(columns, name)?)
}

// The number that stands in the column of this name, 0 where none does.
fn number_at(columns: &[Column], row: &[Value], name: &[u8]) -> i128
    requires { Each IsNarrow row.now }
    ensures number { result ≡ number_in (unwrap_or (value_in columns.now row.now name.now) (value.Int (pos 0))) }
    ensures low { negsuc 2147483647 ≤ℤ result }
    ensures high { result ≤ℤ pos 2147483647 }
{
    match value_at(columns, row, name) {
        Some(value) => number_of(value),
        None => 0,
    }
}

fn put_named(
    alloc: Global,
    out: &mut Row,
    columns: &[Column],
    row: &[Value],
    name: &[u8],
) -> Result<(), NoMemory>
    ensures { OnOk result (out.new ≡ out.old ++ filter_map (value_in columns.now row.now) (name.now ∷ [])) }
{
    match value_at(columns, row, name) {
        Some(value) => out.push(value.copy(alloc)?)?,
        None => {}
    }
    Ok(())
}

// The values in the columns of these names.
fn named(alloc: Global, columns: &[Column], names: &[Text], row: &[Value]) -> Result<Row, NoMemory>
    ensures { IfOk result (λ r. r ≡ filter_map (value_in columns.now row.now) names.now) }
{
    let mut out = Items::new(alloc);
    for name in names {
        put_named(alloc, &mut out, columns, row, name.as_slice())?;
    }
    Ok(out)
}

fn all_named(
    alloc: Global,
    columns: &[Column],
    names: &[Text],
    rows: &[&Row],
) -> Result<Items<Row>, NoMemory>
    ensures { IfOk result (λ r. r ≡ map (λ row. filter_map (value_in columns.now row) names.now) (map (λ x. x.now) rows.now)) }
{
    let mut out = Items::new(alloc);
    for row in rows {
        out.push(named(alloc, columns, names, row.as_slice())?)?;
    }
    Ok(out)
}

// The sum over the rows, in 128 bits.
fn total(columns: &[Column], name: &[u8], rows: &[&Row]) -> i128
    requires { AreNarrow (map (λ x. x.now) rows.now) }
    ensures { result ≡ total_of columns.now name.now (map (λ x. x.now) rows.now) }
{
    let mut sum = 0;
    for row in rows {
        sum += number_at(columns, row.as_slice(), name);
    }
    sum
}

// One row of one number.
fn single(alloc: Global, number: i128) -> Result<Items<Row>, NoMemory>
    ensures { IfOk result (λ r. r ≡ (value.Int number ∷ []) ∷ []) }
{
    let mut row = Items::new(alloc);
    row.push(Value::Int(number))?;
    let mut rows = Items::new(alloc);
    rows.push(row)?;
    Ok(rows)
}

/// The rows of a SELECT that chose these.
pub fn shown(
    alloc: Global,
    table: &Table,
    what: &What,
    rows: &[&Row],
) -> Result<Items<Row>, NoMemory>
    requires { AreNarrow (map (λ x. x.now) rows.now) }
    ensures { IfOk result (λ r. r ≡ shown_rows table.now what.now (map (λ x. x.now) rows.now)) }
{
    let columns = table.columns.as_slice();
    match what {
        What::All => all(alloc, rows),
        What::Names(names) => all_named(alloc, columns, names.as_slice(), rows),
        What::Count => single(alloc, rows.len() as i128),
        What::Sum(name) => single(alloc, total(columns, name.as_slice(), rows)),
    }
}
