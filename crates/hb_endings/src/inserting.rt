// How an INSERT ends.
ghost use Rattle.std.specs.Prelude.{◌≡◌, ◌≤◌, ◌∷◌, [], None, IfOk};
ghost use Rattle.hb_types.specs.Groups.{target as target_of};
ghost use Rattle.hb_types.specs.Places.{node_of_area, IsPlace};
ghost use Rattle.hb_model.specs.Refusals.{first_refusal, insert_refusals};
ghost use Rattle.hb_model.specs.Rows.{key_of as key_in};
ghost use Rattle.hb_model.specs.Spots.{place_in};
ghost use Rattle.hb_talk.specs.Plans.{putting, with_lying};
ghost use Rattle.hb_planrows.specs.PlanRows.{IsPlain, AreSited, rows_in};
ghost use Rattle.hb_writes.specs.Underway.{IsWrite};
ghost use Rattle.hb_endings.specs.Rows.{AreOf};
ghost use Rattle.hb_endings.specs.Endings.{told, changing, CanWrite, inserted_at, insert_end};

use crate::ending::Ending;
use crate::fitting::rows_fitting;
use hb_groups::group_of;
use hb_model::{Reply, Row, Table};
use hb_planrows::{Lying, insert_refusal, inserted_key, inserted_row};
use hb_types::{Change, Entry, NoMemory, Place, Space, Stored, Value};
use sqlite_items::Items;
use std::alloc::Global;

// The area in which a new row is put.
fn target(entry: Entry) -> u16
    requires { AreSited entry }
    ensures area { result ≡ target_of entry }
    ensures sited { (1 ≤ node_of_area result) × (node_of_area result ≤ 9) }
{
    match entry {
        Entry::At(area) => area,
        Entry::Moving(_, to) => to,
    }
}

// The place of a key's row.
fn place_for(area: u16, table: u16, key: i32) -> Place
    ensures place { result ≡ place_in area table key }
    ensures sound { IsPlace result }
{
    let key = key as i64;
    Place {
        space: Space { area, table },
        group: group_of(key),
        key,
    }
}

// The change that puts a new row.
fn insertion(
    alloc: Global,
    table: &Table,
    number: u16,
    values: &[Value],
    entry: Entry,
) -> Result<Change, NoMemory>
    requires plain { IsPlain table.now }
    requires sited { AreSited entry }
    requires accepted { first_refusal (insert_refusals table.now values.now) ≡ None }
    ensures change { IfOk result (λ c. c ≡ putting (place_in (target_of entry) number (key_in table.now values.now)) values.now) }
    ensures write { IfOk result IsWrite }
{
    let place = place_for(target(entry), number, inserted_key(table, values));
    let row = inserted_row(alloc, table, values)?;
    Ok(Change {
        place,
        row: Some(row),
    })
}

// The end of one change.
fn writes_one(alloc: Global, change: Change) -> Result<Ending, NoMemory>
    requires { IsWrite change }
    ensures end { IfOk result (λ e. told e ≡ changing (change ∷ []) Reply.Inserted) }
    ensures sound { IfOk result CanWrite }
{
    let mut changes = Vec::new(alloc);
    changes.push(change)?;
    Ok(Ending::Writes(changes, Reply::Inserted))
}

fn insert_row(
    alloc: Global,
    table: &Table,
    number: u16,
    values: &[Value],
    entry: Entry,
) -> Result<Ending, NoMemory>
    requires plain { IsPlain table.now }
    requires sited { AreSited entry }
    ensures end { IfOk result (λ e. told e ≡ inserted_at number table.now values.now entry) }
    ensures sound { IfOk result CanWrite }
{
    match insert_refusal(table, values) {
        Some(refusal) => Ok(Ending::Refused(refusal)),
        None => writes_one(alloc, insertion(alloc, table, number, values, entry)?),
    }
}

// The rows without their places.
fn only_rows(alloc: Global, lying: Vec<Lying>) -> Result<Items<Row>, NoMemory>
    ensures { IfOk result (λ rows. rows ≡ rows_in lying.items) }
{
    let mut rows = Items::new(alloc);
    for (_, row) in lying {
        rows.push(row)?;
    }
    Ok(rows)
}

// The table with these rows in place of its own.
fn with_rows(alloc: Global, table: Table, lying: Vec<Lying>) -> Result<Table, NoMemory>
    ensures { IfOk result (λ t. t ≡ with_lying table lying.items) }
{
    let Table {
        name,
        columns,
        key,
        rows: _,
    } = table;
    Ok(Table {
        name,
        columns,
        key,
        rows: only_rows(alloc, lying)?,
    })
}

/// How an INSERT ends, once the rows of its key are read.
pub fn insert_ending(
    alloc: Global,
    table: Table,
    number: u16,
    values: &[Value],
    entry: Entry,
    rows: &[Stored],
) -> Result<Ending, NoMemory>
    requires plain { IsPlain table }
    requires sited { AreSited entry }
    ensures end { AreOf table rows.now → IfOk result (λ e. told e ≡ insert_end (number, table) values.now entry rows.now) }
    ensures sound { IfOk result CanWrite }
{
    let rows = rows_fitting(alloc, &table, rows)?;
    let table = with_rows(alloc, table, rows)?;
    insert_row(alloc, &table, number, values, entry)
}
