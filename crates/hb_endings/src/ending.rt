// How statements end that read their rows.
ghost use Rattle.std.specs.Prelude.{◌≡◌, true, map, IfOk};
ghost use Rattle.std.specs.List.{list_all};
ghost use Rattle.hb_types.specs.Lists.{Each};
ghost use Rattle.hb_model.specs.Refusals.{is_assignable as assignable};
ghost use Rattle.hb_model.specs.Rows.{shown as shown_rows};
ghost use Rattle.hb_planrows.specs.PlanRows.{IsPlain, rows_in};
ghost use Rattle.hb_endings.specs.Rows.{AreOf, IsFit};
ghost use Rattle.hb_endings.specs.Endings.{told, CanWrite, selecting, deleting, updating, assigning, select_end, delete_end, update_end};

use crate::changes::{removals, updates};
use crate::choosing::{chosen, rows_of};
use crate::fitting::rows_fitting;
use crate::updates::update_check;
use hb_model::{Pred, Reply, Row, Set, Table, What};
use hb_planrows::Lying;
use hb_sqlcheck::select_check;
use hb_sqlexpr::ExprFault;
use hb_sqlrow::{SetFault, shown};
use hb_types::{Change, NoMemory, Stored};
use sqlite_items::Items;
use std::alloc::Global;

/// How a statement ends.
#[derive(Drop)]
pub enum Ending {
    Refused(Reply),
    Replied(Reply),
    /// Changes that are to be written, and the reply then.
    Writes(Vec<Change>, Reply),
}

// What is shown of rows.
fn show(alloc: Global, table: &Table, what: &What, found: &[&Lying]) -> Result<Items<Row>, NoMemory>
    requires { Each (IsFit table.now) (map (λ l. l.now) found.now) }
    ensures { IfOk result (λ rows. rows ≡ shown_rows table.now what.now (rows_in (map (λ l. l.now) found.now))) }
{
    let rows = rows_of(alloc, found)?;
    shown(alloc, table, what, rows.as_slice())
}

fn select_rows(
    alloc: Global,
    table: &Table,
    what: &What,
    pred: &Option<Pred>,
    rows: &[Lying],
) -> Result<Ending, NoMemory>
    requires { Each (IsFit table.now) rows.now }
    ensures { IfOk result (λ e. told e ≡ selecting table.now what.now pred.now rows.now) }
{
    if let Some(refusal) = select_check(table, what, pred) {
        return Ok(Ending::Refused(refusal));
    }
    match chosen(alloc, table, pred, rows) {
        Ok(found) => Ok(Ending::Replied(Reply::Rows(show(alloc, table, what, found.as_slice())?))),
        Err(ExprFault::Overflow) => Ok(Ending::Refused(Reply::Overflow)),
        Err(ExprFault::NoMemory) => Err(NoMemory),
    }
}

/// How a SELECT ends, once the rows that it considers are read.
pub fn select_ending(
    alloc: Global,
    table: &Table,
    what: &What,
    pred: &Option<Pred>,
    rows: &[Stored],
) -> Result<Ending, NoMemory>
    ensures end { AreOf table.now rows.now → IfOk result (λ e. told e ≡ select_end table.now what.now pred.now rows.now) }
    ensures sound { IfOk result CanWrite }
{
    let rows = rows_fitting(alloc, table, rows)?;
    select_rows(alloc, table, what, pred, rows.as_slice())
}

fn delete_rows(
    alloc: Global,
    table: &Table,
    pred: &Option<Pred>,
    rows: &[Lying],
) -> Result<Ending, NoMemory>
    requires { Each (IsFit table.now) rows.now }
    ensures end { IfOk result (λ e. told e ≡ deleting table.now pred.now rows.now) }
    ensures sound { IfOk result CanWrite }
{
    if let Some(refusal) = select_check(table, &What::All, pred) {
        return Ok(Ending::Refused(refusal));
    }
    match chosen(alloc, table, pred, rows) {
        Ok(found) => {
            let changes = removals(alloc, found.as_slice())?;
            Ok(Ending::Writes(changes, Reply::Deleted(found.len() as u64)))
        }
        Err(ExprFault::Overflow) => Ok(Ending::Refused(Reply::Overflow)),
        Err(ExprFault::NoMemory) => Err(NoMemory),
    }
}

/// How a DELETE ends, once the rows that it considers are read.
pub fn delete_ending(
    alloc: Global,
    table: &Table,
    pred: &Option<Pred>,
    rows: &[Stored],
) -> Result<Ending, NoMemory>
    ensures end { AreOf table.now rows.now → IfOk result (λ e. told e ≡ delete_end table.now pred.now rows.now) }
    ensures sound { IfOk result CanWrite }
{
    let rows = rows_fitting(alloc, table, rows)?;
    delete_rows(alloc, table, pred, rows.as_slice())
}

fn update_rows(
    alloc: Global,
    table: &Table,
    sets: &[Set],
    pred: &Option<Pred>,
    rows: &[Lying],
) -> Result<Ending, NoMemory>
    requires plain { IsPlain table.now }
    requires fit { Each (IsFit table.now) rows.now }
    ensures end { IfOk result (λ e. told e ≡ updating table.now sets.now pred.now rows.now) }
    ensures sound { IfOk result CanWrite }
{
    if let Some(refusal) = update_check(table, sets, pred) {
        return Ok(Ending::Refused(refusal));
    }
    match chosen(alloc, table, pred, rows) {
        Ok(found) => update_found(alloc, table, sets, found.as_slice()),
        Err(ExprFault::Overflow) => Ok(Ending::Refused(Reply::Overflow)),
        Err(ExprFault::NoMemory) => Err(NoMemory),
    }
}

// The changes of an UPDATE, or why it is refused at a row.
fn update_found(
    alloc: Global,
    table: &Table,
    sets: &[Set],
    found: &[&Lying],
) -> Result<Ending, NoMemory>
    requires plain { IsPlain table.now }
    requires assignable { list_all (assignable table.now) sets.now ≡ true }
    requires fit { Each (IsFit table.now) (map (λ l. l.now) found.now) }
    ensures end { IfOk result (λ e. told e ≡ assigning table.now sets.now (map (λ l. l.now) found.now)) }
    ensures sound { IfOk result CanWrite }
{
    match updates(alloc, table, sets, found) {
        Ok(changes) => Ok(Ending::Writes(changes, Reply::Updated(found.len() as u64))),
        Err(SetFault::Overflow) => Ok(Ending::Refused(Reply::Overflow)),
        Err(SetFault::TooLong) => Ok(Ending::Refused(Reply::TooLong)),
        Err(SetFault::NoMemory) => Err(NoMemory),
    }
}

/// How an UPDATE ends, once the rows that it considers are read.
pub fn update_ending(
    alloc: Global,
    table: &Table,
    sets: &[Set],
    pred: &Option<Pred>,
    rows: &[Stored],
) -> Result<Ending, NoMemory>
    requires { IsPlain table.now }
    ensures end { AreOf table.now rows.now → IfOk result (λ e. told e ≡ update_end table.now sets.now pred.now rows.now) }
    ensures sound { IfOk result CanWrite }
{
    let rows = rows_fitting(alloc, table, rows)?;
    update_rows(alloc, table, sets, pred, rows.as_slice())
}
