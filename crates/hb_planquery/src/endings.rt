// How a statement ends once its rows are read.
ghost use Rattle.std.specs.Prelude.{◌≡◌, IfOk, IfSome};
ghost use Rattle.hb_planrows.specs.PlanRows.{AreSited, IsPlain};
ghost use Rattle.hb_endings.specs.Rows.{AreOf};
ghost use Rattle.hb_endings.specs.Endings.{CanWrite, told};
ghost use Rattle.hb_planquery.specs.Queries.{end_at, insert_with};

use crate::query::Query;
use hb_endings::{Ending, delete_ending, insert_ending, select_ending, update_ending};
use hb_model::{Reply, Table};
use hb_reading::Brought;
use hb_types::{NoMemory, Value};
use std::alloc::Global;

fn end_of_insert(
    alloc: Global,
    values: &[Value],
    number: u16,
    table: Table,
    brought: Brought,
) -> Result<Ending, NoMemory>
    requires plain { IsPlain table }
    requires sited { IfSome brought.entry AreSited }
    ensures end { AreOf table brought.rows → IfOk result (λ e. told e ≡ insert_with (number, table) values.now brought.rows brought.entry) }
    ensures sound { IfOk result CanWrite }
{
    match brought.entry {
        Some(entry) => insert_ending(alloc, table, number, values, entry, brought.rows.as_slice()),
        None => Ok(Ending::Refused(Reply::NoArea)),
    }
}

/// How a statement ends, by what it read.
pub(crate) fn end_of(
    alloc: Global,
    query: &Query,
    number: u16,
    table: Table,
    brought: Brought,
) -> Result<Ending, NoMemory>
    requires plain { IsPlain table }
    requires sited { IfSome brought.entry AreSited }
    ensures end { AreOf table brought.rows → IfOk result (λ e. told e ≡ end_at query.now (number, table) brought) }
    ensures sound { IfOk result CanWrite }
{
    match query {
        Query::Insert(values) => end_of_insert(alloc, values.as_slice(), number, table, brought),
        Query::Select(what, pred) => {
            select_ending(alloc, &table, what, pred, brought.rows.as_slice())
        }
        Query::Update(sets, pred) => {
            update_ending(
                alloc,
                &table,
                sets.as_slice(),
                pred,
                brought.rows.as_slice(),
            )
        }
        Query::Delete(pred) => delete_ending(alloc, &table, pred, brought.rows.as_slice()),
        Query::Lock(_) => Ok(Ending::Replied(Reply::Locked)),
    }
}
