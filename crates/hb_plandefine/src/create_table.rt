// CREATE TABLE, once the tables, the areas and the locks came.
ghost use Rattle.std.specs.Prelude.{◌≡◌, [], IfOk, map, take};
ghost use Rattle.hb_types.specs.Lists.{Each};
ghost use Rattle.hb_model.specs.Define.{create_table_refusals, new_spread};
ghost use Rattle.hb_model.specs.Refusals.{first_refusal};
ghost use Rattle.hb_talk.specs.PlansDefine.{new_rows, put_row};
ghost use Rattle.hb_access.specs.Accesses.{use_of};
ghost use Rattle.hb_planrows.specs.PlanRows.{TellTables};
ghost use Rattle.hb_definerows.specs.DefineRows.{TellAreas, state_told};
ghost use Rattle.hb_definerows.specs.Drafts.{IsAccepted, IsNamed, table_of_draft};
ghost use Rattle.hb_writes.specs.Underway.{IsWrite};
ghost use Rattle.hb_plandefine.specs.Defines.{Goes, IsReady, table_beside, table_checked, table_in_areas, table_created, members_locked, entries_locked};

use crate::stage::{Stage, Then, Went};
use crate::steps::{group_of, rows_of};
use hb_access::{Access, Usage};
use hb_definerows::{
    Area, Draft, Found, early_table_refusal, full_table_refusal, new_number, read_areas,
    read_tables, table_changes,
};
use hb_model::Reply;
use hb_types::{Change, Mode, NoMemory, Stored};
use std::alloc::Global;

fn early_refusal(tables: &Vec<Found>, draft: &Draft) -> Option<Reply>
    ensures { let d = draft.now in result ≡ first_refusal (take 5 (create_table_refusals (state_told tables.now.items []) d.name d.columns d.key d.areas)) }
{
    early_table_refusal(tables.as_slice(), draft)
}

// Goes on beside these tables.
fn beside(usage: Usage, tables: Vec<Found>, draft: Draft) -> Went
    requires { IsNamed draft }
    ensures goes { Goes (table_beside draft tables.items (use_of usage)) result }
    ensures ready { IsReady usage result }
{
    match early_refusal(&tables, &draft) {
        Some(reply) => Went::Refused(reply, usage),
        None => {
            let access = Access::lock(usage, rows_of(1, Mode::S));
            Went::On(Stage::Asking(access, Then::TableAreas(tables, draft)))
        }
    }
}

/// Goes on with the rows of the tables.
pub(crate) fn table_rows_came(
    alloc: Global,
    usage: Usage,
    draft: Draft,
    rows: &[Stored],
) -> Result<Went, NoMemory>
    requires { IsNamed draft }
    ensures goes { TellTables rows.now → IfOk result (Goes (table_checked draft rows.now (use_of usage))) }
    ensures ready { IfOk result (IsReady usage) }
{
    let tables = read_tables(alloc, rows)?;
    Ok(beside(usage, tables, draft))
}

// Locks the members of a table that is not refused.
fn lock_members(
    alloc: Global,
    usage: Usage,
    tables: &[Found],
    areas: &[Area],
    draft: Draft,
) -> Result<Went, NoMemory>
    requires named { IsNamed draft }
    requires accepted { IsAccepted (state_told tables.now areas.now) draft }
    ensures goes { let spread = new_spread (state_told tables.now areas.now) draft.name draft.areas in IfOk result (Goes (members_locked spread.number (map put_row (new_rows (table_of_draft draft) spread)) (use_of usage))) }
    ensures ready { IfOk result (IsReady usage) }
{
    let number = new_number(tables, areas, &draft);
    let changes = table_changes(alloc, tables, areas, draft)?;
    let access = Access::lock(usage, group_of(3, number, false));
    Ok(Went::On(Stage::Asking(access, Then::LockEntries(number, changes))))
}

// Goes on in these areas, beside these tables.
fn in_areas(
    alloc: Global,
    usage: Usage,
    tables: &[Found],
    areas: &[Area],
    draft: Draft,
) -> Result<Went, NoMemory>
    requires { IsNamed draft }
    ensures goes { IfOk result (Goes (table_in_areas draft tables.now areas.now (use_of usage))) }
    ensures ready { IfOk result (IsReady usage) }
{
    match full_table_refusal(tables, areas, &draft) {
        Some(reply) => Ok(Went::Refused(reply, usage)),
        None => lock_members(alloc, usage, tables, areas, draft),
    }
}

fn in_read_areas(
    alloc: Global,
    usage: Usage,
    tables: Vec<Found>,
    areas: Vec<Area>,
    draft: Draft,
) -> Result<Went, NoMemory>
    requires { IsNamed draft }
    ensures goes { IfOk result (Goes (table_in_areas draft tables.items areas.items (use_of usage))) }
    ensures ready { IfOk result (IsReady usage) }
{
    in_areas(alloc, usage, tables.as_slice(), areas.as_slice(), draft)
}

/// Goes on with the rows of the areas.
pub(crate) fn table_areas_came(
    alloc: Global,
    usage: Usage,
    tables: Vec<Found>,
    draft: Draft,
    rows: &[Stored],
) -> Result<Went, NoMemory>
    requires { IsNamed draft }
    ensures goes { TellAreas rows.now → IfOk result (Goes (table_created draft tables.items rows.now (use_of usage))) }
    ensures ready { IfOk result (IsReady usage) }
{
    let areas = read_areas(alloc, rows)?;
    in_read_areas(alloc, usage, tables, areas, draft)
}

/// Goes on with the lock of the members.
pub(crate) fn lock_entries(usage: Usage, number: u16, changes: Vec<Change>) -> Went
    requires { Each IsWrite changes.items }
    ensures goes { Goes (entries_locked number changes.items (use_of usage)) result }
    ensures ready { IsReady usage result }
{
    let access = Access::lock(usage, group_of(4, number, false));
    Went::On(Stage::Asking(access, Then::WriteTable(changes)))
}
