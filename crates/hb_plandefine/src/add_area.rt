// ADD RDAREA, once the tables, the areas, the members and the entries came.
ghost use Rattle.std.specs.Prelude.{◌≡◌, None, [], true, filter_map, option_map, take, IfOk, IfSome};
ghost use Rattle.hb_model.specs.Refusals.{first_refusal};
ghost use Rattle.hb_model.specs.State.{area_named as named};
ghost use Rattle.hb_model.specs.Told.{table_among};
ghost use Rattle.hb_talk.specs.PlansDefine.{member_of};
ghost use Rattle.hb_access.specs.Accesses.{use_of};
ghost use Rattle.hb_planrows.specs.PlanRows.{IsSited, TellTables};
ghost use Rattle.hb_definerows.specs.DefineRows.{TellAreas, TellMembers, added_refusals, can_spread as spreads, state_told};
ghost use Rattle.hb_plandefine.specs.Defines.{CanSpread, Goes, IsReady, area_found, areas_asked, member_beside, numbered, spread_out, spread_over, table_found};

use crate::stage::{Stage, Then, Went};
use crate::steps::{group_of, rows_of, write_out};
use hb_access::{Access, Usage};
use hb_definerows::{
    Area, add_area_changes, can_spread, early_add_refusal, find_area, full_add_refusal, read_areas,
    read_entries, read_members,
};
use hb_model::{Reply, Table};
use hb_planrows::find_table;
use hb_types::{Entry, Mode, NoMemory, Stored, Text};
use std::alloc::Global;

fn table_named(
    alloc: Global,
    rows: &[Stored],
    name: &Text,
) -> Result<Option<(u16, Table)>, NoMemory>
    ensures { TellTables rows.now → IfOk result (λ f. f ≡ table_among rows.now name.now) }
{
    find_table(alloc, rows, name.as_slice())
}

fn area_named(areas: &Vec<Area>, name: &Text) -> Option<u16>
    ensures found { result ≡ option_map (λ a. a.number) (named (state_told [] areas.now.items) name.now) }
    ensures sited { IfSome result IsSited }
{
    find_area(areas.as_slice(), name.as_slice())
}

fn early_refusal(members: &Vec<u16>, area: u16) -> Option<Reply>
    ensures { result ≡ first_refusal (take 2 (added_refusals members.now.items [] area)) }
{
    early_add_refusal(members.as_slice(), area)
}

// Asks for the areas.
fn ask_areas(usage: Usage, number: u16, area: Text) -> Went
    ensures goes { Goes (areas_asked number area (use_of usage)) result }
    ensures ready { IsReady usage result }
{
    let access = Access::lock(usage, rows_of(1, Mode::S));
    Went::On(Stage::Asking(access, Then::AreaOf(number, area)))
}

/// Goes on with the rows of the tables.
pub(crate) fn names_came(
    alloc: Global,
    usage: Usage,
    table: Text,
    area: Text,
    rows: &[Stored],
) -> Result<Went, NoMemory>
    ensures goes { TellTables rows.now → IfOk result (Goes (table_found table area rows.now (use_of usage))) }
    ensures ready { IfOk result (IsReady usage) }
{
    match table_named(alloc, rows, &table)? {
        Some((number, _)) => Ok(ask_areas(usage, number, area)),
        None => Ok(Went::Refused(Reply::NoTable, usage)),
    }
}

/// Goes on with the rows of the areas.
pub(crate) fn area_came(
    alloc: Global,
    usage: Usage,
    number: u16,
    area: Text,
    rows: &[Stored],
) -> Result<Went, NoMemory>
    ensures goes { TellAreas rows.now → IfOk result (Goes (area_found (numbered number) area rows.now (use_of usage))) }
    ensures ready { IfOk result (IsReady usage) }
{
    let areas = read_areas(alloc, rows)?;
    match area_named(&areas, &area) {
        Some(area) => {
            let access = Access::lock(usage, group_of(3, number, true));
            Ok(Went::On(Stage::Asking(access, Then::Members(number, area))))
        }
        None => Ok(Went::Refused(Reply::NoArea, usage)),
    }
}

// Goes on beside these members.
fn beside(usage: Usage, number: u16, area: u16, members: Vec<u16>) -> Went
    requires { IsSited area }
    ensures goes { Goes (member_beside number area members.items (use_of usage)) result }
    ensures ready { IsReady usage result }
{
    match early_refusal(&members, area) {
        Some(reply) => Went::Refused(reply, usage),
        None => {
            let access = Access::lock(usage, group_of(4, number, true));
            Went::On(Stage::Asking(access, Then::Entries(number, area, members)))
        }
    }
}

/// Goes on with the rows of the members.
pub(crate) fn members_came(
    alloc: Global,
    usage: Usage,
    number: u16,
    area: u16,
    rows: &[Stored],
) -> Result<Went, NoMemory>
    requires { IsSited area }
    ensures goes { TellMembers rows.now → IfOk result (Goes (member_beside number area (filter_map member_of rows.now) (use_of usage))) }
    ensures ready { IfOk result (IsReady usage) }
{
    let members = read_members(alloc, rows)?;
    Ok(beside(usage, number, area, members))
}

// Writes the rows of an area more that is not refused.
fn spread(
    alloc: Global,
    usage: Usage,
    number: u16,
    area: u16,
    members: &[u16],
    entries: &mut [Entry],
) -> Result<Went, NoMemory>
    requires sited { IsSited area }
    requires accepted { first_refusal (added_refusals members.now entries.old area) ≡ None }
    requires spreads { spreads members.now entries.old ≡ true }
    ensures goes { IfOk result (Goes (spread_over number area members.now entries.old (use_of usage))) }
    ensures ready { IfOk result (IsReady usage) }
{
    let changes = add_area_changes(alloc, number, members, entries, area)?;
    Ok(write_out(usage, changes, Reply::Added))
}

// Goes on beside these members and entries. Entries that can't give groups to one area more are taken as such that move.
fn over(
    alloc: Global,
    usage: Usage,
    number: u16,
    area: u16,
    members: &[u16],
    entries: &mut [Entry],
) -> Result<Went, NoMemory>
    requires { IsSited area }
    ensures goes { (first_refusal (added_refusals members.now entries.old area) ≡ None → spreads members.now entries.old ≡ true) → IfOk result (Goes (spread_over number area members.now entries.old (use_of usage))) }
    ensures ready { IfOk result (IsReady usage) }
{
    match full_add_refusal(members, entries, area) {
        Some(reply) => Ok(Went::Refused(reply, usage)),
        None => {
            if can_spread(members, entries) {
                spread(alloc, usage, number, area, members, entries)
            } else {
                Ok(Went::Refused(Reply::Rebalancing, usage))
            }
        }
    }
}

fn over_all(
    alloc: Global,
    usage: Usage,
    number: u16,
    area: u16,
    members: &[u16],
    entries: Vec<Entry>,
) -> Result<Went, NoMemory>
    requires { IsSited area }
    ensures goes { (first_refusal (added_refusals members.now entries.items area) ≡ None → spreads members.now entries.items ≡ true) → IfOk result (Goes (spread_over number area members.now entries.items (use_of usage))) }
    ensures ready { IfOk result (IsReady usage) }
{
    let mut entries = entries;
    over(alloc, usage, number, area, members, entries.as_mut_slice())
}

/// Goes on with the rows of the entries.
pub(crate) fn entries_came(
    alloc: Global,
    usage: Usage,
    number: u16,
    area: u16,
    members: &[u16],
    rows: &[Stored],
) -> Result<Went, NoMemory>
    requires { IsSited area }
    ensures goes { CanSpread members.now area rows.now → IfOk result (Goes (spread_out number area members.now rows.now (use_of usage))) }
    ensures ready { IfOk result (IsReady usage) }
{
    let entries = read_entries(alloc, rows)?;
    over_all(alloc, usage, number, area, members, entries)
}
