// CREATE TABLE: why it is refused, and the rows of the new table.
ghost use Rattle.std.specs.Prelude.{◌≡◌, ◌≤◌, ◌||◌, option_map, [], ◌∷◌, length, take, is_none, nat_le, nat_lt, IfOk, OnOk};
ghost use Rattle.std.specs.List.{list_any};
ghost use Rattle.hb_types.specs.Groups.{first_entries as first};
ghost use Rattle.hb_types.specs.Lists.{has_twins};
ghost use Rattle.std.specs.Str.{bytes_eq};
ghost use Rattle.hb_model.specs.Define.{create_table_refusals, key_position, new_spread, numbers_of};
ghost use Rattle.hb_model.specs.Dictionary.{entry_row as entry_values, member_row as member_values, table_row as table_values, at_place, member_rows, entry_rows};
ghost use Rattle.hb_model.specs.Refusals.{first_refusal};
ghost use Rattle.hb_model.specs.Spots.{tables_space, members_space, entries_space};
ghost use Rattle.hb_model.specs.State.{State, area_named};
ghost use Rattle.hb_model.specs.declared.reply.Reply.TheVariants as reply;
ghost use Rattle.hb_talk.specs.PlansDefine.{new_rows};
ghost use Rattle.hb_dict.specs.DictionaryRows.{IsTaken, table_told};
ghost use Rattle.hb_definerows.specs.DefineRows.{Puts, columns_refusals, state_told, spread_told};
ghost use Rattle.hb_definerows.specs.Drafts.{IsNamed, AreNamed, IsAccepted, table_of_draft};

use crate::areas::{Area, find_area};
use crate::columns::{columns_refusal, key_position as place_of_key, names_have_twins};
use crate::members::areas_are_small;
use crate::putting::{push_some, put_row};
use crate::tables::{Found, has_table};
use hb_dict::{TableDef, entry_row, member_row, table_row};
use hb_groups::first_assignment;
use hb_model::Reply;
use hb_types::{Change, Column, Entry, NoMemory, Text};
use sqlite_items::Items;
use std::alloc::Global;

/// A table to be created.
#[derive(Drop)]
pub struct Draft {
    pub name: Text,
    pub columns: Items<Column>,
    pub key: Text,
    pub areas: Items<Text>,
}

fn are_too_many(tables: &[Found], draft: &Draft) -> bool
    ensures { result ≡ (nat_le 64 (length tables.now) || (nat_lt 16 (length draft.now.columns) || nat_lt 16 (length draft.now.areas))) }
{
    64 <= tables.len() || 16 < draft.columns.len() || 16 < draft.areas.len()
}

fn is_there(tables: &[Found], draft: &Draft) -> bool
    ensures { result ≡ list_any (λ f. bytes_eq f.1.name draft.now.name) tables.now }
{
    has_table(tables, draft.name.as_slice())
}

fn columns_refused(draft: &Draft) -> Option<Reply>
    ensures { result ≡ first_refusal (columns_refusals draft.now.columns draft.now.key) }
{
    columns_refusal(draft.columns.as_slice(), draft.key.as_slice())
}

/// Why a table is not created, as far as the tables that are there show it.
pub fn early_table_refusal(tables: &[Found], draft: &Draft) -> Option<Reply>
    ensures { let d = draft.now in result ≡ first_refusal (take 5 (create_table_refusals (state_told tables.now []) d.name d.columns d.key d.areas)) }
{
    if is_there(tables, draft) {
        Some(Reply::TableThere)
    } else if are_too_many(tables, draft) {
        Some(Reply::TooMany)
    } else {
        columns_refused(draft)
    }
}

fn is_unknown(areas: &[Area], name: &[u8]) -> bool
    ensures { result ≡ is_none (area_named (state_told [] areas.now) name.now) }
{
    find_area(areas, name).is_none()
}

fn has_unknown(areas: &[Area], names: &[Text]) -> bool
    ensures { result ≡ list_any (λ name. is_none (area_named (state_told [] areas.now) name)) names.now }
{
    names.iter().any(|name| is_unknown(areas, name.as_slice()))
}

fn areas_refusal(areas: &[Area], draft: &Draft) -> Option<Reply>
    ensures { let names = draft.now.areas in result ≡ first_refusal ((list_any (λ name. is_none (area_named (state_told [] areas.now) name)) names, reply.NoArea) ∷ (has_twins bytes_eq names, reply.AreaThere) ∷ []) }
{
    if has_unknown(areas, draft.areas.as_slice()) {
        Some(Reply::NoArea)
    } else if names_have_twins(draft.areas.as_slice()) {
        Some(Reply::AreaThere)
    } else {
        None
    }
}

/// Why a table is not created in the areas that are there.
pub fn full_table_refusal(tables: &[Found], areas: &[Area], draft: &Draft) -> Option<Reply>
    ensures { let d = draft.now in result ≡ first_refusal (create_table_refusals (state_told tables.now areas.now) d.name d.columns d.key d.areas) }
{
    match early_table_refusal(tables, draft) {
        Some(reply) => Some(reply),
        None => areas_refusal(areas, draft),
    }
}

fn number_of(areas: &[Area], name: &Text) -> Option<u16>
    ensures { result ≡ option_map (λ a. a.number) (area_named (state_told [] areas.now) name.now) }
{
    find_area(areas, name.as_slice())
}

/// The numbers of the areas of these names.
pub fn new_members(alloc: Global, areas: &[Area], names: &[Text]) -> Result<Vec<u16>, NoMemory>
    ensures { IfOk result (λ members. members.items ≡ numbers_of (state_told [] areas.now) names.now) }
{
    let mut members = Vec::new(alloc);
    for name in names {
        push_some(&mut members, number_of(areas, name))?;
    }
    Ok(members)
}

// The entries of a new table over these areas.
fn first_entries(alloc: Global, members: &[u16]) -> Result<Vec<Entry>, NoMemory>
    requires some { 1 ≤ length members.now }
    requires few { length members.now ≤ 16 }
    ensures { IfOk result (λ entries. entries.items ≡ first members.now) }
{
    let mut entries = Vec::new(alloc);
    for group in 0..1024 {
        let nth = first_assignment(group, members.len() as u16);
        entries.push(Entry::At(members[nth as usize]))?;
    }
    Ok(entries)
}

// Adds the change that puts the row of a member.
pub(crate) fn put_member(
    alloc: Global,
    changes: &mut Vec<Change>,
    table: u16,
    position: u16,
    area: u16,
) -> Result<(), NoMemory>
    ensures { OnOk result (Puts changes.old.items changes.new.items (at_place members_space table position (member_values area) ∷ [])) }
{
    let row = member_row(alloc, area)?;
    changes.push(put_row(3, table, position, row))?;
    Ok(())
}

fn put_members(
    alloc: Global,
    changes: &mut Vec<Change>,
    table: u16,
    members: &[u16],
) -> Result<(), NoMemory>
    requires { length members.now ≤ 16 }
    ensures { OnOk result (Puts changes.old.items changes.new.items (member_rows (spread_told table members.now []))) }
{
    let mut position = 1;
    for area in members {
        put_member(alloc, changes, table, position, *area)?;
        position += 1;
    }
    Ok(())
}

// Adds the change that puts the row of a group's entry.
pub(crate) fn put_entry(
    alloc: Global,
    changes: &mut Vec<Change>,
    table: u16,
    group: u16,
    entry: Entry,
) -> Result<(), NoMemory>
    ensures { OnOk result (Puts changes.old.items changes.new.items (at_place entries_space table group (entry_values entry) ∷ [])) }
{
    areas_are_small(entry);
    let row = entry_row(alloc, entry)?;
    changes.push(put_row(4, table, group, row))?;
    Ok(())
}

fn put_entries(
    alloc: Global,
    changes: &mut Vec<Change>,
    table: u16,
    entries: &[Entry],
) -> Result<(), NoMemory>
    requires { length entries.now ≤ 1024 }
    ensures { OnOk result (Puts changes.old.items changes.new.items (entry_rows (spread_told table [] entries.now))) }
{
    let mut group = 0;
    for entry in entries {
        put_entry(alloc, changes, table, group, *entry)?;
        group += 1;
    }
    Ok(())
}

fn key_of(draft: &Draft) -> u8
    requires { length draft.now.columns ≤ 16 }
    ensures { result ≡ key_position draft.now.columns draft.now.key }
{
    place_of_key(draft.columns.as_slice(), draft.key.as_slice())
}

// What the row of a new table tells.
fn definition_of(draft: Draft) -> TableDef
    requires { (s : State) × IsAccepted s draft }
    ensures told { table_told result ≡ table_of_draft draft }
    ensures taken { IsTaken result }
    ensures named { IsNamed draft → AreNamed result }
{
    let key = key_of(&draft);
    let Draft {
        name,
        columns,
        key: _,
        areas: _,
    } = draft;
    TableDef {
        name,
        hash: 1,
        key,
        columns,
    }
}

fn put_table(
    alloc: Global,
    changes: &mut Vec<Change>,
    number: u16,
    table: &TableDef,
) -> Result<(), NoMemory>
    requires taken { IsTaken table.now }
    requires named { AreNamed table.now }
    ensures { OnOk result (Puts changes.old.items changes.new.items (at_place tables_space 0 number (table_values (table_told table.now)) ∷ [])) }
{
    let row = table_row(alloc, table)?;
    changes.push(put_row(2, 0, number, row))?;
    Ok(())
}

// The changes that put the rows of a new table of a number over these areas.
fn changes_over(
    alloc: Global,
    number: u16,
    table: &TableDef,
    members: &[u16],
) -> Result<Vec<Change>, NoMemory>
    requires taken { IsTaken table.now }
    requires named { AreNamed table.now }
    requires some { 1 ≤ length members.now }
    requires few { length members.now ≤ 16 }
    ensures { IfOk result (λ cs. Puts [] cs.items (new_rows (table_told table.now) (spread_told number members.now (first members.now)))) }
{
    let entries = first_entries(alloc, members)?;
    let mut changes = Vec::new(alloc);
    put_table(alloc, &mut changes, number, table)?;
    put_members(alloc, &mut changes, number, members)?;
    put_entries(alloc, &mut changes, number, entries.as_slice())?;
    Ok(changes)
}

/// The number of a new table.
pub fn new_number(tables: &[Found], areas: &[Area], draft: &Draft) -> u16
    requires { IsAccepted (state_told tables.now areas.now) draft.now }
    ensures number { result ≡ (new_spread (state_told tables.now areas.now) draft.now.name draft.now.areas).number }
    ensures few { result ≤ 64 }
{
    tables.len() as u16 + 1
}

/// The changes that put the rows of a new table.
pub fn table_changes(
    alloc: Global,
    tables: &[Found],
    areas: &[Area],
    draft: Draft,
) -> Result<Vec<Change>, NoMemory>
    requires named { IsNamed draft }
    requires accepted { IsAccepted (state_told tables.now areas.now) draft }
    ensures { IfOk result (λ cs. Puts [] cs.items (new_rows (table_of_draft draft) (new_spread (state_told tables.now areas.now) draft.name draft.areas))) }
{
    let number = new_number(tables, areas, &draft);
    let members = new_members(alloc, areas, draft.areas.as_slice())?;
    let table = definition_of(draft);
    changes_over(alloc, number, &table, members.as_slice())
}
