// The entry of a group, from its row.
ghost use Rattle.std.specs.Prelude.{◌≡◌, ◌≤◌, length, true, false, Some, IfOk, IfSome, OnOk, slice_get};
ghost use Rattle.hb_types.specs.Lists.{Each};
ghost use Rattle.hb_model.specs.Spots.{with_number};
ghost use Rattle.hb_talk.specs.Plans.{areas_of_routes};
ghost use Rattle.hb_model.specs.Told.{entry_of};
ghost use Rattle.hb_planrows.specs.PlanRows.{TellsEntry, TellEntries, IsSited, AreSited, below_in, is_it, with_route};

use hb_dict::{DictFault, read_entry};
use hb_types::{Bytes, Entry, NoMemory, Stored};
use sqlite_items::Items;
use std::alloc::Global;

// Whether an area is one of a back end.
fn is_sited(area: u16) -> bool
    ensures yes_where { result ≡ true → IsSited area }
    ensures not_where { result ≡ false → IsSited area → ⊥ }
{
    256 <= area && area < 2304
}

fn are_sited(entry: Entry) -> bool
    ensures yes_where { result ≡ true → AreSited entry }
    ensures not_where { result ≡ false → AreSited entry → ⊥ }
{
    match entry {
        Entry::At(area) => is_sited(area),
        Entry::Moving(from, to) => is_sited(from) && is_sited(to),
    }
}

/// The entry that a row tells. One that is none, or names an area without a back end, is passed over.
pub fn entry_in(alloc: Global, row: &[u8]) -> Result<Option<Entry>, NoMemory>
    ensures told { TellsEntry (Some row.now) → IfOk result (λ e. e ≡ entry_of (Some row.now)) }
    ensures sited { IfOk result (λ e. IfSome e AreSited) }
{
    match read_entry(alloc, row) {
        Ok(entry) => {
            if are_sited(entry) {
                Ok(Some(entry))
            } else {
                Ok(None)
            }
        }
        Err(DictFault::NotOfShape) => Ok(None),
        Err(DictFault::NoMemory) => Err(NoMemory),
    }
}

/// The entry that a row tells, if there is a row. One that is none, or names an area without a back end, is passed over.
pub fn entry_in_row(alloc: Global, row: &Option<Bytes>) -> Result<Option<Entry>, NoMemory>
    ensures told { TellsEntry row.now → IfOk result (λ e. e ≡ entry_of row.now) }
    ensures sited { IfOk result (λ e. IfSome e AreSited) }
{
    match row {
        Some(row) => entry_in(alloc, row.as_slice()),
        None => Ok(None),
    }
}

// How many of ascending areas are below one.
fn below(areas: &[u16], area: u16) -> usize
    ensures count { result ≡ below_in area areas.now }
    ensures within { result ≤ length areas.now }
{
    match areas {
        [first, rest @ ..] => {
            if *first < area {
                1 + below(rest, area)
            } else {
                0
            }
        }
        [] => 0,
    }
}

fn is_there(areas: &[u16], at: usize, area: u16) -> bool
    ensures { result ≡ is_it area (slice_get areas.now at) }
{
    match areas.get(at) {
        Some(found) => *found == area,
        None => false,
    }
}

// An area among ascending ones, each once.
#[tactic(auto, using(crate::proofs::Numbers::with_number_is))]
fn put_area(areas: &mut Vec<u16>, area: u16) -> Result<(), NoMemory>
    ensures { OnOk result (areas.new.items ≡ with_number area areas.old.items) }
{
    let at = below(areas.as_slice(), area);
    if !is_there(areas.as_slice(), at, area) {
        areas.insert(at, area)?;
    }
    Ok(())
}

fn put_route(areas: &mut Vec<u16>, entry: Option<Entry>) -> Result<(), NoMemory>
    ensures { OnOk result (areas.new.items ≡ with_route areas.old.items entry) }
{
    match entry {
        Some(Entry::At(area)) => put_area(areas, area)?,
        Some(Entry::Moving(from, to)) => {
            put_area(areas, from)?;
            put_area(areas, to)?;
        }
        None => {}
    }
    Ok(())
}

/// The areas of the routes of entries, ascending. Rows that are no entries are passed over.
pub fn areas_in_rows(alloc: Global, rows: &[Stored]) -> Result<Items<u16>, NoMemory>
    ensures told { TellEntries rows.now → IfOk result (λ areas. areas ≡ areas_of_routes rows.now) }
    ensures sited { IfOk result (λ areas. Each IsSited areas) }
{
    let mut areas = Vec::new(alloc);
    for row in rows {
        put_route(&mut areas, entry_in(alloc, row.row.as_slice())?)?;
    }
    Ok(Items::from_vec(areas))
}
