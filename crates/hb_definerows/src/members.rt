// The members and the entries of a table that rows of the dictionary tell.
ghost use Rattle.std.specs.Prelude.{◌≡◌, Some, filter_map, IfOk};
ghost use Rattle.hb_model.specs.Told.{entry_of};
ghost use Rattle.hb_talk.specs.PlansDefine.{member_of, entries_of};
ghost use Rattle.hb_planrows.specs.PlanRows.{TellsEntry, TellEntries};
ghost use Rattle.hb_definerows.specs.DefineRows.{AreSmall, TellsMember, TellMembers};

use crate::putting::push_some;
use hb_dict::{DictFault, read_member};
use hb_planrows::entry_in;
use hb_types::{Entry, NoMemory, Stored};
use std::alloc::Global;

fn member_in_row(alloc: Global, row: &Stored) -> Result<Option<u16>, NoMemory>
    ensures { TellsMember row.now → IfOk result (λ m. m ≡ member_of row.now) }
{
    match read_member(alloc, row.row.as_slice()) {
        Ok(area) => Ok(Some(area)),
        Err(DictFault::NotOfShape) => Ok(None),
        Err(DictFault::NoMemory) => Err(NoMemory),
    }
}

/// The areas of the members that rows tell. Rows that are none are passed over.
pub fn read_members(alloc: Global, rows: &[Stored]) -> Result<Vec<u16>, NoMemory>
    ensures { TellMembers rows.now → IfOk result (λ members. members.items ≡ filter_map member_of rows.now) }
{
    let mut members = Vec::new(alloc);
    for row in rows {
        push_some(&mut members, member_in_row(alloc, row)?)?;
    }
    Ok(members)
}

fn entry_told(alloc: Global, row: &Stored) -> Result<Option<Entry>, NoMemory>
    ensures { TellsEntry (Some row.now.row) → IfOk result (λ e. e ≡ entry_of (Some row.now.row)) }
{
    entry_in(alloc, row.row.as_slice())
}

/// The entries that rows tell. Rows that are none are passed over.
pub fn read_entries(alloc: Global, rows: &[Stored]) -> Result<Vec<Entry>, NoMemory>
    ensures { TellEntries rows.now → IfOk result (λ entries. entries.items ≡ entries_of rows.now) }
{
    let mut entries = Vec::new(alloc);
    for row in rows {
        push_some(&mut entries, entry_told(alloc, row)?)?;
    }
    Ok(entries)
}

/// The areas of an entry are numbers of two bytes.
pub(crate) fn areas_are_small(entry: Entry)
    ensures { AreSmall entry }
{
    match entry {
        Entry::At(area) => {
            let _area = area;
        }
        Entry::Moving(from, to) => {
            let _areas = (from, to);
        }
    }
}
