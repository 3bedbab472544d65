// ADD RDAREA: why it is refused, and the rows that it changes.
ghost use Rattle.std.specs.Prelude.{◌≡◌, ◌≤◌, ◌<◌, ◌+◌, ◌==◌, [], ◌∷◌, true, false, None, length, take, IfOk, OnOk, if◌then◌else◌};
ghost use Rattle.std.specs.List.{list_all, list_any, range_with_len};
ghost use Rattle.hb_types.specs.Groups.{is_at as at, is_moving as moving, reassign as reassigned};
ghost use Rattle.hb_types.specs.Lists.{Each, has_twins};
ghost use Rattle.hb_model.specs.Dictionary.{at_place, entry_row as entry_values, member_row as member_values};
ghost use Rattle.hb_model.specs.Refusals.{first_refusal};
ghost use Rattle.hb_model.specs.Spots.{entries_space, members_space};
ghost use Rattle.hb_talk.specs.PlansDefine.{changed_rows};
ghost use Rattle.hb_groups.specs.Counts.{count_at};
ghost use Rattle.hb_planrows.specs.PlanRows.{IsSited};
ghost use Rattle.hb_definerows.specs.DefineRows.{AreSmall, IsMarked, Puts, added_refusals, can_spread as spreads, has_enough as enough, is_placed as placed, spread_told};

use crate::create_table::{put_entry, put_member};
use crate::members::areas_are_small;
use hb_groups::{quota, reassign};
use hb_model::Reply;
use hb_types::{Change, Entry, NoMemory};
use std::alloc::Global;

fn is_member(members: &[u16], area: u16) -> bool
    ensures { result ≡ list_any (λ m. area == m) members.now }
{
    members.iter().any(|m| area == *m)
}

/// Why an area is not added to a table, as far as the table's members show it.
pub fn early_add_refusal(members: &[u16], area: u16) -> Option<Reply>
    ensures { result ≡ first_refusal (take 2 (added_refusals members.now [] area)) }
{
    if is_member(members, area) {
        Some(Reply::AreaThere)
    } else {
        None
    }
}

fn is_moving(entry: &Entry) -> bool
    ensures { result ≡ moving entry.now }
{
    match entry {
        Entry::At(_) => false,
        Entry::Moving(_, _) => true,
    }
}

fn are_moving(entries: &[Entry]) -> bool
    ensures { result ≡ list_any moving entries.now }
{
    entries.iter().any(|entry| is_moving(entry))
}

/// Why an area is not added to a table of these members and entries.
pub fn full_add_refusal(members: &[u16], entries: &[Entry], area: u16) -> Option<Reply>
    ensures { result ≡ first_refusal (added_refusals members.now entries.now area) }
{
    if is_member(members, area) {
        Some(Reply::AreaThere)
    } else if are_moving(entries) {
        Some(Reply::Rebalancing)
    } else if 16 <= members.len() {
        Some(Reply::TooMany)
    } else {
        None
    }
}

fn is_like_one(member: &u16, members: &[u16]) -> bool
    ensures { result ≡ list_any (λ m. member.now == m) members.now }
{
    is_member(members, *member)
}

fn have_twins(members: &[u16]) -> bool
    ensures { result ≡ has_twins (λ a b. a == b) members.now }
{
    match members {
        [] => false,
        [member, rest @ ..] => is_like_one(member, rest) || have_twins(rest),
    }
}

fn is_placed(members: &[u16], entry: &Entry) -> bool
    ensures { result ≡ placed members.now entry.now }
{
    match entry {
        Entry::At(area) => *area >= 1 && is_member(members, *area),
        Entry::Moving(_, _) => false,
    }
}

fn are_placed(members: &[u16], entries: &[Entry]) -> bool
    ensures { result ≡ list_all (placed members.now) entries.now }
{
    entries.iter().all(|entry| is_placed(members, entry))
}

fn is_at(area: u16, entry: &Entry) -> bool
    ensures { result ≡ at area entry.now }
{
    match entry {
        Entry::At(a) => *a == area,
        Entry::Moving(_, _) => false,
    }
}

fn count_of(entries: &[Entry], area: u16) -> usize
    ensures { result ≡ count_at entries.now area }
{
    entries.iter().filter(|entry| is_at(area, entry)).count()
}

fn has_enough(members: &[u16], entries: &[Entry], nth: u16) -> bool
    requires nth { nth < length members.now }
    requires few { length members.now ≤ 15 }
    ensures { result ≡ enough members.now entries.now nth }
{
    let kept = quota(nth, members.len() as u16 + 1);
    kept as usize <= count_of(entries, members[nth as usize])
}

fn have_enough(members: &[u16], entries: &[Entry]) -> bool
    requires few { length members.now ≤ 15 }
    ensures { result ≡ list_all (enough members.now entries.now) (range_with_len 0 (length members.now)) }
{
    for nth in 0..members.len() as u16 {
        if !has_enough(members, entries, nth) {
            return false;
        }
    }
    true
}

/// Whether a table of these members and entries can give groups to one area more.
pub fn can_spread(members: &[u16], entries: &[Entry]) -> bool
    ensures { result ≡ spreads members.now entries.now }
{
    entries.len() == 1024
        && 1 <= members.len()
        && members.len() <= 15
        && !have_twins(members)
        && are_placed(members, entries)
        && have_enough(members, entries)
}

// The entries once an area was added.
fn spread_out(entries: &mut [Entry], members: &[u16], area: u16)
    requires spread { spreads members.now entries.old ≡ true }
    requires new { list_any (λ m. area == m) members.now ≡ false }
    requires sited { IsSited area }
    ensures entries { entries.new ≡ reassigned entries.old members.now area }
    ensures marked { Each IsMarked entries.new }
{
    reassign(entries, members, area);
}

fn put_if_moving(
    alloc: Global,
    changes: &mut Vec<Change>,
    table: u16,
    group: u16,
    entry: Entry,
) -> Result<(), NoMemory>
    ensures puts { OnOk result (Puts changes.old.items changes.new.items (if moving entry then at_place entries_space table group (entry_values entry) ∷ [] else [])) }
    ensures small { AreSmall entry }
{
    areas_are_small(entry);
    if is_moving(&entry) {
        put_entry(alloc, changes, table, group, entry)?;
        Ok(())
    } else {
        Ok(())
    }
}

fn put_moving(
    alloc: Global,
    changes: &mut Vec<Change>,
    table: u16,
    entries: &[Entry],
) -> Result<(), NoMemory>
    requires few { length entries.now ≤ 1024 }
    requires marked { Each IsMarked entries.now }
    ensures { OnOk result (Puts changes.old.items changes.new.items (changed_rows (spread_told table [] []) entries.now)) }
{
    let mut group = 0;
    for entry in entries {
        put_if_moving(alloc, changes, table, group, *entry)?;
        group += 1;
    }
    Ok(())
}

/// The changes that put the rows of a new member and of the entries that now move to it.
pub fn add_area_changes(
    alloc: Global,
    table: u16,
    members: &[u16],
    entries: &mut [Entry],
    area: u16,
) -> Result<Vec<Change>, NoMemory>
    requires spread { spreads members.now entries.old ≡ true }
    requires accepted { first_refusal (added_refusals members.now entries.old area) ≡ None }
    requires sited { IsSited area }
    ensures { IfOk result (λ cs. Puts [] cs.items (at_place members_space table (length members.now + 1) (member_values area) ∷ changed_rows (spread_told table [] []) (reassigned entries.old members.now area))) }
{
    let position = members.len() as u16 + 1;
    spread_out(entries, members, area);
    let mut changes = Vec::new(alloc);
    put_member(alloc, &mut changes, table, position, area)?;
    put_moving(alloc, &mut changes, table, entries)?;
    Ok(changes)
}
