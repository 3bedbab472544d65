// The groups that move, from the rows of a table's entries.
ghost use Rattle.std.specs.Prelude.{◌≡◌, ◌++◌, ℕ, ◌≤◌, pos, nat_abs, map, option_map, option_to_list, All, IfOk, IfSome, MatchOption, Some, OnOk};
ghost use Rattle.hb_talk.specs.Moves.{hint_in as hint_told};
ghost use Rattle.hb_planrows.specs.PlanRows.{AreSited, TellsEntry};
ghost use Rattle.hb_batch.specs.Batches.{hint_of, IsSitedHint};
ghost use Rattle.hb_moveplan.specs.MovePlans.{hint_by, hints_among, TellsGroup, TellGroups};

use hb_batch::Hint;
use hb_planrows::entry_in;
use hb_types::{Entry, NoMemory, Stored};
use sqlite_items::Items;
use std::alloc::Global;

// The number of a group, from the key of its entry's row.
fn group_in(key: i64) -> Option<u16>
    ensures { MatchOption result ((n : ℕ) → n ≤ 65535 → key ≡ pos n → ⊥) (λ n. key ≡ pos n) }
{
    if 0 <= key && key <= 65535 {
        Some(key as u16)
    } else {
        None
    }
}

// The group, if its entry moves.
fn moving_by(table: u16, group: u16, entry: Option<Entry>) -> Option<Hint>
    ensures hint { option_map hint_of result ≡ hint_by table group entry }
    ensures sited { IfSome entry AreSited → IfSome result IsSitedHint }
{
    match entry {
        Some(Entry::Moving(old, new)) => Some(Hint {
            table,
            group,
            old,
            new,
        }),
        Some(Entry::At(_)) => None,
        None => None,
    }
}

// The group of an entry's row, if it moves. A row that is none is passed over.
fn hint_in(alloc: Global, table: u16, row: &Stored) -> Result<Option<Hint>, NoMemory>
    ensures told { TellsEntry (Some row.now.row) → TellsGroup row.now → IfOk result (λ h. option_map hint_of h ≡ hint_told table row.now) }
    ensures sited { IfOk result (λ h. IfSome h IsSitedHint) }
{
    let entry = entry_in(alloc, row.row.as_slice())?;
    match group_in(row.place.key) {
        Some(group) => Ok(moving_by(table, group, entry)),
        None => Ok(None),
    }
}

fn push_some(hints: &mut Items<Hint>, hint: Option<Hint>) -> Result<(), NoMemory>
    ensures { OnOk result (hints.new ≡ hints.old ++ option_to_list hint) }
{
    match hint {
        Some(hint) => {
            hints.push(hint)?;
            Ok(())
        }
        None => Ok(()),
    }
}

/// The groups that move, as the rows of a table's entries tell them.
pub(crate) fn hints_in(alloc: Global, table: u16, rows: &[Stored]) -> Result<Items<Hint>, NoMemory>
    ensures told { TellGroups rows.now → IfOk result (λ hs. map hint_of hs ≡ hints_among table rows.now) }
    ensures sited { IfOk result (λ hs. All IsSitedHint hs) }
{
    let mut hints = Items::new(alloc);
    for row in rows {
        push_some(&mut hints, hint_in(alloc, table, row)?)?;
    }
    Ok(hints)
}
