// Rows and changes, both by ascending place, merged.
ghost use Rattle.std.specs.Prelude.{◌≡◌, ◌++◌, IfOk, OnOk};
ghost use Rattle.hb_types.specs.Lists.{Ascends};
ghost use Rattle.hb_types.specs.Put.{put_all};
ghost use Rattle.hb_laws.specs.RowOrder.{AreAscending};
ghost use Rattle.hb_branch.specs.Overlays.{change_cmp, changes_under};
ghost use Rattle.hb_branch.specs.Merging.{rows_below, rows_from, past, row_at};

use crate::under::is_under;
use hb_types::{Change, NoMemory, Path, Place, Stored};
use sqlite_items::Items;
use std::alloc::Global;

/// The rows with the changes that lie under a path.
pub(crate) fn merged(
    alloc: Global,
    rows: &[Stored],
    changes: &[Change],
    path: &Path,
) -> Result<Items<Stored>, NoMemory>
    requires rows { AreAscending rows.now }
    requires changes { Ascends change_cmp changes.now }
    ensures { IfOk result (λ found. found ≡ put_all rows.now (changes_under path.now changes.now)) }
{
    let mut found = Items::new(alloc);
    let mut rest = rows;
    for change in changes {
        if is_under(path, &change.place) {
            rest = copy_below(alloc, &mut found, rest, &change.place)?;
            rest = skip_at(rest, &change.place);
            put_row(alloc, &mut found, change)?;
        }
    }
    copy_all(alloc, &mut found, rest)?;
    Ok(found)
}

/// Copies the first rows, those below a place, and answers the others.
fn copy_below<'a>(
    alloc: Global,
    found: &mut Items<Stored>,
    rows: &'a [Stored],
    place: &Place,
) -> Result<&'a [Stored], NoMemory>
    ensures rest { IfOk result (λ rest. rest.now ≡ rows_from place.now rows.now) }
    ensures found { OnOk result (found.new ≡ found.old ++ rows_below place.now rows.now) }
{
    let mut rest = rows;
    while let Some((row, others)) = rest.split_first() {
        if row.place >= *place {
            break;
        }
        found.push(row.copy(alloc)?)?;
        rest = others;
    }
    Ok(rest)
}

/// The rows but the first where it lies at the place.
fn skip_at<'a>(rows: &'a [Stored], place: &Place) -> &'a [Stored]
    ensures { result.now ≡ past place.now rows.now }
{
    match rows.split_first() {
        Some((row, others)) if row.place == *place => others,
        _ => rows,
    }
}

fn put_row(alloc: Global, found: &mut Items<Stored>, change: &Change) -> Result<(), NoMemory>
    ensures { OnOk result (found.new ≡ found.old ++ row_at change.now.place change.now.row) }
{
    if let Some(row) = &change.row {
        found.push(Stored {
            place: change.place,
            row: row.copy(alloc)?,
        })?;
    }
    Ok(())
}

fn copy_all(alloc: Global, found: &mut Items<Stored>, rows: &[Stored]) -> Result<(), NoMemory>
    ensures { OnOk result (found.new ≡ found.old ++ rows.now) }
{
    for row in rows {
        found.push(row.copy(alloc)?)?;
    }
    Ok(())
}
