// The requests that read.
ghost use Rattle.std.specs.Prelude.{◌≡◌, List, IfOk, MatchResult};
ghost use Rattle.std.specs.Option.{option_copied};
ghost use Rattle.hb_types.specs.declared.change.Change.{Change};
ghost use Rattle.hb_types.specs.Put.{normal, put_all, rows_under};
ghost use Rattle.hb_laws.specs.RowOrder.{AreAscending};
ghost use Rattle.hb_requests.specs.Shown.{Shows, OrNoMemory};

use hb_branch::Branch;
use hb_engine::{Engine, Refusal};
use hb_store::Store;
use hb_types::{Answer, Bytes, Mode, NoMemory, Path, Place, Request, Space, Stored, Tx};
use sqlite_items::Items;
use std::alloc::Global;

/// The row at a place.
pub(crate) fn read<T: Store>(
    alloc: Global,
    engine: &Engine,
    store: &T,
    tx: Tx,
    place: &Place,
) -> Answer
    ensures { Shows engine.now (T.rows store.now) (Request.Read tx place.now) result }
{
    match engine.covered(tx, Path::Key(*place), Mode::S) {
        Ok(branch) => row_answer(alloc, branch.read(store.row(place), place)),
        Err(Refusal::NoBranch) => Answer::NoBranch,
        Err(Refusal::NotLocked) => Answer::NotLocked,
    }
}

/// A copy of the row.
fn row_answer(alloc: Global, row: Option<&[u8]>) -> Answer
    ensures { OrNoMemory result (Answer.Row (option_copied row.entry)) }
{
    match row {
        Some(row) => match Vec::from_slice(alloc, row) {
            Ok(copy) => Answer::Row(Some(Bytes::new(copy))),
            Err(_) => Answer::NoMemory,
        },
        None => Answer::Row(None),
    }
}

/// The rows of a space.
pub(crate) fn scan<T: Store>(engine: &Engine, store: &T, tx: Tx, space: Space) -> Answer
    ensures { Shows engine.now (T.rows store.now) (Request.Scan tx space) result }
{
    match engine.covered(tx, Path::Whole(space), Mode::S) {
        Ok(branch) => rows_answer(under(branch, store, &Path::Whole(space))),
        Err(Refusal::NoBranch) => Answer::NoBranch,
        Err(Refusal::NotLocked) => Answer::NotLocked,
    }
}

/// The rows of a group.
pub(crate) fn scan_group<T: Store>(
    engine: &Engine,
    store: &T,
    tx: Tx,
    space: Space,
    group: u16,
) -> Answer
    ensures { Shows engine.now (T.rows store.now) (Request.ScanGroup tx space group) result }
{
    match engine.covered(tx, Path::Group(space, group), Mode::S) {
        Ok(branch) => rows_answer(under(branch, store, &Path::Group(space, group))),
        Err(Refusal::NoBranch) => Answer::NoBranch,
        Err(Refusal::NotLocked) => Answer::NotLocked,
    }
}

/// The first committed keys of a group, whoever has locks there.
pub(crate) fn group_keys<T: Store>(
    engine: &Engine,
    store: &T,
    space: Space,
    group: u16,
    most: u32,
) -> Answer
    ensures { Shows engine.now (T.rows store.now) (Request.GroupKeys space group most) result }
{
    let _ = engine;
    match store.keys(space, group, most) {
        Ok(keys) => Answer::Keys(keys),
        Err(NoMemory) => Answer::NoMemory,
    }
}

/// The rows under a path with a branch's own changes.
fn under<T: Store>(branch: &Branch, store: &T, path: &Path) -> Result<Items<Stored>, NoMemory>
    ensures { IfOk result (λ found. (own : List Change) → branch.now.changes ≡ normal own → AreAscending (T.rows store.now)
        → found ≡ rows_under path.now (put_all (T.rows store.now) own)) }
{
    let base = store.list(path)?;
    if branch.changes().is_empty() {
        return Ok(base);
    }
    branch.scan(base.as_slice(), path)
}

fn rows_answer(rows: Result<Items<Stored>, NoMemory>) -> Answer
    ensures { MatchResult rows (λ found. result ≡ Answer.Rows found) (λ _. result ≡ Answer.NoMemory) }
{
    match rows {
        Ok(found) => Answer::Rows(found),
        Err(NoMemory) => Answer::NoMemory,
    }
}
