// The holders of each path, and the paths that are kept for each transaction.
ghost use Rattle.std.specs.Prelude.{◌≡◌, ℕ, Bool, if◌then◌else◌, true, [], ◌++◌, None, IfOk, IsTrue, OnOk, OnErr};
ghost use Rattle.hb_locks.specs.Locks.{holders_at, without, granted, blockers as blockers_in, Changes, Releases, held_at, lock_cmp, mode_at};
ghost use Rattle.hb_types.specs.Lists.{Ascends};
ghost use Rattle.std.specs.Map.{lookup};
ghost use Rattle.std.specs.Option.{option_or};
ghost use Rattle.hb_locks.specs.Index.{IsSound, has_path, paths_at};
ghost use Rattle.hb_types.specs.Places.{same_path};
ghost use Rattle.hb_types.specs.declared.places.Path.{Path};

use crate::holders::{Holders, mode_of};
use crate::paths::{Paths, note};
use hb_types::{Held, Holder, Mode, NoMemory, Path, Tx};
use sqlite_items::Items;
use std::alloc::Global;
use std::collections::BTreeMap;

pub(crate) type Table = BTreeMap<Path, Holders>;

/// A mode for each path that a transaction holds.
type Modes = BTreeMap<Path, Mode>;

pub(crate) fn holders_of(table: &Table, path: Path) -> &[Holder]
    ensures { result.now ≡ holders_at table.now.entries path }
{
    match table.get(&path) {
        Some(holders) => holders.as_slice(),
        None => &[],
    }
}

/// Grants a mode that nobody stands in the way of.
pub(crate) fn grant(
    alloc: Global,
    table: &mut Table,
    paths: &mut Paths,
    tx: Tx,
    path: Path,
    wanted: Mode,
) -> Result<(), NoMemory>
    requires sound { IsSound table.old.entries paths.old }
    requires free { blockers_in tx wanted (holders_at table.old.entries path) ≡ [] }
    ensures ok { OnOk result (Changes table.old.entries table.new.entries path (granted tx wanted (holders_at table.old.entries path))) }
    ensures err { OnErr result (table.new.entries ≡ table.old.entries) }
    ensures sound { IsSound table.new.entries paths.new }
{
    let next = Holders::granted(alloc, holders_of(table, path), tx, wanted)?;
    keep(alloc, table, paths, tx, path)?;
    table.insert(path, next)?;
    Ok(())
}

/// Keeps the path for the transaction, which is to hold it.
fn keep(alloc: Global, table: &Table, paths: &mut Paths, tx: Tx, path: Path) -> Result<(), NoMemory>
    requires { IsSound table.now.entries paths.old }
    ensures sound { IsSound table.now.entries paths.new }
    ensures kept { OnOk result (has_path (paths_at paths.new tx.0) path ≡ true) }
{
    if mode_of(holders_of(table, path), tx).is_some() {
        return Ok(());
    }
    note(alloc, paths, tx, path)
}

/// Takes the transaction out of all paths.
pub(crate) fn end(table: &mut Table, paths: &mut Paths, tx: Tx)
    requires sound { IsSound table.old.entries paths.old }
    ensures released { Releases table.old.entries table.new.entries tx }
    ensures sound { IsSound table.new.entries paths.new }
{
    if let Some(held) = paths.remove(&tx.0) {
        leave_all(table, held.as_slice(), tx);
    }
}

fn leave_all(table: &mut Table, paths: &[Path], tx: Tx)
    ensures { (q : Path) → holders_at table.new.entries q ≡ (if has_path paths.now q then without tx (holders_at table.old.entries q) else holders_at table.old.entries q) }
{
    for path in paths {
        leave(table, *path, tx);
    }
}

/// Takes the transaction away from a path; a path that nobody holds goes.
fn leave(table: &mut Table, path: Path, tx: Tx)
    ensures { (q : Path) → holders_at table.new.entries q ≡ (if same_path path q then without tx (holders_at table.old.entries q) else holders_at table.old.entries q) }
{
    if take_out(table, path, tx) {
        table.remove(&path);
    }
}

/// Takes the transaction away from a path, and tells whether the path is there and nobody is left.
fn take_out(table: &mut Table, path: Path, tx: Tx) -> bool
    ensures removed { (q : Path) → holders_at table.new.entries q ≡ (if same_path path q then without tx (holders_at table.old.entries q) else holders_at table.old.entries q) }
    ensures empty { IsTrue result → holders_at table.new.entries path ≡ [] }
{
    match table.get_mut(&path) {
        Some(holders) => {
            holders.remove(tx);
            holders.is_empty()
        }
        None => false,
    }
}

/// The locks of a transaction, ascending by path.
pub(crate) fn locks_in(
    alloc: Global,
    table: &Table,
    paths: &Paths,
    tx: Tx,
) -> Result<Items<Held>, NoMemory>
    requires sound { IsSound table.now.entries paths.now }
    ensures ascending { IfOk result (Ascends lock_cmp) }
    ensures each { IfOk result (λ locks. (q : Path) → mode_at locks q ≡ held_at table.now.entries tx q) }
{
    let modes = modes_of(alloc, table, paths, tx)?;
    as_locks(alloc, &modes)
}

/// In which mode the transaction holds each path that it holds.
fn modes_of(alloc: Global, table: &Table, paths: &Paths, tx: Tx) -> Result<Modes, NoMemory>
    requires sound { IsSound table.now.entries paths.now }
    ensures { IfOk result (λ modes. (q : Path) → lookup (same_path q) modes.entries ≡ held_at table.now.entries tx q) }
{
    match paths.get(&tx.0) {
        Some(list) => modes_in(alloc, table, list.as_slice(), tx),
        None => Ok(BTreeMap::new(alloc)),
    }
}

/// In which modes the transaction holds which of these paths.
fn modes_in(alloc: Global, table: &Table, paths: &[Path], tx: Tx) -> Result<Modes, NoMemory>
    ensures { IfOk result (λ modes. (q : Path) → lookup (same_path q) modes.entries ≡ (if has_path paths.now q then held_at table.now.entries tx q else None)) }
{
    let mut modes = BTreeMap::new(alloc);
    for path in paths {
        keep_mode(&mut modes, *path, mode_of(holders_of(table, *path), tx))?;
    }
    Ok(modes)
}

/// Keeps a path where it is held.
fn keep_mode(modes: &mut Modes, path: Path, mode: Option<Mode>) -> Result<(), NoMemory>
    ensures { OnOk result ((q : Path) → lookup (same_path q) modes.new.entries ≡ (if same_path path q then option_or mode (lookup (same_path q) modes.old.entries) else lookup (same_path q) modes.old.entries)) }
{
    if let Some(mode) = mode {
        modes.insert(path, mode)?;
    }
    Ok(())
}

/// These modes by path as locks.
fn as_locks(alloc: Global, modes: &Modes) -> Result<Items<Held>, NoMemory>
    ensures ascending { IfOk result (Ascends lock_cmp) }
    ensures each { IfOk result (λ locks. (q : Path) → mode_at locks q ≡ lookup (same_path q) modes.now.entries) }
{
    let mut locks = Items::new(alloc);
    for (path, mode) in modes.iter() {
        locks.push(Held {
            path: *path,
            mode: *mode,
        })?;
    }
    Ok(locks)
}
