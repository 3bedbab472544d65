// The lock table.
ghost use Rattle.std.specs.Prelude.{◌≡◌, [], IfOk, OnErr};
ghost use Rattle.hb_locks.specs.Locks.{HoldsAncestors, IsCompatible, Releases, held_at, lock_cmp, mode_at};
ghost use Rattle.hb_types.specs.Lists.{Ascends};
ghost use Rattle.hb_types.specs.declared.places.Path.{Path};
ghost use Rattle.hb_locks.specs.Takes.{Says};

use crate::holders::{blockers, mode_of, wanted_of};
use crate::paths::Paths;
use crate::table::{Table, end, grant, holders_of, locks_in};
use crate::take::Take;
use hb_types::{Held, Mode, NoMemory, Path, Tx};
use sqlite_items::Items;
use std::alloc::Global;
use std::collections::BTreeMap;
use std::marker::Model;

/// Who holds which mode on which path; seen as the paths that are held, ascending, each with its
/// holders in the order of their first grants on it.
#[derive(Drop)]
pub struct LockTable {
    alloc: Global,
    table: Table,
    paths: Paths,
}

impl Model for LockTable {
    ghost use Rattle.hb_locks.specs.Locks.{Locks};
    ghost use Rattle.hb_locks.specs.Index.{IsSound};

    ghost Value = { Locks };

    ghost view = { λ t. t.table.entries };

    ghost invariant = { λ t. IsSound t.table.entries t.paths };
}

impl LockTable {
    pub fn new(alloc: Global) -> LockTable
        ensures { result ≡ [] }
    {
        LockTable {
            alloc,
            table: BTreeMap::new(alloc),
            paths: BTreeMap::new(alloc),
        }
    }

    /// Asks for a mode on a path, whose ancestors are held.
    pub fn take(&mut self, tx: Tx, path: Path, mode: Mode) -> Result<Take, NoMemory>
        requires ancestors { HoldsAncestors self.old tx path mode }
        ensures says { IfOk result (Says self.old self.new tx path mode) }
        ensures no_memory { OnErr result (self.new ≡ self.old) }
        ensures compatible { IsCompatible self.new }
    {
        let holders = holders_of(&self.table, path);
        let wanted = wanted_of(holders, tx, mode);
        let found = blockers(self.alloc, holders, tx, wanted)?;
        if !found.is_empty() {
            return Ok(Take::Blocked {
                wanted,
                holders: found,
            });
        }
        grant(
            self.alloc,
            &mut self.table,
            &mut self.paths,
            tx,
            path,
            wanted,
        )?;
        Ok(Take::Granted)
    }

    /// The mode in which the transaction holds the path.
    pub fn held(&self, tx: Tx, path: Path) -> Option<Mode>
        ensures { result ≡ held_at self.now tx path }
    {
        mode_of(holders_of(&self.table, path), tx)
    }

    /// Gives back all locks of a transaction that has ended.
    pub fn release(&mut self, tx: Tx)
        ensures released { Releases self.old self.new tx }
        ensures compatible { IsCompatible self.new }
    {
        end(&mut self.table, &mut self.paths, tx);
    }

    /// The locks of a transaction, ascending by path.
    pub fn locks(&self, tx: Tx) -> Result<Items<Held>, NoMemory>
        ensures ascending { IfOk result (Ascends lock_cmp) }
        ensures each { IfOk result (λ locks. (q : Path) → mode_at locks q ≡ held_at self.now tx q) }
    {
        locks_in(self.alloc, &self.table, &self.paths, tx)
    }
}
