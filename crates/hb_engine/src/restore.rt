// A branch in doubt, put back when a server comes up.
ghost use Rattle.std.specs.Prelude.{◌≡◌, ℕ, ◌==◌, if◌then◌else◌, [], IfOk, OnOk, None, Some, max};
ghost use Rattle.std.specs.List.{list_all};
ghost use Rattle.hb_types.specs.declared.places.Path.{Path};
ghost use Rattle.hb_types.specs.declared.places.Path.TheVariants as path;
ghost use Rattle.hb_types.specs.declared.lock.Mode.TheVariants as mode;
ghost use Rattle.hb_types.specs.Lists.{Ascends};
ghost use Rattle.hb_branch.specs.Overlays.{change_cmp};
ghost use Rattle.hb_disks.specs.Redo.{Redone};
ghost use Rattle.hb_locks.specs.Locks.{IsCompatible, held_at, lock_cmp};
ghost use Rattle.hb_engine.specs.Covers.{is_covered};
ghost use Rattle.hb_engine.specs.Fits.{doubts_of, slot_at};
ghost use Rattle.hb_engine.specs.Restores.{Remembers, Restores, TakesAll, TakesOne, holds_above, prepared_as};

use crate::climb::intention;
use crate::cover::{is_covering, is_held};
use crate::engine::{Engine, Slots};
use crate::slot::Slot;
use hb_branch::Branch;
use hb_locks::{LockTable, Take};
use hb_types::{Change, Held, Mode, NoMemory, Number, Path, Tx};
use std::alloc::Global;

impl Engine {
    /// Puts back a branch that voted with this floor, with the locks and changes of its vote, beside the branches in doubt that are
    /// there. False where it doesn't fit; the engine is then of no use any more, and so it is where memory is wanting.
    pub fn restored(
        &mut self,
        tx: Tx,
        floor: Number,
        locks: &[Held],
        changes: &[Change],
    ) -> Result<bool, NoMemory>
        requires locks { Ascends lock_cmp locks.now }
        requires changes { Ascends change_cmp changes.now }
        ensures { IfOk result (λ fits. (r : Redone) → Remembers self.old r → doubts_of tx.0 r.doubts ≡ []
            → Restores self.new r (prepared_as tx floor locks.now changes.now) fits) }
    {
        if !take_all(&mut self.locks, tx, locks)? {
            return Ok(false);
        }
        if !are_covered(&self.locks, tx, changes) {
            return Ok(false);
        }
        let branch = filled(self.alloc, tx, changes)?;
        let vote = Some(floor);
        hold(&mut self.slots, tx, Slot { branch, vote })?;
        Ok(true)
    }

    /// A Commit of this number was redone.
    pub fn raise(&mut self, number: Number)
        ensures { (r : Redone) → Remembers self.old r → Remembers self.new (record { rows = r.rows; floor = max r.floor number.0; doubts = r.doubts }) }
    {
        if number.0 > self.floor.0 {
            self.floor = number;
        }
    }
}

/// Whether the paths above a lock are held in its intention mode or stronger.
fn has_above(locks: &LockTable, tx: Tx, held: Held) -> bool
    ensures { result ≡ holds_above locks.now tx held }
{
    let mode = intention(held.mode);
    match held.path {
        Path::Whole(_) => true,
        Path::Group(space, _) => is_held(locks, tx, Path::Whole(space), mode),
        Path::Key(place) => {
            is_held(locks, tx, Path::Whole(place.space), mode)
                && is_held(locks, tx, Path::Group(place.space, place.group), mode)
        }
    }
}

/// Takes one lock; false where one above it isn't held, or others stand in its way.
fn take_one(locks: &mut LockTable, tx: Tx, held: Held) -> Result<bool, NoMemory>
    ensures { IfOk result (TakesOne locks.old locks.new tx held) }
{
    if !has_above(locks, tx, held) {
        return Ok(false);
    }
    match locks.take(tx, held.path, held.mode)? {
        Take::Granted => Ok(true),
        Take::Blocked { .. } => Ok(false),
    }
}

/// Takes the locks of a transaction that holds none, one after another.
fn take_all(locks: &mut LockTable, tx: Tx, asked: &[Held]) -> Result<bool, NoMemory>
    requires { Ascends lock_cmp asked.now }
    ensures { IfOk result (λ fits. ((q : Path) → held_at locks.old tx q ≡ None) → IsCompatible locks.old → TakesAll locks.old locks.new tx asked.now fits) }
{
    for held in asked {
        if !take_one(locks, tx, *held)? {
            return Ok(false);
        }
    }
    Ok(true)
}

/// Whether each change lies under an X lock.
fn are_covered(locks: &LockTable, tx: Tx, changes: &[Change]) -> bool
    ensures { result ≡ list_all (λ c. is_covered locks.now tx mode.X (path.Key c.place)) changes.now }
{
    for change in changes {
        if !is_covering(locks, tx, Path::Key(change.place), Mode::X) {
            return false;
        }
    }
    true
}

/// A branch with these changes.
fn filled(alloc: Global, tx: Tx, changes: &[Change]) -> Result<Branch, NoMemory>
    requires { Ascends change_cmp changes.now }
    ensures { IfOk result (λ branch. branch.changes ≡ changes.now) }
{
    let mut branch = Branch::new(alloc, tx);
    for change in changes {
        branch.put(change.copy(alloc)?)?;
    }
    Ok(branch)
}

fn hold(slots: &mut Slots, tx: Tx, slot: Slot) -> Result<(), NoMemory>
    ensures { OnOk result ((t : ℕ) → slot_at slots.new t ≡ (if tx.0 == t then Some slot else slot_at slots.old t)) }
{
    slots.insert(tx.0, slot)?;
    Ok(())
}
