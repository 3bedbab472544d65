// The branches of a server.
ghost use Rattle.std.specs.Prelude.{◌≡◌, ℕ, ◌==◌, if◌then◌else◌, List, OnOk, OnErr, IfOk, IfErr, Some, None, is_some};
ghost use Rattle.std.specs.Option.{option_copied, option_map};
ghost use Rattle.hb_types.specs.declared.change.Stored.{Stored};
ghost use Rattle.hb_runs.specs.Server.{SState};
ghost use Rattle.hb_engine.specs.Fits.{live_in_slot, slot_at};
ghost use Rattle.hb_engine.specs.Turned.{StandsFor, Leads, IsCovered, IsFresh, IsRefused};
ghost use Rattle.hb_engine.specs.Steps.{fresh, written};

use crate::climb::climb;
use crate::cover::is_covering;
use crate::refusal::Refusal;
use crate::slot::Slot;
use hb_branch::Branch;
use hb_locks::LockTable;
use hb_types::{Answer, Change, Mode, NoMemory, Number, Path, Request, Tx};
use std::alloc::Global;
use std::collections::BTreeMap;

pub(crate) type Slots = BTreeMap<u64, Slot>;

/// The branches that have not ended, their locks, and the greatest number applied.
#[derive(Drop)]
pub struct Engine {
    pub(crate) alloc: Global,
    pub(crate) slots: Slots,
    pub(crate) locks: LockTable,
    pub(crate) floor: Number,
}

impl Engine {
    /// No branch, and the floor that a start found.
    pub fn new(alloc: Global, floor: Number) -> Engine
        ensures { (rows : List Stored) (s : SState) → IsFresh rows floor s → StandsFor result rows s }
    {
        Engine {
            alloc,
            slots: BTreeMap::new(alloc),
            locks: LockTable::new(alloc),
            floor,
        }
    }

    /// Begins a branch, unless there is one.
    pub fn enlist(&mut self, tx: Tx) -> Result<(), NoMemory>
        ensures ok { OnOk result (Leads self.old self.new (Request.Enlist tx) Answer.Done) }
        ensures err { OnErr result ((rows : List Stored) (s : SState) → StandsFor self.old rows s → StandsFor self.new rows s) }
    {
        if self.slots.contains_key(&tx.0) {
            return Ok(());
        }
        begin(self.alloc, &mut self.slots, tx)
    }

    /// The live branch of a transaction, where it holds a path or one above it in this mode.
    pub fn covered(&self, tx: Tx, path: Path, mode: Mode) -> Result<&Branch, Refusal>
        ensures ok { IfOk result (λ branch. (rows : List Stored) (s : SState) → StandsFor self.now rows s → IsCovered s tx.0 mode path branch.now) }
        ensures err { IfErr result (λ why. (rows : List Stored) (s : SState) → StandsFor self.now rows s → IsRefused s tx.0 mode path why) }
    {
        match live_branch(&self.slots, tx) {
            Some(branch) if is_covering(&self.locks, tx, path, mode) => Ok(branch),
            Some(_) => Err(Refusal::NotLocked),
            None => Err(Refusal::NoBranch),
        }
    }

    /// Takes the locks of a path's ladder for a live branch, one after another, up to the first that others stand in the way of.
    pub fn lock(&mut self, tx: Tx, path: Path, mode: Mode) -> Answer
        ensures { Leads self.old self.new (Request.Lock tx path mode) result }
    {
        if !is_live(&self.slots, tx) {
            return Answer::NoBranch;
        }
        climb(&mut self.locks, tx, path, mode)
    }

    /// Makes a change of a live branch that holds its place in X.
    pub fn write(&mut self, tx: Tx, change: Change) -> Answer
        ensures { Leads self.old self.new (Request.Write tx change) result }
    {
        if !is_live(&self.slots, tx) {
            return Answer::NoBranch;
        }
        if !is_covering(&self.locks, tx, Path::Key(change.place), Mode::X) {
            return Answer::NotLocked;
        }
        match put_in(&mut self.slots, tx, change) {
            Ok(()) => Answer::Done,
            Err(NoMemory) => Answer::NoMemory,
        }
    }
}

/// The branch of a transaction, where it lives.
pub(crate) fn live_branch(slots: &Slots, tx: Tx) -> Option<&Branch>
    ensures { option_copied result ≡ live_in_slot (slot_at slots.now tx.0) }
{
    match slots.get(&tx.0) {
        Some(slot) => match slot.vote {
            None => Some(&slot.branch),
            Some(_) => None,
        },
        None => None,
    }
}

/// Whether a branch of the transaction lives.
fn is_live(slots: &Slots, tx: Tx) -> bool
    ensures { result ≡ is_some (live_in_slot (slot_at slots.now tx.0)) }
{
    live_branch(slots, tx).is_some()
}

/// Puts an empty branch where there is none.
fn begin(alloc: Global, slots: &mut Slots, tx: Tx) -> Result<(), NoMemory>
    requires { slot_at slots.old tx.0 ≡ None }
    ensures ok { OnOk result ((t : ℕ) → slot_at slots.new t ≡ (if tx.0 == t then Some (fresh tx) else slot_at slots.old t)) }
    ensures err { OnErr result ((t : ℕ) → slot_at slots.new t ≡ slot_at slots.old t) }
{
    let slot = Slot {
        branch: Branch::new(alloc, tx),
        vote: None,
    };
    slots.insert(tx.0, slot)?;
    Ok(())
}

/// Makes a change of a transaction's branch.
fn put_in(slots: &mut Slots, tx: Tx, change: Change) -> Result<(), NoMemory>
    ensures ok { OnOk result ((t : ℕ) → slot_at slots.new t ≡ (if tx.0 == t then option_map (written change) (slot_at slots.old t) else slot_at slots.old t)) }
    ensures err { OnErr result ((t : ℕ) → slot_at slots.new t ≡ slot_at slots.old t) }
{
    match slots.get_mut(&tx.0) {
        Some(slot) => slot.branch.put(change),
        None => Ok(()),
    }
}
