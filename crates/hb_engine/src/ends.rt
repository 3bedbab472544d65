// Votes and the ends of branches.
ghost use Rattle.std.specs.Prelude.{◌≡◌, ℕ, ◌==◌, if◌then◌else◌, List, MatchOption, IfOk, Some, None, max, length, count_by, is_some};
ghost use Rattle.std.specs.Option.{option_map};
ghost use Rattle.hb_types.specs.declared.change.Stored.{Stored};
ghost use Rattle.std.specs.BTreeMap.{IsOrdered, values};
ghost use Rattle.std.specs.Ordering.{nat_cmp};
ghost use Rattle.hb_runs.specs.Server.{SState, now};
ghost use Rattle.hb_locks.specs.Locks.{Releases, IsCompatible};
ghost use Rattle.hb_engine.specs.Fits.{slot_at};
ghost use Rattle.hb_engine.specs.Steps.{voted};
ghost use Rattle.hb_engine.specs.Turned.{StandsFor};
ghost use Rattle.hb_engine.specs.Ends.{IsStanding, IsVote, Votes, Commits, Aborts, Drops, NoneInDoubt};

use crate::engine::{Engine, Slots, live_branch};
use crate::slot::Slot;
use hb_locks::LockTable;
use hb_types::{Change, LogItem, NoMemory, Number, Tx};
use sqlite_items::Items;
use std::alloc::Global;

/// How far a transaction's branch is.
#[derive(Clone, Copy, Debug, PartialEq, Eq)]
pub enum Standing {
    /// There is none.
    Absent,
    Live,
    /// It has voted, with this floor.
    Voted(Number),
}

impl Engine {
    /// How far a transaction's branch is.
    pub fn standing(&self, tx: Tx) -> Standing
        ensures { (rows : List Stored) (s : SState) → StandsFor self.now rows s → IsStanding s tx.0 result }
    {
        match self.slots.get(&tx.0) {
            Some(slot) => match slot.vote {
                Some(floor) => Standing::Voted(floor),
                None => Standing::Live,
            },
            None => Standing::Absent,
        }
    }

    /// How many branches have voted and not ended; it costs as much as there are branches.
    pub fn votes(&self) -> usize
        ensures { (rows : List Stored) (s : SState) → StandsFor self.now rows s → result ≡ length (now s).doubts }
    {
        votes_in(&self.slots)
    }

    /// The record of the vote of a live branch: the floor, all its locks and all its changes.
    pub fn vote(&self, tx: Tx) -> Result<Option<LogItem>, NoMemory>
        ensures { IfOk result (λ vote. (rows : List Stored) (s : SState) → StandsFor self.now rows s → IsVote s tx.0 vote) }
    {
        match live_branch(&self.slots, tx) {
            Some(branch) => {
                let locks = self.locks.locks(tx)?;
                let changes = copied(self.alloc, branch.changes())?;
                Ok(Some(LogItem::Prepare {
                    tx,
                    floor: self.floor,
                    locks,
                    changes,
                }))
            }
            None => Ok(None),
        }
    }

    /// The record of the vote of a live branch stands; tells the floor of the vote.
    pub fn voted(&mut self, tx: Tx) -> Number
        ensures { Votes self.old self.new tx result }
    {
        mark(&mut self.slots, tx, self.floor);
        self.floor
    }

    /// The Commit of a branch that voted stands; gives the changes that are to be applied now.
    pub fn committed(&mut self, tx: Tx, number: Number) -> Option<Vec<Change>>
        ensures { MatchOption result (NoneInDoubt self.old tx) (λ changes. Commits self.old self.new tx number changes.items) }
    {
        match remove(&mut self.slots, &mut self.locks, tx) {
            Some(slot) => {
                self.floor = later(self.floor, number);
                Some(slot.branch.into_list())
            }
            None => None,
        }
    }

    /// The Abort of a branch that voted stands; gives the changes that are not to be.
    pub fn aborted(&mut self, tx: Tx) -> Option<Vec<Change>>
        ensures { MatchOption result (NoneInDoubt self.old tx) (λ changes. Aborts self.old self.new tx changes.items) }
    {
        match remove(&mut self.slots, &mut self.locks, tx) {
            Some(slot) => Some(slot.branch.into_list()),
            None => None,
        }
    }

    /// A live branch is given up.
    pub fn dropped(&mut self, tx: Tx)
        ensures { Drops self.old self.new tx }
    {
        let _ = remove(&mut self.slots, &mut self.locks, tx);
    }
}

fn votes_in(slots: &Slots) -> usize
    ensures count { result ≡ count_by (λ slot. is_some slot.vote) (values slots.now) }
    ensures ordered { IsOrdered nat_cmp slots.now }
{
    let _ = slots.len();
    slots.values().filter(|slot| slot.vote.is_some()).count()
}

/// The greater of two numbers.
fn later(a: Number, b: Number) -> Number
    ensures { result.0 ≡ max a.0 b.0 }
{
    if b.0 > a.0 { b } else { a }
}

fn copied(alloc: Global, changes: &[Change]) -> Result<Items<Change>, NoMemory>
    ensures { IfOk result (λ copy. copy ≡ changes.now) }
{
    let mut copy = Items::new(alloc);
    for change in changes {
        copy.push(change.copy(alloc)?)?;
    }
    Ok(copy)
}

fn mark(slots: &mut Slots, tx: Tx, floor: Number)
    ensures { (t : ℕ) → slot_at slots.new t ≡ (if tx.0 == t then option_map (voted floor) (slot_at slots.old t) else slot_at slots.old t) }
{
    if let Some(slot) = slots.get_mut(&tx.0) {
        slot.vote = Some(floor);
    }
}

/// Takes a branch and its locks out.
fn remove(slots: &mut Slots, locks: &mut LockTable, tx: Tx) -> Option<Slot>
    ensures slot { result ≡ slot_at slots.old tx.0 }
    ensures slots { (t : ℕ) → slot_at slots.new t ≡ (if tx.0 == t then None else slot_at slots.old t) }
    ensures released { Releases locks.old locks.new tx }
    ensures compatible { IsCompatible locks.new }
{
    locks.release(tx);
    slots.remove(&tx.0)
}
