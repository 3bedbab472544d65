// What redo knows behind some of the records.
ghost use Rattle.std.specs.Prelude.{◌≡◌, ◌<◌, ◌==◌, ℕ, All, IfOk, OnOk, List, [], ◌∷◌, Some, None, length, slice_get, if◌then◌else◌};
ghost use Rattle.std.specs.BTreeMap.{get};
ghost use Rattle.std.specs.Option.{option_map};
ghost use Rattle.std.specs.Ordering.{nat_cmp};
ghost use Rattle.hb_types.specs.declared.change.LogItem.{LogItem};
ghost use Rattle.hb_types.specs.declared.change.LogItem.TheVariants as entry;
ghost use Rattle.hb_types.specs.declared.change.Placed.{Placed};
ghost use Rattle.hb_types.specs.declared.change.Stored.{Stored};
ghost use Rattle.hb_types.specs.declared.places.Place.{Place};
ghost use Rattle.hb_types.specs.Lists.{Ascends};
ghost use Rattle.hb_types.specs.Records.{HasRecord, IsChange};
ghost use Rattle.hb_branch.specs.Overlays.{change_cmp};
ghost use Rattle.hb_locks.specs.Locks.{lock_cmp};
ghost use Rattle.hb_runs.specs.Server.{SState};
ghost use Rattle.hb_engine.specs.Turned.{IsFresh, StandsFor};
ghost use Rattle.hb_store.specs.Meanings.{Stays};
ghost use Rattle.hb_disks.specs.Redo.{Prepared, Redone, after, changes_of as changes_of_in};
ghost use Rattle.hb_redo.specs.Stages.{HasVotes, Redoes, Takes, changes_at as changes_at_in, flat};

use crate::apply::apply_all;
use crate::ends::{EndsLeft, left, pass};
use hb_engine::Engine;
use hb_store::Store;
use hb_types::{Change, Held, LogItem, NoMemory, Number, Placed, Tx};
use sqlite_items::Items;
use std::alloc::Global;
use std::collections::BTreeMap;

/// For each transaction that voted the number of its Prepare among the records, while it is in doubt.
pub(crate) type Votes = BTreeMap<u64, Option<usize>>;

/// What is known behind some of the records: the branches that stay in doubt, those that voted, and the ends to come.
#[derive(Drop)]
pub struct Pending {
    pub engine: Engine,
    pub told: Items<Tx>,
    pub votes: BTreeMap<u64, Option<usize>>,
    pub ends: BTreeMap<u64, u64>,
}

impl Pending {
    /// What is known in front of all records.
    pub(crate) fn new(alloc: Global, floor: Number, ends: EndsLeft) -> Pending
        ensures fresh { (rows : List Stored) (s : SState) → IsFresh rows floor s → StandsFor result.engine rows s }
        ensures told { result.told ≡ [] }
        ensures votes { (tx : ℕ) → get nat_cmp result.votes tx ≡ None }
        ensures ends { result.ends ≡ ends }
    {
        Pending {
            engine: Engine::new(alloc, floor),
            told: Items::new(alloc),
            votes: BTreeMap::new(alloc),
            ends,
        }
    }

    /// Goes over the next record, of this number; false where it is bad.
    #[tactic(auto, using(crate::proofs::Staying::stays_same, crate::proofs::Staying::stays_then))]
    pub(crate) fn take<S: Store>(
        &mut self,
        alloc: Global,
        store: &mut S,
        records: &[Placed],
        index: usize,
        item: &LogItem,
    ) -> Result<bool, NoMemory>
        requires here { option_map (λ p. p.item) (slice_get records.now index) ≡ Some item.now }
        requires fits { HasRecord item.now }
        requires recorded { All (λ p. HasRecord p.item) records.now }
        ensures takes { IfOk result (λ fits. (base : Place → ℕ) (d : Redone) (voted : List Prepared) (back : List LogItem)
            → Redoes records.now base d voted (item.now ∷ back) (S.rows store.old) (S.room store.old) self.old
            → Takes records.now base d voted item.now back (S.rows store.new) (S.room store.new) self.new fits) }
        ensures begun { S.begun store.new ≡ S.begun store.old }
        ensures stays { Stays S.keeps S.staged store.old store.new }
    {
        match item {
            LogItem::Prepare {
                tx,
                floor,
                locks,
                changes,
            } => {
                let (locks, changes) = (locks.as_slice(), changes.as_slice());
                let fits = self.vote(store, records, index, *tx, *floor, locks, changes)?;
                Ok(fits)
            }
            LogItem::Commit { tx, number } => {
                self.commit(alloc, store, records, *tx, *number)?;
                Ok(true)
            }
            LogItem::Abort { tx } => {
                self.end(*tx);
                Ok(true)
            }
            LogItem::Decision { .. } => Ok(true),
            LogItem::Ids { .. } => Ok(true),
        }
    }

    /// A Prepare: a branch that stays in doubt is put back.
    #[tactic(auto, using(crate::proofs::Staying::stays_same, crate::proofs::Staying::stays_then))]
    fn vote<S: Store>(
        &mut self,
        store: &mut S,
        records: &[Placed],
        index: usize,
        tx: Tx,
        floor: Number,
        locks: &[Held],
        changes: &[Change],
    ) -> Result<bool, NoMemory>
        requires locks { Ascends lock_cmp locks.now }
        requires changes { Ascends change_cmp changes.now }
        ensures takes { IfOk result (λ fits. (base : Place → ℕ) (d : Redone) (voted : List Prepared) (back : List LogItem)
            → changes_at_in records.now index ≡ changes.now
            → Redoes records.now base d voted (entry.Prepare tx floor locks.now changes.now ∷ back) (S.rows store.old) (S.room store.old) self.old
            → Takes records.now base d voted (entry.Prepare tx floor locks.now changes.now) back (S.rows store.new) (S.room store.new) self.new fits) }
        ensures begun { S.begun store.new ≡ S.begun store.old }
        ensures stays { Stays S.keeps S.staged store.old store.new }
    {
        if self.votes.contains_key(&tx.0) {
            return Ok(false);
        }
        enter(&mut self.votes, tx, index)?;
        if left(&self.ends, tx) > 0 {
            return Ok(true);
        }
        store.room(changes)?;
        self.told.push(tx)?;
        let fits = self.engine.restored(tx, floor, locks, changes)?;
        Ok(fits)
    }

    /// A Commit: the changes of the branch are made.
    #[tactic(auto, using(crate::proofs::Staying::stays_same, crate::proofs::Staying::stays_then))]
    fn commit<S: Store>(
        &mut self,
        alloc: Global,
        store: &mut S,
        records: &[Placed],
        tx: Tx,
        number: Number,
    ) -> Result<(), NoMemory>
        requires { All (λ p. HasRecord p.item) records.now }
        ensures redoes { OnOk result ((base : Place → ℕ) (d : Redone) (voted : List Prepared) (back : List LogItem)
            → Redoes records.now base d voted (entry.Commit tx number ∷ back) (S.rows store.old) (S.room store.old) self.old
            → Redoes records.now base (after d (entry.Commit tx number)) voted back (S.rows store.new) (S.room store.new) self.new) }
        ensures begun { S.begun store.new ≡ S.begun store.old }
        ensures stays { Stays S.keeps S.staged store.old store.new }
    {
        apply_all(alloc, store, changes_of(&self.votes, records, tx))?;
        self.engine.raise(number);
        settle(&mut self.votes, tx);
        pass(&mut self.ends, tx);
        Ok(())
    }

    /// An Abort.
    fn end(&mut self, tx: Tx)
        ensures { (records : List Placed) (base : Place → ℕ) (d : Redone) (voted : List Prepared) (back : List LogItem) (rows : List Stored) (room : Place → ℕ)
            → Redoes records base d voted (entry.Abort tx ∷ back) rows room self.old → Redoes records base (after d (entry.Abort tx)) voted back rows room self.new }
    {
        settle(&mut self.votes, tx);
        pass(&mut self.ends, tx);
    }
}

/// The transaction has voted by this record.
fn enter(votes: &mut Votes, tx: Tx, index: usize) -> Result<(), NoMemory>
    ensures { OnOk result ((t : ℕ) → get nat_cmp votes.new t ≡ (if tx.0 == t then Some (Some index) else get nat_cmp votes.old t)) }
{
    votes.insert(tx.0, Some(index))?;
    Ok(())
}

/// The branch of a transaction that voted has ended.
fn settle(votes: &mut Votes, tx: Tx)
    ensures { (t : ℕ) → get nat_cmp votes.new t ≡ (if tx.0 == t then option_map (λ _. None) (get nat_cmp votes.old t) else get nat_cmp votes.old t) }
{
    if let Some(vote) = votes.get_mut(&tx.0) {
        *vote = None;
    }
}

/// The changes of a transaction's branch in doubt, or none.
fn changes_of<'a>(votes: &Votes, records: &'a [Placed], tx: Tx) -> &'a [Change]
    requires { All (λ p. HasRecord p.item) records.now }
    ensures are { (voted doubts : List Prepared) → HasVotes records.now votes.now voted doubts → result.now ≡ changes_of_in tx.0 doubts }
    ensures fit { All IsChange result.now }
{
    match voted_by(votes, tx) {
        Some(index) => changes_at(records, index),
        None => &[],
    }
}

/// The number of the record by which a transaction is in doubt so far.
fn voted_by(votes: &Votes, tx: Tx) -> Option<usize>
    ensures { result ≡ flat (get nat_cmp votes.now tx.0) }
{
    match votes.get(&tx.0) {
        Some(vote) => *vote,
        None => None,
    }
}

/// The changes of a record, where it is a Prepare.
fn changes_at(records: &[Placed], index: usize) -> &[Change]
    requires { All (λ p. HasRecord p.item) records.now }
    ensures at { result.now ≡ changes_at_in records.now index }
    ensures fit { All IsChange result.now }
{
    match records.get(index) {
        Some(record) => match &record.item {
            LogItem::Prepare { changes, .. } => changes.as_slice(),
            _ => &[],
        },
        None => &[],
    }
}
