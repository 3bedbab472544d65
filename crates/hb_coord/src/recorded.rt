// What the log says of transactions.
ghost use Rattle.std.specs.Prelude.{◌≡◌, ◌++◌, ◌∷◌, [], ℕ, ◌^◌, ◌≤◌, ◌<◌, List, Some, None, OnOk, OnErr, IfOk, IfErr, IfSome, MatchOption};
ghost use Rattle.hb_types.specs.declared.change.LogItem.{LogItem};
ghost use Rattle.hb_types.specs.declared.names.NodeName.{NodeName};
ghost use Rattle.hb_types.specs.declared.request.Vote.{Vote};
ghost use Rattle.hb_runs.specs.Coordinator.{ids_item, decision_item, next_number as next_number_in, next_upto as next_upto_in, greatest_floor, CState};
ghost use Rattle.hb_types.specs.Numbers.{IsNumber};
ghost use Rattle.hb_coord.specs.Memory.{Knows, number_of};

use crate::kept::Recorded;
use hb_types::{NoMemory, Number, Tx, Vote};
use std::alloc::Global;
use std::collections::BTreeMap;

/// The greatest transaction number, commit number and length of a log.
pub(crate) const GREATEST: u64 = 1 << 62;

/// How many transactions are reserved at a time.
const RESERVED_AT_ONCE: u64 = 1_000;

impl Recorded {
    pub(crate) fn new(alloc: Global) -> Recorded
        ensures { Knows [] result }
    {
        Recorded {
            reserved: 0,
            number: 0,
            decided: BTreeMap::new(alloc),
        }
    }

    /// The upto of the next reservation.
    pub(crate) fn next_upto(&self) -> u64
        ensures is { (k : CState) → Knows k.log self.now → result ≡ next_upto_in k }
        ensures within { (1 ≤ result) × (result ≤ 2 ^ 62) }
    {
        self.reserved.saturating_add(RESERVED_AT_ONCE).min(GREATEST)
    }

    /// One more than all numbers so far and the floors of the votes, unless that is too great.
    pub(crate) fn next_number(&self, votes: &[Vote]) -> Option<u64>
        ensures is { (k : CState) → Knows k.log self.now → MatchOption result (2 ^ 62 < next_number_in k votes.now) (λ n. n ≡ next_number_in k votes.now) }
        ensures within { IfSome result (λ n. (1 ≤ n) × (n ≤ 2 ^ 62)) }
    {
        let highest = greatest_floor_of(votes).max(self.number);
        match highest.checked_add(1) {
            Some(number) if number <= GREATEST => Some(number),
            _ => None,
        }
    }

    pub(crate) fn number_of(&self, tx: Tx) -> Option<Number>
        ensures none { (log : List LogItem) → Knows log self.now → result ≡ None → number_of self.now tx.0 ≡ None }
        ensures some { (n : Number) → result ≡ Some n → number_of self.now tx.0 ≡ Some n.0 }
        ensures number { IfSome result (λ n. IsNumber n.0) }
    {
        self.decided.get(&tx.0).map(|n| Number(*n))
    }

    /// Notes a reservation.
    pub(crate) fn reserve(&mut self, upto: u64)
        ensures { (log : List LogItem) → Knows log self.old → Knows (log ++ ids_item upto ∷ []) self.new }
    {
        self.reserved = self.reserved.max(upto);
    }

    /// Notes a decision.
    pub(crate) fn decide(&mut self, tx: Tx, number: Number) -> Result<(), NoMemory>
        requires { IsNumber number.0 }
        ensures ok { OnOk result ((log : List LogItem) (nodes : List NodeName) → Knows log self.old → Knows (log ++ decision_item tx.0 number.0 nodes ∷ []) self.new) }
        ensures err { OnErr result ((log : List LogItem) → Knows log self.old → Knows log self.new) }
    {
        self.decided.insert(tx.0, number.0)?;
        self.number = self.number.max(number.0);
        Ok(())
    }
}

fn greatest_floor_of(votes: &[Vote]) -> u64
    ensures { result ≡ greatest_floor votes.now }
{
    votes
        .iter()
        .fold(0, |greatest, vote| greatest.max(vote.floor.0))
}
