// What the coordinator knows of its transactions.
ghost use Rattle.std.specs.Prelude.{◌≡◌, ◌+◌, ◌≤◌, ◌<◌, ◌^◌, ℕ, true, if◌then◌else◌, IsTrue, ◌↔◌, IfOk, OnErr, List, ◌++◌, ◌∷◌, []};
ghost use Rattle.std.specs.Ordering.{nat_cmp};
ghost use Rattle.std.specs.BTreeSet.{btree_set_len, contains};
ghost use Rattle.hb_types.specs.Numbers.{IsNumber};
ghost use Rattle.hb_runs.specs.Coordinator.{CState, IsActive, OutcomeRight, happens, begun, ended, reserved as reserving};
ghost use Rattle.hb_coord.specs.Memory.{Reflects};
ghost use Rattle.hb_coord.specs.Standing.{IsOwn, is_quiet};

use crate::kept::Ledger;
use hb_types::{Answer, NoMemory, Tx};

impl Ledger {
    pub(crate) fn is_active(&self, tx: Tx) -> bool
        ensures { (k : CState) → Reflects k self.now → IsTrue result ↔ IsActive k tx.0 }
    {
        self.active.contains(&tx.0)
    }

    /// What became of a transaction.
    pub(crate) fn outcome(&self, tx: Tx) -> Answer
        ensures right { (k : CState) → Reflects k self.now → OutcomeRight k tx.0 result }
        ensures quiet { is_quiet result ≡ true }
        ensures own { IsOwn result }
    {
        match self.recorded.number_of(tx) {
            Some(number) => Answer::Decided(number),
            None => {
                if self.is_active(tx) || self.next <= tx.0 {
                    Answer::Active
                } else {
                    Answer::Aborted
                }
            }
        }
    }

    /// Begins the next transaction; room for its end is had with it.
    pub(crate) fn begin(&mut self) -> Result<Tx, NoMemory>
        requires { self.old.next ≤ 2 ^ 62 }
        ensures next { IfOk result (λ tx. tx.0 ≡ self.old.next) }
        ensures number { IfOk result (λ tx. IsNumber tx.0) }
        ensures count { btree_set_len self.new.active ≤ btree_set_len self.old.active + 1 }
        ensures begun { IfOk result (λ tx. (k : CState) → Reflects k self.old → Reflects (happens k (begun tx.0)) self.new) }
        ensures none { OnErr result ((k : CState) → Reflects k self.old → Reflects k self.new) }
    {
        self.active.insert(self.next)?;
        let tx = Tx(self.next);
        self.next += 1;
        Ok(tx)
    }

    /// Ends a transaction, if it is active.
    pub(crate) fn end(&mut self, tx: Tx)
        ensures ended { (k : CState) → Reflects k self.old → Reflects (happens k (ended tx.0)) self.new }
        ensures count { btree_set_len self.new.active + (if contains nat_cmp self.old.active tx.0 then 1 else 0) ≤ btree_set_len self.old.active }
    {
        self.active.remove(&tx.0);
    }
}
