// The rolling back of a branch that voted.
ghost use Rattle.std.specs.Prelude.{◌≡◌, ◌+◌, ◌≤◌, true, false, is_some, IfOk, OnOk, OnErr};
ghost use Rattle.hb_edge.specs.Causes.{HasCause};
ghost use Rattle.hb_types.specs.Numbers.{IsNumber};
ghost use Rattle.hb_requests.specs.Forced.{RollsBack};
ghost use Rattle.hb_store.specs.Meanings.{Stays};
ghost use Rattle.hb_force.specs.Kept.{Follows, Keeps};
ghost use Rattle.hb_force.specs.Standing.{Turns, Faults, LeavesBetween, is_recorded};

use crate::appending::append;
use crate::frames::abort_bytes;
use crate::running::Running;
use hb_edge::{Clock, Disk, Failed};
use hb_store::Store;
use hb_types::{Answer, Request, Tx};

impl<D: Disk, S: Store> Running<D, S> {
    /// Forces the Abort of a branch that voted, and gives back the store's room for its changes. It takes no memory.
    pub(crate) fn rollback(&mut self, clock: &mut Clock, tx: Tx) -> Result<Answer, Failed>
        requires is_open { self.old.log.closed ≡ false }
        requires kept { Keeps S.rows S.room self.old }
        requires rolls_back { RollsBack self.old.engine self.old.engine tx }
        requires tx { IsNumber tx.0 }
        ensures turns { IfOk result (Turns D.content D.left D.last S.rows self.old clock.old self.new clock.new (Request.Rollback tx)) }
        ensures faulted { OnErr result (Faults D.content D.left D.last S.rows self.old clock.old (Request.Rollback tx)) }
        ensures leaves { LeavesBetween D.content D.left D.last S.rows self.old clock.old self.new (Request.Rollback tx) }
        ensures unrecorded { IfOk result (λ a. is_recorded (Request.Rollback tx) a ≡ false → self.new.log ≡ self.old.log) }
        ensures kept { OnOk result (Keeps S.rows S.room self.new) }
        ensures follows { IfOk result (λ a. Follows S.rows S.room self.old self.new (Request.Rollback tx) a) }
        ensures stays { Stays S.keeps S.staged self.old.store self.new.store }
        ensures done { IfOk result (λ a. a ≡ Answer.Done) }
        ensures is_open { OnOk result (self.new.log.closed ≡ false) }
        ensures told { is_some (D.content self.new.log.disk) ≡ is_some (D.content self.old.log.disk) }
        ensures clock { (clock.old ≤ clock.new) × (clock.new ≤ clock.old + 4) }
        ensures in_time { D.last self.old.log.disk ≤ clock.old → D.last self.new.log.disk ≤ clock.new }
        ensures cause { HasCause (D.faults self.old.log.disk) (D.faults self.new.log.disk) result }
    {
        append(&mut self.log, clock, &abort_bytes(tx))?;
        match self.engine.aborted(tx) {
            Some(changes) => self.store.unroom(&changes),
            None => unreachable!(),
        }
        Ok(Answer::Done)
    }
}
