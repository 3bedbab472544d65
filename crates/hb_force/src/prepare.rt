// The vote of a branch.
ghost use Rattle.std.specs.Prelude.{◌≡◌, ◌++◌, ◌∷◌, [], ◌+◌, ◌≤◌, ℕ, List, true, false, is_some, length, Some, IfOk, OnOk, OnErr};
ghost use Rattle.hb_edge.specs.Causes.{HasCause};
ghost use Rattle.hb_types.specs.declared.change.Stored.{Stored};
ghost use Rattle.hb_types.specs.Calls.{IsAnswer};
ghost use Rattle.hb_types.specs.Records.{HasRecord, framed as spelled};
ghost use Rattle.hb_runs.specs.Server.{SState, now};
ghost use Rattle.hb_engine.specs.Ends.{IsVote};
ghost use Rattle.hb_engine.specs.Turned.{StandsFor};
ghost use Rattle.hb_requests.specs.Forced.{Votes};
ghost use Rattle.hb_store.specs.Meanings.{changes_in, Stays};
ghost use Rattle.hb_force.specs.Kept.{Follows, Keeps};
ghost use Rattle.hb_force.specs.Lengths.{HasPlace};
ghost use Rattle.hb_force.specs.Standing.{Turns, Faults, LeavesBetween, is_quiet, is_recorded};

use crate::appending::append;
use crate::lengths::frame_vote;
use crate::running::Running;
use hb_codec::{Framed, rows_have_one_form};
use hb_edge::{Clock, Disk, Failed};
use hb_store::Store;
use hb_types::{Answer, Change, LogItem, NoMemory, Request, Tx};
use std::alloc::Global;

/// The changes of a vote.
fn changes_of(vote: &LogItem) -> &[Change]
    ensures { result.now ≡ changes_in vote.now }
{
    match vote {
        LogItem::Prepare { changes, .. } => changes.as_slice(),
        _ => &[],
    }
}

impl<D: Disk, S: Store> Running<D, S> {
    /// Forces the vote of a live branch, and answers it.
    pub(crate) fn prepare(
        &mut self,
        alloc: Global,
        clock: &mut Clock,
        tx: Tx,
    ) -> Result<Answer, Failed>
        requires is_open { self.old.log.closed ≡ false }
        requires kept { Keeps S.rows S.room self.old }
        requires votes { Votes self.old.engine tx }
        ensures turns { IfOk result (Turns D.content D.left D.last S.rows self.old clock.old self.new clock.new (Request.Prepare tx)) }
        ensures faulted { OnErr result (Faults D.content D.left D.last S.rows self.old clock.old (Request.Prepare tx)) }
        ensures leaves { LeavesBetween D.content D.left D.last S.rows self.old clock.old self.new (Request.Prepare tx) }
        ensures unrecorded { IfOk result (λ a. is_recorded (Request.Prepare tx) a ≡ false → self.new.log ≡ self.old.log) }
        ensures kept { OnOk result (Keeps S.rows S.room self.new) }
        ensures follows { IfOk result (λ a. Follows S.rows S.room self.old self.new (Request.Prepare tx) a) }
        ensures stays { Stays S.keeps S.staged self.old.store self.new.store }
        ensures well_formed { IfOk result IsAnswer }
        ensures quiet { IfOk result (λ a. is_quiet a ≡ true) }
        ensures is_open { OnOk result (self.new.log.closed ≡ false) }
        ensures told { is_some (D.content self.new.log.disk) ≡ is_some (D.content self.old.log.disk) }
        ensures clock { (clock.old ≤ clock.new) × (clock.new ≤ clock.old + 4) }
        ensures in_time { D.last self.old.log.disk ≤ clock.old → D.last self.new.log.disk ≤ clock.new }
        ensures cause { HasCause (D.faults self.old.log.disk) (D.faults self.new.log.disk) result }
    {
        rows_have_one_form();
        let vote = match self.engine.vote(tx) {
            Ok(Some(vote)) => vote,
            Ok(None) => return Ok(Answer::NoBranch),
            Err(NoMemory) => return Ok(Answer::NoMemory),
        };
        let framed = match frame_vote(alloc, self.log.end(), self.engine.votes(), &vote) {
            Ok(framed) => framed,
            Err(refusal) => return Ok(refusal.answer()),
        };
        self.force_vote(clock, tx, &vote, &framed)
    }

    /// Takes the store's room for the changes of a vote, and forces it.
    fn force_vote(
        &mut self,
        clock: &mut Clock,
        tx: Tx,
        vote: &LogItem,
        framed: &Framed,
    ) -> Result<Answer, Failed>
        requires is_open { self.old.log.closed ≡ false }
        requires kept { Keeps S.rows S.room self.old }
        requires is_vote { (rows : List Stored) (s : SState) → StandsFor self.old.engine rows s → IsVote s tx.0 (Some vote.now) }
        requires place { (rows : List Stored) (s : SState) → StandsFor self.old.engine rows s → HasPlace self.old.log.end (length (now s).doubts) vote.now }
        requires has_record { HasRecord vote.now }
        requires spelled { framed.now ≡ spelled vote.now ++ 0 ∷ [] }
        ensures turns { IfOk result (Turns D.content D.left D.last S.rows self.old clock.old self.new clock.new (Request.Prepare tx)) }
        ensures faulted { OnErr result (Faults D.content D.left D.last S.rows self.old clock.old (Request.Prepare tx)) }
        ensures leaves { LeavesBetween D.content D.left D.last S.rows self.old clock.old self.new (Request.Prepare tx) }
        ensures unrecorded { IfOk result (λ a. is_recorded (Request.Prepare tx) a ≡ false → self.new.log ≡ self.old.log) }
        ensures kept { OnOk result (Keeps S.rows S.room self.new) }
        ensures follows { IfOk result (λ a. Follows S.rows S.room self.old self.new (Request.Prepare tx) a) }
        ensures stays { Stays S.keeps S.staged self.old.store self.new.store }
        ensures well_formed { IfOk result IsAnswer }
        ensures quiet { IfOk result (λ a. is_quiet a ≡ true) }
        ensures is_open { OnOk result (self.new.log.closed ≡ false) }
        ensures told { is_some (D.content self.new.log.disk) ≡ is_some (D.content self.old.log.disk) }
        ensures clock { (clock.old ≤ clock.new) × (clock.new ≤ clock.old + 4) }
        ensures in_time { D.last self.old.log.disk ≤ clock.old → D.last self.new.log.disk ≤ clock.new }
        ensures cause { HasCause (D.faults self.old.log.disk) (D.faults self.new.log.disk) result }
    {
        match self.store.room(changes_of(vote)) {
            Ok(()) => {}
            Err(NoMemory) => return Ok(Answer::NoMemory),
        }
        append(&mut self.log, clock, framed.as_slice())?;
        let floor = self.engine.voted(tx);
        Ok(Answer::Vote { floor })
    }
}
