// A coordinator that is up.
ghost use Rattle.std.specs.Prelude.{◌≡◌, ◌≢◌, ◌≤◌, ◌+◌, ◌<◌, ◌^◌, true, false, is_some, IfOk, OnOk, OnErr};
ghost use Rattle.hb_edge.specs.Causes.{HasCause};
ghost use Rattle.hb_edge.specs.Stops.{Leaves};
ghost use Rattle.hb_types.specs.declared.answer.Answer.TheVariants as answer;
ghost use Rattle.hb_types.specs.declared.names.Owner.{Owner};
ghost use Rattle.hb_types.specs.declared.request.Request.TheVariants as request;
ghost use Rattle.hb_types.specs.Calls.{AreVotes, IsRequest};
ghost use Rattle.hb_types.specs.Numbers.{IsNumber};
ghost use Rattle.hb_runs.specs.Coordinator.{CState, CTurns, Right, takes_none};
ghost use Rattle.std.specs.BTreeSet.{btree_set_len};
ghost use Rattle.hb_coord.specs.Memory.{active_begun, active_ended};
ghost use Rattle.hb_coord.specs.Standing.{IsUp, IsBetween, IsOwn, asking, is_quiet, is_recording, records_none};

use crate::forcing::{append, decision, frame};
use crate::kept::Ledger;
use crate::recorded::GREATEST;
use hb_edge::{Clock, Disk, Failed};
use hb_log::Log;
use hb_types::{Answer, LogItem, NoMemory, Number, Owner, Request, Tx, Vote};
use std::alloc::Global;

/// A coordinator that is up: its log, and what it knows.
#[derive(Drop)]
pub struct Running<D: Disk> {
    pub log: Log<D>,
    pub ledger: Ledger,
}

impl<D: Disk> Running<D> {
    /// Does a request that is neither Start nor Stop.
    pub(crate) fn serve(
        &mut self,
        alloc: Global,
        clock: &mut Clock,
        request: &Request,
    ) -> Result<Answer, Failed>
        requires is_open { self.old.log.closed ≡ false }
        requires well_formed { IsRequest request.now }
        requires no_stop { request.now ≡ Request.Stop → ⊥ }
        ensures turns { IfOk result (λ a. (k : CState) → IsUp D.content D.left D.last k self.old clock.old → (t : CState) × CTurns k (asking request.now a) t × IsUp D.content D.left D.last t self.new clock.new) }
        ensures faulted { OnErr result ((k : CState) → IsUp D.content D.left D.last k self.old clock.old → Right k request.now (answer.Fault false)) }
        ensures leaves { (k : CState) → IsUp D.content D.left D.last k self.old clock.old → Leaves clock.old (D.left self.old.log.disk) (D.left self.new.log.disk) (λ m image. IsBetween k request.now image) }
        ensures quiet { IfOk result (λ a. is_quiet a ≡ true) }
        ensures memory { IfOk result (λ a. takes_none request.now ≡ true → a ≢ answer.NoMemory) }
        ensures own { IfOk result IsOwn }
        ensures none { IfOk result (λ a. is_recording a ≡ false → clock.new ≡ clock.old) }
        ensures count { btree_set_len self.new.ledger.active + active_ended self.old.ledger request.now ≤ btree_set_len self.old.ledger.active + active_begun request.now }
        ensures is_open { OnOk result (self.new.log.closed ≡ false) }
        ensures told { is_some (D.content self.new.log.disk) ≡ is_some (D.content self.old.log.disk) }
        ensures clock { (clock.old ≤ clock.new) × (clock.new ≤ clock.old + 4) }
        ensures no_calls { records_none request.now ≡ true → clock.new ≡ clock.old }
        ensures in_time { D.last self.old.log.disk ≤ clock.old → D.last self.new.log.disk ≤ clock.new }
        ensures cause { HasCause (D.faults self.old.log.disk) (D.faults self.new.log.disk) result }
    {
        match request {
            Request::Begin { owner } => self.begin(alloc, clock, *owner),
            Request::Decide { tx, votes } => self.decide(alloc, clock, *tx, votes.as_slice()),
            Request::Abort { tx } => {
                self.ledger.end(*tx);
                Ok(Answer::Done)
            }
            Request::Outcome { tx } => Ok(self.ledger.outcome(*tx)),
            Request::Start => Ok(Answer::AlreadyUp),
            _ => Ok(Answer::NotMine),
        }
    }

    /// Begins a transaction, and reserves numbers where none is left.
    fn begin(&mut self, alloc: Global, clock: &mut Clock, owner: Owner) -> Result<Answer, Failed>
        requires { self.old.log.closed ≡ false }
        ensures turns { IfOk result (λ a. (k : CState) → IsUp D.content D.left D.last k self.old clock.old → (t : CState) × CTurns k (asking (request.Begin owner) a) t × IsUp D.content D.left D.last t self.new clock.new) }
        ensures faulted { OnErr result ((k : CState) → IsUp D.content D.left D.last k self.old clock.old → Right k (request.Begin owner) (answer.Fault false)) }
        ensures leaves { (k : CState) → IsUp D.content D.left D.last k self.old clock.old → Leaves clock.old (D.left self.old.log.disk) (D.left self.new.log.disk) (λ m image. IsBetween k (request.Begin owner) image) }
        ensures quiet { IfOk result (λ a. is_quiet a ≡ true) }
        ensures own { IfOk result IsOwn }
        ensures none { IfOk result (λ a. is_recording a ≡ false → clock.new ≡ clock.old) }
        ensures count { btree_set_len self.new.ledger.active ≤ btree_set_len self.old.ledger.active + 1 }
        ensures is_open { OnOk result (self.new.log.closed ≡ false) }
        ensures told { is_some (D.content self.new.log.disk) ≡ is_some (D.content self.old.log.disk) }
        ensures clock { (clock.old ≤ clock.new) × (clock.new ≤ clock.old + 4) }
        ensures in_time { D.last self.old.log.disk ≤ clock.old → D.last self.new.log.disk ≤ clock.new }
        ensures cause { HasCause (D.faults self.old.log.disk) (D.faults self.new.log.disk) result }
    {
        if self.ledger.next > GREATEST {
            return Ok(Answer::NumbersSpent);
        }
        if self.ledger.next > self.ledger.recorded.reserved {
            return self.reserve(alloc, clock, owner);
        }
        match self.ledger.begin() {
            Ok(tx) => Ok(Answer::Begun(tx)),
            Err(NoMemory) => Ok(Answer::NoMemory),
        }
    }

    /// Reserves numbers, and begins the first of them.
    fn reserve(&mut self, alloc: Global, clock: &mut Clock, _owner: Owner) -> Result<Answer, Failed>
        requires is_open { self.old.log.closed ≡ false }
        requires within { self.old.ledger.next ≤ 2 ^ 62 }
        requires spent { self.old.ledger.recorded.reserved < self.old.ledger.next }
        ensures turns { IfOk result (λ a. (k : CState) → IsUp D.content D.left D.last k self.old clock.old → (t : CState) × CTurns k (asking (request.Begin _owner) a) t × IsUp D.content D.left D.last t self.new clock.new) }
        ensures faulted { OnErr result ((k : CState) → IsUp D.content D.left D.last k self.old clock.old → Right k (request.Begin _owner) (answer.Fault false)) }
        ensures leaves { (k : CState) → IsUp D.content D.left D.last k self.old clock.old → Leaves clock.old (D.left self.old.log.disk) (D.left self.new.log.disk) (λ m image. IsBetween k (request.Begin _owner) image) }
        ensures quiet { IfOk result (λ a. is_quiet a ≡ true) }
        ensures own { IfOk result IsOwn }
        ensures none { IfOk result (λ a. is_recording a ≡ false → clock.new ≡ clock.old) }
        ensures count { btree_set_len self.new.ledger.active ≤ btree_set_len self.old.ledger.active + 1 }
        ensures is_open { OnOk result (self.new.log.closed ≡ false) }
        ensures told { is_some (D.content self.new.log.disk) ≡ is_some (D.content self.old.log.disk) }
        ensures clock { (clock.old ≤ clock.new) × (clock.new ≤ clock.old + 4) }
        ensures in_time { D.last self.old.log.disk ≤ clock.old → D.last self.new.log.disk ≤ clock.new }
        ensures cause { HasCause (D.faults self.old.log.disk) (D.faults self.new.log.disk) result }
    {
        let upto = self.ledger.recorded.next_upto();
        let framed = match frame(alloc, self.log.end(), &LogItem::Ids { upto }) {
            Ok(framed) => framed,
            Err(refusal) => return Ok(refusal.answer()),
        };
        let tx = match self.ledger.begin() {
            Ok(tx) => tx,
            Err(NoMemory) => return Ok(Answer::NoMemory),
        };
        append(&mut self.log, clock, &framed)?;
        self.ledger.recorded.reserve(upto);
        Ok(Answer::Begun(tx))
    }

    /// Decides an active transaction, with the nodes that voted.
    fn decide(
        &mut self,
        alloc: Global,
        clock: &mut Clock,
        tx: Tx,
        votes: &[Vote],
    ) -> Result<Answer, Failed>
        requires is_open { self.old.log.closed ≡ false }
        requires tx { IsNumber tx.0 }
        requires votes { AreVotes votes.now }
        ensures turns { IfOk result (λ a. (k : CState) → IsUp D.content D.left D.last k self.old clock.old → (t : CState) × CTurns k (asking (request.Decide tx votes.now) a) t × IsUp D.content D.left D.last t self.new clock.new) }
        ensures faulted { OnErr result ((k : CState) → IsUp D.content D.left D.last k self.old clock.old → Right k (request.Decide tx votes.now) (answer.Fault false)) }
        ensures leaves { (k : CState) → IsUp D.content D.left D.last k self.old clock.old → Leaves clock.old (D.left self.old.log.disk) (D.left self.new.log.disk) (λ m image. IsBetween k (request.Decide tx votes.now) image) }
        ensures quiet { IfOk result (λ a. is_quiet a ≡ true) }
        ensures own { IfOk result IsOwn }
        ensures none { IfOk result (λ a. is_recording a ≡ false → clock.new ≡ clock.old) }
        ensures count { btree_set_len self.new.ledger.active ≤ btree_set_len self.old.ledger.active }
        ensures is_open { OnOk result (self.new.log.closed ≡ false) }
        ensures told { is_some (D.content self.new.log.disk) ≡ is_some (D.content self.old.log.disk) }
        ensures clock { (clock.old ≤ clock.new) × (clock.new ≤ clock.old + 4) }
        ensures in_time { D.last self.old.log.disk ≤ clock.old → D.last self.new.log.disk ≤ clock.new }
        ensures cause { HasCause (D.faults self.old.log.disk) (D.faults self.new.log.disk) result }
    {
        if !self.ledger.is_active(tx) {
            return Ok(Answer::NotActive);
        }
        let Some(number) = self.ledger.recorded.next_number(votes) else {
            return Ok(Answer::NumbersSpent);
        };
        let number = Number(number);
        let framed = match decision(alloc, self.log.end(), tx, number, votes) {
            Ok(framed) => framed,
            Err(refusal) => return Ok(refusal.answer()),
        };
        match self.ledger.recorded.decide(tx, number) {
            Ok(()) => {}
            Err(NoMemory) => return Ok(Answer::NoMemory),
        }
        append(&mut self.log, clock, &framed)?;
        self.ledger.end(tx);
        Ok(Answer::Decided(number))
    }

    pub(crate) fn into_disk(self) -> D
        ensures { result ≡ self.log.disk }
    {
        let Running { log, ledger: _ } = self;
        log.into_disk()
    }
}
