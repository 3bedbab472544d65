// A server that is up, and the requests that it serves.
ghost use Rattle.std.specs.Prelude.{◌≡◌, ◌+◌, ◌≤◌, true, false, is_some, IfOk, OnOk, OnErr};
ghost use Rattle.hb_edge.specs.Causes.{HasCause};
ghost use Rattle.hb_types.specs.Calls.{IsAnswer, IsRequest};
ghost use Rattle.hb_types.specs.Places.{IsPath};
ghost use Rattle.hb_requests.specs.Forced.{Forces};
ghost use Rattle.hb_store.specs.Meanings.{Stays};
ghost use Rattle.hb_force.specs.Kept.{Follows, Keeps};
ghost use Rattle.hb_force.specs.Quiet.{HasPaths, records_none};
ghost use Rattle.hb_force.specs.Standing.{Turns, Faults, LeavesBetween, is_quiet, is_recorded};

use hb_codec::rows_have_one_form;
use hb_edge::{Clock, Disk, Failed};
use hb_engine::Engine;
use hb_log::Log;
use hb_requests::answer;
use hb_store::Store;
use hb_types::{Answer, Path, Request};
use std::alloc::Global;

/// A server that is up: its log, its rows and its branches.
#[derive(Drop)]
pub struct Running<D: Disk, S: Store> {
    pub log: Log<D>,
    pub store: S,
    pub engine: Engine,
}

/// A law: the numbers of a path have the range of their types.
fn paths_are_paths(_path: Path)
    ensures { IsPath _path }
{}

/// A law: the path of a request is one.
fn has_paths(request: &Request)
    ensures { HasPaths request.now }
{
    if let Request::Lock { path, .. } = request {
        paths_are_paths(*path);
    }
}

impl<D: Disk, S: Store> Running<D, S> {
    /// Does a request that is neither Start nor Stop. A failure of the log's disk ends the server.
    pub fn serve(
        &mut self,
        alloc: Global,
        clock: &mut Clock,
        request: &Request,
    ) -> Result<Answer, Failed>
        requires is_open { self.old.log.closed ≡ false }
        requires kept { Keeps S.rows S.room self.old }
        requires well_formed { IsRequest request.now }
        requires no_stop { request.now ≡ Request.Stop → ⊥ }
        ensures turns { IfOk result (Turns D.content D.left D.last S.rows self.old clock.old self.new clock.new request.now) }
        ensures faulted { OnErr result (Faults D.content D.left D.last S.rows self.old clock.old request.now) }
        ensures leaves { LeavesBetween D.content D.left D.last S.rows self.old clock.old self.new request.now }
        ensures unrecorded { IfOk result (λ a. is_recorded request.now a ≡ false → self.new.log ≡ self.old.log) }
        ensures kept { OnOk result (Keeps S.rows S.room self.new) }
        ensures follows { IfOk result (λ a. Follows S.rows S.room self.old self.new request.now a) }
        ensures stays { Stays S.keeps S.staged self.old.store self.new.store }
        ensures well_formed { IfOk result IsAnswer }
        ensures quiet { IfOk result (λ a. is_quiet a ≡ true) }
        ensures is_open { OnOk result (self.new.log.closed ≡ false) }
        ensures told { is_some (D.content self.new.log.disk) ≡ is_some (D.content self.old.log.disk) }
        ensures clock { (clock.old ≤ clock.new) × (clock.new ≤ clock.old + 4) }
        ensures no_calls { records_none request.now ≡ true → clock.new ≡ clock.old }
        ensures in_time { D.last self.old.log.disk ≤ clock.old → D.last self.new.log.disk ≤ clock.new }
        ensures cause { HasCause (D.faults self.old.log.disk) (D.faults self.new.log.disk) result }
    {
        has_paths(request);
        rows_have_one_form();
        match answer(alloc, &mut self.engine, &self.store, request) {
            Some(answer) => Ok(answer),
            None => self.force(alloc, clock, request),
        }
    }

    /// The log's disk and the store; what was in memory alone is lost.
    pub fn into_parts(self) -> (D, S)
        ensures { result ≡ (self.log.disk, self.store) }
    {
        let Running {
            log,
            store,
            engine: _,
        } = self;
        (log.into_disk(), store)
    }

    /// Does a request that has a record.
    fn force(
        &mut self,
        alloc: Global,
        clock: &mut Clock,
        request: &Request,
    ) -> Result<Answer, Failed>
        requires is_open { self.old.log.closed ≡ false }
        requires kept { Keeps S.rows S.room self.old }
        requires well_formed { IsRequest request.now }
        requires no_stop { request.now ≡ Request.Stop → ⊥ }
        requires forces { Forces self.old.engine self.old.engine request.now }
        ensures turns { IfOk result (Turns D.content D.left D.last S.rows self.old clock.old self.new clock.new request.now) }
        ensures faulted { OnErr result (Faults D.content D.left D.last S.rows self.old clock.old request.now) }
        ensures leaves { LeavesBetween D.content D.left D.last S.rows self.old clock.old self.new request.now }
        ensures unrecorded { IfOk result (λ a. is_recorded request.now a ≡ false → self.new.log ≡ self.old.log) }
        ensures kept { OnOk result (Keeps S.rows S.room self.new) }
        ensures follows { IfOk result (λ a. Follows S.rows S.room self.old self.new request.now a) }
        ensures stays { Stays S.keeps S.staged self.old.store self.new.store }
        ensures well_formed { IfOk result IsAnswer }
        ensures quiet { IfOk result (λ a. is_quiet a ≡ true) }
        ensures is_open { OnOk result (self.new.log.closed ≡ false) }
        ensures told { is_some (D.content self.new.log.disk) ≡ is_some (D.content self.old.log.disk) }
        ensures clock { (clock.old ≤ clock.new) × (clock.new ≤ clock.old + 4) }
        ensures no_calls { records_none request.now ≡ true → ⊥ }
        ensures in_time { D.last self.old.log.disk ≤ clock.old → D.last self.new.log.disk ≤ clock.new }
        ensures cause { HasCause (D.faults self.old.log.disk) (D.faults self.new.log.disk) result }
    {
        match request {
            Request::Prepare { tx } => self.prepare(alloc, clock, *tx),
            Request::Commit { tx, number } => self.commit(clock, *tx, *number),
            Request::Rollback { tx } => self.rollback(clock, *tx),
            _ => unreachable!(),
        }
    }
}
