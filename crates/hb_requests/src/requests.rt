// One request.
ghost use Rattle.std.specs.Prelude.{MatchOption, IfSome};
ghost use Rattle.hb_engine.specs.Turned.{Leads};
ghost use Rattle.hb_requests.specs.Forced.{Forces, LeadsAt, RecordsNone};

use crate::reads::{group_keys, read, scan, scan_group};
use crate::refusals::{commit, prepare, rollback};
use hb_engine::Engine;
use hb_store::Store;
use hb_types::{Answer, Change, NoMemory, Request, Tx};
use std::alloc::Global;

/// Answers a request to an up server; None, and nothing is done, where the log or a disk is needed.
pub fn answer<T: Store>(
    alloc: Global,
    engine: &mut Engine,
    store: &T,
    request: &Request,
) -> Option<Answer>
    ensures turns { MatchOption result (Forces engine.old engine.new request.now) (λ a. LeadsAt engine.old engine.new (T.rows store.now) request.now a) }
    ensures records_none { IfSome result (λ a. RecordsNone engine.old request.now a) }
{
    match request {
        Request::Enlist { tx } => Some(enlist(engine, *tx)),
        Request::Lock { tx, path, mode } => Some(engine.lock(*tx, *path, *mode)),
        Request::Read { tx, place } => Some(read(alloc, engine, store, *tx, place)),
        Request::Scan { tx, space } => Some(scan(engine, store, *tx, *space)),
        Request::ScanGroup { tx, space, group } => {
            Some(scan_group(engine, store, *tx, *space, *group))
        }
        Request::GroupKeys { space, group, most } => {
            Some(group_keys(engine, store, *space, *group, *most))
        }
        Request::Write { tx, change } => Some(write(alloc, engine, *tx, change)),
        Request::Prepare { tx } => prepare(engine, *tx),
        Request::Commit { tx, number } => commit(engine, *tx, *number),
        Request::Rollback { tx } => rollback(engine, *tx),
        Request::SyncBegin => Some(Answer::NotBegun),
        Request::SyncFlush => Some(Answer::NotBegun),
        Request::SyncFinish => Some(Answer::NotBegun),
        Request::Start => Some(Answer::AlreadyUp),
        Request::Stop => None,
        Request::Begin { .. } => Some(Answer::NotMine),
        Request::Decide { .. } => Some(Answer::NotMine),
        Request::Abort { .. } => Some(Answer::NotMine),
        Request::Outcome { .. } => Some(Answer::NotMine),
        Request::Enter { .. } => Some(Answer::NotMine),
        Request::Wait { .. } => Some(Answer::NotMine),
        Request::Ready { .. } => Some(Answer::NotMine),
        Request::End { .. } => Some(Answer::NotMine),
        Request::Settled { .. } => Some(Answer::NotMine),
        Request::Halted { .. } => Some(Answer::NotMine),
    }
}

fn enlist(engine: &mut Engine, tx: Tx) -> Answer
    ensures { Leads engine.old engine.new (Request.Enlist tx) result }
{
    match engine.enlist(tx) {
        Ok(()) => Answer::Done,
        Err(NoMemory) => Answer::NoMemory,
    }
}

fn write(alloc: Global, engine: &mut Engine, tx: Tx, change: &Change) -> Answer
    ensures { Leads engine.old engine.new (Request.Write tx change.now) result }
{
    match change.copy(alloc) {
        Ok(change) => engine.write(tx, change),
        Err(NoMemory) => Answer::NoMemory,
    }
}
