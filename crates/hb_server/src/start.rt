// A Start of a stopped server.
ghost use Rattle.std.specs.Prelude.{◌≡◌, ◌-◌, ◌≤◌, ◌^◌, ℕ, Bool, true, false, Some, IfSome, List};
ghost use Rattle.hb_edge.specs.Causes.{Rose};
ghost use Rattle.hb_types.specs.Calls.{IsAnswer};
ghost use Rattle.hb_runs.specs.Server.{SState};
ghost use Rattle.hb_runs.specs.ServerRuns.{Asked};
ghost use Rattle.hb_server.specs.declared.state.State.TheVariants as state;
ghost use Rattle.hb_server.specs.Damages.{LogFinds, Reads};
ghost use Rattle.hb_server.specs.Law.{Explains, Goes, IsFit, IsFresh, IsLoaded, is_refusal, last_in, faults_in};
ghost use Rattle.hb_server.specs.Rooms.{HasEnds};

use crate::room::takes_ends;
use crate::state::{Resting, Serving, State};
use hb_codec::records_have_one_form;
use hb_edge::{Clock, Disk, Failed};
use hb_force::Running;
use hb_log::{Log, LogFault};
use hb_redo::{RedoFault, Restarted, redo};
use hb_store::{Point, Store, StoreFault};
use hb_trail::Trail;
use hb_types::{Answer, Request};
use std::alloc::Global;

fn log_answer(fault: LogFault) -> Answer
    ensures fault { fault ≡ LogFault.Fault → result ≡ Answer.Fault false }
    ensures closed { fault ≡ LogFault.Closed → result ≡ Answer.Fault false }
    ensures damaged { (place : ℕ) → fault ≡ LogFault.Damaged place → result ≡ Answer.Damaged false place }
    ensures no_memory { fault ≡ LogFault.NoMemory → result ≡ Answer.NoMemory }
    ensures only { (area : Bool) → result ≡ Answer.Fault area → (fault ≡ LogFault.Closed → ⊥) → (area ≡ false) × (fault ≡ LogFault.Fault) }
    ensures refusal { is_refusal result ≡ true }
    ensures well_formed { IsAnswer result }
{
    match fault {
        LogFault::Fault => Answer::Fault { area: false },
        LogFault::Closed => Answer::Fault { area: false },
        LogFault::Damaged { place } => Answer::Damaged { area: false, place },
        LogFault::NoMemory => Answer::NoMemory,
    }
}

fn store_answer(fault: StoreFault) -> Answer
    ensures fault { fault ≡ StoreFault.Fault → result ≡ Answer.Fault true }
    ensures damaged { (place : ℕ) → fault ≡ StoreFault.Damaged place → result ≡ Answer.Damaged true place }
    ensures spent { fault ≡ StoreFault.Spent → result ≡ Answer.NoMemory }
    ensures no_memory { fault ≡ StoreFault.NoMemory → result ≡ Answer.NoMemory }
    ensures only { (area : Bool) → result ≡ Answer.Fault area → (area ≡ true) × (fault ≡ StoreFault.Fault) }
    ensures refusal { is_refusal result ≡ true }
    ensures well_formed { IsAnswer result }
{
    match fault {
        StoreFault::Fault => Answer::Fault { area: true },
        StoreFault::Damaged { place } => Answer::Damaged { area: true, place },
        StoreFault::Spent => Answer::NoMemory,
        StoreFault::NoMemory => Answer::NoMemory,
    }
}

fn redo_answer(fault: RedoFault) -> Answer
    ensures damaged { (place : ℕ) → fault ≡ RedoFault.Damaged place → result ≡ Answer.Damaged false place }
    ensures no_memory { fault ≡ RedoFault.NoMemory → result ≡ Answer.NoMemory }
    ensures no_fault { (area : Bool) → result ≡ Answer.Fault area → ⊥ }
    ensures refusal { is_refusal result ≡ true }
    ensures well_formed { IsAnswer result }
{
    match fault {
        RedoFault::Damaged { place } => Answer::Damaged { area: false, place },
        RedoFault::NoMemory => Answer::NoMemory,
    }
}

/// Opens the log, and redoes it over the rows of the point.
fn open_log<D: Disk, S: Store>(
    alloc: Global,
    trail: &mut Trail,
    rest: Resting<D, S>,
    clock: &mut Clock,
    point: Point,
) -> (State<D, S>, Answer)
    requires room { 2 ≤ trail.old.spare }
    requires quiet { IfSome (D.content rest.log) (λ read. (image : List ℕ) → D.left rest.log (D.last rest.log) image → image ≡ read) }
    requires fresh { IsFresh S.rows S.room rest.store }
    requires in_range { (point.from ≤ 2 ^ 62) × (point.floor.0 ≤ 2 ^ 62) }
    ensures goes { (first : SState) (trail : List Asked) → IsLoaded D.content D.left D.last S.rows S.keeps S.staged first trail rest point clock.old
        → Goes D.content D.left D.last S.rows S.keeps S.staged S.point_in first trail Request.Start result.1 (state.Down rest) result.0 clock.old clock.new }
    ensures fit { IsFit S.rows S.room result.0 }
    ensures well_formed { IsAnswer result.1 }
    ensures fault { (area : Bool) → result.1 ≡ Answer.Fault area → Rose (faults_in D.faults (state.Down rest)) (faults_in D.faults result.0) }
    ensures count { faults_in D.faults (state.Down rest) ≤ faults_in D.faults result.0 }
    ensures clock { clock.old ≤ clock.new }
    ensures in_time { last_in D.last (state.Down rest) ≤ clock.old → last_in D.last result.0 ≤ clock.new }
    ensures entries { trail.new.entries ≡ trail.old.entries }
    ensures entry { 2 ≤ trail.new.spare }
    ensures ends { ∥ HasEnds S.rows S.room result.0 (trail.new.spare - 1) ∥₁ }
    ensures finds { (read : List ℕ) → D.content rest.log ≡ Some read → D.last rest.log ≤ clock.old → LogFinds read point.from result.1 }
{
    records_have_one_form();
    let Resting {
        log,
        area,
        mut store,
    } = rest;
    let log = match Log::start(alloc, log, clock, point.from) {
        Ok(log) => log,
        Err((fault, log)) => {
            return (State::Down(Resting { log, area, store }), log_answer(fault));
        }
    };
    match redo(alloc, &mut store, point.floor, log.items(), log.end()) {
        Ok(Restarted { engine, doubts }) => {
            if !takes_ends(trail, doubts.len()) {
                let log = log.into_disk();
                return (State::Down(Resting { log, area, store }), Answer::NoMemory);
            }
            let running = Running { log, store, engine };
            (
                State::Up(Serving { running, area }),
                Answer::Started { doubts },
            )
        }
        Err(fault) => {
            let log = log.into_disk();
            (
                State::Down(Resting { log, area, store }),
                redo_answer(fault),
            )
        }
    }
}

/// A Start of a stopped server, whose fuses are repaired.
pub(crate) fn begin_again<D: Disk, S: Store>(
    alloc: Global,
    trail: &mut Trail,
    rest: Resting<D, S>,
    clock: &mut Clock,
) -> (State<D, S>, Answer)
    requires room { 2 ≤ trail.old.spare }
    ensures goes { (first : SState) (trail : List Asked) → Explains D.content D.left D.last S.rows S.keeps S.staged S.point_in first trail (state.Down rest) clock.old
        → Goes D.content D.left D.last S.rows S.keeps S.staged S.point_in first trail Request.Start result.1 (state.Down rest) result.0 clock.old clock.new }
    ensures fit { IsFit S.rows S.room result.0 }
    ensures well_formed { IsAnswer result.1 }
    ensures fault { (area : Bool) → result.1 ≡ Answer.Fault area → Rose (faults_in D.faults (state.Down rest)) (faults_in D.faults result.0) }
    ensures count { faults_in D.faults (state.Down rest) ≤ faults_in D.faults result.0 }
    ensures clock { clock.old ≤ clock.new }
    ensures in_time { last_in D.last (state.Down rest) ≤ clock.old → last_in D.last result.0 ≤ clock.new }
    ensures entries { trail.new.entries ≡ trail.old.entries }
    ensures entry { 2 ≤ trail.new.spare }
    ensures ends { ∥ HasEnds S.rows S.room result.0 (trail.new.spare - 1) ∥₁ }
    ensures finds { last_in D.last (state.Down rest) ≤ clock.old → Reads D.content D.left D.last S.point_in S.header_in (state.Down rest) result.1 }
{
    S::points_are_one();
    let Resting {
        mut log,
        mut area,
        mut store,
    } = rest;
    match log.restart(clock) {
        Ok(()) => {}
        Err(Failed) => {
            return (
                State::Down(Resting { log, area, store }),
                Answer::Fault { area: false },
            );
        }
    }
    match area.restart(clock) {
        Ok(()) => {}
        Err(Failed) => {
            return (
                State::Down(Resting { log, area, store }),
                Answer::Fault { area: true },
            );
        }
    }
    match store.load(&mut area, clock) {
        Ok(point) => open_log(alloc, trail, Resting { log, area, store }, clock, point),
        Err(fault) => (
            State::Down(Resting { log, area, store }),
            store_answer(fault),
        ),
    }
}
