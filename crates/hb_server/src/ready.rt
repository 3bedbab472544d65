// A server's state before and after a call.
ghost use Rattle.std.specs.Prelude.{◌≡◌, ◌≢◌, ◌+◌, ◌-◌, ◌≤◌, ℕ, Bool, true, List};
ghost use Rattle.hb_edge.specs.Causes.{Rose};
ghost use Rattle.hb_edge.specs.Fuses.{last_of, faults_of};
ghost use Rattle.hb_edge.specs.Images.{Image};
ghost use Rattle.hb_types.specs.Calls.{IsAnswer, IsRequest};
ghost use Rattle.hb_runs.specs.Server.{SState};
ghost use Rattle.hb_runs.specs.ServerAnswers.{takes_none};
ghost use Rattle.hb_runs.specs.ServerRuns.{Asked};
ghost use Rattle.hb_server.specs.Damages.{Reads};
ghost use Rattle.hb_server.specs.Law.{Explains, Goes, IsFit, IsLeft, content_of, left_of, is_passed as is_passed_by, last_in, log_left, faults_in, mended_in};
ghost use Rattle.hb_server.specs.Rooms.{HasEnds, HasRoomFor, entries_of, is_plain, most_calls};

use crate::state::{Resting, State};
use crate::turn::turn;
use hb_edge::{Clock, Disk, Fused};
use hb_store::Store;
use hb_trail::Trail;
use hb_types::{Answer, Request};
use std::alloc::Global;
use std::mem;

/// A law: what a stop leaves of the log of a server that a run explains has what the run makes.
pub(crate) fn logs_are_left<D: Disk, S: Store>(_state: &State<D, S>)
    ensures { (first : SState) (trail : List Asked) (moment m : ℕ) (image : Image) → Explains D.content D.left D.last S.rows S.keeps S.staged S.point_in first trail _state.now moment
        → last_in D.last _state.now ≤ m → log_left D.left _state.now m image → IsLeft first trail image }
{}

/// Whether a trail leaves a call out: it changed nothing, and takes no memory.
pub(crate) fn is_passed(request: &Request, answer: &Answer) -> bool
    ensures { result ≡ is_passed_by request.now answer.now }
{
    match request {
        Request::Commit { .. } => matches!(
            answer,
            Answer::Down | Answer::NoBranch | Answer::NotPrepared | Answer::Low { .. }
        ),
        Request::Rollback { .. } => matches!(answer, Answer::Down | Answer::NoBranch),
        _ => false,
    }
}

/// A stopped server's fuses are repaired.
fn mend<D: Disk, S: Store>(state: State<Fused<D>, S>) -> State<Fused<D>, S>
    ensures { result ≡ mended_in state }
{
    match state {
        State::Down(rest) => {
            let Resting {
                mut log,
                mut area,
                store,
            } = rest;
            log.repair();
            area.repair();
            State::Down(Resting { log, area, store })
        }
        State::Up(serves) => State::Up(serves),
        State::Away => State::Away,
    }
}

/// Does one request.
pub(crate) fn advance<D: Disk, S: Store>(
    alloc: Global,
    trail: &mut Trail,
    state: &mut State<Fused<D>, S>,
    clock: &mut Clock,
    request: &Request,
) -> Answer
    requires fit { IsFit S.rows S.room state.old }
    requires room { ∥ HasRoomFor S.rows S.room state.old request.now trail.old.spare ∥₁ }
    requires well_formed { IsRequest request.now }
    ensures goes { (first : SState) (trail : List Asked) → Explains (content_of D.content) (left_of D.left) (last_of D.last) S.rows S.keeps S.staged S.point_in first trail state.old clock.old
        → Goes (content_of D.content) (left_of D.left) (last_of D.last) S.rows S.keeps S.staged S.point_in first trail request.now result state.old state.new clock.old clock.new }
    ensures passes { is_passed_by request.now result ≡ true → (first : SState) (trail : List Asked) → Explains (content_of D.content) (left_of D.left) (last_of D.last) S.rows S.keeps S.staged S.point_in first trail state.old clock.old
        → Explains (content_of D.content) (left_of D.left) (last_of D.last) S.rows S.keeps S.staged S.point_in first trail state.new clock.new }
    ensures fit { IsFit S.rows S.room state.new }
    ensures well_formed { IsAnswer result }
    ensures fault { (area : Bool) → result ≡ Answer.Fault area → Rose (faults_in (faults_of D.faults) state.old) (faults_in (faults_of D.faults) state.new) }
    ensures count { faults_in (faults_of D.faults) state.old ≤ faults_in (faults_of D.faults) state.new }
    ensures clock { clock.old ≤ clock.new }
    ensures in_time { last_in (last_of D.last) state.old ≤ clock.old → last_in (last_of D.last) state.new ≤ clock.new }
    ensures entries { trail.new.entries ≡ trail.old.entries }
    ensures entry { entries_of request.now result ≤ trail.new.spare }
    ensures ends { ∥ HasEnds S.rows S.room state.new (trail.new.spare - entries_of request.now result) ∥₁ }
    ensures memory { takes_none request.now ≡ true → is_plain result ≡ true }
    ensures finds { request.now ≡ Request.Start → last_in (last_of D.last) state.old ≤ clock.old → Reads (content_of D.content) (left_of D.left) (last_of D.last) S.point_in S.header_in state.old result }
    ensures calls { request.now ≢ Request.Start → clock.new ≤ clock.old + most_calls request.now }
{
    let held = mend(mem::replace(state, State::Away));
    let (held, answer) = turn(alloc, trail, held, clock, request);
    match mem::replace(state, held) {
        State::Away => answer,
        State::Down(_rest) => unreachable!(),
        State::Up(_serves) => unreachable!(),
    }
}
