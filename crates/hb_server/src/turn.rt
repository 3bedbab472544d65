// One request, asked of a server that is up or stopped.
ghost use Rattle.std.specs.Prelude.{◌≡◌, ◌≢◌, ◌+◌, ◌-◌, ◌≤◌, ℕ, Bool, true, false, List};
ghost use Rattle.hb_edge.specs.Causes.{Rose};
ghost use Rattle.hb_types.specs.Calls.{IsAnswer, IsRequest};
ghost use Rattle.hb_runs.specs.Server.{SState};
ghost use Rattle.hb_runs.specs.ServerAnswers.{takes_none};
ghost use Rattle.hb_runs.specs.ServerRuns.{Asked};
ghost use Rattle.hb_server.specs.declared.state.State.TheVariants as state;
ghost use Rattle.hb_server.specs.Damages.{Reads};
ghost use Rattle.hb_server.specs.Law.{Explains, Goes, IsFit, is_passed, last_in, faults_in};
ghost use Rattle.hb_server.specs.Rooms.{HasEnds, HasRoomFor, entries_of, is_plain, most_calls, room_with};

use crate::start::begin_again;
use crate::state::{Resting, Serving, State};
use hb_edge::{Clock, Disk, Failed};
use hb_store::Store;
use hb_trail::Trail;
use hb_types::{Answer, Request};
use std::alloc::Global;

/// A Stop: the branches that have not voted are lost.
fn stop<D: Disk, S: Store>(serves: Serving<D, S>) -> State<D, S>
    ensures goes { (first : SState) (trail : List Asked) (moment : ℕ) → Explains D.content D.left D.last S.rows S.keeps S.staged S.point_in first trail (state.Up serves) moment
        → Goes D.content D.left D.last S.rows S.keeps S.staged S.point_in first trail Request.Stop Answer.Done (state.Up serves) result moment moment }
    ensures fit { IsFit S.rows S.room result }
    ensures count { faults_in D.faults result ≡ faults_in D.faults (state.Up serves) }
    ensures last { last_in D.last result ≡ last_in D.last (state.Up serves) }
    ensures ends { (spare : ℕ) → ∥ HasEnds S.rows S.room result spare ∥₁ }
{
    let Serving { running, area } = serves;
    let (log, store) = running.into_parts();
    State::Down(Resting { log, area, store })
}

/// A request of a server that is up.
fn work<D: Disk, S: Store>(
    alloc: Global,
    serves: Serving<D, S>,
    clock: &mut Clock,
    request: &Request,
) -> (State<D, S>, Answer)
    requires fit { IsFit S.rows S.room (state.Up serves) }
    requires well_formed { IsRequest request.now }
    requires no_stop { request.now ≡ Request.Stop → ⊥ }
    ensures goes { (first : SState) (trail : List Asked) → Explains D.content D.left D.last S.rows S.keeps S.staged S.point_in first trail (state.Up serves) clock.old
        → Goes D.content D.left D.last S.rows S.keeps S.staged S.point_in first trail request.now result.1 (state.Up serves) result.0 clock.old clock.new }
    ensures passes { is_passed request.now result.1 ≡ true → (first : SState) (trail : List Asked) → Explains D.content D.left D.last S.rows S.keeps S.staged S.point_in first trail (state.Up serves) clock.old
        → Explains D.content D.left D.last S.rows S.keeps S.staged S.point_in first trail result.0 clock.new }
    ensures fit { IsFit S.rows S.room result.0 }
    ensures well_formed { IsAnswer result.1 }
    ensures fault { (area : Bool) → result.1 ≡ Answer.Fault area → Rose (faults_in D.faults (state.Up serves)) (faults_in D.faults result.0) }
    ensures count { faults_in D.faults (state.Up serves) ≤ faults_in D.faults result.0 }
    ensures clock { clock.old ≤ clock.new }
    ensures in_time { last_in D.last (state.Up serves) ≤ clock.old → last_in D.last result.0 ≤ clock.new }
    ensures entry { (spare : ℕ) → ∥ HasRoomFor S.rows S.room (state.Up serves) request.now spare ∥₁ → entries_of request.now result.1 ≤ spare }
    ensures ends { (spare : ℕ) → ∥ HasRoomFor S.rows S.room (state.Up serves) request.now spare ∥₁ → ∥ HasEnds S.rows S.room result.0 (spare - entries_of request.now result.1) ∥₁ }
    ensures memory { takes_none request.now ≡ true → is_plain result.1 ≡ true }
    ensures calls { clock.new ≤ clock.old + most_calls request.now }
{
    let Serving { mut running, area } = serves;
    match running.serve(alloc, clock, request) {
        Ok(answer) => (State::Up(Serving { running, area }), answer),
        Err(Failed) => {
            let (log, store) = running.into_parts();
            (
                State::Down(Resting { log, area, store }),
                Answer::Fault { area: false },
            )
        }
    }
}

/// A request of a stopped server.
fn wake<D: Disk, S: Store>(
    alloc: Global,
    trail: &mut Trail,
    rest: Resting<D, S>,
    clock: &mut Clock,
    request: &Request,
) -> (State<D, S>, Answer)
    requires room { room_with request.now 0 ≤ trail.old.spare }
    ensures goes { (first : SState) (trail : List Asked) → Explains D.content D.left D.last S.rows S.keeps S.staged S.point_in first trail (state.Down rest) clock.old
        → Goes D.content D.left D.last S.rows S.keeps S.staged S.point_in first trail request.now result.1 (state.Down rest) result.0 clock.old clock.new }
    ensures passes { is_passed request.now result.1 ≡ true → (first : SState) (trail : List Asked) → Explains D.content D.left D.last S.rows S.keeps S.staged S.point_in first trail (state.Down rest) clock.old
        → Explains D.content D.left D.last S.rows S.keeps S.staged S.point_in first trail result.0 clock.new }
    ensures fit { IsFit S.rows S.room result.0 }
    ensures well_formed { IsAnswer result.1 }
    ensures fault { (area : Bool) → result.1 ≡ Answer.Fault area → Rose (faults_in D.faults (state.Down rest)) (faults_in D.faults result.0) }
    ensures count { faults_in D.faults (state.Down rest) ≤ faults_in D.faults result.0 }
    ensures clock { clock.old ≤ clock.new }
    ensures in_time { last_in D.last (state.Down rest) ≤ clock.old → last_in D.last result.0 ≤ clock.new }
    ensures entries { trail.new.entries ≡ trail.old.entries }
    ensures entry { entries_of request.now result.1 ≤ trail.new.spare }
    ensures ends { ∥ HasEnds S.rows S.room result.0 (trail.new.spare - entries_of request.now result.1) ∥₁ }
    ensures memory { takes_none request.now ≡ true → is_plain result.1 ≡ true }
    ensures calls { request.now ≢ Request.Start → clock.new ≤ clock.old + most_calls request.now }
    ensures finds { request.now ≡ Request.Start → last_in D.last (state.Down rest) ≤ clock.old → Reads D.content D.left D.last S.point_in S.header_in (state.Down rest) result.1 }
{
    match request {
        Request::Start => begin_again(alloc, trail, rest, clock),
        _ => (State::Down(rest), Answer::Down),
    }
}

/// One request.
pub(crate) fn turn<D: Disk, S: Store>(
    alloc: Global,
    trail: &mut Trail,
    state: State<D, S>,
    clock: &mut Clock,
    request: &Request,
) -> (State<D, S>, Answer)
    requires fit { IsFit S.rows S.room state }
    requires room { ∥ HasRoomFor S.rows S.room state request.now trail.old.spare ∥₁ }
    requires well_formed { IsRequest request.now }
    ensures goes { (first : SState) (trail : List Asked) → Explains D.content D.left D.last S.rows S.keeps S.staged S.point_in first trail state clock.old
        → Goes D.content D.left D.last S.rows S.keeps S.staged S.point_in first trail request.now result.1 state result.0 clock.old clock.new }
    ensures passes { is_passed request.now result.1 ≡ true → (first : SState) (trail : List Asked) → Explains D.content D.left D.last S.rows S.keeps S.staged S.point_in first trail state clock.old
        → Explains D.content D.left D.last S.rows S.keeps S.staged S.point_in first trail result.0 clock.new }
    ensures fit { IsFit S.rows S.room result.0 }
    ensures well_formed { IsAnswer result.1 }
    ensures fault { (area : Bool) → result.1 ≡ Answer.Fault area → Rose (faults_in D.faults state) (faults_in D.faults result.0) }
    ensures count { faults_in D.faults state ≤ faults_in D.faults result.0 }
    ensures clock { clock.old ≤ clock.new }
    ensures in_time { last_in D.last state ≤ clock.old → last_in D.last result.0 ≤ clock.new }
    ensures entries { trail.new.entries ≡ trail.old.entries }
    ensures entry { entries_of request.now result.1 ≤ trail.new.spare }
    ensures ends { ∥ HasEnds S.rows S.room result.0 (trail.new.spare - entries_of request.now result.1) ∥₁ }
    ensures memory { takes_none request.now ≡ true → is_plain result.1 ≡ true }
    ensures calls { request.now ≢ Request.Start → clock.new ≤ clock.old + most_calls request.now }
    ensures finds { request.now ≡ Request.Start → last_in D.last state ≤ clock.old → Reads D.content D.left D.last S.point_in S.header_in state result.1 }
{
    match state {
        State::Down(rest) => wake(alloc, trail, rest, clock, request),
        State::Up(serves) => {
            if let Request::Stop = request {
                return (stop(serves), Answer::Done);
            }
            work(alloc, serves, clock, request)
        }
        State::Away => unreachable!(),
    }
}
