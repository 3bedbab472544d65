// One request, asked of a coordinator that is up or down.
ghost use Rattle.std.specs.Prelude.{◌≡◌, ◌≢◌, ◌+◌, ◌++◌, ◌∷◌, [], ◌≤◌, ℕ, Bool, true, false, is_some, List};
ghost use Rattle.hb_edge.specs.Causes.{Rose};
ghost use Rattle.hb_edge.specs.Stops.{Leaves};
ghost use Rattle.hb_types.specs.Calls.{IsRequest};
ghost use Rattle.hb_runs.specs.Coordinator.{CState, takes_none};
ghost use Rattle.hb_types.specs.declared.answer.Answer.TheVariants as answer;
ghost use Rattle.hb_runs.specs.ServerRuns.{Asked};
ghost use Rattle.hb_coord.specs.declared.state.State.TheVariants as state;
ghost use Rattle.hb_coord.specs.Law.{Explains, IsLeftIn, IsLeftBy, IsDamage, has_open_log, content_in, left_in, last_in, faults_in, most_calls, ends_in, ended_by, opened_by};
ghost use Rattle.hb_edge.specs.Images.{Image};
ghost use Rattle.hb_coord.specs.Standing.{IsOwn, asking};

use crate::running::Running;
use crate::start::start;
use crate::state::State;
use hb_codec::records_have_one_form;
use hb_edge::{Clock, Disk, Failed, Fused};
use hb_log::LogFault;
use hb_types::{Answer, Request};
use sqlite_items::Items;
use std::alloc::Global;

fn fault_answer(fault: LogFault) -> Answer
    ensures fault { fault ≡ LogFault.Fault → result ≡ Answer.Fault false }
    ensures damaged { (place : ℕ) → fault ≡ LogFault.Damaged place → result ≡ Answer.Damaged false place }
    ensures no_memory { fault ≡ LogFault.NoMemory → result ≡ Answer.NoMemory }
    ensures own { IsOwn result }
{
    match fault {
        LogFault::Fault | LogFault::Closed => Answer::Fault { area: false },
        LogFault::Damaged { place } => Answer::Damaged { area: false, place },
        LogFault::NoMemory => Answer::NoMemory,
    }
}

/// A request of a coordinator that is down.
fn wake<D: Disk>(
    alloc: Global,
    disk: Fused<D>,
    clock: &mut Clock,
    request: &Request,
) -> (State<D>, Answer)
    ensures run { (first : CState) (trail : List Asked) → Explains D.content D.left D.last first trail (state.Down disk) clock.old → Explains D.content D.left D.last first (trail ++ asking request.now result.1 ∷ []) result.0 clock.new }
    ensures stop { (first : CState) (trail : List Asked) → Explains D.content D.left D.last first trail (state.Down disk) clock.old → Leaves clock.old (left_in D.left (state.Down disk)) (left_in D.left result.0) (λ m image. IsLeftIn first trail request.now image) }
    ensures left_by { (first : CState) (trail : List Asked) → Explains D.content D.left D.last first trail (state.Down disk) clock.old → (m : ℕ) (image : Image) → clock.old ≤ m → left_in D.left result.0 m image → IsLeftBy first trail request.now result.1 image }
    ensures own { IsOwn result.1 }
    ensures memory { takes_none request.now ≡ true → result.1 ≢ answer.NoMemory }
    ensures ends { ends_in result.0 + ended_by (state.Down disk) request.now ≤ ends_in (state.Down disk) + opened_by request.now }
    ensures fault { (area : Bool) → result.1 ≡ Answer.Fault area → (area ≡ false) × Rose (faults_in D.faults (state.Down disk)) (faults_in D.faults result.0) }
    ensures damaged { (area : Bool) (place : ℕ) → result.1 ≡ Answer.Damaged area place → is_some (content_in D.content (state.Down disk)) ≡ true → IsDamage (content_in D.content result.0) area place }
    ensures told { is_some (content_in D.content result.0) ≡ is_some (content_in D.content (state.Down disk)) }
    ensures count { faults_in D.faults (state.Down disk) ≤ faults_in D.faults result.0 }
    ensures clock { (clock.old ≤ clock.new) × (clock.new ≤ clock.old + most_calls request.now) }
    ensures in_time { last_in D.last (state.Down disk) ≤ clock.old → last_in D.last result.0 ≤ clock.new }
    ensures opened { has_open_log result.0 ≡ true }
{
    match request {
        Request::Start => begin_again(alloc, disk, clock),
        _ => (State::Down(disk), Answer::Down),
    }
}

/// A Start of a coordinator that is down.
fn begin_again<D: Disk>(alloc: Global, disk: Fused<D>, clock: &mut Clock) -> (State<D>, Answer)
    ensures run { (first : CState) (trail : List Asked) → Explains D.content D.left D.last first trail (state.Down disk) clock.old → Explains D.content D.left D.last first (trail ++ asking Request.Start result.1 ∷ []) result.0 clock.new }
    ensures stop { (first : CState) (trail : List Asked) → Explains D.content D.left D.last first trail (state.Down disk) clock.old → Leaves clock.old (left_in D.left (state.Down disk)) (left_in D.left result.0) (λ m image. IsLeftIn first trail Request.Start image) }
    ensures left_by { (first : CState) (trail : List Asked) → Explains D.content D.left D.last first trail (state.Down disk) clock.old → (m : ℕ) (image : Image) → clock.old ≤ m → left_in D.left result.0 m image → IsLeftBy first trail Request.Start result.1 image }
    ensures own { IsOwn result.1 }
    ensures ends { ends_in result.0 + ended_by (state.Down disk) Request.Start ≤ ends_in (state.Down disk) + opened_by Request.Start }
    ensures fault { (area : Bool) → result.1 ≡ Answer.Fault area → (area ≡ false) × Rose (faults_in D.faults (state.Down disk)) (faults_in D.faults result.0) }
    ensures damaged { (area : Bool) (place : ℕ) → result.1 ≡ Answer.Damaged area place → is_some (content_in D.content (state.Down disk)) ≡ true → IsDamage (content_in D.content result.0) area place }
    ensures told { is_some (content_in D.content result.0) ≡ is_some (content_in D.content (state.Down disk)) }
    ensures count { faults_in D.faults (state.Down disk) ≤ faults_in D.faults result.0 }
    ensures clock { (clock.old ≤ clock.new) × (clock.new ≤ clock.old + most_calls Request.Start) }
    ensures in_time { last_in D.last (state.Down disk) ≤ clock.old → last_in D.last result.0 ≤ clock.new }
    ensures opened { has_open_log result.0 ≡ true }
{
    records_have_one_form();
    let mut disk = disk;
    disk.repair();
    match start(alloc, disk, clock) {
        Ok(running) => {
            let doubts = Items::new(alloc);
            (State::Up(running), Answer::Started { doubts })
        }
        Err((fault, disk)) => (State::Down(disk), fault_answer(fault)),
    }
}

/// A request of a coordinator that is up.
fn work<D: Disk>(
    alloc: Global,
    running: Running<Fused<D>>,
    clock: &mut Clock,
    request: &Request,
) -> (State<D>, Answer)
    requires is_open { running.log.closed ≡ false }
    requires well_formed { IsRequest request.now }
    ensures run { (first : CState) (trail : List Asked) → Explains D.content D.left D.last first trail (state.Up running) clock.old → Explains D.content D.left D.last first (trail ++ asking request.now result.1 ∷ []) result.0 clock.new }
    ensures stop { (first : CState) (trail : List Asked) → Explains D.content D.left D.last first trail (state.Up running) clock.old → Leaves clock.old (left_in D.left (state.Up running)) (left_in D.left result.0) (λ m image. IsLeftIn first trail request.now image) }
    ensures left_by { (first : CState) (trail : List Asked) → Explains D.content D.left D.last first trail (state.Up running) clock.old → (m : ℕ) (image : Image) → clock.old ≤ m → left_in D.left result.0 m image → IsLeftBy first trail request.now result.1 image }
    ensures own { IsOwn result.1 }
    ensures memory { takes_none request.now ≡ true → result.1 ≢ answer.NoMemory }
    ensures ends { ends_in result.0 + ended_by (state.Up running) request.now ≤ ends_in (state.Up running) + opened_by request.now }
    ensures fault { (area : Bool) → result.1 ≡ Answer.Fault area → (area ≡ false) × Rose (faults_in D.faults (state.Up running)) (faults_in D.faults result.0) }
    ensures damaged { (area : Bool) (place : ℕ) → result.1 ≡ Answer.Damaged area place → is_some (content_in D.content (state.Up running)) ≡ true → IsDamage (content_in D.content result.0) area place }
    ensures told { is_some (content_in D.content result.0) ≡ is_some (content_in D.content (state.Up running)) }
    ensures count { faults_in D.faults (state.Up running) ≤ faults_in D.faults result.0 }
    ensures clock { (clock.old ≤ clock.new) × (clock.new ≤ clock.old + most_calls request.now) }
    ensures in_time { last_in D.last (state.Up running) ≤ clock.old → last_in D.last result.0 ≤ clock.new }
    ensures opened { has_open_log result.0 ≡ true }
{
    let mut running = running;
    match request {
        Request::Stop => (State::Down(running.into_disk()), Answer::Done),
        _ => match running.serve(alloc, clock, request) {
            Ok(answer) => (State::Up(running), answer),
            Err(Failed) => (
                State::Down(running.into_disk()),
                Answer::Fault { area: false },
            ),
        },
    }
}

/// One request.
pub(crate) fn turn<D: Disk>(
    alloc: Global,
    state: State<D>,
    clock: &mut Clock,
    request: &Request,
) -> (State<D>, Answer)
    requires is_open { has_open_log state ≡ true }
    requires well_formed { IsRequest request.now }
    ensures run { (first : CState) (trail : List Asked) → Explains D.content D.left D.last first trail state clock.old → Explains D.content D.left D.last first (trail ++ asking request.now result.1 ∷ []) result.0 clock.new }
    ensures stop { (first : CState) (trail : List Asked) → Explains D.content D.left D.last first trail state clock.old → Leaves clock.old (left_in D.left state) (left_in D.left result.0) (λ m image. IsLeftIn first trail request.now image) }
    ensures left_by { (first : CState) (trail : List Asked) → Explains D.content D.left D.last first trail state clock.old → (m : ℕ) (image : Image) → clock.old ≤ m → left_in D.left result.0 m image → IsLeftBy first trail request.now result.1 image }
    ensures own { IsOwn result.1 }
    ensures memory { takes_none request.now ≡ true → result.1 ≢ answer.NoMemory }
    ensures ends { ends_in result.0 + ended_by state request.now ≤ ends_in state + opened_by request.now }
    ensures fault { (area : Bool) → result.1 ≡ Answer.Fault area → (area ≡ false) × Rose (faults_in D.faults state) (faults_in D.faults result.0) }
    ensures damaged { (area : Bool) (place : ℕ) → result.1 ≡ Answer.Damaged area place → is_some (content_in D.content state) ≡ true → IsDamage (content_in D.content result.0) area place }
    ensures told { is_some (content_in D.content result.0) ≡ is_some (content_in D.content state) }
    ensures count { faults_in D.faults state ≤ faults_in D.faults result.0 }
    ensures clock { (clock.old ≤ clock.new) × (clock.new ≤ clock.old + most_calls request.now) }
    ensures in_time { last_in D.last state ≤ clock.old → last_in D.last result.0 ≤ clock.new }
    ensures opened { has_open_log result.0 ≡ true }
{
    match state {
        State::Down(disk) => wake(alloc, disk, clock, request),
        State::Up(running) => work(alloc, running, clock, request),
        State::Away => unreachable!(),
    }
}
