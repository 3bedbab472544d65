// The server.
ghost use Rattle.std.specs.Prelude.{◌≡◌, ◌≢◌, ◌↔◌, ◌+◌, ◌-◌, ◌≤◌, ◌<◌, ◌++◌, ◌∷◌, [], ℕ, max, true, List, Option};
ghost use Rattle.hb_edge.specs.Fuses.{last_of, faults_of};
ghost use Rattle.hb_types.specs.declared.change.LogItem.{LogItem};
ghost use Rattle.hb_types.specs.Calls.{IsAnswer};
ghost use Rattle.hb_disks.specs.Points.{Point};
ghost use Rattle.hb_runs.specs.Server.{SState};
ghost use Rattle.hb_node.specs.Laws.{serving, asked_of, entry_of};
ghost use Rattle.hb_server.specs.Law.{ExplainsNode, IsBase, IsFit, IsStoppedLog, IsTold, Rests, faults_in, last_in, leaves_in};
ghost use Rattle.hb_server.specs.Rooms.{HasEnds, is_plain};

use crate::copies::twice;
use crate::state::{Resting, Serving, State};
use hb_edge::{Disk, Fused};
use hb_store::Store;
use hb_trail::Trail;
use hb_types::{Answer, NodeName, Request, TrailEntry};
use std::alloc::Global;

/// A server, with the requests that it answered. Its trail has room for the ends of its branches and for its Stop.
#[derive(Drop)]
pub struct Server<D: Disk, S: Store> {
    pub name: NodeName,
    pub alloc: Global,
    pub trail: Trail,
    pub state: State<Fused<D>, S>,
    ghost numbered: { 1 ≤ name.0 },
    ghost fit: { ∥ IsFit S.rows S.room state ∥₁ },
    ghost ends: { ∥ HasEnds S.rows S.room state trail.spare ∥₁ },
}

impl<D: Disk, S: Store> Server<D, S> {
    /// A stopped one.
    pub fn new(alloc: Global, name: NodeName, log: D, area: D, store: S) -> Server<D, S>
        requires { (1 ≤ name.0) × (name.0 ≤ 9) }
        ensures explains { (first : SState) (p : Option Point) (read : List LogItem) → IsBase p read first
            → Rests D.content D.left D.last (IsStoppedLog p read first []) log (D.last log) → Rests D.content D.left D.last (λ image. S.point_in image p) area (D.last area)
            → ExplainsNode D.content D.left D.last S.rows S.keeps S.staged S.point_in result.name.0 result.state (serving first) (asked_of result.trail.entries) }
        ensures name { result.name ≡ name }
        ensures trail { result.trail.entries ≡ [] }
        ensures leaves { (m : ℕ) (log_image area_image : List ℕ) → leaves_in D.left result.state m log_image area_image ↔ (D.left log m log_image × D.left area m area_image) }
        ensures last { last_in (last_of D.last) result.state ≡ max (D.last log) (D.last area) }
        ensures faults { faults_in (faults_of D.faults) result.state ≡ D.faults log + D.faults area }
    {
        let (log, area) = (Fused::new(log), Fused::new(area));
        Server {
            name,
            alloc,
            trail: Trail::new(alloc),
            state: State::Down(Resting { log, area, store }),
        }
    }

    /// The requests that it answered.
    pub fn entries(&self) -> &[TrailEntry]
        ensures { result.now ≡ self.now.trail.entries }
    {
        self.trail.entries()
    }

    /// Enters a call that was answered, and tells the answer.
    pub(crate) fn enter(&mut self, request: Request, answer: Answer, from: u128, to: u128) -> Answer
        requires spare { 0 < self.old.trail.spare }
        requires ends { ∥ HasEnds S.rows S.room self.old.state (self.old.trail.spare - 1) ∥₁ }
        requires well_formed { IsAnswer answer }
        ensures well_formed { IsAnswer result }
        ensures told { IsTold answer result }
        ensures plain { is_plain answer ≡ true → result ≢ Answer.NoMemory }
        ensures trail { self.new.trail.entries ≡ self.old.trail.entries ++ entry_of request result from to ∷ [] }
        ensures spare { self.new.trail.spare ≡ self.old.trail.spare - 1 }
        ensures state { self.new.state ≡ self.old.state }
        ensures name { self.new.name ≡ self.old.name }
    {
        let (answer, entered) = twice(self.alloc, answer);
        self.trail.push(TrailEntry {
            caller: 0,
            nth: 0,
            request,
            answer: entered,
            from,
            to,
        });
        answer
    }
}

impl<D: Disk, S: Store + Drop> Server<D, S> {
    /// The log disk and the area disk.
    pub fn into_disks(self) -> (D, D)
        ensures { (m : ℕ) (log area : List ℕ) → leaves_in D.left self.state m log area ↔ (D.left result.0 m log × D.left result.1 m area) }
    {
        let Server {
            name: _,
            alloc: _,
            trail: _,
            state,
        } = self;
        match state {
            State::Down(rest) => {
                let Resting {
                    log,
                    area,
                    store: _,
                } = rest;
                (log.into_inner(), area.into_inner())
            }
            State::Up(serves) => {
                let Serving { running, area } = serves;
                let (log, _store) = running.into_parts();
                (log.into_inner(), area.into_inner())
            }
            State::Away => unreachable!(),
        }
    }
}
