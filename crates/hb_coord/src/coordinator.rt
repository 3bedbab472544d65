// The coordinator.
ghost use Rattle.std.specs.Prelude.{◌≡◌, ◌≢◌, ◌^◌, ◌↔◌, ◌+◌, ◌-◌, ◌++◌, ◌∷◌, [], ◌≤◌, ℕ, Bool, true, false, is_some, List, Some};
ghost use Rattle.hb_edge.specs.Causes.{Rose};
ghost use Rattle.hb_edge.specs.Images.{Image};
ghost use Rattle.hb_edge.specs.Stops.{Leaves};
ghost use Rattle.hb_types.specs.declared.answer.Answer.TheVariants as answer;
ghost use Rattle.hb_types.specs.declared.change.LogItem.{LogItem};
ghost use Rattle.hb_types.specs.Calls.{IsRequest};
ghost use Rattle.hb_runs.specs.Coordinator.{CState, stopped_at, takes_none};
ghost use Rattle.hb_runs.specs.ServerRuns.{Asked};
ghost use Rattle.hb_coord.specs.Law.{Explains, IsLeftIn, IsLeftBy, IsDamage, is_active_in, is_up_in, ends_in, ended_by, opened_by, has_open_log, content_in, left_in, last_in, faults_in, calls_left_in, most_calls};
ghost use Rattle.hb_coord.specs.Standing.{IsLog, IsOwn, asking};

use crate::state::State;
use crate::turn::turn;
use hb_edge::{Clock, Disk, Fused};
use hb_types::{Answer, Request, Tx};
use std::alloc::Global;
use std::mem;

/// Gives transactions their numbers, and decides them.
#[derive(Drop)]
pub struct Coordinator<D: Disk> {
    pub state: State<D>,
    alloc: Global,
    ghost open: { has_open_log state ≡ true },
}

impl<D: Disk> Coordinator<D> {
    /// A stopped one.
    pub fn new(alloc: Global, log: D) -> Coordinator<D>
        ensures run { (items : List LogItem) → is_some (D.content log) ≡ true → ((image : Image) → D.left log (D.last log) image → IsLog image items) → Explains D.content D.left D.last (stopped_at items) [] result.state (D.last log) }
        ensures content { content_in D.content result.state ≡ D.content log }
        ensures left { (m : ℕ) (image : Image) → left_in D.left result.state m image ↔ D.left log m image }
        ensures last { last_in D.last result.state ≡ D.last log }
        ensures faults { faults_in D.faults result.state ≡ D.faults log }
        ensures ends { ends_in result.state ≡ 0 }
    {
        Coordinator {
            state: State::Down(Fused::new(log)),
            alloc,
        }
    }

    /// Does a request.
    pub fn ask(&mut self, clock: &mut Clock, request: &Request) -> Answer
        requires { IsRequest request.now }
        ensures run { (first : CState) (trail : List Asked) → Explains D.content D.left D.last first trail self.old.state clock.old → Explains D.content D.left D.last first (trail ++ asking request.now result ∷ []) self.new.state clock.new }
        ensures stop { (first : CState) (trail : List Asked) → Explains D.content D.left D.last first trail self.old.state clock.old → Leaves clock.old (left_in D.left self.old.state) (left_in D.left self.new.state) (λ m image. IsLeftIn first trail request.now image) }
        ensures left_by { (first : CState) (trail : List Asked) → Explains D.content D.left D.last first trail self.old.state clock.old → (m : ℕ) (image : Image) → clock.old ≤ m → left_in D.left self.new.state m image → IsLeftBy first trail request.now result image }
        ensures own { IsOwn result }
        ensures memory { takes_none request.now ≡ true → result ≢ answer.NoMemory }

        // How many ends may still come.
        ensures ends { ends_in self.new.state + ended_by self.old.state request.now ≤ ends_in self.old.state + opened_by request.now }
        ensures fault { (area : Bool) → result ≡ Answer.Fault area → (area ≡ false) × Rose (faults_in D.faults self.old.state) (faults_in D.faults self.new.state) }
        ensures damaged { (area : Bool) (place : ℕ) → result ≡ Answer.Damaged area place → is_some (content_in D.content self.old.state) ≡ true → IsDamage (content_in D.content self.new.state) area place }
        ensures told { is_some (content_in D.content self.new.state) ≡ is_some (content_in D.content self.old.state) }
        ensures count { faults_in D.faults self.old.state ≤ faults_in D.faults self.new.state }
        ensures clock { (clock.old ≤ clock.new) × (clock.new ≤ clock.old + most_calls request.now) }
        ensures in_time { last_in D.last self.old.state ≤ clock.old → last_in D.last self.new.state ≤ clock.new }
    {
        let state = mem::replace(&mut self.state, State::Away);
        let (state, answer) = turn(self.alloc, state, clock, request);
        match mem::replace(&mut self.state, state) {
            State::Away => answer,
            State::Down(_disk) => unreachable!(),
            State::Up(_running) => unreachable!(),
        }
    }

    /// Whether a transaction was begun, and neither ended nor lost by a stop since.
    pub fn is_active(&self, tx: Tx) -> bool
        ensures { result ≡ is_active_in self.now.state tx.0 }
    {
        match &self.state {
            State::Up(running) => running.ledger.active.contains(&tx.0),
            State::Down(_disk) => false,
            State::Away => false,
        }
    }

    /// How many of the Aborts and Stops that are to come end something.
    pub fn ends(&self) -> usize
        ensures count { result ≡ ends_in self.now.state }
        ensures small { result ≤ 2 ^ 63 }
    {
        match &self.state {
            State::Up(running) => running.ledger.active.len() + 1,
            State::Down(_disk) => 0,
            State::Away => 0,
        }
    }

    pub fn is_up(&self) -> bool
        ensures { result ≡ is_up_in self.now.state }
    {
        matches!(&self.state, State::Up(_))
    }

    /// The k-th call of its disk from now fails, and so do all after it, until the next Start. 0 counts as 1.
    pub fn arm(&mut self, k: u64)
        ensures run { (first : CState) (trail : List Asked) (moment : ℕ) → Explains D.content D.left D.last first trail self.old.state moment → Explains D.content D.left D.last first trail self.new.state moment }
        ensures content { content_in D.content self.new.state ≡ content_in D.content self.old.state }
        ensures left { (m : ℕ) (image : Image) → left_in D.left self.new.state m image ↔ left_in D.left self.old.state m image }
        ensures last { last_in D.last self.new.state ≡ last_in D.last self.old.state }
        ensures faults { faults_in D.faults self.new.state ≡ faults_in D.faults self.old.state }
        ensures fuse { calls_left_in self.new.state ≡ Some (k - 1) }
        ensures ends { ends_in self.new.state ≡ ends_in self.old.state }
    {
        match &mut self.state {
            State::Down(disk) => disk.arm(k),
            State::Up(running) => running.log.arm(k),
            State::Away => {}
        }
    }

    pub fn into_disk(self) -> D
        ensures content { D.content result ≡ content_in D.content self.state }
        ensures left { (m : ℕ) (image : Image) → D.left result m image ↔ left_in D.left self.state m image }
    {
        let Coordinator { state, alloc: _ } = self;
        match state {
            State::Down(disk) => disk.into_inner(),
            State::Up(running) => running.into_disk().into_inner(),
            State::Away => unreachable!(),
        }
    }
}
