// The front end as a node.
ghost use Rattle.std.specs.Prelude.{◌≡◌, ◌≢◌, ◌≤◌, ◌-◌, ◌⊎◌, ◌++◌, ◌∷◌, [], ℕ, Bool, true, false, IsTrue, List, Some};
ghost use Rattle.hb_edge.specs.Causes.{Rose};
ghost use Rattle.hb_types.specs.Calls.{IsRequest, IsAnswer};
ghost use Rattle.hb_types.specs.declared.names.Tx.{Tx};
ghost use Rattle.hb_runs.specs.Kinds.{tells_nothing};
ghost use Rattle.hb_runs.specs.ServerRuns.{Asked};
ghost use Rattle.hb_node.specs.Laws.{State, Enters, Images, asked_of, entry_of};

use crate::front::Front;
use hb_edge::{Clock, Disk};
use hb_node::Node;
use hb_types::{Answer, NodeName, Request};

impl<D: Disk> Node for Front<D> {
    ghost use Rattle.hb_coord.specs.Law.{calls_left_in, faults_in, is_up_in, last_in};
    ghost use Rattle.hb_front.specs.Fronting.{Explains, ends_nothing, explained as explained_by, idle_answer, leaves as left_by};

    ghost named = { λ f. 0 };

    ghost trail = { λ f. f.trail.entries };

    ghost leaves = { λ f. left_by D.left f.coordinator.state };

    ghost last = { λ f. last_in D.last f.coordinator.state };

    ghost faults = { λ f. faults_in D.faults f.coordinator.state };

    ghost explains = { λ f. Explains D.content D.left D.last f.coordinator.state };

    ghost explained = { λ f. explained_by D.content D.left D.last D.stands_on D.as_read f.coordinator.state };

    fn name(&self) -> NodeName {
        NodeName(0)
    }

    fn ask(&mut self, clock: &mut Clock, request: Request) -> Answer
        requires { IsRequest request }
        ensures well_formed { IsAnswer result }
        ensures entered { Enters self.old.trail.entries self.new.trail.entries (entry_of request result clock.old clock.new) }
        ensures law { (origin : State) → Explains D.content D.left D.last self.old.coordinator.state origin (asked_of self.old.trail.entries) → last_in D.last self.old.coordinator.state ≤ clock.old
            → Explains D.content D.left D.last self.new.coordinator.state origin (asked_of self.new.trail.entries) }
        ensures images { (origin : State) → Explains D.content D.left D.last self.old.coordinator.state origin (asked_of self.old.trail.entries) → last_in D.last self.old.coordinator.state ≤ clock.old
            → Images origin self.old.trail.entries self.new.trail.entries (entry_of request result clock.old clock.new) (left_by D.left self.old.coordinator.state) (left_by D.left self.new.coordinator.state) }
        ensures in_time { last_in D.last self.old.coordinator.state ≤ clock.old → last_in D.last self.new.coordinator.state ≤ clock.new }
        ensures told { IsTrue (tells_nothing result) ⊎ (self.new.trail.entries ≡ self.old.trail.entries ++ entry_of request result clock.old clock.new ∷ []) }
        ensures fault { (area : Bool) → result ≡ Answer.Fault area → Rose (faults_in D.faults self.old.coordinator.state) (faults_in D.faults self.new.coordinator.state) }
        ensures count { faults_in D.faults self.old.coordinator.state ≤ faults_in D.faults self.new.coordinator.state }
        ensures clock { clock.old ≤ clock.new }

        // An Abort of a transaction that isn't active.
        ensures idle { ends_nothing self.old.coordinator.state request ≡ true → result ≡ idle_answer self.old.coordinator.state }

        // An Abort takes no memory, nor does a Stop of one that is up.
        ensures abort { (tx : Tx) → request ≡ Request.Abort tx → result ≢ Answer.NoMemory }
        ensures stop { request ≡ Request.Stop → is_up_in self.old.coordinator.state ≡ true → result ≢ Answer.NoMemory }
    {
        if self.ends_nothing(&request) {
            return self.pass(&request);
        }
        if !self.has_room(&request) {
            return Answer::NoMemory;
        }
        self.enter(clock, request)
    }

    fn arm(&mut self, area: bool, k: u32)
        ensures trail { self.new.trail.entries ≡ self.old.trail.entries }
        ensures explains { (origin : State) (asked : List Asked) → Explains D.content D.left D.last self.old.coordinator.state origin asked → Explains D.content D.left D.last self.new.coordinator.state origin asked }
        ensures leaves { (m : ℕ) (log none : List ℕ) → left_by D.left self.new.coordinator.state m log none → left_by D.left self.old.coordinator.state m log none }
        ensures last { last_in D.last self.new.coordinator.state ≡ last_in D.last self.old.coordinator.state }
        ensures count { faults_in D.faults self.old.coordinator.state ≤ faults_in D.faults self.new.coordinator.state }
        ensures fuse { area ≡ false → calls_left_in self.new.coordinator.state ≡ Some (k - 1) }
    {
        if !area {
            self.coordinator.arm(k as u64);
        }
    }
}
