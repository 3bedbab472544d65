// One node.
ghost use Rattle.std.specs.Prelude.{◌≡◌, ◌≤◌, ◌<◌, ◌⊎◌, ℕ, Bool, IsTrue, List, ◌++◌, ◌∷◌, []};
ghost use Rattle.hb_edge.specs.Causes.{Rose};
ghost use Rattle.hb_types.specs.declared.trail.TrailEntry.{TrailEntry};
ghost use Rattle.hb_types.specs.Calls.{IsRequest, IsAnswer};
ghost use Rattle.hb_runs.specs.Kinds.{tells_nothing};
ghost use Rattle.hb_runs.specs.ServerRuns.{Asked};
ghost use Rattle.hb_node.specs.Laws.{State, IsOfName, Runs, Enters, Images, asked_of, entry_of};

use hb_edge::Clock;
use hb_types::{Answer, NodeName, Request};

/// A server, the front end or the manager: it answers one request after another, and keeps a trail of them.
pub trait Node {
    /// Its name by number: 0 is fes1, 1 is ds, 2 to 9 are the back ends, 10 is mgr.
    ghost named: { Self → ℕ };

    /// The requests that it answered, in order.
    ghost trail: { Self → List TrailEntry };

    /// Where its disks tell their content: a stop at this moment may leave these images on its log and its area disk.
    ghost leaves: { Self → ℕ → List ℕ → List ℕ → Type 0 };

    /// The moment of the last call of its disks.
    ghost last: { Self → ℕ };

    /// How often its disks failed.
    ghost faults: { Self → ℕ };

    /// What it holds, and each image that its disks may hold by now, is what a run of these requests makes of a state. Each image has
    /// a run of its own: of a call that faulted, the record stands in one and not in another.
    ghost explains: { Self → State → List Asked → Type 0 };

    /// Its name.
    fn name(&self) -> NodeName
        ensures { result.0 ≡ named self.now };

    /// Answers a request.
    fn ask(&mut self, clock: &mut Clock, request: Request) -> Answer
        requires { IsRequest request }
        ensures well_formed { IsAnswer result }
        ensures name { named self.new ≡ named self.old }
        ensures entered { Enters (trail self.old) (trail self.new) (entry_of request result clock.old clock.new) }

        // Where its trail explained the node from a state on, it does still. Here and below the clock is not behind its disks.
        ensures law { (origin : State) → explains self.old origin (asked_of (trail self.old)) → last self.old ≤ clock.old → explains self.new origin (asked_of (trail self.new)) }

        // What its disks may hold since the call began is what a run of these calls makes of the log; before it, what it was.
        ensures images { (origin : State) → explains self.old origin (asked_of (trail self.old)) → last self.old ≤ clock.old
            → Images origin (trail self.old) (trail self.new) (entry_of request result clock.old clock.new) (leaves self.old) (leaves self.new) }
        ensures in_time { last self.old ≤ clock.old → last self.new ≤ clock.new }

        // An answer that its trail leaves out tells nothing of transactions, decisions and rows.
        ensures told { IsTrue (tells_nothing result) ⊎ (trail self.new ≡ trail self.old ++ entry_of request result clock.old clock.new ∷ []) }

        ensures fault { (area : Bool) → result ≡ Answer.Fault area → Rose (faults self.old) (faults self.new) }
        ensures count { faults self.old ≤ faults self.new }
        ensures clock { clock.old ≤ clock.new };

    /// Lets the kth device call from now on its log or its area disk fail, and all after it.
    fn arm(&mut self, area: bool, k: u32)
        ensures name { named self.new ≡ named self.old }
        ensures trail { trail self.new ≡ trail self.old }
        ensures explains { (origin : State) (asked : List Asked) → explains self.old origin asked → explains self.new origin asked }
        ensures leaves { (m : ℕ) (log area : List ℕ) → leaves self.new m log area → leaves self.old m log area }
        ensures last { last self.new ≡ last self.old }
        ensures count { faults self.old ≤ faults self.new };

    /// What explains a node is a run, of its name alone.
    ghost explained: { (node : Self) (origin : State) (asked : List Asked) → explains node origin asked → IsOfName (named node) origin × ((t : State) × Runs origin asked t) };
}
