// The manager as a node.
ghost use Rattle.std.specs.Prelude.{◌≡◌, ◌≢◌, ◌≤◌, Bool, true, IsTrue};
ghost use Rattle.hb_types.specs.Calls.{IsRequest, IsAnswer};
ghost use Rattle.hb_runs.specs.Kinds.{tells_nothing};
ghost use Rattle.hb_node.specs.Laws.{State, Enters, Images, asked_of, entry_of};
ghost use Rattle.hb_manager.specs.Managing.{is_left_out as left_out};

use crate::manager::Manager;
use hb_edge::Clock;
use hb_node::Node;
use hb_types::{Answer, NodeName, Request};

/// Whether the trail leaves a request out.
fn is_left_out(request: &Request) -> bool
    ensures { result ≡ left_out request.now }
{
    matches!(
        request,
        Request::Ready { .. }
            | Request::End { .. }
            | Request::Settled { .. }
            | Request::Halted { .. }
    )
}

impl Node for Manager {
    ghost use Rattle.hb_manager.specs.Managing.{Explains, leaves_nothing, explained as explained_by};

    ghost named = { λ m. 10 };

    ghost trail = { λ m. m.trail.entries };

    ghost leaves = { λ m. leaves_nothing };

    ghost last = { λ m. 0 };

    ghost faults = { λ m. 0 };

    ghost explains = { λ m. Explains m.board };

    ghost explained = { λ m. explained_by m.board };

    fn name(&self) -> NodeName {
        NodeName(10)
    }

    fn ask(&mut self, clock: &mut Clock, request: Request) -> Answer
        requires { IsRequest request }
        ensures well_formed { IsAnswer result }
        ensures entered { Enters self.old.trail.entries self.new.trail.entries (entry_of request result clock.old clock.new) }
        ensures law { (origin : State) → Explains self.old.board origin (asked_of self.old.trail.entries) → 0 ≤ clock.old → Explains self.new.board origin (asked_of self.new.trail.entries) }
        ensures images { (origin : State) → Explains self.old.board origin (asked_of self.old.trail.entries) → 0 ≤ clock.old
            → Images origin self.old.trail.entries self.new.trail.entries (entry_of request result clock.old clock.new) leaves_nothing leaves_nothing }
        ensures told { IsTrue (tells_nothing result) }
        ensures fault { (area : Bool) → result ≡ Answer.Fault area → ⊥ }
        ensures clock { clock.new ≡ clock.old }

        // What the trail leaves out takes no memory.
        ensures memory { left_out request ≡ true → result ≢ Answer.NoMemory }
    {
        if is_left_out(&request) {
            return self.pass(&request);
        }
        self.enter(clock.moment(), request)
    }

    fn arm(&mut self, _area: bool, _k: u32) {}
}
