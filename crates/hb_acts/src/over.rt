// A script over the nodes of a system, from their start to its end.
ghost use Rattle.std.specs.Prelude.{◌≡◌, ◌≤◌, [], length};
ghost use Rattle.hb_acts.specs.Leaving.{NodesLeft};
ghost use Rattle.hb_acts.specs.Outside.{seen};
ghost use Rattle.hb_acts.specs.Runs.{Runs};
ghost use Rattle.hb_node.specs.Lists.{Onward};
ghost use Rattle.hb_reach.specs.Names.{AreNumbered};
ghost use Rattle.hb_reach.specs.Told.{meanings, mgr};
ghost use Rattle.hb_stepper.specs.Running.{Running};

use crate::Stop;
use crate::run::run_script;
use hb_edge::{Clock, Sink, Source};
use hb_node::{Node, Nodes};
use hb_reach::{Reach, nodes_stay};
use hb_stepper::{BackEnds, Sessions};
use std::alloc::Global;

/// Runs the script of new sessions over nodes that were started.
fn run_sessions<S: Source, O: Sink, N: Node, M: Node>(
    alloc: Global,
    back_ends: BackEnds,
    reach: &mut Reach<N, M>,
    source: &mut S,
    sink: &mut O,
    clock: &mut Clock,
) -> Result<(), Stop>
    ensures runs { (end : Running) × (end.lists ≡ ⟦<Reach<N, M> as Nodes>⟧.lists reach.new) × Runs (record { names = []; seats = []; waiters = []; lines = []; lists = ⟦<Reach<N, M> as Nodes>⟧.lists reach.old }) end
        (seen S.left S.faults O.held O.faults source.old sink.old)
        (seen S.left S.faults O.held O.faults source.new sink.new)
        result }
    ensures clock { clock.old ≤ clock.new }
    ensures behind { reach.old.clock ≤ clock.old → reach.new.clock ≤ clock.new }
    ensures goes { Onward ⟦<Reach<N, M> as Nodes>⟧.goes reach.old reach.new }
{
    let mut sessions = Sessions::new(alloc, back_ends);
    run_script(alloc, &mut sessions, reach, source, sink, clock)
}

/// Runs the script over nodes that were started, and gives them back: as many, by their numbers.
pub fn run_nodes<S: Source, O: Sink, N: Node, M: Node + Drop>(
    alloc: Global,
    back_ends: BackEnds,
    nodes: Vec<N>,
    manager: M,
    source: &mut S,
    sink: &mut O,
    clock: &mut Clock,
) -> (Result<(), Stop>, Vec<N>)
    requires few { length nodes.items ≤ mgr }
    requires numbered { AreNumbered N.named nodes.items }
    // The end is that of these nodes, each of which is lawful still.
    ensures runs { (end : Running)
        × NodesLeft (meanings N.named N.trail N.explains N.leaves N.last) (meanings M.named M.trail M.explains M.leaves M.last) clock.old clock.new nodes.items manager end.lists result.1.items
        × Runs (record { names = []; seats = []; waiters = []; lines = []; lists = ⟦<Reach<N, M> as Nodes>⟧.lists (record { nodes = nodes; manager = manager; clock = clock.old }) }) end
        (seen S.left S.faults O.held O.faults source.old sink.old)
        (seen S.left S.faults O.held O.faults source.new sink.new)
        result.0 }
    ensures count { length result.1.items ≡ length nodes.items }
    ensures numbered { AreNumbered N.named result.1.items }
    ensures clock { clock.old ≤ clock.new }
{
    let mut reach = Reach::new(nodes, manager, *clock);
    let ended = run_sessions(alloc, back_ends, &mut reach, source, sink, clock);
    nodes_stay(&reach);
    let (nodes, _, _) = reach.into_parts();
    (ended, nodes)
}
