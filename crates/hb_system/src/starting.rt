// The nodes of a system are started.
ghost use Rattle.std.specs.Prelude.{◌≡◌, ◌≤◌, length, vec_len, OnOk, Err};
ghost use Rattle.hb_edge.specs.Causes.{Rose};
ghost use Rattle.hb_reach.specs.Told.{meanings};
ghost use Rattle.hb_system.specs.Disks.{HasFault};
ghost use Rattle.hb_system.specs.Starting.{Starts, EachStarts, AreNamedAs};

use hb_edge::Clock;
use hb_node::Node;
use hb_types::{Answer, Request};

/// Why a node couldn't be started.
#[derive(Clone, Copy, Debug, PartialEq, Eq)]
pub(crate) enum NotStarted {
    Fault,
    Memory,
}

fn start<N: Node>(node: &mut N, clock: &mut Clock) -> Result<(), NotStarted>
    ensures starts { OnOk result (Starts (meanings N.named N.trail N.explains N.leaves N.last) clock.old clock.new node.old node.new) }
    ensures fault { result ≡ Err NotStarted.Fault → Rose (N.faults node.old) (N.faults node.new) }
    ensures name { N.named node.new ≡ N.named node.old }
    ensures clock { clock.old ≤ clock.new }
{
    match node.ask(clock, Request::Start) {
        Answer::Started { doubts: _ } => Ok(()),
        Answer::Fault { area: _ } => Err(NotStarted::Fault),
        _ => Err(NotStarted::Memory),
    }
}

/// Starts the nodes in their order.
pub(crate) fn start_all<N: Node>(nodes: &mut [N], clock: &mut Clock) -> Result<(), NotStarted>
    ensures starts { OnOk result (EachStarts (meanings N.named N.trail N.explains N.leaves N.last) clock.old clock.new (length nodes.old) nodes.old nodes.new) }
    ensures fault { result ≡ Err NotStarted.Fault → HasFault N.faults nodes.old nodes.new }
    ensures names { AreNamedAs N.named nodes.old nodes.new }
    ensures clock { clock.old ≤ clock.new }
{
    for i in 0..nodes.len() {
        match start(&mut nodes[i], clock) {
            Ok(()) => {}
            Err(fault) => return Err(fault),
        }
    }
    Ok(())
}

/// Starts the nodes of a list in their order.
pub(crate) fn start_nodes<N: Node>(nodes: &mut Vec<N>, clock: &mut Clock) -> Result<(), NotStarted>
    ensures starts { OnOk result (EachStarts (meanings N.named N.trail N.explains N.leaves N.last) clock.old clock.new (length nodes.old.items) nodes.old.items nodes.new.items) }
    ensures fault { result ≡ Err NotStarted.Fault → HasFault N.faults nodes.old.items nodes.new.items }
    ensures names { AreNamedAs N.named nodes.old.items nodes.new.items }
    ensures clock { clock.old ≤ clock.new }
    ensures len { vec_len nodes.new ≡ vec_len nodes.old }
{
    start_all(nodes, clock)
}
