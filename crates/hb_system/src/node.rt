// The front end or a server.
use hb_edge::Clock;
use hb_node::Node;
use hb_types::{Answer, NodeName, Request};

/// A node of a system but its manager.
#[derive(Drop)]
pub enum SystemNode<F: Node, S: Node> {
    Front(F),
    Server(S),
}

impl<F: Node, S: Node> Node for SystemNode<F, S> {
    ghost use Rattle.hb_system.specs.Variants.{of_kind, explained_of};

    ghost named = { of_kind F.named S.named };

    ghost trail = { of_kind F.trail S.trail };

    ghost leaves = { of_kind F.leaves S.leaves };

    ghost last = { of_kind F.last S.last };

    ghost faults = { of_kind F.faults S.faults };

    ghost explains = { of_kind F.explains S.explains };

    ghost explained = { explained_of F.named S.named F.explains S.explains F.explained S.explained };

    fn name(&self) -> NodeName {
        match self {
            SystemNode::Front(front) => front.name(),
            SystemNode::Server(server) => server.name(),
        }
    }

    fn ask(&mut self, clock: &mut Clock, request: Request) -> Answer {
        match self {
            SystemNode::Front(front) => front.ask(clock, request),
            SystemNode::Server(server) => server.ask(clock, request),
        }
    }

    fn arm(&mut self, area: bool, k: u32) {
        match self {
            SystemNode::Front(front) => front.arm(area, k),
            SystemNode::Server(server) => server.arm(area, k),
        }
    }
}
