// Several nodes.
ghost use Rattle.std.specs.Prelude.{ℕ, List};
ghost use Rattle.hb_types.specs.Calls.{IsRequest, IsAnswer};
ghost use Rattle.hb_runs.specs.ServerRuns.{Asked};
ghost use Rattle.hb_node.specs.Lists.{OneMore};

use hb_types::{Answer, NodeName, Request};

/// The nodes of a system, as one caller reaches them.
pub trait Nodes {
    /// What each node, by its number, was asked and answered.
    ghost lists: { Self → ℕ → List Asked };

    /// What is so of each node by itself from one call to the next, whoever makes it: a caller hands it on.
    ghost goes: { Self → Self → Type 0 } = { λ _ _. Unit {0} };

    /// Asks a node.
    fn ask(&mut self, node: NodeName, request: Request) -> Answer
        requires { IsRequest request }
        ensures well_formed { IsAnswer result }
        ensures one_more { OneMore (lists self.old) (lists self.new) node.0 request result }
        ensures goes { goes self.old self.new };
}
