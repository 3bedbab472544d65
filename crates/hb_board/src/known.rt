// What the manager knows of a transaction.
ghost use Rattle.std.specs.Prelude.{◌≡◌, ◌<◌, ◌&&◌, ◌∷◌, [], ℕ, true, false, not};
ghost use Rattle.hb_model.specs.NodeSets.{has_node as has_node_in};
ghost use Rattle.hb_board.specs.Shows.{Ends, Settles, is_open};

use hb_types::{Left, NodeName, Owner};

/// How many nodes a set of nodes may have: fes1, ds, bes1 to bes8 and mgr.
const NODES: usize = 11;

/// A transaction that was entered: its owner, whether its End came, and at which nodes it isn't settled.
#[derive(Debug, Drop)]
pub struct Known {
    pub owner: Owner,
    pub ended: bool,
    pub unsettled: [bool; 11],
}

/// Whether a node is in a set.
fn has_node(set: Left, node: usize) -> bool
    requires { node < 11 }
    ensures { result ≡ has_node_in set.0 node }
{
    (set.0 / (1 << node)) % 2 == 1
}

impl Known {
    pub(crate) fn new(owner: Owner) -> Known
        ensures { result ≡ record { owner = owner; ended = false; unsettled = true ∷ true ∷ true ∷ true ∷ true ∷ true ∷ true ∷ true ∷ true ∷ true ∷ true ∷ [] } }
    {
        Known {
            owner,
            ended: false,
            unsettled: [true; NODES],
        }
    }

    /// Whether it is over for a wait at a node.
    pub(crate) fn is_over(&self, node: NodeName) -> bool
        ensures { result ≡ (self.now.ended && not (is_open self.now node.0)) }
    {
        let node = node.0 as usize;
        self.ended && !(node < NODES && self.unsettled[node])
    }

    /// Its End comes, and it leaves these nodes. Whether this is the first.
    pub(crate) fn end(&mut self, left: Left) -> bool
        ensures ends { Ends self.old self.new left.0 }
        ensures first { result ≡ not self.old.ended }
    {
        if self.ended {
            return false;
        }
        self.ended = true;
        for node in 0..NODES {
            self.unsettled[node] = self.unsettled[node] && has_node(left, node);
        }
        true
    }

    /// It is settled at a node.
    pub(crate) fn settle(&mut self, node: NodeName)
        ensures { Settles self.old self.new node.0 }
    {
        let node = node.0 as usize;
        if node < NODES {
            self.unsettled[node] = false;
        }
    }
}
