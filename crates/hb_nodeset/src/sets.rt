// Sets of nodes as bits.
ghost use Rattle.std.specs.Prelude.{◌≡◌, ◌≢◌, ◌≤◌, ◌+◌, ◌^◌, true, [], ◌∷◌, MatchOption};
ghost use Rattle.hb_model.specs.NodeSets.{has_node, with_node};
ghost use Rattle.hb_nodeset.specs.NodesFrom.{nodes_from};

use hb_types::{Left, NodeName};

/// The bit of a node from fes1 to mgr.
fn bit(node: u8) -> u16
    requires { node ≤ 10 }
    ensures { result ≡ 2 ^ node }
{
    1 << node
}

/// Whether the node is in the set. A node is 0 to 10.
pub fn has(set: Left, node: NodeName) -> bool
    requires { node.0 ≤ 10 }
    ensures { result ≡ has_node set.0 node.0 }
{
    set.0 / bit(node.0) % 2 == 1
}

/// The set with the node.
pub fn with(set: Left, node: NodeName) -> Left
    requires { node.0 ≤ 10 }
    ensures { result.0 ≡ with_node set.0 node.0 }
{
    if has(set, node) {
        set
    } else {
        Left(set.0 + bit(node.0))
    }
}

/// The first node of the set from this number on.
pub fn first_from(set: Left, from: u8) -> Option<NodeName>
    ensures { MatchOption result (nodes_from set.0 from ≡ []) (λ n. (from ≤ n.0) × (n.0 ≤ 10) × (has_node set.0 n.0 ≡ true) × (nodes_from set.0 from ≡ n.0 ∷ nodes_from set.0 (n.0 + 1))) }
{
    let mut node = from;
    while node <= 10 {
        if has(set, NodeName(node)) {
            return Some(NodeName(node));
        }
        node += 1;
    }
    None
}
