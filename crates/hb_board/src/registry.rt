// The transactions that were entered.
ghost use Rattle.std.specs.Prelude.{◌≡◌, ℕ, find};
ghost use Rattle.std.specs.Ordering.{nat_cmp};
ghost use Rattle.std.specs.BTreeMap.{get};
ghost use Rattle.hb_board.specs.declared.known.Known.{Known};
ghost use Rattle.hb_board.specs.Shows.{Changes, Ends, Settles, is_active, is_live_in, over_in, owner_at};

use crate::known::Known;
use hb_types::{Edge, Left, NodeName, Owner, Tx};
use std::collections::BTreeMap;

pub(crate) type Registry = BTreeMap<u64, Known>;

/// The owner of a transaction that was entered.
pub(crate) fn owner_of(known: &Registry, tx: Tx) -> Option<Owner>
    ensures { result ≡ owner_at (get nat_cmp known.now tx.0) }
{
    match known.get(&tx.0) {
        Some(entry) => Some(entry.owner),
        None => None,
    }
}

/// Whether a transaction is over for a wait at a node.
pub(crate) fn is_over(known: &Registry, node: NodeName, tx: Tx) -> bool
    ensures { result ≡ over_in (get nat_cmp known.now tx.0) node.0 }
{
    match known.get(&tx.0) {
        Some(entry) => entry.is_over(node),
        None => false,
    }
}

/// The End of a transaction. Whether it was entered, and this is its first.
pub(crate) fn end(known: &mut Registry, tx: Tx, left: Left) -> bool
    ensures changes { Changes (λ x y. Ends x y left.0) known.old known.new tx.0 }
    ensures first { result ≡ is_active (get nat_cmp known.old tx.0) }
{
    match known.get_mut(&tx.0) {
        Some(entry) => entry.end(left),
        None => false,
    }
}

/// A transaction is settled at a node, if it was entered.
pub(crate) fn settle(known: &mut Registry, tx: Tx, node: NodeName)
    ensures { Changes (λ x y. Settles x y node.0) known.old known.new tx.0 }
{
    if let Some(entry) = known.get_mut(&tx.0) {
        entry.settle(node);
    }
}

/// Whether the holder of an edge is live.
pub(crate) fn is_live(known: &Registry, edge: &Edge) -> bool
    ensures { result ≡ is_live_in known.now edge.now }
{
    !is_over(known, edge.node, edge.holder)
}

/// The first edge to a holder that is live.
pub(crate) fn first_live_of(known: &Registry, edges: &[Edge]) -> Option<Edge>
    ensures { result ≡ find (is_live_in known.now) edges.now }
{
    for edge in edges {
        if is_live(known, edge) {
            return Some(*edge);
        }
    }
    None
}
