// What a transaction has used so far.
ghost use Rattle.std.specs.Prelude.{◌≡◌, ◌≤◌, ◌+◌, true, false, nat_le};
ghost use Rattle.hb_model.specs.Needs.{most_locks};
ghost use Rattle.hb_model.specs.NodeSets.{has_node, with_node};
ghost use Rattle.hb_access.specs.Accesses.{use_of, GateIs, IsServer};

use hb_nodeset::{has, with};
use hb_types::{Left, NodeName, Tx};

/// The granted Lock requests of one transaction.
pub const MOST_LOCKS: u32 = 65536;

/// A transaction, the nodes where it has a branch or asks for one, its granted Lock requests, and the bytes of its changes.
#[derive(Clone, Copy, Debug, PartialEq, Eq)]
pub struct Usage {
    pub tx: Tx,
    pub used: Left,
    pub locks: u32,
    pub bytes: u64,
}

/// What comes before a Lock: nothing, an Enlist, or there are locks enough.
#[derive(Clone, Copy, Debug, PartialEq, Eq)]
pub enum Gate {
    Enlist,
    Lock,
    Full,
}

impl Usage {
    /// Counts the Enlist or the Lock that is asked next at a node.
    pub fn gate(&mut self, node: NodeName) -> Gate
        requires { IsServer node.0 }
        ensures { GateIs node.0 (use_of self.old) (use_of self.new) result }
    {
        if !has(self.used, node) {
            self.used = with(self.used, node);
            return Gate::Enlist;
        }
        if self.locks >= MOST_LOCKS {
            return Gate::Full;
        }
        self.locks += 1;
        Gate::Lock
    }

    /// Counts the Enlist that is asked before a Write at a node, if there is none yet.
    pub fn enlist(&mut self, node: NodeName) -> bool
        requires { IsServer node.0 }
        ensures asked { result ≡ true → (has_node self.old.used.0 node.0 ≡ false) × (use_of self.new ≡ record (use_of self.old) { used = with_node self.old.used.0 node.0 }) }
        ensures there { result ≡ false → (has_node self.old.used.0 node.0 ≡ true) × (self.new ≡ self.old) }
    {
        if has(self.used, node) {
            return false;
        }
        self.used = with(self.used, node);
        true
    }
}
