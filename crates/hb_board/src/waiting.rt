// A wait: the edges that it has, the cycle that it would close, and what is kept of it.
ghost use Rattle.std.specs.Prelude.{◌≡◌, ◌∷◌, ◌++◌, [], true, filter, IfOk, OnOk, OnErr};
ghost use Rattle.hb_runs.specs.Board.{Board as BoardState, edges_of, keeping};
ghost use Rattle.hb_board.specs.Shows.{Shows, is_live_in};
ghost use Rattle.hb_board.specs.Waiting.{Judges, Waited, AreOf, edge_in, edges_now, can_wait_in, is_known_in};

use crate::board::Board;
use crate::registry::{is_live, owner_of};
use crate::search::Search;
use crate::waits::{Wait, Waits};
use hb_types::{Edge, Holder, Mode, NoMemory, NodeName, Path, Tx};
use sqlite_items::Items;
use std::collections::BTreeSet;

impl Board {
    /// A transaction would wait at a node for the holders of a lock. It and the holders were entered.
    pub fn wait(
        &mut self,
        tx: Tx,
        node: NodeName,
        path: Path,
        wanted: Mode,
        holders: &[Holder],
    ) -> Result<Waits, NoMemory>
        requires { can_wait_in self.old.known tx holders.now ≡ true }
        ensures done { IfOk result (λ w. Waited tx node path wanted holders.now w self.old self.new) }
        ensures none { OnErr result ((b : BoardState) → Shows b self.old → Shows b self.new) }
    {
        match self.judge(tx, node, path, wanted, holders)? {
            Waits::Waiting(edges) => {
                self.keep(tx, node, edges.as_slice())?;
                Ok(Waits::Waiting(edges))
            }
            Waits::Cycle(edges) => Ok(Waits::Cycle(edges)),
            Waits::Gone => Ok(Waits::Gone),
        }
    }

    /// What a wait is answered.
    pub(crate) fn judge(
        &self,
        tx: Tx,
        node: NodeName,
        path: Path,
        wanted: Mode,
        holders: &[Holder],
    ) -> Result<Waits, NoMemory>
        ensures { IfOk result (λ w. (b : BoardState) → Shows b self.now → Judges b tx (edges_of b tx node path wanted holders.now) w) }
    {
        let edges = self.edges_of(tx, node, path, wanted, holders)?;
        if edges.is_empty() {
            return Ok(Waits::Gone);
        }
        let mut search = Search {
            target: tx,
            cleared: BTreeSet::new(self.alloc),
            path: Vec::new(self.alloc),
        };
        let depth = self.waits.len() + 1;
        if self.find_way(edges.as_slice(), &mut search, depth)? {
            let Search { path, .. } = search;
            return Ok(Waits::Cycle(Items::from_vec(path)));
        }
        Ok(Waits::Waiting(edges))
    }

    /// The edges of a wait to the holders that are live.
    fn edges_of(
        &self,
        tx: Tx,
        node: NodeName,
        path: Path,
        wanted: Mode,
        holders: &[Holder],
    ) -> Result<Items<Edge>, NoMemory>
        ensures { IfOk result (λ es. es ≡ edges_now self.now.known tx node path wanted holders.now) }
    {
        let mut edges = Items::new(self.alloc);
        for holder in holders {
            if let Some(edge) = self.edge_to(tx, node, path, wanted, *holder) {
                self.add_live(&mut edges, edge)?;
            }
        }
        Ok(edges)
    }

    /// Adds an edge, if its holder is live.
    fn add_live(&self, edges: &mut Items<Edge>, edge: Edge) -> Result<(), NoMemory>
        ensures { OnOk result (edges.new ≡ edges.old ++ filter (is_live_in self.now.known) (edge ∷ [])) }
    {
        if is_live(&self.known, &edge) {
            edges.push(edge)?;
        }
        Ok(())
    }

    /// The edge of a wait to a holder, where both were entered.
    fn edge_to(
        &self,
        tx: Tx,
        node: NodeName,
        path: Path,
        wanted: Mode,
        holder: Holder,
    ) -> Option<Edge>
        ensures { result ≡ edge_in self.now.known tx node path wanted holder }
    {
        let waiter_owner = owner_of(&self.known, tx)?;
        let holder_owner = owner_of(&self.known, holder.tx)?;
        Some(Edge {
            waiter: tx,
            waiter_owner,
            node,
            path,
            wanted,
            holder: holder.tx,
            holder_owner,
            held: holder.mode,
        })
    }

    /// Keeps the edges of a wait in place of those that its waiter had.
    pub(crate) fn keep(&mut self, tx: Tx, node: NodeName, edges: &[Edge]) -> Result<(), NoMemory>
        ensures kept { OnOk result ((b : BoardState) → Shows b self.old → AreOf tx node edges.now → Shows (keeping b tx edges.now) self.new) }
        ensures none { OnErr result ((b : BoardState) → Shows b self.old → Shows b self.new) }
    {
        let edges = Items::from_slice(self.alloc, edges)?;
        match self.waits.insert(tx.0, Wait { node, edges }) {
            Ok(_) => Ok(()),
            Err(_) => Err(NoMemory),
        }
    }

    /// Whether a transaction and the holders that it would wait for were entered.
    pub fn can_wait(&self, tx: Tx, holders: &[Holder]) -> bool
        ensures { result ≡ can_wait_in self.now.known tx holders.now }
    {
        for holder in holders {
            if !self.has_entered(holder.tx) {
                return false;
            }
        }
        self.has_entered(tx)
    }

    /// Whether a transaction was entered.
    pub fn has_entered(&self, tx: Tx) -> bool
        ensures { result ≡ is_known_in self.now.known tx }
    {
        self.known.contains_key(&tx.0)
    }
}
