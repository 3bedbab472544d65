// The manager.
ghost use Rattle.std.specs.Prelude.{◌≡◌, [], ◌∷◌, false, find, OnOk, OnErr, Some, None};
ghost use Rattle.hb_types.specs.declared.answer.Answer.TheVariants as answer;
ghost use Rattle.hb_types.specs.declared.request.Request.TheVariants as request;
ghost use Rattle.hb_runs.specs.Board.{Board as BoardState, has_entered, new_board, target_of, waits_of};
ghost use Rattle.hb_board.specs.Shows.{Shows, Turns, answer_of, known_in, kept_by, is_live_in};

use crate::known::Known;
use crate::registry::{Registry, end, first_live_of, settle};
use crate::waits::{Ready, Wait};
use hb_types::{Edge, Left, NoMemory, NodeName, Owner, Tx};
use std::alloc::Global;
use std::collections::BTreeMap;

/// Who waits for whom, and who has ended.
#[derive(Drop)]
pub struct Board {
    pub alloc: Global,
    pub known: Registry,
    pub waits: BTreeMap<u64, Wait>,
}

impl Board {
    pub fn new(alloc: Global) -> Board
        ensures { Shows new_board result }
    {
        Board {
            alloc,
            known: BTreeMap::new(alloc),
            waits: BTreeMap::new(alloc),
        }
    }

    /// A transaction that was never entered.
    pub fn enter(&mut self, tx: Tx, owner: Owner) -> Result<(), NoMemory>
        requires { known_in self.old tx.0 ≡ None }
        ensures done { OnOk result (Turns (request.Enter tx owner) answer.Done self.old self.new) }
        ensures none { OnErr result (Turns (request.Enter tx owner) answer.NoMemory self.old self.new) }
    {
        match self.register(tx, owner) {
            Ok(()) => Ok(()),
            Err(NoMemory) => Err(NoMemory),
        }
    }

    pub(crate) fn register(&mut self, tx: Tx, owner: Owner) -> Result<(), NoMemory>
        ensures done { OnOk result ((b : BoardState) → Shows b self.old → has_entered b tx.0 ≡ false → Shows (record b { entered = (tx.0, owner) ∷ b.entered }) self.new) }
        ensures none { OnErr result ((b : BoardState) → Shows b self.old → Shows b self.new) }
    {
        match self.known.insert(tx.0, Known::new(owner)) {
            Ok(_) => Ok(()),
            Err(_) => Err(NoMemory),
        }
    }

    /// The End of a transaction, which leaves its branches at some nodes.
    pub fn end(&mut self, tx: Tx, left: Left)
        ensures { Turns (request.End tx left) answer.Done self.old self.new }
    {
        if !end(&mut self.known, tx, left) {
            return;
        }
        self.waits.remove(&tx.0);
    }

    /// The branch of a transaction is settled at a node.
    pub fn settled(&mut self, tx: Tx, node: NodeName)
        ensures { Turns (request.Settled tx node) answer.Done self.old self.new }
    {
        settle(&mut self.known, tx, node);
    }

    /// A node has stopped, and the waits there are over. It goes once over all waits.
    pub fn stopped(&mut self, node: NodeName)
        ensures { Turns (request.Halted node) answer.Done self.old self.new }
    {
        if self.waits.len() == 0 {
            return;
        }
        self.waits.retain(|_, wait| wait.node.0 != node.0);
    }

    /// Whether a transaction that waited may go on.
    pub fn ready(&self, tx: Tx) -> Ready
        ensures { (b : BoardState) → Shows b self.now → target_of (waits_of b tx) ≡ answer_of result }
    {
        match self.first_live(tx) {
            Some(edge) => Ready::NotYet {
                target: edge.holder,
            },
            None => Ready::Ready,
        }
    }

    /// The first kept edge of a transaction to a holder that is live.
    fn first_live(&self, tx: Tx) -> Option<Edge>
        ensures { result ≡ find (is_live_in self.now.known) (kept_by self.now tx.0) }
    {
        first_live_of(&self.known, self.kept(tx))
    }

    pub(crate) fn kept(&self, tx: Tx) -> &[Edge]
        ensures { result.now ≡ kept_by self.now tx.0 }
    {
        match self.waits.get(&tx.0) {
            Some(wait) => wait.edges.as_slice(),
            None => &[],
        }
    }
}
