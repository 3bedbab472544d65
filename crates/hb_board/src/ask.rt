// The manager's requests.
ghost use Rattle.std.specs.Prelude.{◌≡◌, ◌≢◌, true, false, IsOk, OnOk, OnErr, List, Some};
ghost use Rattle.hb_types.specs.declared.answer.Answer.TheVariants as answer;
ghost use Rattle.hb_types.specs.declared.request.Request.TheVariants as request;
ghost use Rattle.hb_runs.specs.Board.{Board as BoardState, has_entered};
ghost use Rattle.hb_board.specs.Shows.{Shows};
ghost use Rattle.hb_board.specs.Waiting.{AreOf};
ghost use Rattle.hb_types.specs.declared.answer.Edge.{Edge};
ghost use Rattle.hb_board.specs.Asking.{Goes, IsAnswered, Fits, after, edges_kept, entering, takes_none, waiting, is_done};

use crate::board::Board;
use crate::waits::{Ready, Waits};
use hb_types::{Answer, Holder, Mode, NoMemory, NodeName, Owner, Path, Request, Tx};

impl Board {
    /// Answers a request, and does what it asks for.
    pub fn ask(&mut self, request: &Request) -> Answer
        ensures goes { Goes request.now result self.old self.new }
        ensures memory { takes_none request.now ≡ true → result ≢ answer.NoMemory }
    {
        let answer = self.answer(request);
        match self.apply(request, &answer) {
            Ok(()) => answer,
            Err(NoMemory) => Answer::NoMemory,
        }
    }

    /// What a request is answered.
    pub fn answer(&self, request: &Request) -> Answer
        ensures steps { IsAnswered request.now result self.now }
        ensures memory { takes_none request.now ≡ true → result ≢ answer.NoMemory }
    {
        match request {
            Request::Enter { tx, owner } => self.answer_enter(*tx, *owner),
            Request::Wait {
                tx,
                node,
                path,
                wanted,
                holders,
            } => self.answer_wait(*tx, *node, *path, *wanted, holders.as_slice()),
            Request::Ready { tx } => self.answer_ready(*tx),
            Request::End { .. } => Answer::Done,
            Request::Settled { .. } => Answer::Done,
            Request::Halted { .. } => Answer::Done,
            _ => Answer::NotMine,
        }
    }
}

impl Board {
    fn answer_enter(&self, tx: Tx, owner: Owner) -> Answer
        ensures { IsAnswered (request.Enter tx owner) result self.now }
    {
        if self.has_entered(tx) {
            Answer::NotMine
        } else {
            Answer::Done
        }
    }

    fn answer_wait(
        &self,
        tx: Tx,
        node: NodeName,
        path: Path,
        wanted: Mode,
        holders: &[Holder],
    ) -> Answer
        ensures { IsAnswered (request.Wait tx node path wanted holders.now) result self.now }
    {
        if !self.can_wait(tx, holders) {
            return Answer::NotMine;
        }
        match self.judge(tx, node, path, wanted, holders) {
            Ok(Waits::Waiting(edges)) => Answer::Waiting(edges),
            Ok(Waits::Cycle(edges)) => Answer::Cycle(edges),
            Ok(Waits::Gone) => Answer::Gone,
            Err(NoMemory) => Answer::NoMemory,
        }
    }

    fn answer_ready(&self, tx: Tx) -> Answer
        ensures steps { IsAnswered (request.Ready tx) result self.now }
        ensures memory { result ≢ answer.NoMemory }
    {
        match self.ready(tx) {
            Ready::Ready => Answer::Ready,
            Ready::NotYet { target } => Answer::NotYet { target },
        }
    }

    /// Does what a request so answered asks for. Without memory it does nothing.
    pub fn apply(&mut self, request: &Request, answer: &Answer) -> Result<(), NoMemory>
        ensures done { OnOk result ((b : BoardState) → Shows b self.old → Fits b request.now answer.now → Shows (after b request.now answer.now) self.new) }
        ensures none { OnErr result ((b : BoardState) → Shows b self.old → Shows b self.new) }
        ensures memory { takes_none request.now ≡ true → IsOk result }
    {
        match request {
            Request::Enter { tx, owner } => {
                self.apply_enter(*tx, *owner, answer)?;
                Ok(())
            }
            Request::Wait { tx, node, .. } => {
                self.apply_wait(*tx, *node, answer)?;
                Ok(())
            }
            Request::End { tx, left } => {
                self.end(*tx, *left);
                Ok(())
            }
            Request::Settled { tx, node } => {
                self.settled(*tx, *node);
                Ok(())
            }
            Request::Halted { node } => {
                self.stopped(*node);
                Ok(())
            }
            _ => Ok(()),
        }
    }

    fn apply_enter(&mut self, tx: Tx, owner: Owner, answer: &Answer) -> Result<(), NoMemory>
        ensures done { OnOk result ((b : BoardState) → Shows b self.old → (is_done answer.now ≡ true → has_entered b tx.0 ≡ false) → Shows (entering b tx owner (is_done answer.now)) self.new) }
        ensures none { OnErr result ((b : BoardState) → Shows b self.old → Shows b self.new) }
    {
        match answer {
            Answer::Done => {
                self.register(tx, owner)?;
                Ok(())
            }
            _ => Ok(()),
        }
    }

    fn apply_wait(&mut self, tx: Tx, node: NodeName, answer: &Answer) -> Result<(), NoMemory>
        ensures done { OnOk result ((b : BoardState) → Shows b self.old → ((es : List Edge) → edges_kept answer.now ≡ Some es → AreOf tx node es) → Shows (waiting b tx (edges_kept answer.now)) self.new) }
        ensures none { OnErr result ((b : BoardState) → Shows b self.old → Shows b self.new) }
    {
        match answer {
            Answer::Waiting(edges) => {
                self.keep(tx, node, edges.as_slice())?;
                Ok(())
            }
            _ => Ok(()),
        }
    }
}
