// The server as a node.
ghost use Rattle.std.specs.Prelude.{◌≡◌, ◌≢◌, ◌+◌, ◌≤◌, ◌⊎◌, ◌++◌, ◌∷◌, [], ℕ, Bool, true, false, IsTrue, List};
ghost use Rattle.hb_edge.specs.Causes.{Rose};
ghost use Rattle.hb_types.specs.Calls.{IsAnswer, IsRequest};
ghost use Rattle.hb_runs.specs.Kinds.{tells_nothing};
ghost use Rattle.hb_runs.specs.ServerAnswers.{takes_none};
ghost use Rattle.hb_runs.specs.ServerRuns.{Asked};
ghost use Rattle.hb_node.specs.Laws.{State as NodeState, Enters, Images, asked_of, entry_of};

use crate::arming::arm;
use crate::ready::{advance, is_passed, logs_are_left};
use crate::room::take_room;
use crate::server::Server;
use hb_edge::{Clock, Disk};
use hb_node::Node;
use hb_store::Store;
use hb_types::{Answer, NoMemory, NodeName, Request};

impl<D: Disk, S: Store> Node for Server<D, S> {
    ghost use Rattle.hb_edge.specs.Fuses.{last_of, faults_of};
    ghost use Rattle.hb_server.specs.Law.{ExplainsNode, content_of, faults_in, last_in, leaves_in, left_of};
    ghost use Rattle.hb_server.specs.Damages.{Reads};
    ghost use Rattle.hb_server.specs.Explained.{explained as explained_by};
    ghost use Rattle.hb_server.specs.Rooms.{is_up, most_calls};

    ghost named = { λ s. s.name.0 };

    ghost trail = { λ s. s.trail.entries };

    ghost leaves = { λ s. leaves_in D.left s.state };

    ghost last = { λ s. last_in (last_of D.last) s.state };

    ghost faults = { λ s. faults_in (faults_of D.faults) s.state };

    ghost explains = { λ s. ExplainsNode D.content D.left D.last S.rows S.keeps S.staged S.point_in s.name.0 s.state };

    ghost explained = { λ s. explained_by D.content D.left D.last D.stands_on D.as_read S.rows S.keeps S.staged S.point_in s.name.0 s.state };

    fn name(&self) -> NodeName {
        self.name
    }

    fn ask(&mut self, clock: &mut Clock, request: Request) -> Answer
        requires { IsRequest request }
        ensures well_formed { IsAnswer result }
        ensures name { self.new.name ≡ self.old.name }
        ensures entered { Enters self.old.trail.entries self.new.trail.entries (entry_of request result clock.old clock.new) }

        // Where its trail explained the server from a state on, it does still. Here and below the clock is not behind its disks.
        ensures law { (origin : NodeState) → ExplainsNode D.content D.left D.last S.rows S.keeps S.staged S.point_in self.old.name.0 self.old.state origin (asked_of self.old.trail.entries)
            → last_in (last_of D.last) self.old.state ≤ clock.old
            → ExplainsNode D.content D.left D.last S.rows S.keeps S.staged S.point_in self.new.name.0 self.new.state origin (asked_of self.new.trail.entries) }

        // What its disks may hold since the call began is what a run of these calls makes of the log; before it, what it was.
        ensures images { (origin : NodeState) → ExplainsNode D.content D.left D.last S.rows S.keeps S.staged S.point_in self.old.name.0 self.old.state origin (asked_of self.old.trail.entries)
            → last_in (last_of D.last) self.old.state ≤ clock.old
            → Images origin self.old.trail.entries self.new.trail.entries (entry_of request result clock.old clock.new) (leaves_in D.left self.old.state) (leaves_in D.left self.new.state) }
        ensures in_time { last_in (last_of D.last) self.old.state ≤ clock.old → last_in (last_of D.last) self.new.state ≤ clock.new }

        // An answer that its trail leaves out tells nothing of transactions, decisions and rows.
        ensures told { IsTrue (tells_nothing result) ⊎ (self.new.trail.entries ≡ self.old.trail.entries ++ entry_of request result clock.old clock.new ∷ []) }

        ensures fault { (area : Bool) → result ≡ Answer.Fault area → Rose (faults_in (faults_of D.faults) self.old.state) (faults_in (faults_of D.faults) self.new.state) }
        ensures count { faults_in (faults_of D.faults) self.old.state ≤ faults_in (faults_of D.faults) self.new.state }
        ensures clock { clock.old ≤ clock.new }

        // What a Start tells of the images that its disks held.
        ensures finds { request ≡ Request.Start → last_in (last_of D.last) self.old.state ≤ clock.old → Reads (content_of D.content) (left_of D.left) (last_of D.last) S.point_in S.header_in self.old.state result }

        // A Prepare, a Commit and a Rollback make four device calls at most; no other request but a Start makes any.
        ensures calls { request ≢ Request.Start → clock.new ≤ clock.old + most_calls request }

        // A Commit and a Rollback never want memory, nor does a Stop of one that is up.
        ensures memory { takes_none request ≡ true → result ≡ Answer.NoMemory → (request ≡ Request.Stop) × (is_up self.old.state ≡ false) }
    {
        logs_are_left(&self.state);
        match take_room(&mut self.trail, &request) {
            Ok(()) => {}
            Err(NoMemory) => return Answer::NoMemory,
        }
        let from = clock.moment();
        let answer = advance(
            self.alloc,
            &mut self.trail,
            &mut self.state,
            clock,
            &request,
        );
        logs_are_left(&self.state);
        if is_passed(&request, &answer) {
            return answer;
        }
        self.enter(request, answer, from, clock.moment())
    }

    /// Lets the k-th device call from now on its log or its area disk fail, and all after it, until the next Start. 0 counts as 1.
    fn arm(&mut self, area: bool, k: u32)
        ensures name { self.new.name ≡ self.old.name }
        ensures trail { self.new.trail ≡ self.old.trail }
        ensures explains { (origin : NodeState) (asked : List Asked) → ExplainsNode D.content D.left D.last S.rows S.keeps S.staged S.point_in self.old.name.0 self.old.state origin asked
            → ExplainsNode D.content D.left D.last S.rows S.keeps S.staged S.point_in self.new.name.0 self.new.state origin asked }
        ensures leaves { (m : ℕ) (log area : List ℕ) → leaves_in D.left self.new.state m log area → leaves_in D.left self.old.state m log area }
        ensures last { last_in (last_of D.last) self.new.state ≡ last_in (last_of D.last) self.old.state }
        ensures faults { faults_in (faults_of D.faults) self.new.state ≡ faults_in (faults_of D.faults) self.old.state }
    {
        arm(&mut self.state, area, k);
    }
}
