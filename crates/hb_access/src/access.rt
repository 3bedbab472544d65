// An access: what it asks next, and what it makes of the answer.
ghost use Rattle.std.specs.Prelude.{◌≡◌, true, IfSome, IsTrue, is_some};
ghost use Rattle.hb_types.specs.declared.change.Change.{Change as Written};
ghost use Rattle.hb_model.specs.NodeSets.{has_node};
ghost use Rattle.hb_types.specs.Numbers.{IsNumber};
ghost use Rattle.hb_types.specs.Records.{IsChange};
ghost use Rattle.hb_access.specs.Accesses.{is_asking, is_waiting, now_talks, use_of, locked, under, written, NextIs, Hears, Brings, AsksSoundly, used_after, at_branch, keeps_nodes, rolls, IsServer};
ghost use Rattle.hb_access.specs.declared.access.Stage.TheVariants as stage;

use crate::goal::{Goal, Got};
use crate::usage::{Gate, Usage};
use hb_model::Reply;
use hb_nodeset::has;
use hb_types::{Answer, Change, Left, NodeName, Path, Request};
use std::marker::Model;

/// What is asked next, or which answer is awaited.
#[derive(Drop)]
pub enum Stage {
    Lock(Goal),
    /// The branch of a lock is awaited; the nodes are those used before.
    Enlisting(Goal, Left),
    /// The lock is awaited.
    Locking(Goal),
    Fetch(Goal),
    /// What lies under the path is awaited.
    Fetching(Goal),
    Write(NodeName, Change),
    /// The branch of a write is awaited; the nodes are those used before.
    EnlistingWrite(NodeName, Change, Left),
    /// The write is awaited.
    Writing(NodeName),
    Ended,
}

/// What an access does next.
#[derive(Drop)]
pub enum Next {
    Ask(NodeName, Request),
    Refused(Reply),
}

/// What an answer made of an access.
#[derive(Drop)]
pub enum Taken {
    /// There is more to be asked.
    More,
    Came(Got),
    Refused(Reply),
}

/// A lock with what lies under it, or a write.
pub struct Access {
    pub(crate) usage: Usage,
    pub(crate) stage: Stage,
}

impl Drop for Access {
    fn drop(self) {
        let Access { usage: _, stage: _ } = self;
    }
}

impl Model for Access {
    ghost use Rattle.hb_access.specs.Accesses.{Accessing, HasBranch, IsWithin};

    ghost Value = { Accessing };

    ghost view = { λ a. record { usage = a.usage; stage = a.stage } };

    ghost invariant = { λ a. IsWithin a.stage × HasBranch a.usage.used.0 a.stage };
}

impl Access {
    /// A lock and, where the goal reads, what lies under it.
    pub fn lock(usage: Usage, goal: Goal) -> Access
        requires { IsServer goal.node.0 }
        ensures usage { result.usage ≡ usage }
        ensures asking { is_asking result.stage ≡ true }
        ensures talk { now_talks result ≡ locked goal (use_of usage) }
    {
        let stage = Stage::Lock(goal);
        Access { usage, stage }
    }

    /// What lies under a goal's path, once its lock is held; there is none where no branch is.
    pub fn read(usage: Usage, goal: Goal) -> Option<Access>
        requires { IsServer goal.node.0 }
        ensures usage { IfSome result (λ a. a.usage ≡ usage) }
        ensures asking { IfSome result (λ a. is_asking a.stage ≡ true) }
        ensures talk { IfSome result (λ a. now_talks a ≡ under goal.node.0 goal.path (use_of usage)) }
        ensures there { has_node usage.used.0 goal.node.0 ≡ true → IsTrue (is_some result) }
    {
        if !has(usage.used, goal.node) {
            return None;
        }
        let stage = Stage::Fetch(goal);
        Some(Access { usage, stage })
    }

    /// A write of a change.
    pub fn write(usage: Usage, node: NodeName, change: Change) -> Access
        requires node { IsServer node.0 }
        requires change { IsChange change }
        ensures usage { result.usage ≡ usage }
        ensures asking { is_asking result.stage ≡ true }
        ensures talk { now_talks result ≡ written node.0 change (use_of usage) }
    {
        let stage = Stage::Write(node, change);
        Access { usage, stage }
    }

    /// What the transaction has used.
    pub fn usage(&self) -> Usage
        ensures { result ≡ self.now.usage }
    {
        self.usage
    }

    /// What is asked next; it is the caller's to ask it.
    pub fn next(&mut self) -> Next
        requires { is_asking self.old.stage ≡ true }
        ensures next { NextIs self.old self.new result }
        ensures tx { self.new.usage.tx.0 ≡ self.old.usage.tx.0 }
        ensures used { self.new.usage.used.0 ≡ used_after self.old.usage.used.0 result }
        ensures branch { at_branch self.old.usage result ≡ true }
        ensures sound { IsNumber self.old.usage.tx.0 → AsksSoundly result }
    {
        match self.stage {
            Stage::Lock(goal) => self.ask_lock(goal),
            Stage::Fetch(goal) => self.ask_fetch(goal),
            Stage::Write(node, _) => self.ask_write(node),
            _ => Next::Refused(Reply::NoMemory),
        }
    }

    #[tactic(auto, unfolding(crate::specs::Accesses::used_after, crate::specs::Accesses::at_branch))]
    fn ask_lock(&mut self, goal: Goal) -> Next
        requires stage { self.old.stage ≡ stage.Lock goal }
        requires within { IsServer goal.node.0 }
        ensures next { NextIs self.old self.new result }
        ensures tx { self.new.usage.tx.0 ≡ self.old.usage.tx.0 }
        ensures used { self.new.usage.used.0 ≡ used_after self.old.usage.used.0 result }
        ensures branch { at_branch self.old.usage result ≡ true }
        ensures sound { IsNumber self.old.usage.tx.0 → AsksSoundly result }
    {
        let tx = self.usage.tx;
        let before = self.usage.used;
        match self.usage.gate(goal.node) {
            Gate::Enlist => {
                self.stage = Stage::Enlisting(goal, before);
                Next::Ask(goal.node, Request::Enlist { tx })
            }
            Gate::Lock => {
                self.stage = Stage::Locking(goal);
                Next::Ask(
                    goal.node,
                    Request::Lock {
                        tx,
                        path: goal.path,
                        mode: goal.mode,
                    },
                )
            }
            Gate::Full => Next::Refused(Reply::TooMuch),
        }
    }

    #[tactic(auto, unfolding(crate::specs::Accesses::used_after, crate::specs::Accesses::at_branch))]
    fn ask_fetch(&mut self, goal: Goal) -> Next
        requires stage { self.old.stage ≡ stage.Fetch goal }
        requires within { IsServer goal.node.0 }
        requires branch { has_node self.old.usage.used.0 goal.node.0 ≡ true }
        ensures next { NextIs self.old self.new result }
        ensures tx { self.new.usage.tx.0 ≡ self.old.usage.tx.0 }
        ensures used { self.new.usage.used.0 ≡ used_after self.old.usage.used.0 result }
        ensures branch { at_branch self.old.usage result ≡ true }
        ensures sound { IsNumber self.old.usage.tx.0 → AsksSoundly result }
    {
        let tx = self.usage.tx;
        self.stage = Stage::Fetching(goal);
        let request = match goal.path {
            Path::Whole(space) => Request::Scan { tx, space },
            Path::Group(space, group) => Request::ScanGroup { tx, space, group },
            Path::Key(place) => Request::Read { tx, place },
        };
        Next::Ask(goal.node, request)
    }

    #[tactic(auto, unfolding(crate::specs::Accesses::used_after, crate::specs::Accesses::at_branch))]
    fn ask_write(&mut self, node: NodeName) -> Next
        requires stage { (c : Written) × (self.old.stage ≡ stage.Write node c) × IsChange c }
        requires within { IsServer node.0 }
        ensures next { NextIs self.old self.new result }
        ensures tx { self.new.usage.tx.0 ≡ self.old.usage.tx.0 }
        ensures used { self.new.usage.used.0 ≡ used_after self.old.usage.used.0 result }
        ensures branch { at_branch self.old.usage result ≡ true }
        ensures sound { IsNumber self.old.usage.tx.0 → AsksSoundly result }
    {
        let tx = self.usage.tx;
        let before = self.usage.used;
        let enlists = self.usage.enlist(node);
        match std::mem::replace(&mut self.stage, Stage::Writing(node)) {
            Stage::Write(_, change) => {
                if enlists {
                    self.stage = Stage::EnlistingWrite(node, change, before);
                    Next::Ask(node, Request::Enlist { tx })
                } else {
                    Next::Ask(node, Request::Write { tx, change })
                }
            }
            _ => Next::Refused(Reply::NoMemory),
        }
    }

    /// Takes the answer to what was asked.
    pub fn take(&mut self, answer: Answer) -> Taken
        requires { is_waiting self.old.stage ≡ true }
        ensures hears { Hears self.old self.new answer result }
        ensures brings { Brings answer result }
        ensures tx { self.new.usage.tx.0 ≡ self.old.usage.tx.0 }
        ensures used { keeps_nodes self.old.usage.used.0 self.new.usage.used.0 (rolls result) ≡ true }
    {
        match self.stage {
            Stage::Enlisting(goal, before) => self.take_enlist(goal, before, answer),
            Stage::Locking(goal) => self.take_lock(goal, answer),
            Stage::Fetching(goal) => self.take_found(goal, answer),
            Stage::EnlistingWrite(node, _, before) => self.take_enlist_of_write(
                node, before, answer,
            ),
            Stage::Writing(node) => self.take_write(node, answer),
            _ => Taken::More,
        }
    }
}
