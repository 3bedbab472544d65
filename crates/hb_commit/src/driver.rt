// A driver: what it asks next, and what it makes of the answer.
ghost use Rattle.std.specs.Prelude.{◌≡◌, ◌≤◌, ◌+◌, ℕ, [], ◌∷◌, true, false, IfOk};
ghost use Rattle.hb_commit.specs.Driving.{Replies, is_waiting, using, now_talks, NextIs, Hears, AreBranches, IsSound, AsksSoundly};
ghost use Rattle.hb_model.specs.NodeSets.{has_node};
ghost use Rattle.hb_types.specs.Calls.{IsAnswer};
ghost use Rattle.hb_types.specs.Numbers.{IsNumber};
ghost use Rattle.hb_nodeset.specs.NodesFrom.{nodes_from};
ghost use Rattle.hb_types.specs.declared.names.Left.{Left as NodeSet};
ghost use Rattle.hb_talk.specs.Ends.{committing, rolling_back};
ghost use Rattle.hb_commit.specs.declared.stage.Stage.TheVariants as stage;
ghost use Rattle.hb_commit.specs.declared.driver.Step.TheVariants as step;

use crate::ballot::Ballot;
use crate::outcome::{Outcome, refusal};
use crate::stage::Stage;
use hb_nodeset::{first_from, has, with};
use hb_types::{Answer, Left, NoMemory, NodeName, Number, Request, Tx, Vote};
use std::alloc::Global;
use std::marker::Model;

const FES1: NodeName = NodeName(0);

const NONE: Left = Left(0);

/// What a driver does next. Behind `Ended` stands End at the manager, with the nodes where the branch is not settled.
#[derive(Drop)]
pub enum Step {
    Ask(NodeName, Request),
    Ended(Outcome, Left),
}

/// Ends one transaction.
#[derive(Drop)]
pub struct Driver {
    tx: Tx,
    nodes: Left,
    stage: Stage,
    votes: Ballot,
}

impl Model for Driver {
    ghost use Rattle.hb_commit.specs.Driving.{Driving, HasRoom};

    ghost Value = { Driving };

    ghost view = { λ d. record { tx = d.tx; nodes = d.nodes; stage = d.stage; votes = d.votes.votes } };

    ghost invariant = { λ d. HasRoom d.stage d.votes.spare };
}

impl Driver {
    /// Commits: asks each of these nodes for its vote, then for the decision, and carries it out.
    pub fn new(alloc: Global, tx: Tx, nodes: Left) -> Result<Driver, NoMemory>
        ensures of { IfOk result (λ d. (d.tx ≡ tx) × (d.nodes ≡ nodes)) }
        ensures asking { IfOk result (λ d. is_waiting d.stage ≡ false) }
        ensures sound { IsNumber tx.0 → AreBranches nodes.0 → IfOk result IsSound }
        ensures talk { IfOk result (λ d. (rs : Replies) (locks bytes : ℕ) → now_talks rs d locks bytes ≡ committing rs.owner (using d locks bytes) rs.shown) }
    {
        Ok(Driver {
            tx,
            nodes,
            stage: Stage::Voting {
                from: 0,
                prepared: NONE,
            },
            votes: Ballot::new(alloc)?,
        })
    }

    /// Rolls back a transaction none of whose nodes was asked for its vote.
    pub fn back(alloc: Global, tx: Tx, nodes: Left) -> Driver
        ensures of { (result.tx ≡ tx) × (result.nodes ≡ nodes) }
        ensures asking { is_waiting result.stage ≡ false }
        ensures sound { IsNumber tx.0 → IsSound result }
        ensures talk { (rs : Replies) (locks bytes : ℕ) → now_talks rs result locks bytes ≡ rolling_back (using result locks bytes) 0 rs.back }
    {
        Driver {
            tx,
            nodes,
            stage: Stage::Aborting {
                prepared: NONE,
                why: Outcome::RolledBack,
            },
            votes: Ballot::none(alloc),
        }
    }

    /// What is asked next; it is the caller's to ask it.
    pub fn next(&mut self) -> Step
        requires { is_waiting self.old.stage ≡ false }
        ensures next { NextIs self.old self.new result }
        ensures sound { IsSound self.old → IsSound self.new × AsksSoundly result }
    {
        match self.stage {
            Stage::Voting { from, prepared } => self.ask_vote(from, prepared),
            Stage::Committing { number, from, left } => self.ask_commit(number, from, left),
            Stage::Aborting { prepared, why } => self.ask_abort(prepared, why),
            Stage::Undoing {
                prepared,
                from,
                left,
                why,
            } => self.ask_rollback(prepared, from, left, why),
            Stage::Ended(outcome, left) => Step::Ended(outcome, left),
            _ => Step::Ended(Outcome::RolledBack, NONE),
        }
    }

    fn ask_vote(&mut self, from: u8, prepared: Left) -> Step
        requires { self.old.stage ≡ stage.Voting from prepared }
        ensures next { NextIs self.old self.new result }
        ensures sound { IsSound self.old → IsSound self.new × AsksSoundly result }
    {
        match first_from(self.nodes, from) {
            Some(node) => self.await_vote(node, prepared),
            None => self.ask_decision(),
        }
    }

    fn await_vote(&mut self, node: NodeName, prepared: Left) -> Step
        requires { (from : ℕ) × (self.old.stage ≡ stage.Voting from prepared) × (from ≤ node.0) × (node.0 ≤ 10) × (has_node self.old.nodes.0 node.0 ≡ true) × (nodes_from self.old.nodes.0 from ≡ node.0 ∷ nodes_from self.old.nodes.0 (node.0 + 1)) }
        ensures next { NextIs self.old self.new result }
        ensures sound { IsSound self.old → IsSound self.new × AsksSoundly result }
    {
        self.stage = Stage::Vote { node, prepared };
        Step::Ask(node, Request::Prepare { tx: self.tx })
    }

    fn ask_decision(&mut self) -> Step
        requires { (from : ℕ) × (prepared : NodeSet) × (self.old.stage ≡ stage.Voting from prepared) × (nodes_from self.old.nodes.0 from ≡ []) }
        ensures next { NextIs self.old self.new result }
        ensures sound { IsSound self.old → IsSound self.new × AsksSoundly result }
    {
        self.stage = Stage::Decision;
        let votes = self.votes.give();
        Step::Ask(FES1, Request::Decide { tx: self.tx, votes })
    }

    fn ask_commit(&mut self, number: Number, from: u8, left: Left) -> Step
        requires { self.old.stage ≡ stage.Committing number from left }
        ensures next { NextIs self.old self.new result }
        ensures sound { IsSound self.old → IsSound self.new × AsksSoundly result }
    {
        match first_from(self.nodes, from) {
            Some(node) => {
                self.stage = Stage::Commit { number, node, left };
                Step::Ask(
                    node,
                    Request::Commit {
                        tx: self.tx,
                        number,
                    },
                )
            }
            None => self.end(Outcome::Committed(number), left),
        }
    }

    fn ask_abort(&mut self, prepared: Left, why: Outcome) -> Step
        requires { self.old.stage ≡ stage.Aborting prepared why }
        ensures next { NextIs self.old self.new result }
        ensures sound { IsSound self.old → IsSound self.new × AsksSoundly result }
    {
        self.stage = Stage::Abort { prepared, why };
        Step::Ask(FES1, Request::Abort { tx: self.tx })
    }

    fn ask_rollback(&mut self, prepared: Left, from: u8, left: Left, why: Outcome) -> Step
        requires { self.old.stage ≡ stage.Undoing prepared from left why }
        ensures next { NextIs self.old self.new result }
        ensures sound { IsSound self.old → IsSound self.new × AsksSoundly result }
    {
        match first_from(self.nodes, from) {
            Some(node) => {
                self.stage = Stage::Undo {
                    prepared,
                    node,
                    left,
                    why,
                };
                Step::Ask(node, Request::Rollback { tx: self.tx })
            }
            None => self.end(why, left),
        }
    }

    fn end(&mut self, outcome: Outcome, left: Left) -> Step
        ensures ended { self.new ≡ record self.old { stage = stage.Ended outcome left } }
        ensures step { result ≡ step.Ended outcome left }
    {
        self.stage = Stage::Ended(outcome, left);
        Step::Ended(outcome, left)
    }

    /// Takes the answer to what was asked.
    pub fn take(&mut self, answer: Answer)
        requires { is_waiting self.old.stage ≡ true }
        ensures hears { Hears self.old self.new answer }
        ensures sound { IsSound self.old → IsAnswer answer → IsSound self.new }
    {
        match self.stage {
            Stage::Vote { node, prepared } => self.take_vote(node, prepared, answer),
            Stage::Decision => self.take_decision(answer),
            Stage::Commit { number, node, left } => self.take_commit(number, node, left, answer),
            Stage::Abort { prepared, why } => {
                self.stage = Stage::Undoing {
                    prepared,
                    from: 0,
                    left: NONE,
                    why,
                };
            }
            Stage::Undo {
                prepared,
                node,
                left,
                why,
            } => self.take_rollback(prepared, node, left, why, answer),
            _ => {}
        }
    }

    fn take_vote(&mut self, node: NodeName, prepared: Left, answer: Answer)
        requires stage { self.old.stage ≡ stage.Vote node prepared }
        requires within { node.0 ≤ 10 }
        ensures hears { Hears self.old self.new answer }
        ensures sound { IsSound self.old → IsAnswer answer → IsSound self.new }
    {
        let prepared = with(prepared, node);
        match answer {
            Answer::Vote { floor } => {
                self.votes.push(Vote { node, floor });
                self.stage = Stage::Voting {
                    from: node.0 + 1,
                    prepared,
                };
            }
            other => {
                let why = refusal(node, &other);
                self.stage = Stage::Aborting { prepared, why };
            }
        }
    }

    fn take_decision(&mut self, answer: Answer)
        requires { self.old.stage ≡ stage.Decision }
        ensures hears { Hears self.old self.new answer }
        ensures sound { IsSound self.old → IsAnswer answer → IsSound self.new }
    {
        self.stage = match answer {
            Answer::Decided(number) => Stage::Committing {
                number,
                from: 0,
                left: NONE,
            },
            Answer::Fault { area: _ } => Stage::Ended(Outcome::Unknown, self.nodes),
            other => Stage::Aborting {
                prepared: self.nodes,
                why: refusal(FES1, &other),
            },
        };
    }

    fn take_commit(&mut self, number: Number, node: NodeName, left: Left, answer: Answer)
        requires stage { self.old.stage ≡ stage.Commit number node left }
        requires within { node.0 ≤ 10 }
        ensures hears { Hears self.old self.new answer }
        ensures sound { IsSound self.old → IsAnswer answer → IsSound self.new }
    {
        let left = match answer {
            Answer::Done => left,
            _ => with(left, node),
        };
        self.stage = Stage::Committing {
            number,
            from: node.0 + 1,
            left,
        };
    }

    fn take_rollback(
        &mut self,
        prepared: Left,
        node: NodeName,
        left: Left,
        why: Outcome,
        answer: Answer,
    )
        requires stage { self.old.stage ≡ stage.Undo prepared node left why }
        requires within { node.0 ≤ 10 }
        ensures hears { Hears self.old self.new answer }
        ensures sound { IsSound self.old → IsAnswer answer → IsSound self.new }
    {
        let reached = !matches!(answer, Answer::Down | Answer::Fault { area: _ });
        let left = if reached || !has(prepared, node) {
            left
        } else {
            with(left, node)
        };
        self.stage = Stage::Undoing {
            prepared,
            from: node.0 + 1,
            left,
            why,
        };
    }
}
