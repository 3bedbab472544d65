// A turn's public calls.
ghost use Rattle.std.specs.Prelude.{◌≡◌, true, false, zero};
ghost use Rattle.hb_node.specs.Lists.{Onward};
ghost use Rattle.hb_batch.specs.Batches.{hint_of, IsSitedHint};
ghost use Rattle.hb_talk.specs.Moves.{check as check_talk, turn_on};
ghost use Rattle.hb_wait.specs.Courses.{free};
ghost use Rattle.hb_turn.specs.Turning.{counted, in_transaction as has_transaction, is_busy, is_last, is_waiting, mover_of, of_check, of_turned, stands, told, IsWithin};
ghost use Rattle.hb_turn.specs.Steps.{EndsOn, GivesUp, Stepped};
ghost use Rattle.hb_turn.specs.declared.stage.Stage.TheVariants as stage_of;
ghost use Rattle.hb_turn.specs.declared.stage.Task.TheVariants as task_of;

use crate::line::Line;
use crate::stage::{After, Stage, Task};
use hb_batch::Hint;
use hb_model::Reply;
use hb_node::Nodes;
use hb_types::{Edge, Number};
use hb_wait::Pending;
use sqlite_items::Items;
use std::alloc::Global;
use std::marker::Model;

/// How a turn ends.
#[derive(Drop)]
pub enum Turned {
    /// A check found these groups, and has this number.
    Found(Items<Hint>, Number),
    /// The same group is next; this line is shown.
    Again(Option<Reply>),
    /// The next group is next.
    Onward,
    /// The line of pdrbal is over.
    Over(Reply),
}

/// What a step showed.
#[derive(Drop)]
pub enum Went {
    More,
    /// The turn waits for these from now on.
    Waits(Items<Edge>),
    Said(Turned),
}

/// The turn of a line of pdrbal: a check, a batch or a finish, as a transaction.
pub struct Turn {
    pub(crate) alloc: Global,
    pub(crate) line: Line,
    /// The transactions that the session has begun.
    pub(crate) begun: u64,
    pub(crate) stage: Stage,
}

impl Drop for Turn {
    fn drop(self) {
        let Turn {
            alloc: _,
            line: _,
            begun: _,
            stage: _,
        } = self;
    }
}

impl Model for Turn {
    ghost use Rattle.hb_turn.specs.Turning.{Turning, IsWithin};

    ghost Value = { Turning };

    ghost view = { λ t. record { line = t.line; begun = t.begun; stage = t.stage } };

    ghost invariant = { λ t. IsWithin t.stage };
}

impl Turn {
    /// The check that begins a line, of a session that has begun so many transactions.
    pub fn new(alloc: Global, line: Line, begun: u64) -> Turn
        ensures new { result ≡ record { line = line; begun = begun; stage = stage_of.Begins task_of.Check } }
        ensures talk { stands result ≡ free (told of_check (check_talk (mover_of line) (counted begun))) }
    {
        Turn {
            alloc,
            line,
            begun,
            stage: Stage::Begins(Task::Check),
        }
    }

    /// The next turn is a check.
    pub fn check(&mut self)
        requires over { is_busy self.old.stage ≡ false }
        ensures next { self.new ≡ record self.old { stage = stage_of.Begins task_of.Check } }
        ensures talk { stands self.new ≡ free (told of_check (check_talk (mover_of self.old.line) (counted self.old.begun))) }
    {
        self.stage = Stage::Begins(Task::Check);
    }

    /// The next turn is one on a group: a batch of it, or its finish.
    pub fn turn_to(&mut self, hint: Hint)
        requires over { is_busy self.old.stage ≡ false }
        requires sited { IsSitedHint hint }
        ensures next { self.new ≡ record self.old { stage = stage_of.Keys hint } }
        ensures talk { stands self.new ≡ free (told of_turned (turn_on (mover_of self.old.line) (counted self.old.begun) (hint_of hint))) }
    {
        self.stage = Stage::Keys(hint);
    }

    /// Asks one request.
    pub fn step<N: Nodes>(&mut self, nodes: &mut N) -> Went
        requires { is_busy self.old.stage ≡ true }
        ensures stepped { Stepped self.old self.new (N.lists nodes.old) (N.lists nodes.new) result }
        ensures ending { is_last self.old.stage ≡ true → EndsOn result self.new.stage }
        ensures goes { Onward N.goes nodes.old nodes.new }
    {
        let stage = std::mem::replace(&mut self.stage, Stage::Over);
        self.step_from(nodes, stage)
    }

    fn step_from<N: Nodes>(&mut self, nodes: &mut N, stage: Stage) -> Went
        requires over { self.old.stage ≡ stage_of.Over }
        requires within { IsWithin stage }
        requires busy { is_busy stage ≡ true }
        ensures stepped { Stepped (record self.old { stage = stage }) self.new (N.lists nodes.old) (N.lists nodes.new) result }
        ensures ending { is_last stage ≡ true → EndsOn result self.new.stage }
        ensures goes { Onward N.goes nodes.old nodes.new }
    {
        match stage {
            Stage::Keys(hint) => self.ask_keys(nodes, hint),
            Stage::Begins(task) => self.begin(nodes, task),
            Stage::Enters(tx, task) => self.enter(nodes, tx, task),
            Stage::Asks(asking) => self.ask(nodes, asking),
            Stage::Ends(ending) => self.end(nodes, ending),
            Stage::Over => Went::More,
        }
    }

    /// Gives up a turn that waits: what follows is a rolling back, and the line ends.
    pub fn abandon(&mut self)
        requires { is_waiting self.old.stage ≡ true }
        ensures line { self.new.line ≡ self.old.line }
        ensures begun { self.new.begun ≡ self.old.begun }
        ensures ending { is_last self.new.stage ≡ true }
        ensures gives_up { GivesUp self.old.stage self.new }
    {
        let usage = match &self.stage {
            Stage::Asks(asking) => asking.plan.usage(),
            _ => return,
        };
        self.roll_back(usage, After::Over(Reply::RolledBackEnd));
    }

    /// Whether the turn waits for a lock.
    pub fn waiting(&self) -> bool
        ensures { result ≡ is_waiting self.now.stage }
    {
        match &self.stage {
            Stage::Asks(asking) => matches!(asking.pending, Pending::Waits(_)),
            _ => false,
        }
    }

    /// Whether a transaction was begun and hasn't ended.
    pub fn in_transaction(&self) -> bool
        ensures { result ≡ has_transaction self.now.stage }
    {
        matches!(
            self.stage,
            Stage::Enters(_, _) | Stage::Asks(_) | Stage::Ends(_)
        )
    }

    /// The transactions that the session has begun, with those of this line.
    pub fn begun(&self) -> u64
        ensures { result ≡ self.now.begun }
    {
        self.begun
    }

    /// The turns of the line.
    pub fn turns(&self) -> u32
        ensures { result ≡ self.now.line.turns }
    {
        self.line.turns
    }
}
