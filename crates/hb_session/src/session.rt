// A session's public calls.
ghost use Rattle.std.specs.Prelude.{◌≡◌, ◌≤◌, true, false, Err, IfOk, IfErr, IsTrue};
ghost use Rattle.hb_session.specs.declared.session.GiveFault.TheVariants as fault;
ghost use Rattle.hb_model.specs.Plain.{is_plain};
ghost use Rattle.hb_node.specs.Lists.{Onward};
ghost use Rattle.hb_plan.specs.Planned.{is_planned};
ghost use Rattle.hb_session.specs.Sitting.{in_transaction as has_transaction, is_busy, is_ending, is_waiting, IsWithin};
ghost use Rattle.hb_session.specs.Steps.{SameSession, Stepped, EndsOn, TurnIs, Gives, Abandons, Closes, is_busy_fault};
ghost use Rattle.hb_session.specs.declared.stage.Stage.TheVariants as stage_of;

use crate::stage::{Given, Stage};
use hb_access::Usage;
use hb_model::{Reply, Statement};
use hb_node::Nodes;
use hb_types::Edge;
use hb_wait::Pending;
use sqlite_items::Items;
use std::alloc::Global;
use std::marker::Model;

/// What a step showed.
#[derive(Drop)]
pub enum Progress {
    More,
    /// The statement waits for these from now on.
    Waits(Items<Edge>),
    /// A statement's reply; its transaction goes on.
    Shown(Reply),
    /// The reply by which a transaction ended.
    Ended(Reply),
}

/// Why a statement wasn't taken.
#[derive(Clone, Copy, Debug, PartialEq, Eq)]
pub enum GiveFault {
    Busy,
    NoMemory,
}

/// What a statement would be: refused, the first of a transaction, or the next one.
#[derive(Clone, Copy, Debug, PartialEq, Eq)]
pub enum Turn {
    Busy,
    First,
    Next(Usage),
}

/// One session, with the transaction that it is in.
pub struct Session {
    pub(crate) alloc: Global,
    pub(crate) index: u8,
    pub(crate) back_ends: u8,
    pub(crate) begun: u64,
    pub(crate) stage: Stage,
}

impl Drop for Session {
    fn drop(self) {
        let Session {
            alloc: _,
            index: _,
            back_ends: _,
            begun: _,
            stage: _,
        } = self;
    }
}

impl Model for Session {
    ghost use Rattle.std.specs.Coded.{codes};
    ghost use Rattle.std.specs.Prelude.{◌≤◌};
    ghost use Rattle.hb_model.specs.contracts.condition.Pred as pred;
    ghost use Rattle.hb_model.specs.contracts.expression.Expr as expr;
    ghost use Rattle.hb_session.specs.Sitting.{Sitting, IsWithin};

    ghost Value = { Sitting };

    ghost coded = { Prim.hlevel (codes, pred.the_row.coded, expr.the_row.coded) };

    ghost view = { λ s. record { index = s.index; back_ends = s.back_ends; begun = s.begun; stage = s.stage } };

    ghost invariant = { λ s. (1 ≤ s.back_ends) × (s.back_ends ≤ 8) × IsWithin s.stage };
}

/// A statement is in progress.
fn not_taken(statement: Statement) -> Result<(), GiveFault>
    ensures { result ≡ Err fault.Busy }
{
    let _ = Given { statement };
    Err(GiveFault::Busy)
}

impl Session {
    /// A session by its place among the names, in a system of so many back ends.
    pub fn new(alloc: Global, index: u8, back_ends: u8) -> Session
        requires { (1 ≤ back_ends) × (back_ends ≤ 8) }
        ensures { result ≡ record { index = index; back_ends = back_ends; begun = 0; stage = stage_of.Idle } }
    {
        Session {
            alloc,
            index,
            back_ends,
            begun: 0,
            stage: Stage::Idle,
        }
    }

    /// Gives a statement, to be run by steps.
    pub fn give(&mut self, statement: Statement) -> Result<(), GiveFault>
        requires plain { IsTrue (is_plain statement) }
        requires planned { is_planned statement ≡ false → has_transaction self.old.stage ≡ false → is_busy self.old.stage ≡ true }
        ensures busy { is_busy_fault result ≡ is_busy self.old.stage }
        ensures kept { IfErr result (λ e. self.new ≡ self.old) }
        ensures given { IfOk result (λ x. Gives self.old self.new statement) }
    {
        match self.turn() {
            Turn::Busy => not_taken(statement),
            Turn::First => self.give_first(statement),
            Turn::Next(usage) => self.give_open(usage, statement),
        }
    }

    fn turn(&self) -> Turn
        ensures { TurnIs self.now.stage result }
    {
        match self.stage {
            Stage::Idle => Turn::First,
            Stage::Open(usage) => Turn::Next(usage),
            _ => Turn::Busy,
        }
    }

    /// Asks one request; none where a statement was refused before it asked anything.
    pub fn step<N: Nodes>(&mut self, nodes: &mut N) -> Progress
        requires { is_busy self.old.stage ≡ true }
        ensures stepped { Stepped self.old self.new (N.lists nodes.old) (N.lists nodes.new) result }
        ensures ending { is_ending self.old.stage ≡ true → EndsOn result self.new.stage }
        ensures goes { Onward N.goes nodes.old nodes.new }
    {
        let stage = std::mem::replace(&mut self.stage, Stage::Idle);
        self.step_from(nodes, stage)
    }

    fn step_from<N: Nodes>(&mut self, nodes: &mut N, stage: Stage) -> Progress
        requires idle { self.old.stage ≡ stage_of.Idle }
        requires within { IsWithin stage }
        requires busy { is_busy stage ≡ true }
        ensures stepped { Stepped (record self.old { stage = stage }) self.new (N.lists nodes.old) (N.lists nodes.new) result }
        ensures ending { is_ending stage ≡ true → EndsOn result self.new.stage }
        ensures goes { Onward N.goes nodes.old nodes.new }
    {
        match stage {
            Stage::Begins(given) => self.begin(nodes, given),
            Stage::Enters(tx, given) => self.enter(nodes, tx, given),
            Stage::Asks(asking) => self.ask(nodes, asking),
            Stage::Ends(ending) => self.end(nodes, ending),
            Stage::Refused(usage, line) => {
                self.open(usage);
                Progress::Shown(line.reply())
            }
            Stage::Open(_) => Progress::More,
            Stage::Idle => Progress::More,
        }
    }

    /// Gives up a statement that waits: what follows is a rolling back.
    pub fn abandon(&mut self)
        requires { is_waiting self.old.stage ≡ true }
        ensures same { SameSession self.old self.new }
        ensures begun { self.new.begun ≡ self.old.begun }
        ensures busy { is_busy self.new.stage ≡ true }
        ensures ending { is_ending self.new.stage ≡ true }
        ensures abandons { Abandons self.old.stage self.new }
    {
        let usage = match &self.stage {
            Stage::Asks(asking) => asking.plan.usage(),
            _ => return,
        };
        self.roll_back(usage, Reply::RolledBackEnd);
    }

    /// Gives up a transaction that is between two statements: what follows is a rolling back.
    pub fn close(&mut self)
        requires open { has_transaction self.old.stage ≡ true }
        requires idle { is_busy self.old.stage ≡ false }
        ensures same { SameSession self.old self.new }
        ensures begun { self.new.begun ≡ self.old.begun }
        ensures busy { is_busy self.new.stage ≡ true }
        ensures ending { is_ending self.new.stage ≡ true }
        ensures closes { Closes self.old.stage self.new }
    {
        match self.stage {
            Stage::Open(usage) => self.roll_back(usage, Reply::RolledBackEnd),
            _ => {}
        }
    }

    /// Whether a transaction was begun and hasn't ended.
    pub fn in_transaction(&self) -> bool
        ensures { result ≡ has_transaction self.now.stage }
    {
        !matches!(self.stage, Stage::Idle | Stage::Begins(_))
    }

    /// Whether a statement is in progress.
    pub fn busy(&self) -> bool
        ensures { result ≡ is_busy self.now.stage }
    {
        !matches!(self.stage, Stage::Idle | Stage::Open(_))
    }

    /// Whether a statement waits for a lock.
    pub fn waiting(&self) -> bool
        ensures { result ≡ is_waiting self.now.stage }
    {
        match &self.stage {
            Stage::Asks(asking) => matches!(asking.pending, Pending::Waits(_)),
            _ => false,
        }
    }

    /// The transactions begun so far.
    pub fn begun(&self) -> u64
        ensures { result ≡ self.now.begun }
    {
        self.begun
    }

    /// Counts the transactions that others began in this session's name.
    pub fn set_begun(&mut self, begun: u64)
        requires none { has_transaction self.old.stage ≡ false }
        requires more { self.old.begun ≤ begun }
        ensures { self.new ≡ record self.old { begun = begun } }
    {
        self.begun = begun;
    }
}
