// A caller's public calls.
ghost use Rattle.std.specs.Prelude.{◌≡◌, ◌≤◌, true, false, Some, None, Err, IfOk, IfErr, IsTrue};
ghost use Rattle.hb_model.specs.Plain.{is_plain};
ghost use Rattle.hb_node.specs.Lists.{Onward};
ghost use Rattle.hb_plan.specs.Planned.{is_planned};
ghost use Rattle.hb_session.specs.Steps.{is_busy_fault};
ghost use Rattle.hb_session.specs.declared.session.GiveFault.TheVariants as fault;
ghost use Rattle.hb_session.specs.declared.stage.Stage.TheVariants as stage_of;
ghost use Rattle.hb_mover.specs.Moving.{begun_by, is_ending as line_ends, is_waiting as line_waits};
ghost use Rattle.hb_caller.specs.Calling.{busy as is_busy, waits, in_transaction as has_transaction, ending as ends, RunsBeside};
ghost use Rattle.hb_caller.specs.Steps.{Abandons, Closes, EndsBy, EndsOn, Gives, GivesLine, GivesUp, LineIsUp, Stepped, of_session};

use hb_model::{Reply, Statement};
use hb_mover::Mover;
use hb_node::Nodes;
use hb_session::{GiveFault, Session};
use hb_types::{Edge, Text};
use sqlite_items::Items;
use std::alloc::Global;
use std::marker::Model;

/// What a step showed.
#[derive(Drop)]
pub enum Progress {
    More,
    /// The statement or the line waits for these from now on.
    Waits(Items<Edge>),
    /// A reply of a line that goes on.
    Told(Reply),
    /// A statement's reply; its transaction goes on.
    Shown(Reply),
    /// The reply by which a transaction ended, or a line.
    Ended(Reply),
}

/// A session, with the line of pdrbal that it runs.
pub struct Caller {
    alloc: Global,
    index: u8,
    back_ends: u8,
    session: Session,
    mover: Option<Mover>,
}

impl Drop for Caller {
    fn drop(self) {
        let Caller {
            alloc: _,
            index: _,
            back_ends: _,
            session: _,
            mover: _,
        } = self;
    }
}

impl Model for Caller {
    ghost use Rattle.std.specs.Coded.{codes};
    ghost use Rattle.hb_model.specs.contracts.condition.Pred as pred;
    ghost use Rattle.hb_model.specs.contracts.expression.Expr as expr;
    ghost use Rattle.hb_mover.specs.Moving.{begun_by, is_ending as line_ends, is_waiting as line_waits};
    ghost use Rattle.hb_caller.specs.Calling.{Calling, IsSeated};

    ghost Value = { Calling };

    ghost coded = { Prim.hlevel (codes, pred.the_row.coded, expr.the_row.coded) };

    ghost view = { λ c. record { session = c.session; mover = c.mover } };

    ghost invariant = { λ c. IsSeated c.index c.back_ends c.session c.mover };
}

fn not_taken(statement: Statement) -> Result<(), GiveFault>
    ensures { result ≡ Err fault.Busy }
{
    let _ = statement;
    Err(GiveFault::Busy)
}

fn shown(shows: hb_session::Progress) -> Progress
    ensures { result ≡ of_session shows }
{
    match shows {
        hb_session::Progress::More => Progress::More,
        hb_session::Progress::Waits(edges) => Progress::Waits(edges),
        hb_session::Progress::Shown(reply) => Progress::Shown(reply),
        hb_session::Progress::Ended(reply) => Progress::Ended(reply),
    }
}

impl Caller {
    /// A session by its place among the names, in a system of so many back ends.
    pub fn new(alloc: Global, index: u8, back_ends: u8) -> Caller
        requires { (1 ≤ back_ends) × (back_ends ≤ 8) }
        ensures { result ≡ record { session = record { index = index; back_ends = back_ends; begun = 0; stage = stage_of.Idle }; mover = None } }
    {
        Caller {
            alloc,
            index,
            back_ends,
            session: Session::new(alloc, index, back_ends),
            mover: None,
        }
    }

    /// Gives a statement, to be run by steps.
    pub fn give(&mut self, statement: Statement) -> Result<(), GiveFault>
        requires plain { IsTrue (is_plain statement) }
        requires planned { is_planned statement ≡ false → has_transaction self.old ≡ false → is_busy self.old ≡ true }
        ensures busy { is_busy_fault result ≡ is_busy self.old }
        ensures kept { IfErr result (λ e. self.new ≡ self.old) }
        ensures given { IfOk result (λ x. Gives self.old self.new statement) }
    {
        if self.mover.is_some() {
            not_taken(statement)
        } else {
            self.session.give(statement)
        }
    }

    /// Gives a line of pdrbal, with so many keys a batch and so many turns, to be run by steps.
    pub fn give_line(&mut self, table: Text, rows: u32, turns: u32)
        requires idle { is_busy self.old ≡ false }
        requires none { has_transaction self.old ≡ false }
        ensures { GivesLine self.old self.new table rows turns }
    {
        let begun = self.session.begun();
        let mover = Mover::new(
            self.alloc,
            self.index,
            self.back_ends,
            begun,
            table,
            rows,
            turns,
        );
        self.mover = Some(mover);
    }

    /// Asks one request; none where a statement was refused before it asked anything.
    pub fn step<N: Nodes>(&mut self, nodes: &mut N) -> Progress
        requires busy { is_busy self.old ≡ true }
        ensures stepped { Stepped self.old self.new (N.lists nodes.old) (N.lists nodes.new) result }
        ensures ending { ends self.old ≡ true → EndsOn result self.new }
        ensures asks { ends self.old ≡ true → EndsBy self.old self.new result }
        ensures goes { Onward N.goes nodes.old nodes.new }
    {
        match self.mover.take() {
            Some(mover) => self.step_line(nodes, mover),
            None => shown(self.session.step(nodes)),
        }
    }

    fn step_line<N: Nodes>(&mut self, nodes: &mut N, mut mover: Mover) -> Progress
        requires none { self.old.mover ≡ None }
        requires beside { RunsBeside self.old.session mover }
        ensures stepped { Stepped (record self.old { mover = Some mover }) self.new (N.lists nodes.old) (N.lists nodes.new) result }
        ensures ending { line_ends mover ≡ true → EndsOn result self.new }
        ensures asks { line_ends mover ≡ true → EndsBy (record self.old { mover = Some mover }) self.new result }
        ensures goes { Onward N.goes nodes.old nodes.new }
    {
        match mover.step(nodes) {
            hb_mover::Progress::More => {
                self.run(mover);
                Progress::More
            }
            hb_mover::Progress::Waits(edges) => {
                self.run(mover);
                Progress::Waits(edges)
            }
            hb_mover::Progress::Told(reply) => {
                self.run(mover);
                Progress::Told(reply)
            }
            hb_mover::Progress::Ended(reply) => {
                self.end(mover);
                Progress::Ended(reply)
            }
        }
    }

    /// The line goes on.
    fn run(&mut self, mover: Mover)
        requires none { self.old.mover ≡ None }
        requires beside { RunsBeside self.old.session mover }
        ensures { self.new ≡ record self.old { mover = Some mover } }
    {
        self.mover = Some(mover);
    }

    /// The line has ended: the session counts its transactions.
    fn end(&mut self, mover: Mover)
        requires none { self.old.mover ≡ None }
        requires idle { self.old.session.stage ≡ stage_of.Idle }
        requires more { self.old.session.begun ≤ begun_by mover }
        ensures { self.new ≡ record { session = record self.old.session { begun = begun_by mover }; mover = None } }
    {
        let begun = mover.begun();
        self.session.set_begun(begun);
    }

    fn abandon_line(&mut self, mut mover: Mover)
        requires none { self.old.mover ≡ None }
        requires beside { RunsBeside self.old.session mover }
        requires waits { line_waits mover ≡ true }
        ensures up { GivesUp (record self.old { mover = Some mover }) self.new }
        ensures abandons { LineIsUp self.old.session mover self.new }
    {
        mover.abandon();
        self.run(mover);
    }

    /// Gives up what waits: what follows is a rolling back.
    pub fn abandon(&mut self)
        requires waiting { waits self.old ≡ true }
        ensures up { GivesUp self.old self.new }
        ensures abandons { Abandons self.old self.new }
    {
        match self.mover.take() {
            Some(mover) => self.abandon_line(mover),
            None => self.session.abandon(),
        }
    }

    /// Gives up a transaction that is between two statements: what follows is a rolling back.
    pub fn close(&mut self)
        requires open { has_transaction self.old ≡ true }
        requires idle { is_busy self.old ≡ false }
        ensures up { GivesUp self.old self.new }
        ensures closes { Closes self.old self.new }
    {
        self.session.close();
    }

    /// Whether a transaction was begun and hasn't ended.
    pub fn in_transaction(&self) -> bool
        ensures { result ≡ has_transaction self.now }
    {
        match &self.mover {
            Some(mover) => mover.in_transaction(),
            None => self.session.in_transaction(),
        }
    }

    /// Whether a statement or a line is in progress.
    pub fn busy(&self) -> bool
        ensures { result ≡ is_busy self.now }
    {
        self.mover.is_some() || self.session.busy()
    }

    /// Whether a statement or a line waits for a lock.
    pub fn waiting(&self) -> bool
        ensures { result ≡ waits self.now }
    {
        match &self.mover {
            Some(mover) => mover.waiting(),
            None => self.session.waiting(),
        }
    }
}
