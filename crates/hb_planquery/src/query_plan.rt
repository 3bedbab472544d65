// The plan of a statement on a table: what it asks next, and what it makes of the answer.
ghost use Rattle.std.specs.Prelude.{◌≡◌, true, ℕ, Some, IfOk, IfSome};
ghost use Rattle.hb_types.specs.Lists.{Each};
ghost use Rattle.hb_types.specs.Numbers.{IsNumber};
ghost use Rattle.hb_model.specs.Told.{table_among};
ghost use Rattle.hb_access.specs.Accesses.{AsksSoundly, use_of, used_after, at_branch, keeps_nodes};
ghost use Rattle.hb_planrows.specs.PlanRows.{AreSited, IsPlain};
ghost use Rattle.hb_writes.specs.Underway.{IsWrite};
ghost use Rattle.hb_planquery.specs.Queries.{plan_of, rows_in, TellsTables};
ghost use Rattle.hb_planquery.specs.QueryPlans.{is_asking, is_waiting, uses, now_uses, now_talks, NextIs, Hears, IsTold, GoesWith, AsksOn, IsAtNames, IsReading, IsEnded, Finds, Reads, Ends, IsWithin, HasTable, as_taken, rolls};
ghost use Rattle.hb_endings.specs.Endings.{CanWrite, changing, ending_talk, told};

use crate::aims::aim_of;
use crate::endings::end_of;
use crate::query::Query;
use hb_access::{Access, Goal, Got, Next, Usage};
use hb_endings::Ending;
use hb_model::{Reply, Table};
use hb_planrows::find_table;
use hb_reading::{Brought, Reading};
use hb_types::{Answer, Change, Mode, NoMemory, NodeName, Path, Space, Text};
use hb_writes::{Begun, Writing};
use std::alloc::Global;
use std::marker::Model;

/// How far a plan is.
#[derive(Drop)]
pub enum Stage {
    /// The dictionary's tables are read.
    Names(Access),
    /// The rows of a table, with its number, are read.
    Rows(u16, Table, Reading),
    Writes(Writing),
    Ended(Usage),
}

/// What an answer made of a plan.
#[derive(Drop)]
pub enum Taken {
    /// There is more to be asked.
    More,
    Replied(Reply),
    Refused(Reply),
}

/// The plan of a statement on the table of a name.
pub struct QueryPlan {
    alloc: Global,
    name: Text,
    query: Query,
    stage: Stage,
}

impl Drop for QueryPlan {
    fn drop(self) {
        let QueryPlan {
            alloc: _,
            name: _,
            query: _,
            stage: _,
        } = self;
    }
}

impl Model for QueryPlan {
    ghost use Rattle.std.specs.Coded.{codes};
    ghost use Rattle.hb_model.specs.contracts.condition.Pred as pred;
    ghost use Rattle.hb_model.specs.contracts.expression.Expr as expr;
    ghost use Rattle.hb_planquery.specs.QueryPlans.{Querying, IsWithin};

    ghost Value = { Querying };

    ghost coded = { Prim.hlevel (codes, pred.the_row.coded, expr.the_row.coded) };

    ghost view = { λ p. record { name = p.name; query = p.query; stage = p.stage } };

    ghost invariant = { λ p. IsWithin p.stage };
}

const TABLES: Goal = Goal {
    node: NodeName(1),
    path: Path::Whole(Space { area: 0, table: 2 }),
    mode: Mode::S,
    reads: true,
};

// The table of a name among the rows that came.
fn found(alloc: Global, got: Got, name: &[u8]) -> Result<Option<(u16, Table)>, NoMemory>
    ensures found { TellsTables got → IfOk result (λ f. f ≡ table_among (rows_in got) name.now) }
    ensures plain { IfOk result (λ f. IfSome f (λ t. IsPlain t.1)) }
{
    match got {
        Got::Rows(rows) => find_table(alloc, rows.as_slice(), name),
        Got::Row(_row) => Ok(None),
        Got::Nothing => Ok(None),
    }
}

// The table whose rows are read, with its number.
fn table_in(stage: Stage) -> Option<(u16, Table)>
    requires { IsWithin stage }
    ensures table { HasTable stage result }
    ensures plain { IfSome result (λ f. IsPlain f.1) }
{
    match stage {
        Stage::Rows(number, table, _reading) => Some((number, table)),
        Stage::Names(_access) => None,
        Stage::Writes(_writing) => None,
        Stage::Ended(_usage) => None,
    }
}

// What the writes made of an answer.
fn written(taken: hb_writes::Taken) -> Taken
    ensures { result ≡ as_taken taken }
{
    match taken {
        hb_writes::Taken::More => Taken::More,
        hb_writes::Taken::Replied(reply) => Taken::Replied(reply),
        hb_writes::Taken::Refused(reply) => Taken::Refused(reply),
    }
}

impl QueryPlan {
    /// Plans a statement on the table of this name.
    pub fn begin(alloc: Global, usage: Usage, name: Text, query: Query) -> QueryPlan
        ensures asking { is_asking result ≡ true }
        ensures usage { uses result ≡ usage }
        ensures talk { now_talks result ≡ plan_of name query (use_of usage) }
    {
        let stage = Stage::Names(Access::lock(usage, TABLES));
        QueryPlan {
            alloc,
            name,
            query,
            stage,
        }
    }

    /// What the transaction has used.
    pub fn usage(&self) -> Usage
        ensures { result ≡ uses self.now }
    {
        match &self.stage {
            Stage::Names(access) => access.usage(),
            Stage::Rows(_, _, reading) => reading.usage(),
            Stage::Writes(writing) => writing.usage(),
            Stage::Ended(usage) => *usage,
        }
    }

    /// What is asked next; it is the caller's to ask it.
    pub fn next(&mut self) -> Next
        requires { is_asking self.old ≡ true }
        ensures next { NextIs self.old self.new result }
        ensures tx { (uses self.new).tx.0 ≡ (uses self.old).tx.0 }
        ensures used { (uses self.new).used.0 ≡ used_after (uses self.old).used.0 result }
        ensures branch { at_branch (uses self.old) result ≡ true }
        ensures sound { IsNumber (uses self.old).tx.0 → AsksSoundly result }
    {
        match &mut self.stage {
            Stage::Names(access) => access.next(),
            Stage::Rows(_, _, reading) => reading.next(),
            Stage::Writes(writing) => writing.next(),
            Stage::Ended(_) => Next::Refused(Reply::NoMemory),
        }
    }

    /// Takes the answer to what was asked.
    pub fn take(&mut self, answer: Answer) -> Taken
        requires { is_waiting self.old ≡ true }
        ensures hears { IsTold self.old answer → Hears self.old self.new answer result }
        ensures asking { AsksOn self.new result }
        ensures tx { (uses self.new).tx.0 ≡ (uses self.old).tx.0 }
        ensures used { keeps_nodes (uses self.old).used.0 (uses self.new).used.0 (rolls result) ≡ true }
    {
        match &mut self.stage {
            Stage::Names(access) => match access.take(answer) {
                hb_access::Taken::More => Taken::More,
                hb_access::Taken::Refused(reply) => Taken::Refused(reply),
                hb_access::Taken::Came(got) => self.find(got),
            },
            Stage::Rows(_, _, reading) => match reading.take(answer) {
                hb_reading::Taken::More => Taken::More,
                hb_reading::Taken::Refused(reply) => Taken::Refused(reply),
                hb_reading::Taken::Came(brought) => self.end(brought),
            },
            Stage::Writes(writing) => written(writing.take(answer)),
            Stage::Ended(_) => Taken::More,
        }
    }

    // Goes on with the table of the name.
    fn find(&mut self, got: Got) -> Taken
        requires { IsAtNames self.old.stage }
        ensures finds { TellsTables got → Finds self.old self.new got result }
        ensures asking { AsksOn self.new result }
        ensures tx { (uses self.new).tx.0 ≡ (uses self.old).tx.0 }
        ensures used { (uses self.new).used.0 ≡ (uses self.old).used.0 }
    {
        match found(self.alloc, got, self.name.as_slice()) {
            Ok(Some((number, table))) => self.read(number, table),
            Ok(None) => Taken::Refused(Reply::NoTable),
            Err(NoMemory) => Taken::Refused(Reply::NoMemory),
        }
    }

    fn enter(&mut self, stage: Stage)
        requires { IsWithin stage }
        ensures { self.new ≡ record self.old { stage = stage } }
    {
        self.stage = stage;
    }

    fn read(&mut self, number: u16, table: Table) -> Taken
        requires names { IsAtNames self.old.stage }
        requires plain { IsPlain table }
        ensures reads { Reads self.old self.new number table result }
        ensures asking { AsksOn self.new result }
        ensures tx { (uses self.new).tx.0 ≡ (uses self.old).tx.0 }
        ensures used { (uses self.new).used.0 ≡ (uses self.old).used.0 }
    {
        let usage = self.usage();
        match aim_of(&self.query, &table) {
            Ok(aim) => {
                let reading = Reading::begin(self.alloc, usage, number, aim);
                self.enter(Stage::Rows(number, table, reading));
                Taken::More
            }
            Err(reply) => Taken::Refused(reply),
        }
    }

    // Ends by the rows that were read.
    fn end(&mut self, brought: Brought) -> Taken
        requires reading { IsReading self.old.stage }
        requires sited { IfSome brought.entry AreSited }
        ensures ends { Ends self.old self.new brought result }
        ensures asking { AsksOn self.new result }
        ensures tx { (uses self.new).tx.0 ≡ (uses self.old).tx.0 }
        ensures used { (uses self.new).used.0 ≡ (uses self.old).used.0 }
    {
        let usage = self.usage();
        match table_in(std::mem::replace(&mut self.stage, Stage::Ended(usage))) {
            Some((number, table)) => {
                match end_of(self.alloc, &self.query, number, table, brought) {
                    Ok(ending) => self.finish(ending),
                    Err(NoMemory) => Taken::Refused(Reply::NoMemory),
                }
            }
            None => Taken::Refused(Reply::NoMemory),
        }
    }

    fn finish(&mut self, ending: Ending) -> Taken
        requires ended { IsEnded self.old.stage }
        requires sound { CanWrite ending }
        ensures ends { GoesWith (ending_talk (told ending) (now_uses self.old)) self.new result }
        ensures asking { AsksOn self.new result }
        ensures tx { (uses self.new).tx.0 ≡ (uses self.old).tx.0 }
        ensures used { (uses self.new).used.0 ≡ (uses self.old).used.0 }
    {
        match ending {
            Ending::Refused(reply) => Taken::Refused(reply),
            Ending::Replied(reply) => Taken::Replied(reply),
            Ending::Writes(changes, reply) => self.write(changes, reply),
        }
    }

    fn write(&mut self, changes: Vec<Change>, reply: Reply) -> Taken
        requires ended { IsEnded self.old.stage }
        requires sound { Each IsWrite changes.items }
        ensures writes { GoesWith (ending_talk (changing changes.items reply) (now_uses self.old)) self.new result }
        ensures asking { AsksOn self.new result }
        ensures tx { (uses self.new).tx.0 ≡ (uses self.old).tx.0 }
        ensures used { (uses self.new).used.0 ≡ (uses self.old).used.0 }
    {
        let usage = self.usage();
        match Writing::begin(usage, changes, reply) {
            Begun::Writing(writing) => {
                self.enter(Stage::Writes(writing));
                Taken::More
            }
            Begun::Replied(reply, usage) => {
                self.enter(Stage::Ended(usage));
                Taken::Replied(reply)
            }
            Begun::Refused(reply, usage) => {
                self.enter(Stage::Ended(usage));
                Taken::Refused(reply)
            }
        }
    }
}
