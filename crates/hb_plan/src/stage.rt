// Where a plan stands: what it asks next, and what it makes of the answer.
ghost use Rattle.std.specs.Prelude.{◌≡◌, true};
ghost use Rattle.hb_types.specs.Numbers.{IsNumber};
ghost use Rattle.hb_access.specs.Accesses.{AsksSoundly, used_after, at_branch, keeps_nodes};
ghost use Rattle.hb_planquery.specs.QueryPlans.{is_asking as query_asks, is_waiting as query_waits, uses as query_uses};
ghost use Rattle.hb_plandefine.specs.Defines.{is_asking as define_asks, is_waiting as define_waits, usage_at as define_uses};
ghost use Rattle.hb_plan.specs.Planned.{asking_at, of_define, of_query, rolls, usage_at, waiting_at, StageAsksOn, StageHears, StageNext, ToldAt};
ghost use Rattle.hb_plan.specs.declared.stage.Stage.TheVariants as stage;
ghost use Rattle.hb_plan.specs.declared.stage.Taken.TheVariants as taken_as;
ghost use Rattle.hb_model.specs.declared.reply.Reply.TheVariants as no_memory;

use hb_access::{Next, Usage};
use hb_model::Reply;
use hb_plandefine::Defining;
use hb_planquery::QueryPlan;
use hb_types::Answer;

/// Where a plan stands.
#[derive(Drop)]
pub enum Stage {
    /// A statement on a table's rows.
    Query(QueryPlan),
    /// A statement of CREATE or ALTER.
    Define(Defining),
    Ended(Usage),
}

/// What an answer made of a plan.
#[derive(Drop)]
pub enum Taken {
    /// There is more to be asked.
    More,
    Replied(Reply),
    Refused(Reply),
}

fn of_a_query(taken: hb_planquery::Taken) -> Taken
    ensures { result ≡ of_query taken }
{
    match taken {
        hb_planquery::Taken::More => Taken::More,
        hb_planquery::Taken::Replied(reply) => Taken::Replied(reply),
        hb_planquery::Taken::Refused(reply) => Taken::Refused(reply),
    }
}

fn of_a_define(taken: hb_plandefine::Taken) -> Taken
    ensures { result ≡ of_define taken }
{
    match taken {
        hb_plandefine::Taken::More => Taken::More,
        hb_plandefine::Taken::Replied(reply) => Taken::Replied(reply),
        hb_plandefine::Taken::Refused(reply) => Taken::Refused(reply),
    }
}

// What is asked next for a statement on a table.
fn query_next(plan: &mut QueryPlan) -> Next
    requires { query_asks plan.old ≡ true }
    ensures next { StageNext (stage.Query plan.old) (stage.Query plan.new) result }
    ensures tx { (query_uses plan.new).tx.0 ≡ (query_uses plan.old).tx.0 }
    ensures used { (query_uses plan.new).used.0 ≡ used_after (query_uses plan.old).used.0 result }
    ensures branch { at_branch (query_uses plan.old) result ≡ true }
    ensures sound { IsNumber (query_uses plan.old).tx.0 → AsksSoundly result }
{
    plan.next()
}

// What is asked next for a statement of CREATE or ALTER.
fn define_next(plan: &mut Defining) -> Next
    requires { define_asks plan.old ≡ true }
    ensures next { StageNext (stage.Define plan.old) (stage.Define plan.new) result }
    ensures tx { (define_uses plan.new).tx.0 ≡ (define_uses plan.old).tx.0 }
    ensures used { (define_uses plan.new).used.0 ≡ used_after (define_uses plan.old).used.0 result }
    ensures branch { at_branch (define_uses plan.old) result ≡ true }
    ensures sound { IsNumber (define_uses plan.old).tx.0 → AsksSoundly result }
{
    plan.next()
}

// Takes the answer for a statement on a table.
fn query_take(plan: &mut QueryPlan, answer: Answer) -> Taken
    requires { query_waits plan.old ≡ true }
    ensures hears { ToldAt (stage.Query plan.old) answer → StageHears (stage.Query plan.old) (stage.Query plan.new) answer result }
    ensures asking { StageAsksOn (stage.Query plan.new) result }
    ensures tx { (query_uses plan.new).tx.0 ≡ (query_uses plan.old).tx.0 }
    ensures used { keeps_nodes (query_uses plan.old).used.0 (query_uses plan.new).used.0 (rolls result) ≡ true }
{
    of_a_query(plan.take(answer))
}

// Takes the answer for a statement of CREATE or ALTER.
fn define_take(plan: &mut Defining, answer: Answer) -> Taken
    requires { define_waits plan.old ≡ true }
    ensures hears { ToldAt (stage.Define plan.old) answer → StageHears (stage.Define plan.old) (stage.Define plan.new) answer result }
    ensures asking { StageAsksOn (stage.Define plan.new) result }
    ensures tx { (define_uses plan.new).tx.0 ≡ (define_uses plan.old).tx.0 }
    ensures used { keeps_nodes (define_uses plan.old).used.0 (define_uses plan.new).used.0 (rolls result) ≡ true }
{
    of_a_define(plan.take(answer))
}

impl Stage {
    pub(crate) fn usage(&self) -> Usage
        ensures { result ≡ usage_at self.now }
    {
        match self {
            Stage::Query(plan) => plan.usage(),
            Stage::Define(plan) => plan.usage(),
            Stage::Ended(usage) => *usage,
        }
    }

    /// What is asked next.
    pub(crate) fn next(&mut self) -> Next
        requires { asking_at self.old ≡ true }
        ensures next { StageNext self.old self.new result }
        ensures tx { (usage_at self.new).tx.0 ≡ (usage_at self.old).tx.0 }
        ensures used { (usage_at self.new).used.0 ≡ used_after (usage_at self.old).used.0 result }
        ensures branch { at_branch (usage_at self.old) result ≡ true }
        ensures sound { IsNumber (usage_at self.old).tx.0 → AsksSoundly result }
    {
        match self {
            Stage::Query(plan) => query_next(plan),
            Stage::Define(plan) => define_next(plan),
            Stage::Ended(_) => Next::Refused(Reply::NoMemory),
        }
    }

    /// Takes the answer to what was asked.
    pub(crate) fn take(&mut self, answer: Answer) -> Taken
        requires { waiting_at self.old ≡ true }
        ensures hears { ToldAt self.old answer → StageHears self.old self.new answer result }
        ensures asking { StageAsksOn self.new result }
        ensures tx { (usage_at self.new).tx.0 ≡ (usage_at self.old).tx.0 }
        ensures used { keeps_nodes (usage_at self.old).used.0 (usage_at self.new).used.0 (rolls result) ≡ true }
    {
        match self {
            Stage::Query(plan) => query_take(plan, answer),
            Stage::Define(plan) => define_take(plan, answer),
            Stage::Ended(_) => Taken::Refused(Reply::NoMemory),
        }
    }
}
