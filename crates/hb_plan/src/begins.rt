// Where the plan of each statement begins.
ghost use Rattle.std.specs.Prelude.{◌≡◌, ◌≤◌, true, length, IsTrue};
ghost use Rattle.hb_model.specs.Plain.{is_plain};
ghost use Rattle.hb_talk.specs.PlansDefine.{create_area_plan, create_table_plan, add_area_plan, plan};
ghost use Rattle.hb_access.specs.Accesses.{use_of};
ghost use Rattle.hb_definerows.specs.Drafts.{IsNamed};
ghost use Rattle.hb_planquery.specs.Queries.{plan_of};
ghost use Rattle.hb_plan.specs.Planned.{asking_at, is_planned, talks_at, usage_at};

use crate::stage::Stage;
use hb_access::Usage;
use hb_definerows::Draft;
use hb_model::Statement;
use hb_plandefine::Defining;
use hb_planquery::{Query, QueryPlan};
use hb_types::Text;
use std::alloc::Global;

fn on_table(alloc: Global, usage: Usage, name: Text, query: Query) -> Stage
    ensures usage { usage_at result ≡ usage }
    ensures asking { asking_at result ≡ true }
    ensures talk { talks_at result ≡ plan_of name query (use_of usage) }
{
    Stage::Query(QueryPlan::begin(alloc, usage, name, query))
}

fn new_area(alloc: Global, usage: Usage, back_ends: u8, name: Text, node: Text) -> Stage
    requires back_ends { back_ends ≤ 8 }
    requires named { length name ≤ 30 }
    ensures usage { usage_at result ≡ usage }
    ensures asking { asking_at result ≡ true }
    ensures talk { talks_at result ≡ create_area_plan back_ends name node (use_of usage) }
{
    Stage::Define(Defining::create_area(alloc, usage, back_ends, name, node))
}

fn new_table(alloc: Global, usage: Usage, draft: Draft) -> Stage
    requires { IsNamed draft }
    ensures usage { usage_at result ≡ usage }
    ensures asking { asking_at result ≡ true }
    ensures talk { talks_at result ≡ create_table_plan draft.name draft.columns draft.key draft.areas (use_of usage) }
{
    Stage::Define(Defining::create_table(alloc, usage, draft))
}

fn more_area(alloc: Global, usage: Usage, table: Text, area: Text) -> Stage
    ensures usage { usage_at result ≡ usage }
    ensures asking { asking_at result ≡ true }
    ensures talk { talks_at result ≡ add_area_plan table area (use_of usage) }
{
    Stage::Define(Defining::add_area(alloc, usage, table, area))
}

/// Where the plan of a statement begins.
#[tactic(auto, unfolding(hb_talk::specs::PlansDefine::plan))]
pub(crate) fn stage_of(alloc: Global, usage: Usage, back_ends: u8, statement: Statement) -> Stage
    requires planned { is_planned statement ≡ true }
    requires plain { IsTrue (is_plain statement) }
    requires within { back_ends ≤ 8 }
    ensures usage { usage_at result ≡ usage }
    ensures asking { asking_at result ≡ true }
    ensures talk { talks_at result ≡ plan back_ends statement (use_of usage) }
{
    match statement {
        Statement::CreateArea { name, node } => new_area(alloc, usage, back_ends, name, node),
        Statement::CreateTable {
            name,
            columns,
            key,
            areas,
        } => {
            let draft = Draft {
                name,
                columns,
                key,
                areas,
            };
            new_table(alloc, usage, draft)
        }
        Statement::AddArea { table, area } => more_area(alloc, usage, table, area),
        Statement::Insert { table, values } => {
            on_table(alloc, usage, table, Query::Insert(values))
        }
        Statement::Select { what, table, pred } => {
            on_table(alloc, usage, table, Query::Select(what, pred))
        }
        Statement::Update { table, sets, pred } => {
            on_table(alloc, usage, table, Query::Update(sets, pred))
        }
        Statement::Delete { table, pred } => on_table(alloc, usage, table, Query::Delete(pred)),
        Statement::LockTable { table, exclusive } => {
            on_table(alloc, usage, table, Query::Lock(exclusive))
        }
        Statement::Commit => Stage::Ended(usage),
        Statement::Rollback => Stage::Ended(usage),
    }
}
