// The plan of a statement of any kind: what it asks next, and what it makes of the answer.
ghost use Rattle.std.specs.Prelude.{◌≡◌, ◌≤◌, true, IsTrue};
ghost use Rattle.hb_types.specs.Calls.{IsAnswer};
ghost use Rattle.hb_types.specs.Numbers.{IsNumber};
ghost use Rattle.hb_model.specs.Plain.{is_plain};
ghost use Rattle.hb_talk.specs.PlansDefine.{plan};
ghost use Rattle.hb_access.specs.Accesses.{use_of, used_after, at_branch, keeps_nodes, AsksSoundly};
ghost use Rattle.hb_plan.specs.Planned.{is_planned, is_asking, is_waiting, now_talks, rolls, AsksOn, Hears, IsTold, NextIs};

use crate::begins::stage_of;
use crate::stage::{Stage, Taken};
use hb_access::{Next, Usage};
use hb_model::Statement;
use hb_types::Answer;
use std::alloc::Global;
use std::marker::Model;

/// The plan of one statement.
pub struct Plan {
    stage: Stage,
}

impl Drop for Plan {
    fn drop(self) {
        let Plan { stage: _ } = self;
    }
}

impl Model for Plan {
    ghost use Rattle.hb_plan.specs.Planned.{Planned, planned_at};
    ghost use Rattle.std.specs.Prelude.{⊤};
    ghost use Rattle.std.specs.Coded.{codes};
    ghost use Rattle.hb_model.specs.contracts.condition.Pred as pred;
    ghost use Rattle.hb_model.specs.contracts.expression.Expr as expr;

    ghost Value = { Planned };

    ghost coded = { Prim.hlevel (codes, pred.the_row.coded, expr.the_row.coded) };

    ghost view = { λ p. planned_at p.stage };

    ghost invariant = { λ p. ⊤ };
}

impl Plan {
    /// The plan of a statement.
    #[tactic(auto, unfolding(crate::specs::Planned::is_asking, crate::specs::Planned::now_talks))]
    pub fn begin(alloc: Global, usage: Usage, back_ends: u8, statement: Statement) -> Plan
        requires planned { is_planned statement ≡ true }
        requires plain { IsTrue (is_plain statement) }
        requires within { (1 ≤ back_ends) × (back_ends ≤ 8) }
        ensures usage { result.usage ≡ usage }
        ensures asking { is_asking result ≡ true }
        ensures talk { now_talks result ≡ plan back_ends statement (use_of usage) }
    {
        let stage = stage_of(alloc, usage, back_ends, statement);
        Plan { stage }
    }

    /// What the transaction has used.
    pub fn usage(&self) -> Usage
        ensures { result ≡ self.now.usage }
    {
        self.stage.usage()
    }

    /// What is asked next; it is the caller's to ask it.
    pub fn next(&mut self) -> Next
        requires { is_asking self.old ≡ true }
        ensures next { NextIs self.old self.new result }
        ensures tx { self.new.usage.tx.0 ≡ self.old.usage.tx.0 }
        ensures used { self.new.usage.used.0 ≡ used_after self.old.usage.used.0 result }
        ensures branch { at_branch self.old.usage result ≡ true }
        ensures sound { IsNumber self.old.usage.tx.0 → AsksSoundly result }
    {
        self.stage.next()
    }

    /// Takes the answer to what was asked.
    pub fn take(&mut self, answer: Answer) -> Taken
        requires waiting { is_waiting self.old ≡ true }
        requires answer { IsAnswer answer }
        ensures hears { IsTold self.old answer → Hears self.old self.new answer result }
        ensures asking { AsksOn self.new result }
        ensures tx { self.new.usage.tx.0 ≡ self.old.usage.tx.0 }
        ensures used { keeps_nodes self.old.usage.used.0 self.new.usage.used.0 (rolls result) ≡ true }
    {
        self.stage.take(answer)
    }
}
