// The plan of a check, a batch or a finish: what it asks next, and what it makes of the answer.
ghost use Rattle.std.specs.Prelude.{◌≡◌, true, All, FitsSigned};
ghost use Rattle.std.specs.Int.{w32};
ghost use Rattle.hb_types.specs.Calls.{IsAnswer};
ghost use Rattle.hb_types.specs.Numbers.{IsNumber};
ghost use Rattle.hb_talk.specs.Moves.{batch_plan, check_plan, finish_plan};
ghost use Rattle.hb_access.specs.Accesses.{AsksSoundly, use_of, used_after, at_branch, keeps_nodes};
ghost use Rattle.hb_batch.specs.Batches.{hint_of, is_asking as batch_asks, is_waiting as batch_waits, IsSitedHint};
ghost use Rattle.hb_moveplan.specs.MovePlans.{coming, hints, moved, finished, usage_of, is_asking, is_waiting, now_talks, rolls, AreSitedIn, AsksOn, Hears, IsTold, NextIs, taken_by};
ghost use Rattle.hb_moveplan.specs.declared.plan.Plan.TheVariants as plan_as;

use crate::check::Check;
use crate::finish::Finish;
use crate::found::{Found, Taken};
use hb_access::{Next, Usage};
use hb_batch::{Batch, Hint};
use hb_types::{Answer, Text};
use sqlite_items::Items;
use std::alloc::Global;

/// The plan of a check, a batch or a finish.
#[derive(Drop)]
pub enum Plan {
    Check(Check),
    Batch(Batch),
    Finish(Finish),
}

fn batch_taken(taken: hb_batch::Taken) -> Taken
    ensures { result ≡ taken_by taken }
{
    match taken {
        hb_batch::Taken::More => Taken::More,
        hb_batch::Taken::Came(moved) => Taken::Came(Found::Moved(moved)),
        hb_batch::Taken::Refused(reply) => Taken::Refused(reply),
    }
}

// Takes the answer for a batch.
fn batch_take(plan: &mut Batch, answer: Answer) -> Taken
    requires waiting { batch_waits plan.old ≡ true }
    requires answer { IsAnswer answer }
    ensures hears { IsTold (plan_as.Batch plan.old) answer → Hears (plan_as.Batch plan.old) (plan_as.Batch plan.new) answer result }
    ensures asking { AsksOn (plan_as.Batch plan.new) result }
    ensures tx { plan.new.access.usage.tx.0 ≡ plan.old.access.usage.tx.0 }
    ensures used { keeps_nodes plan.old.access.usage.used.0 plan.new.access.usage.used.0 (rolls result) ≡ true }
    ensures sited { AreSitedIn result }
{
    batch_taken(plan.take(answer))
}

// What is asked next of a batch.
fn batch_next(plan: &mut Batch) -> Next
    requires { batch_asks plan.old ≡ true }
    ensures next { NextIs (plan_as.Batch plan.old) (plan_as.Batch plan.new) result }
    ensures tx { plan.new.access.usage.tx.0 ≡ plan.old.access.usage.tx.0 }
    ensures used { plan.new.access.usage.used.0 ≡ used_after plan.old.access.usage.used.0 result }
    ensures branch { at_branch plan.old.access.usage result ≡ true }
    ensures sound { IsNumber plan.old.access.usage.tx.0 → AsksSoundly result }
{
    plan.next()
}

impl Plan {
    /// A check of the table of a name.
    pub fn check(alloc: Global, usage: Usage, name: Text) -> Plan
        ensures asking { is_asking result ≡ true }
        ensures usage { usage_of result ≡ usage }
        ensures talk { now_talks result ≡ coming hints (check_plan name (use_of usage)) }
    {
        Plan::Check(Check::begin(alloc, usage, name))
    }

    /// A batch of these keys, if the hinted entry stands.
    pub fn batch(alloc: Global, usage: Usage, hint: Hint, keys: Items<i64>) -> Plan
        requires sited { IsSitedHint hint }
        requires keys { All (FitsSigned w32) keys }
        ensures asking { is_asking result ≡ true }
        ensures usage { usage_of result ≡ usage }
        ensures talk { now_talks result ≡ coming moved (batch_plan (hint_of hint) keys (use_of usage)) }
    {
        Plan::Batch(Batch::begin(alloc, usage, hint, keys))
    }

    /// A finish of a group, if the hinted entry stands.
    pub fn finish(alloc: Global, usage: Usage, hint: Hint) -> Plan
        requires sited { IsSitedHint hint }
        ensures asking { is_asking result ≡ true }
        ensures usage { usage_of result ≡ usage }
        ensures talk { now_talks result ≡ coming finished (finish_plan (hint_of hint) (use_of usage)) }
    {
        Plan::Finish(Finish::begin(alloc, usage, hint))
    }

    /// What the transaction has used.
    pub fn usage(&self) -> Usage
        ensures { result ≡ usage_of self.now }
    {
        match self {
            Plan::Check(plan) => plan.usage(),
            Plan::Batch(plan) => plan.usage(),
            Plan::Finish(plan) => plan.usage(),
        }
    }

    /// What is asked next; it is the caller's to ask it.
    pub fn next(&mut self) -> Next
        requires { is_asking self.old ≡ true }
        ensures next { NextIs self.old self.new result }
        ensures tx { (usage_of self.new).tx.0 ≡ (usage_of self.old).tx.0 }
        ensures used { (usage_of self.new).used.0 ≡ used_after (usage_of self.old).used.0 result }
        ensures branch { at_branch (usage_of self.old) result ≡ true }
        ensures sound { IsNumber (usage_of self.old).tx.0 → AsksSoundly result }
    {
        match self {
            Plan::Check(plan) => plan.next(),
            Plan::Batch(plan) => batch_next(plan),
            Plan::Finish(plan) => plan.next(),
        }
    }

    /// Takes the answer to what was asked.
    pub fn take(&mut self, answer: Answer) -> Taken
        requires waiting { is_waiting self.old ≡ true }
        requires answer { IsAnswer answer }
        ensures hears { IsTold self.old answer → Hears self.old self.new answer result }
        ensures asking { AsksOn self.new result }
        ensures tx { (usage_of self.new).tx.0 ≡ (usage_of self.old).tx.0 }
        ensures used { keeps_nodes (usage_of self.old).used.0 (usage_of self.new).used.0 (rolls result) ≡ true }
        ensures sited { AreSitedIn result }
    {
        match self {
            Plan::Check(plan) => plan.take(answer),
            Plan::Batch(plan) => batch_take(plan, answer),
            Plan::Finish(plan) => plan.take(answer),
        }
    }
}
