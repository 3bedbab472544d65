// A step of a turn's plan.
ghost use Rattle.std.specs.Prelude.{◌≡◌, ◌⊎◌, true, Ok};
ghost use Rattle.hb_types.specs.Calls.{IsAnswer};
ghost use Rattle.hb_types.specs.Numbers.{IsNumber};
ghost use Rattle.hb_node.specs.Lists.{Onward};
ghost use Rattle.hb_talk.specs.Talk.{says};
ghost use Rattle.hb_access.specs.Accesses.{use_of};
ghost use Rattle.hb_commit.specs.Driving.{AreBranches};
ghost use Rattle.hb_moveplan.specs.MovePlans.{came_of, is_asking, moved as moved_as, finished as finished_as, finding_of, now_hears, now_talks, usage_of, AreSited, IsTold};
ghost use Rattle.hb_wait.specs.Courses.{free};
ghost use Rattle.hb_wait.specs.Waiting.{IsPending};
ghost use Rattle.hb_turn.specs.Turning.{owner as owner_of, planned, IsAsking, IsUsed, Starts};
ghost use Rattle.hb_turn.specs.Steps.{CarriesOn, CarriesOnIf, Stepped};
ghost use Rattle.hb_turn.specs.declared.stage.Stage.TheVariants as stage;

use crate::stage::{After, Asking, Stage};
use crate::turn::{Turn, Went};
use hb_access::{Next, Usage};
use hb_moveplan::{Finished, Found, Plan, Taken};
use hb_node::Nodes;
use hb_types::Answer;
use hb_wait::{Heard, Pending};

/// What the transaction has used, at the end of a plan.
fn used_by(plan: Plan) -> Usage
    ensures { result ≡ usage_of plan }
{
    plan.usage()
}

impl Turn {
    pub(crate) fn ask<N: Nodes>(&mut self, nodes: &mut N, asking: Asking) -> Went
        requires stage { self.old.stage ≡ stage.Over }
        requires asking { IsAsking asking.plan }
        requires pending { IsPending asking.pending }
        ensures stepped { Stepped (record self.old { stage = stage.Asks asking }) self.new (N.lists nodes.old) (N.lists nodes.new) result }
        ensures goes { Onward N.goes nodes.old nodes.new }
    {
        let (plan, group, pending) = asking.parts();
        match pending.ask(nodes) {
            Heard::Answered(answer) => self.take(plan, group, answer),
            Heard::Waits(lock, edges) => {
                self.hold(plan, group, Pending::Waits(lock));
                Went::Waits(edges)
            }
            Heard::More(pending) => {
                self.hold(plan, group, pending);
                Went::More
            }
        }
    }

    fn take(&mut self, mut plan: Plan, group: u16, answer: Answer) -> Went
        requires asking { IsAsking plan }
        requires answer { IsAnswer answer }
        ensures { CarriesOnIf (IsTold plan answer) (free (planned (owner_of self.old) group (now_hears plan answer))) (usage_of plan) self.old self.new result }
    {
        match plan.take(answer) {
            Taken::More => self.go_on(plan, group),
            Taken::Came(found) => self.close(used_by(plan), group, found),
            Taken::Refused(reply) => {
                self.roll_back(used_by(plan), After::Over(reply));
                Went::More
            }
        }
    }

    /// Goes on with a plan that has something to ask.
    pub(crate) fn go_on(&mut self, mut plan: Plan, group: u16) -> Went
        requires asking { is_asking plan ≡ true }
        requires tx { IsNumber (usage_of plan).tx.0 }
        requires starts { AreBranches (usage_of plan).used.0 ⊎ Starts plan }
        ensures { CarriesOn (free (planned (owner_of self.old) group (now_talks plan))) (usage_of plan) self.old self.new result }
    {
        match plan.next() {
            Next::Ask(node, request) => {
                self.hold(plan, group, Pending::Asks(node, request));
                Went::More
            }
            Next::Refused(reply) => {
                self.roll_back(used_by(plan), After::Over(reply));
                Went::More
            }
        }
    }

    /// The plan came to its end.
    fn close(&mut self, usage: Usage, group: u16, found: Found) -> Went
        requires used { IsUsed usage }
        requires sited { AreSited found }
        ensures { CarriesOn (free (planned (owner_of self.old) group (says (Ok (came_of found), use_of usage)))) usage self.old self.new result }
    {
        match found {
            Found::Hints(hints) => self.commit(usage, After::Checked(hints)),
            Found::Moved(moved) => self.close_batch(usage, group, moved),
            Found::Finished(finished) => self.close_finish(usage, group, finished),
        }
    }

    fn close_batch(&mut self, usage: Usage, group: u16, moved: Option<u32>) -> Went
        requires used { IsUsed usage }
        ensures { CarriesOn (free (planned (owner_of self.old) group (says (Ok (moved_as moved), use_of usage)))) usage self.old self.new result }
    {
        match moved {
            Some(rows) => self.commit(usage, After::Moved(rows, group)),
            None => {
                self.roll_back(usage, After::Onward);
                Went::More
            }
        }
    }

    fn close_finish(&mut self, usage: Usage, group: u16, finished: Finished) -> Went
        requires used { IsUsed usage }
        ensures { CarriesOn (free (planned (owner_of self.old) group (says (Ok (finished_as (finding_of finished)), use_of usage)))) usage self.old self.new result }
    {
        match finished {
            Finished::Set => self.commit(usage, After::Set(group)),
            Finished::RowThere => {
                self.roll_back(usage, After::Again);
                Went::More
            }
            Finished::Other => {
                self.roll_back(usage, After::Onward);
                Went::More
            }
        }
    }

    /// A request of the plan is to be asked.
    fn hold(&mut self, plan: Plan, group: u16, pending: Pending)
        requires asking { IsAsking plan }
        requires pending { IsPending pending }
        ensures { self.new ≡ record self.old { stage = stage.Asks (record { plan = plan; group = group; pending = pending }) } }
    {
        self.stage = Stage::Asks(Asking {
            plan,
            group,
            pending,
        });
    }
}
