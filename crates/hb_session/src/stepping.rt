// A step of a statement's plan.
ghost use Rattle.std.specs.Prelude.{◌≡◌, ◌⊎◌, true, false, Ok, Err};
ghost use Rattle.hb_types.specs.Calls.{IsAnswer};
ghost use Rattle.hb_types.specs.Numbers.{IsNumber};
ghost use Rattle.hb_node.specs.Lists.{Onward};
ghost use Rattle.hb_talk.specs.Sessions.{rolls_back as is_rolled_back};
ghost use Rattle.hb_talk.specs.Talk.{says};
ghost use Rattle.hb_access.specs.Accesses.{use_of};
ghost use Rattle.hb_commit.specs.Driving.{AreBranches};
ghost use Rattle.hb_plan.specs.Planned.{IsTold, is_asking, now_talks, now_hears};
ghost use Rattle.hb_wait.specs.Courses.{free};
ghost use Rattle.hb_wait.specs.Waiting.{IsPending};
ghost use Rattle.hb_session.specs.Sitting.{is_ending, IsAsking, IsUsed, planned, Starts};
ghost use Rattle.hb_session.specs.Steps.{SameSession, Steps, LeavesAs, CarriesOn, CarriesOnIf, Leads, RollsBack};
ghost use Rattle.hb_session.specs.declared.stage.Stage.TheVariants as stage;
ghost use Rattle.hb_session.specs.declared.session.Progress.TheVariants as progress;

use crate::ending::rolls_back;
use crate::session::{Progress, Session};
use crate::stage::{Asking, Stage};
use hb_access::{Next, Usage};
use hb_model::Reply;
use hb_node::Nodes;
use hb_plan::{Plan, Taken};
use hb_types::Answer;
use hb_wait::{Heard, Pending};

/// What the transaction has used, at the end of a plan.
pub(crate) fn used_by(plan: Plan) -> Usage
    ensures { result ≡ plan.usage }
{
    plan.usage()
}

impl Session {
    pub(crate) fn ask<N: Nodes>(&mut self, nodes: &mut N, asking: Asking) -> Progress
        requires stage { self.old.stage ≡ stage.Idle }
        requires asking { IsAsking asking.plan }
        requires pending { IsPending asking.pending }
        ensures same { SameSession self.old self.new }
        ensures leaves { LeavesAs result self.new.stage }
        ensures steps { Steps (record self.old { stage = stage.Asks asking }) self.new (N.lists nodes.old) (N.lists nodes.new) result }
        ensures goes { Onward N.goes nodes.old nodes.new }
    {
        let (plan, pending) = asking.parts();
        match pending.ask(nodes) {
            Heard::Answered(answer) => self.take(plan, answer),
            Heard::Waits(lock, edges) => {
                self.hold(plan, Pending::Waits(lock));
                Progress::Waits(edges)
            }
            Heard::More(pending) => {
                self.hold(plan, pending);
                Progress::More
            }
        }
    }

    fn take(&mut self, mut plan: Plan, answer: Answer) -> Progress
        requires asking { IsAsking plan }
        requires answer { IsAnswer answer }
        ensures { CarriesOnIf (IsTold plan answer) (λ sts. free (planned self.old sts (now_hears plan answer))) plan.usage self.old self.new result }
    {
        match plan.take(answer) {
            Taken::More => self.go_on(plan),
            Taken::Replied(reply) => {
                self.open(used_by(plan));
                Progress::Shown(reply)
            }
            Taken::Refused(reply) => self.refuse(used_by(plan), reply),
        }
    }

    pub(crate) fn go_on(&mut self, mut plan: Plan) -> Progress
        requires asking { is_asking plan ≡ true }
        requires tx { IsNumber plan.usage.tx.0 }
        requires starts { AreBranches plan.usage.used.0 ⊎ Starts plan }
        ensures { CarriesOn (λ sts. free (planned self.old sts (now_talks plan))) plan.usage self.old self.new result }
    {
        match plan.next() {
            Next::Ask(node, request) => {
                self.hold(plan, Pending::Asks(node, request));
                Progress::More
            }
            Next::Refused(reply) => self.refuse(used_by(plan), reply),
        }
    }

    /// A refusal: it leaves the transaction as it is, or rolls it back.
    fn refuse(&mut self, usage: Usage, reply: Reply) -> Progress
        requires tx { IsNumber usage.tx.0 }
        requires used { is_rolled_back reply ≡ false → AreBranches usage.used.0 }
        ensures carries { CarriesOn (λ sts. free (planned self.old sts (says (Err reply, use_of usage)))) usage self.old self.new result }
        ensures more { is_rolled_back reply ≡ true → result ≡ progress.More }
        ensures leads { Leads (λ sts. free (planned self.old sts (says (Err reply, use_of usage)))) self.new result }
        ensures rolled { is_rolled_back reply ≡ true → RollsBack (use_of usage) reply self.new }
        ensures ending { is_rolled_back reply ≡ true → is_ending self.new.stage ≡ true }
    {
        if rolls_back(&reply) {
            self.roll_back(usage, reply);
            Progress::More
        } else {
            self.open(usage);
            Progress::Shown(reply)
        }
    }

    /// The transaction is between two statements.
    pub(crate) fn open(&mut self, usage: Usage)
        requires { IsUsed usage }
        ensures { self.new ≡ record self.old { stage = stage.Open usage } }
    {
        self.stage = Stage::Open(usage);
    }

    /// A request of the plan is to be asked.
    pub(crate) fn hold(&mut self, plan: Plan, pending: Pending)
        requires asking { IsAsking plan }
        requires pending { IsPending pending }
        ensures { self.new ≡ record self.old { stage = stage.Asks (record { plan = plan; pending = pending }) } }
    {
        self.stage = Stage::Asks(Asking { plan, pending });
    }
}
