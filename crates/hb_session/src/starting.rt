// How a transaction begins, and how a statement does.
ghost use Rattle.std.specs.Prelude.{◌≡◌, ◌∷◌, true, false, Ok, Err, IfOk, IfErr, IsTrue};
ghost use Rattle.hb_types.specs.Numbers.{IsNumber};
ghost use Rattle.hb_node.specs.Lists.{Onward};
ghost use Rattle.hb_model.specs.Plain.{is_plain};
ghost use Rattle.hb_talk.specs.Moves.{fresh};
ghost use Rattle.hb_talk.specs.Sessions.{going};
ghost use Rattle.hb_talk.specs.Talk.{says};
ghost use Rattle.hb_access.specs.Accesses.{use_of};
ghost use Rattle.hb_commit.specs.Driving.{AreBranches};
ghost use Rattle.hb_plan.specs.Planned.{is_asking, now_talks};
ghost use Rattle.hb_wait.specs.Courses.{free};
ghost use Rattle.hb_session.specs.Sitting.{IsGiven, IsUsed, owner, planned};
ghost use Rattle.hb_session.specs.Steps.{SameSession, Steps, LeavesAs, CarriesOn, Gives, GivesTalk, is_busy_fault, is_no_memory, nothing_used};
ghost use Rattle.hb_session.specs.declared.stage.Stage.TheVariants as stage;

use crate::ending::{FES1, MGR, rolls_back, wants_memory};
use crate::session::{GiveFault, Progress, Session};
use crate::stage::{Given, Line, Stage};
use crate::stepping::used_by;
use hb_access::{Next, Usage, refusal};
use hb_model::{Reply, Statement};
use hb_node::Nodes;
use hb_plan::Plan;
use hb_types::{Answer, Left, Owner, Request, Tx};
use hb_wait::Pending;

/// A transaction that has used no node.
fn unused(tx: Tx) -> Usage
    ensures { result ≡ nothing_used tx }
{
    Usage {
        tx,
        used: Left(0),
        locks: 0,
        bytes: 0,
    }
}

impl Session {
    pub(crate) fn begin<N: Nodes>(&mut self, nodes: &mut N, given: Given) -> Progress
        requires stage { self.old.stage ≡ stage.Idle }
        requires given { IsGiven given.statement }
        ensures same { SameSession self.old self.new }
        ensures leaves { LeavesAs result self.new.stage }
        ensures steps { Steps (record self.old { stage = stage.Begins given }) self.new (N.lists nodes.old) (N.lists nodes.new) result }
        ensures goes { Onward N.goes nodes.old nodes.new }
    {
        let owner = Owner {
            session: self.index,
            nth: self.begun.saturating_add(1),
        };
        match nodes.ask(FES1, Request::Begin { owner }) {
            Answer::Begun(tx) => {
                self.enter_next(owner.nth, tx, given);
                Progress::More
            }
            other => Progress::Ended(refusal(FES1, other)),
        }
    }

    pub(crate) fn enter<N: Nodes>(&mut self, nodes: &mut N, tx: Tx, given: Given) -> Progress
        requires stage { self.old.stage ≡ stage.Idle }
        requires tx { IsNumber tx.0 }
        requires given { IsGiven given.statement }
        ensures same { SameSession self.old self.new }
        ensures leaves { LeavesAs result self.new.stage }
        ensures steps { Steps (record self.old { stage = stage.Enters tx given }) self.new (N.lists nodes.old) (N.lists nodes.new) result }
        ensures goes { Onward N.goes nodes.old nodes.new }
    {
        let owner = Owner {
            session: self.index,
            nth: self.begun,
        };
        match nodes.ask(MGR, Request::Enter { tx, owner }) {
            Answer::Done => self.start_first(tx, given.statement()),
            other => {
                self.roll_back(unused(tx), refusal(MGR, other));
                Progress::More
            }
        }
    }

    fn start_first(&mut self, tx: Tx, statement: Statement) -> Progress
        requires stage { self.old.stage ≡ stage.Idle }
        requires tx { IsNumber tx.0 }
        requires given { IsGiven statement }
        ensures { CarriesOn (λ sts. free (going self.old.back_ends (owner self.old) (statement ∷ sts) (fresh tx.0))) (nothing_used tx) self.old self.new result }
    {
        let plan = Plan::begin(self.alloc, unused(tx), self.back_ends, statement);
        self.go_on(plan)
    }

    /// Gives a statement in a transaction that is between two.
    pub(crate) fn give_open(&mut self, usage: Usage, statement: Statement) -> Result<(), GiveFault>
        requires stage { self.old.stage ≡ stage.Open usage }
        requires plain { IsTrue (is_plain statement) }
        requires used { IsUsed usage }
        ensures busy { is_busy_fault result ≡ false }
        ensures kept { IfErr result (λ e. self.new ≡ self.old) }
        ensures given { IfOk result (λ x. Gives self.old self.new statement) }
    {
        match statement {
            Statement::Commit => self.commit(usage),
            Statement::Rollback => {
                self.roll_back(usage, Reply::RolledBack);
                Ok(())
            }
            other => self.give_planned(usage, other),
        }
    }

    fn give_planned(&mut self, usage: Usage, statement: Statement) -> Result<(), GiveFault>
        requires stage { self.old.stage ≡ stage.Open usage }
        requires given { IsGiven statement }
        requires used { IsUsed usage }
        ensures busy { is_busy_fault result ≡ false }
        ensures kept { IfErr result (λ e. self.new ≡ self.old) }
        ensures given { IfOk result (λ x. Gives self.old self.new statement) }
    {
        let plan = Plan::begin(self.alloc, usage, self.back_ends, statement);
        self.give_plan(plan)
    }

    fn give_plan(&mut self, mut plan: Plan) -> Result<(), GiveFault>
        requires asking { is_asking plan ≡ true }
        requires used { IsUsed plan.usage }
        ensures busy { is_busy_fault result ≡ false }
        ensures kept { IfErr result (λ e. self.new ≡ self.old) }
        ensures given { IfOk result (λ x. GivesTalk (λ sts. planned self.old sts (now_talks plan)) plan.usage self.old self.new) }
    {
        match plan.next() {
            Next::Ask(node, request) => {
                self.hold(plan, Pending::Asks(node, request));
                Ok(())
            }
            Next::Refused(reply) => self.give_refused(used_by(plan), reply),
        }
    }

    /// A statement was refused before it asked anything.
    fn give_refused(&mut self, usage: Usage, why: Reply) -> Result<(), GiveFault>
        requires tx { IsNumber usage.tx.0 }
        requires used { AreBranches usage.used.0 }
        ensures busy { is_busy_fault result ≡ false }
        ensures kept { IfErr result (λ e. self.new ≡ self.old) }
        ensures given { IfOk result (λ x. (is_no_memory why ≡ false) × GivesTalk (λ sts. planned self.old sts (says (Err why, use_of usage))) usage self.old self.new) }
    {
        if wants_memory(&why) {
            return Err(GiveFault::NoMemory);
        }
        self.refuse_first(usage, why);
        Ok(())
    }

    fn refuse_first(&mut self, usage: Usage, why: Reply)
        requires tx { IsNumber usage.tx.0 }
        requires used { AreBranches usage.used.0 }
        ensures { GivesTalk (λ sts. planned self.old sts (says (Err why, use_of usage))) usage self.old self.new }
    {
        if rolls_back(&why) {
            self.roll_back(usage, why);
        } else {
            self.stand(usage, why);
        }
    }

    /// A refusal that is to be shown.
    fn stand(&mut self, usage: Usage, why: Reply)
        requires { IsUsed usage }
        ensures { self.new ≡ record self.old { stage = stage.Refused usage (record { reply = why }) } }
    {
        self.stage = Stage::Refused(usage, Line { reply: why });
    }

    /// The transaction was begun; it is to be entered at the manager.
    fn enter_next(&mut self, begun: u64, tx: Tx, given: Given)
        requires tx { IsNumber tx.0 }
        requires given { IsGiven given.statement }
        ensures { self.new ≡ record self.old { begun = begun; stage = stage.Enters tx given } }
    {
        self.begun = begun;
        self.stage = Stage::Enters(tx, given);
    }

    /// Gives a first statement, whose transaction is to be begun.
    pub(crate) fn give_first(&mut self, statement: Statement) -> Result<(), GiveFault>
        requires stage { self.old.stage ≡ stage.Idle }
        requires given { IsGiven statement }
        ensures result { result ≡ Ok tt }
        ensures given { Gives self.old self.new statement }
    {
        self.stage = Stage::Begins(Given { statement });
        Ok(())
    }
}
