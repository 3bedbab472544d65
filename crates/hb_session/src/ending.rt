// How a transaction ends.
ghost use Rattle.std.specs.Prelude.{◌≡◌, true, false, IfOk, IfErr};
ghost use Rattle.hb_types.specs.declared.answer.Answer.{Answer as Given};
ghost use Rattle.hb_types.specs.declared.request.Request.TheVariants as request;
ghost use Rattle.hb_types.specs.Calls.{IsAnswer};
ghost use Rattle.hb_types.specs.Numbers.{IsNumber};
ghost use Rattle.hb_node.specs.Lists.{OneMore, Onward};
ghost use Rattle.hb_model.specs.declared.statement.Statement.TheVariants as statement;
ghost use Rattle.hb_talk.specs.Sessions.{rolls_back as is_rolled_back};
ghost use Rattle.hb_access.specs.Accesses.{use_of};
ghost use Rattle.hb_commit.specs.Driving.{reply_to};
ghost use Rattle.hb_session.specs.Sitting.{IsUsed, IsEnding, is_busy, is_ending, replies};
ghost use Rattle.hb_session.specs.Steps.{SameSession, Steps, LeavesAs, EndsOn, Gives, RollsBack, is_busy_fault, is_no_memory};
ghost use Rattle.hb_session.specs.declared.stage.Stage.TheVariants as stage;

use crate::session::{GiveFault, Progress, Session};
use crate::stage::{Ending, Line, Stage};
use hb_access::Usage;
use hb_commit::{Driver, Outcome, Step};
use hb_model::Reply;
use hb_node::Nodes;
use hb_types::{Left, NodeName, Owner, Request, Tx};

pub(crate) const FES1: NodeName = NodeName(0);

pub(crate) const MGR: NodeName = NodeName(10);

/// Whether a refusal rolls the transaction back.
pub(crate) fn rolls_back(reply: &Reply) -> bool
    ensures { result ≡ is_rolled_back reply.now }
{
    matches!(
        reply,
        Reply::Down(_)
            | Reply::Stopped(_)
            | Reply::Lost(_)
            | Reply::Deadlock(_)
            | Reply::NumbersSpent
            | Reply::NoMemory
    )
}

pub(crate) fn wants_memory(reply: &Reply) -> bool
    ensures { result ≡ is_no_memory reply.now }
{
    matches!(reply, Reply::NoMemory)
}

/// Tells the manager of a transaction's end, with the nodes where the branch is not settled.
fn tell_end<N: Nodes>(nodes: &mut N, tx: Tx, left: Left)
    requires { IsNumber tx.0 }
    ensures told { (a : Given) × IsAnswer a × OneMore (N.lists nodes.old) (N.lists nodes.new) 10 (request.End tx left) a }
    ensures goes { Onward N.goes nodes.old nodes.new }
{
    let _ = nodes.ask(MGR, Request::End { tx, left });
}

impl Session {
    /// Rolls the transaction back; this is its reply.
    pub(crate) fn roll_back(&mut self, usage: Usage, back: Reply)
        requires { IsNumber usage.tx.0 }
        ensures same { SameSession self.old self.new }
        ensures begun { self.new.begun ≡ self.old.begun }
        ensures busy { is_busy self.new.stage ≡ true }
        ensures ending { is_ending self.new.stage ≡ true }
        ensures rolls { RollsBack (use_of usage) back self.new }
    {
        let driver = Driver::back(self.alloc, usage.tx, usage.used);
        let back = Line { reply: back };
        self.stage = Stage::Ends(Ending {
            usage,
            driver,
            back,
        });
    }

    pub(crate) fn commit(&mut self, usage: Usage) -> Result<(), GiveFault>
        requires stage { self.old.stage ≡ stage.Open usage }
        requires used { IsUsed usage }
        ensures busy { is_busy_fault result ≡ false }
        ensures kept { IfErr result (λ e. self.new ≡ self.old) }
        ensures given { IfOk result (λ x. Gives self.old self.new statement.Commit) }
    {
        match Driver::new(self.alloc, usage.tx, usage.used) {
            Ok(driver) => {
                let back = Line {
                    reply: Reply::RolledBack,
                };
                self.stage = Stage::Ends(Ending {
                    usage,
                    driver,
                    back,
                });
                Ok(())
            }
            Err(_) => Err(GiveFault::NoMemory),
        }
    }

    pub(crate) fn end<N: Nodes>(&mut self, nodes: &mut N, ending: Ending) -> Progress
        requires stage { self.old.stage ≡ stage.Idle }
        requires ending { IsEnding ending.usage ending.driver }
        ensures same { SameSession self.old self.new }
        ensures leaves { LeavesAs result self.new.stage }
        ensures ending { EndsOn result self.new.stage }
        ensures steps { Steps (record self.old { stage = stage.Ends ending }) self.new (N.lists nodes.old) (N.lists nodes.new) result }
        ensures goes { Onward N.goes nodes.old nodes.new }
    {
        let (usage, mut driver, back) = ending.parts();
        match driver.next() {
            Step::Ask(node, request) => {
                driver.take(nodes.ask(node, request));
                self.stage = Stage::Ends(Ending {
                    usage,
                    driver,
                    back,
                });
                Progress::More
            }
            Step::Ended(outcome, left) => {
                tell_end(nodes, usage.tx, left);
                Progress::Ended(self.reply(outcome, back.reply()))
            }
        }
    }

    fn reply(&self, outcome: Outcome, back: Reply) -> Reply
        ensures { result ≡ reply_to (replies self.now back) outcome }
    {
        match outcome {
            Outcome::Committed(number) => Reply::Committed(number),
            Outcome::RolledBack => back,
            Outcome::Down(node) => Reply::Down(node),
            Outcome::Stopped(node) => Reply::Stopped(node),
            Outcome::Lost(node) => Reply::Lost(node),
            Outcome::Unknown => Reply::OutcomeUnknown(Owner {
                session: self.index,
                nth: self.begun,
            }),
            Outcome::Spent => Reply::NumbersSpent,
            Outcome::NoMemory => Reply::NoMemory,
        }
    }
}
