// How a turn's transaction ends.
ghost use Rattle.std.specs.Prelude.{◌≡◌, true, false, All, IfErr};
ghost use Rattle.hb_types.specs.declared.answer.Answer.{Answer as Given};
ghost use Rattle.hb_types.specs.declared.names.Number.{Number as Numbered};
ghost use Rattle.hb_types.specs.declared.request.Request.TheVariants as request;
ghost use Rattle.hb_types.specs.Calls.{IsAnswer};
ghost use Rattle.hb_types.specs.Numbers.{IsNumber};
ghost use Rattle.hb_node.specs.Lists.{OneMore, Onward};
ghost use Rattle.hb_model.specs.declared.reply.Reply.{Reply as Replied};
ghost use Rattle.hb_model.specs.declared.reply.Reply.TheVariants as reply_as;
ghost use Rattle.hb_talk.specs.Ends.{committing};
ghost use Rattle.hb_access.specs.Accesses.{use_of};
ghost use Rattle.hb_commit.specs.Driving.{reply_to};
ghost use Rattle.hb_batch.specs.Batches.{IsSitedHint};
ghost use Rattle.hb_wait.specs.Courses.{free};
ghost use Rattle.hb_turn.specs.Turning.{following, follows, in_transaction, is_busy, is_last, is_last_after, outcome_of, owner as owner_of, replies, shown_of, AreSitedAfter, IsEnding, IsUsed};
ghost use Rattle.hb_turn.specs.Steps.{by_number, is_counted, is_over, AreSitedIn, CarriesOn, EndsOn, RollsBack, Stepped};
ghost use Rattle.hb_turn.specs.declared.stage.After.TheVariants as after_as;
ghost use Rattle.hb_turn.specs.declared.stage.Stage.TheVariants as stage;
ghost use Rattle.hb_turn.specs.declared.turn.Turned.TheVariants as turned_as;

use crate::stage::{After, Ending, Stage};
use crate::turn::{Turn, Turned, Went};
use hb_access::Usage;
use hb_batch::Hint;
use hb_commit::{Driver, Outcome, Step};
use hb_model::Reply;
use hb_node::Nodes;
use hb_types::{Left, NoMemory, NodeName, Number, Owner, Request, Tx};
use sqlite_items::Items;

pub(crate) const FES1: NodeName = NodeName(0);

pub(crate) const MGR: NodeName = NodeName(10);

/// Tells the manager of a transaction's end, with the nodes where the branch is not settled.
fn tell_end<N: Nodes>(nodes: &mut N, tx: Tx, left: Left)
    requires { IsNumber tx.0 }
    ensures told { (a : Given) × IsAnswer a × OneMore (N.lists nodes.old) (N.lists nodes.new) 10 (request.End tx left) a }
    ensures goes { Onward N.goes nodes.old nodes.new }
{
    let _ = nodes.ask(MGR, Request::End { tx, left });
}

impl Turn {
    /// Rolls the transaction back; this follows.
    pub(crate) fn roll_back(&mut self, usage: Usage, after: After)
        requires tx { IsNumber usage.tx.0 }
        requires sited { AreSitedAfter after }
        ensures line { self.new.line ≡ self.old.line }
        ensures begun { self.new.begun ≡ self.old.begun }
        ensures busy { is_busy self.new.stage ≡ true }
        ensures active { in_transaction self.new.stage ≡ true }
        ensures last { is_last self.new.stage ≡ is_last_after after }
        ensures rolls { RollsBack (use_of usage) after self.new }
    {
        let driver = Driver::back(self.alloc, usage.tx, usage.used);
        self.end_by(usage, driver, after);
    }

    /// The transaction is to be ended by a driver.
    fn end_by(&mut self, usage: Usage, driver: Driver, after: After)
        requires ending { IsEnding usage driver }
        requires sited { AreSitedAfter after }
        ensures { self.new ≡ record self.old { stage = stage.Ends (record { usage = usage; driver = driver; after = after }) } }
    {
        self.stage = Stage::Ends(Ending {
            usage,
            driver,
            after,
        });
    }

    /// Commits the transaction; this follows.
    pub(crate) fn commit(&mut self, usage: Usage, after: After) -> Went
        requires used { IsUsed usage }
        requires sited { AreSitedAfter after }
        ensures { CarriesOn (free (following after (committing (owner_of self.old) (use_of usage) (shown_of after)))) usage self.old self.new result }
    {
        match Driver::new(self.alloc, usage.tx, usage.used) {
            Ok(driver) => {
                self.end_by(usage, driver, after);
                Went::More
            }
            Err(NoMemory) => {
                self.roll_back(usage, After::Over(Reply::NoMemory));
                Went::More
            }
        }
    }

    pub(crate) fn end<N: Nodes>(&mut self, nodes: &mut N, ending: Ending) -> Went
        requires stage { self.old.stage ≡ stage.Over }
        requires ending { IsEnding ending.usage ending.driver }
        requires sited { AreSitedAfter ending.after }
        ensures stepped { Stepped (record self.old { stage = stage.Ends ending }) self.new (N.lists nodes.old) (N.lists nodes.new) result }
        ensures last { is_last_after ending.after ≡ true → EndsOn result self.new.stage }
        ensures goes { Onward N.goes nodes.old nodes.new }
    {
        let (usage, mut driver, after) = ending.parts();
        match driver.next() {
            Step::Ask(node, request) => {
                driver.take(nodes.ask(node, request));
                self.end_by(usage, driver, after);
                Went::More
            }
            Step::Ended(outcome, left) => {
                tell_end(nodes, usage.tx, left);
                Went::Said(self.follow(outcome, after))
            }
        }
    }

    /// What follows the transaction's end.
    fn follow(&self, outcome: Outcome, after: After) -> Turned
        requires sited { AreSitedAfter after }
        ensures told { outcome_of result ≡ follows after (reply_to (replies (owner_of self.now) after) outcome) }
        ensures sited { AreSitedIn result }
        ensures last { is_last_after after ≡ true → is_over result ≡ true }
    {
        match after {
            After::Checked(hints) => self.found(outcome, hints),
            After::Moved(rows, group) => self.moved(outcome, rows, group),
            After::Set(group) => self.set(outcome, group),
            After::Again => Turned::Again(None),
            After::Onward => Turned::Onward,
            After::Over(reply) => Turned::Over(reply),
        }
    }

    /// The number of a commit, or the reply that tells why there is none.
    fn number(&self, outcome: Outcome) -> Result<Number, Reply>
        ensures told { (shown : Numbered → Replied) → reply_to (record { owner = owner_of self.now; shown = shown; back = reply_as.RolledBack }) outcome ≡ by_number shown result }
        ensures none { IfErr result (λ r. is_counted r ≡ false) }
    {
        match outcome {
            Outcome::Committed(number) => Ok(number),
            Outcome::RolledBack => Err(Reply::RolledBack),
            Outcome::Down(node) => Err(Reply::Down(node)),
            Outcome::Stopped(node) => Err(Reply::Stopped(node)),
            Outcome::Lost(node) => Err(Reply::Lost(node)),
            Outcome::Unknown => Err(Reply::OutcomeUnknown(Owner {
                session: self.line.session,
                nth: self.begun,
            })),
            Outcome::Spent => Err(Reply::NumbersSpent),
            Outcome::NoMemory => Err(Reply::NoMemory),
        }
    }

    /// What follows the end of a check that found these groups.
    fn found(&self, outcome: Outcome, hints: Items<Hint>) -> Turned
        requires sited { All IsSitedHint hints }
        ensures told { outcome_of result ≡ follows (after_as.Checked hints) (reply_to (replies (owner_of self.now) (after_as.Checked hints)) outcome) }
        ensures sited { AreSitedIn result }
    {
        match self.number(outcome) {
            Ok(number) => Turned::Found(hints, number),
            Err(reply) => Turned::Over(reply),
        }
    }

    /// What follows the end of a batch; a line is shown where it moved a row.
    fn moved(&self, outcome: Outcome, rows: u32, group: u16) -> Turned
        ensures told { outcome_of result ≡ follows (after_as.Moved rows group) (reply_to (replies (owner_of self.now) (after_as.Moved rows group)) outcome) }
        ensures sited { AreSitedIn result }
    {
        match self.number(outcome) {
            Ok(number) => Turned::Again(moved_line(rows, group, number)),
            Err(reply) => Turned::Over(reply),
        }
    }

    /// What follows the end of a finish.
    fn set(&self, outcome: Outcome, group: u16) -> Turned
        ensures told { outcome_of result ≡ follows (after_as.Set group) (reply_to (replies (owner_of self.now) (after_as.Set group)) outcome) }
        ensures sited { AreSitedIn result }
    {
        match self.number(outcome) {
            Ok(_) => Turned::Onward,
            Err(reply) => Turned::Over(reply),
        }
    }
}

/// The line of a batch, where it moved a row.
fn moved_line(rows: u32, group: u16, number: Number) -> Option<Reply>
    ensures { outcome_of (turned_as.Again result) ≡ follows (after_as.Moved rows group) (reply_as.Moved rows group number) }
{
    if rows == 0 {
        return None;
    }
    Some(Reply::Moved {
        rows,
        group,
        number,
    })
}
