// What an access makes of an answer, stage by stage.
ghost use Rattle.std.specs.Prelude.{◌≡◌, true};
ghost use Rattle.hb_types.specs.declared.answer.Answer.{Answer as Given};
ghost use Rattle.hb_types.specs.declared.answer.Answer.TheVariants as given;
ghost use Rattle.hb_types.specs.declared.change.Change.{Change as Written};
ghost use Rattle.hb_types.specs.Records.{IsChange};
ghost use Rattle.hb_model.specs.NodeSets.{has_node, with_node};
ghost use Rattle.hb_talk.specs.Talk.{the_rows};
ghost use Rattle.hb_access.specs.Accesses.{as_rows, found_under, keeps_nodes, rolls, Brings, Hears, IsServer};
ghost use Rattle.hb_access.specs.declared.access.Stage.TheVariants as stage;

use crate::access::{Access, Stage, Taken};
use crate::goal::{Goal, Got};
use crate::refusing::refusal;
use hb_types::{Answer, Left, NodeName, Path};

impl Access {
    // Ends the access; the node whose branch was refused isn't used.
    fn lose(&mut self, before: Left)
        ensures { self.new ≡ record { usage = record self.old.usage { used = before }; stage = stage.Ended } }
    {
        self.usage.used = before;
        self.stage = Stage::Ended;
    }

    pub(crate) fn take_enlist(&mut self, goal: Goal, before: Left, answer: Answer) -> Taken
        requires stage { self.old.stage ≡ stage.Enlisting goal before }
        requires within { IsServer goal.node.0 }
        requires branch { self.old.usage.used.0 ≡ with_node before.0 goal.node.0 }
        ensures hears { Hears self.old self.new answer result }
        ensures brings { Brings answer result }
        ensures tx { self.new.usage.tx.0 ≡ self.old.usage.tx.0 }
        ensures used { keeps_nodes self.old.usage.used.0 self.new.usage.used.0 (rolls result) ≡ true }
    {
        match answer {
            Answer::Done => {
                self.stage = Stage::Lock(goal);
                Taken::More
            }
            other => {
                self.lose(before);
                Taken::Refused(refusal(goal.node, other))
            }
        }
    }

    pub(crate) fn take_lock(&mut self, goal: Goal, answer: Answer) -> Taken
        requires stage { self.old.stage ≡ stage.Locking goal }
        requires within { IsServer goal.node.0 }
        requires branch { has_node self.old.usage.used.0 goal.node.0 ≡ true }
        ensures hears { Hears self.old self.new answer result }
        ensures brings { Brings answer result }
        ensures tx { self.new.usage.tx.0 ≡ self.old.usage.tx.0 }
        ensures used { self.new.usage.used.0 ≡ self.old.usage.used.0 }
    {
        match answer {
            Answer::Done => {
                if goal.reads {
                    self.stage = Stage::Fetch(goal);
                    Taken::More
                } else {
                    Taken::Came(Got::Nothing)
                }
            }
            other => Taken::Refused(refusal(goal.node, other)),
        }
    }

    pub(crate) fn take_found(&mut self, goal: Goal, answer: Answer) -> Taken
        requires { self.old.stage ≡ stage.Fetching goal }
        ensures hears { Hears self.old self.new answer result }
        ensures brings { Brings answer result }
        ensures tx { self.new.usage.tx.0 ≡ self.old.usage.tx.0 }
        ensures used { self.new.usage.used.0 ≡ self.old.usage.used.0 }
    {
        match goal.path {
            Path::Key(_) => match answer {
                Answer::Row(row) => Taken::Came(Got::Row(row)),
                other => Taken::Refused(refusal(goal.node, other)),
            },
            Path::Whole(_) | Path::Group(_, _) => self.take_rows(goal, answer),
        }
    }

    fn take_rows(&mut self, goal: Goal, answer: Answer) -> Taken
        requires stage { self.old.stage ≡ stage.Fetching goal }
        requires rows { (a : Given) → found_under goal.path a ≡ as_rows (the_rows a) }
        ensures hears { Hears self.old self.new answer result }
        ensures brings { Brings answer result }
        ensures tx { self.new.usage.tx.0 ≡ self.old.usage.tx.0 }
        ensures used { self.new.usage.used.0 ≡ self.old.usage.used.0 }
    {
        match answer {
            Answer::Rows(rows) => Taken::Came(Got::Rows(rows)),
            other => Taken::Refused(refusal(goal.node, other)),
        }
    }

    // Goes on to the write, behind its branch.
    fn begin_write(&mut self, node: NodeName, before: Left) -> Taken
        requires stage { (c : Written) × (self.old.stage ≡ stage.EnlistingWrite node c before) × IsChange c }
        requires within { IsServer node.0 }
        ensures hears { Hears self.old self.new given.Done result }
        ensures brings { Brings given.Done result }
        ensures tx { self.new.usage.tx.0 ≡ self.old.usage.tx.0 }
        ensures used { self.new.usage.used.0 ≡ self.old.usage.used.0 }
    {
        match std::mem::replace(&mut self.stage, Stage::Ended) {
            Stage::EnlistingWrite(_, change, _) => self.stage = Stage::Write(node, change),
            _ => {}
        }
        Taken::More
    }

    pub(crate) fn take_enlist_of_write(
        &mut self,
        node: NodeName,
        before: Left,
        answer: Answer,
    ) -> Taken
        requires stage { (c : Written) × (self.old.stage ≡ stage.EnlistingWrite node c before) × IsChange c }
        requires within { IsServer node.0 }
        requires branch { self.old.usage.used.0 ≡ with_node before.0 node.0 }
        ensures hears { Hears self.old self.new answer result }
        ensures brings { Brings answer result }
        ensures tx { self.new.usage.tx.0 ≡ self.old.usage.tx.0 }
        ensures used { keeps_nodes self.old.usage.used.0 self.new.usage.used.0 (rolls result) ≡ true }
    {
        match answer {
            Answer::Done => self.begin_write(node, before),
            other => {
                self.lose(before);
                Taken::Refused(refusal(node, other))
            }
        }
    }

    pub(crate) fn take_write(&mut self, node: NodeName, answer: Answer) -> Taken
        requires { self.old.stage ≡ stage.Writing node }
        ensures hears { Hears self.old self.new answer result }
        ensures brings { Brings answer result }
        ensures tx { self.new.usage.tx.0 ≡ self.old.usage.tx.0 }
        ensures used { self.new.usage.used.0 ≡ self.old.usage.used.0 }
    {
        match answer {
            Answer::Done => Taken::Came(Got::Nothing),
            other => Taken::Refused(refusal(node, other)),
        }
    }
}
