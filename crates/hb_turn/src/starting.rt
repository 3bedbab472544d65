// How a turn's transaction begins.
ghost use Rattle.std.specs.Prelude.{◌≡◌};
ghost use Rattle.hb_types.specs.declared.answer.Answer.TheVariants as answer;
ghost use Rattle.hb_types.specs.Numbers.{IsNumber};
ghost use Rattle.hb_types.specs.Places.{node_of_area};
ghost use Rattle.hb_node.specs.Lists.{Onward};
ghost use Rattle.hb_batch.specs.Batches.{hint_of, IsSitedHint};
ghost use Rattle.hb_talk.specs.Moves.{turn_by};
ghost use Rattle.hb_wait.specs.Courses.{free};
ghost use Rattle.hb_turn.specs.Turning.{next_owner, nothing_used, of_turned, owner as owner_of, task_on, told, IsTask};
ghost use Rattle.hb_turn.specs.Steps.{started, CarriesOn, Stepped, TakesKeys};
ghost use Rattle.hb_turn.specs.declared.stage.Stage.TheVariants as stage;
ghost use Rattle.hb_turn.specs.declared.stage.Task.TheVariants as task_as;

use crate::ending::{FES1, MGR};
use crate::keys::keys_of;
use crate::stage::{After, Stage, Task};
use crate::turn::{Turn, Turned, Went};
use hb_access::{Usage, refusal};
use hb_batch::Hint;
use hb_model::Reply;
use hb_moveplan::Plan;
use hb_node::Nodes;
use hb_types::{Answer, Left, NoMemory, NodeName, Owner, Request, Space, Tx};
use hb_writes::node_of;
use sqlite_items::Items;

/// A transaction that has used no node.
fn unused(tx: Tx) -> Usage
    ensures { result ≡ nothing_used tx }
{
    Usage {
        tx,
        used: Left(0),
        locks: 0,
        bytes: 0,
    }
}

/// A batch where there are keys, else a finish.
fn task_of(hint: Hint, keys: Items<i64>) -> Task
    ensures { result ≡ task_on hint keys }
{
    if keys.is_empty() {
        Task::Finish(hint)
    } else {
        Task::Batch(hint, keys)
    }
}

impl Turn {
    /// Asks the old area's node for keys of a group.
    pub(crate) fn ask_keys<N: Nodes>(&mut self, nodes: &mut N, hint: Hint) -> Went
        requires stage { self.old.stage ≡ stage.Over }
        requires sited { IsSitedHint hint }
        ensures stepped { Stepped (record self.old { stage = stage.Keys hint }) self.new (N.lists nodes.old) (N.lists nodes.new) result }
        ensures goes { Onward N.goes nodes.old nodes.new }
    {
        let node = node_of(hint.old);
        let request = Request::GroupKeys {
            space: Space {
                area: hint.old,
                table: hint.table,
            },
            group: hint.group,
            most: self.line.rows,
        };
        match nodes.ask(node, request) {
            Answer::Keys(keys) => self.take_keys(node, hint, keys),
            other => Went::Said(Turned::Over(refusal(node, other))),
        }
    }

    /// Goes on with the keys that were told: those of another group are left out, and one that is no INTEGER is told by no node.
    fn take_keys(&mut self, node: NodeName, hint: Hint, keys: Items<i64>) -> Went
        requires stage { self.old.stage ≡ stage.Over }
        requires sited { IsSitedHint hint }
        ensures { TakesKeys hint keys self.old self.new result }
    {
        match keys_of(self.alloc, keys.as_slice(), hint.group) {
            Ok(Some(own)) => {
                self.begin_next(task_of(hint, own));
                Went::More
            }
            Ok(None) => Went::Said(Turned::Over(Reply::Lost(node))),
            Err(NoMemory) => Went::Said(Turned::Over(Reply::NoMemory)),
        }
    }

    /// A transaction is to be begun.
    fn begin_next(&mut self, task: Task)
        requires { IsTask task }
        ensures { self.new ≡ record self.old { stage = stage.Begins task } }
    {
        self.stage = Stage::Begins(task);
    }

    pub(crate) fn begin<N: Nodes>(&mut self, nodes: &mut N, task: Task) -> Went
        requires stage { self.old.stage ≡ stage.Over }
        requires task { IsTask task }
        ensures stepped { Stepped (record self.old { stage = stage.Begins task }) self.new (N.lists nodes.old) (N.lists nodes.new) result }
        ensures goes { Onward N.goes nodes.old nodes.new }
    {
        let owner = Owner {
            session: self.line.session,
            nth: self.begun.saturating_add(1),
        };
        match nodes.ask(FES1, Request::Begin { owner }) {
            Answer::Begun(tx) => {
                self.enter_next(owner.nth, tx, task);
                Went::More
            }
            other => Went::Said(Turned::Over(refusal(FES1, other))),
        }
    }

    /// The transaction was begun; it is to be entered at the manager.
    fn enter_next(&mut self, begun: u64, tx: Tx, task: Task)
        requires tx { IsNumber tx.0 }
        requires task { IsTask task }
        ensures { self.new ≡ record self.old { begun = begun; stage = stage.Enters tx task } }
    {
        self.begun = begun;
        self.stage = Stage::Enters(tx, task);
    }

    pub(crate) fn enter<N: Nodes>(&mut self, nodes: &mut N, tx: Tx, task: Task) -> Went
        requires stage { self.old.stage ≡ stage.Over }
        requires tx { IsNumber tx.0 }
        requires task { IsTask task }
        ensures stepped { Stepped (record self.old { stage = stage.Enters tx task }) self.new (N.lists nodes.old) (N.lists nodes.new) result }
        ensures goes { Onward N.goes nodes.old nodes.new }
    {
        let owner = Owner {
            session: self.line.session,
            nth: self.begun,
        };
        match nodes.ask(MGR, Request::Enter { tx, owner }) {
            Answer::Done => self.start(tx, task),
            other => {
                self.roll_back(unused(tx), After::Over(refusal(MGR, other)));
                Went::More
            }
        }
    }

    /// Starts the plan of a transaction.
    fn start(&mut self, tx: Tx, task: Task) -> Went
        requires tx { IsNumber tx.0 }
        requires task { IsTask task }
        ensures { CarriesOn (free (started self.old tx task)) (nothing_used tx) self.old self.new result }
    {
        match task {
            Task::Check => self.start_check(tx),
            Task::Batch(hint, keys) => {
                let plan = Plan::batch(self.alloc, unused(tx), hint, keys);
                self.go_on(plan, hint.group)
            }
            Task::Finish(hint) => {
                let plan = Plan::finish(self.alloc, unused(tx), hint);
                self.go_on(plan, hint.group)
            }
        }
    }

    fn start_check(&mut self, tx: Tx) -> Went
        requires tx { IsNumber tx.0 }
        ensures { CarriesOn (free (started self.old tx task_as.Check)) (nothing_used tx) self.old self.new result }
    {
        match self.line.table.copy(self.alloc) {
            Ok(name) => {
                let plan = Plan::check(self.alloc, unused(tx), name);
                self.go_on(plan, 0)
            }
            Err(NoMemory) => {
                self.roll_back(unused(tx), After::Over(Reply::NoMemory));
                Went::More
            }
        }
    }
}
