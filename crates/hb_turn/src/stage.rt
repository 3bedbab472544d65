// Where a turn stands.
ghost use Rattle.std.specs.Prelude.{◌≡◌};

use hb_access::Usage;
use hb_batch::Hint;
use hb_commit::Driver;
use hb_model::Reply;
use hb_moveplan::Plan;
use hb_types::Tx;
use hb_wait::Pending;
use sqlite_items::Items;

/// What a transaction is for.
#[derive(Drop)]
pub enum Task {
    Check,
    Batch(Hint, Items<i64>),
    Finish(Hint),
}

/// What a turn does next.
#[derive(Drop)]
pub enum Stage {
    /// The old area's node is asked for keys of a group.
    Keys(Hint),
    /// The transaction is to be begun.
    Begins(Task),
    /// The transaction is to be entered at the manager.
    Enters(Tx, Task),
    /// A request of the plan is to be asked.
    Asks(Asking),
    /// The transaction ends.
    Ends(Ending),
    /// The turn has ended.
    Over,
}

/// What follows the end of the transaction.
#[derive(Drop)]
pub enum After {
    /// A check that found these groups is committed.
    Checked(Items<Hint>),
    /// A batch that moved so many rows of a group is committed.
    Moved(u32, u16),
    /// A finish of a group is committed.
    Set(u16),
    /// The turn is rolled back, and the same group is next.
    Again,
    /// The turn is rolled back, and the next group follows.
    Onward,
    /// The turn is rolled back, and the line ends with this reply.
    Over(Reply),
}

/// A plan, the group that it is of, and its request.
pub struct Asking {
    pub plan: Plan,
    pub group: u16,
    pub pending: Pending,
}

impl Asking {
    pub fn parts(self) -> (Plan, u16, Pending)
        ensures { result ≡ (self.plan, self.group, self.pending) }
    {
        let Asking {
            plan,
            group,
            pending,
        } = self;
        (plan, group, pending)
    }
}

impl Drop for Asking {
    fn drop(self) {
        let Asking {
            plan: _,
            group: _,
            pending: _,
        } = self;
    }
}

/// The end of the transaction, and what follows it.
pub struct Ending {
    pub usage: Usage,
    pub driver: Driver,
    pub after: After,
}

impl Ending {
    pub fn parts(self) -> (Usage, Driver, After)
        ensures { result ≡ (self.usage, self.driver, self.after) }
    {
        let Ending {
            usage,
            driver,
            after,
        } = self;
        (usage, driver, after)
    }
}

impl Drop for Ending {
    fn drop(self) {
        let Ending {
            usage: _,
            driver: _,
            after: _,
        } = self;
    }
}
