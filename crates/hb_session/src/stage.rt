// Where a session stands.
ghost use Rattle.std.specs.Prelude.{◌≡◌};

use hb_access::Usage;
use hb_commit::Driver;
use hb_model::{Reply, Statement};
use hb_plan::Plan;
use hb_types::Tx;
use hb_wait::Pending;

/// What a session does next.
#[derive(Drop)]
pub enum Stage {
    /// There is no transaction.
    Idle,
    /// A transaction between two statements.
    Open(Usage),
    /// A statement was refused before it asked anything.
    Refused(Usage, Line),
    /// The transaction of a first statement is to be begun.
    Begins(Given),
    /// The transaction is to be entered at the manager.
    Enters(Tx, Given),
    /// A request of a statement's plan is to be asked.
    Asks(Asking),
    /// The transaction ends.
    Ends(Ending),
}

/// A reply that is to be shown.
pub struct Line {
    pub reply: Reply,
}

impl Line {
    pub fn reply(self) -> Reply
        ensures { result ≡ self.reply }
    {
        let Line { reply } = self;
        reply
    }
}

impl Drop for Line {
    fn drop(self) {
        let Line { reply: _ } = self;
    }
}

/// A first statement.
pub struct Given {
    pub statement: Statement,
}

impl Given {
    pub fn statement(self) -> Statement
        ensures { result ≡ self.statement }
    {
        let Given { statement } = self;
        statement
    }
}

impl Drop for Given {
    fn drop(self) {
        let Given { statement: _ } = self;
    }
}

/// A statement's plan, and its request.
pub struct Asking {
    pub plan: Plan,
    pub pending: Pending,
}

impl Asking {
    pub fn parts(self) -> (Plan, Pending)
        ensures { result ≡ (self.plan, self.pending) }
    {
        let Asking { plan, pending } = self;
        (plan, pending)
    }
}

impl Drop for Asking {
    fn drop(self) {
        let Asking {
            plan: _,
            pending: _,
        } = self;
    }
}

/// The end of a transaction, and the reply of a rolling back.
pub struct Ending {
    pub usage: Usage,
    pub driver: Driver,
    pub back: Line,
}

impl Ending {
    pub fn parts(self) -> (Usage, Driver, Line)
        ensures { result ≡ (self.usage, self.driver, self.back) }
    {
        let Ending {
            usage,
            driver,
            back,
        } = self;
        (usage, driver, back)
    }
}

impl Drop for Ending {
    fn drop(self) {
        let Ending {
            usage: _,
            driver: _,
            back: _,
        } = self;
    }
}
