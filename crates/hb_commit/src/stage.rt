// Where a driver stands.
use crate::outcome::Outcome;
use hb_types::{Left, NodeName, Number};

/// What is asked next, or which answer is awaited. `from` is the first node that may still be asked.
#[derive(Clone, Copy, Debug, PartialEq, Eq)]
pub enum Stage {
    Voting {
        from: u8,
        prepared: Left,
    },
    /// The node's vote is awaited.
    Vote {
        node: NodeName,
        prepared: Left,
    },
    /// The decision is awaited.
    Decision,
    Committing {
        number: Number,
        from: u8,
        left: Left,
    },
    /// The node's commit is awaited.
    Commit {
        number: Number,
        node: NodeName,
        left: Left,
    },
    Aborting {
        prepared: Left,
        why: Outcome,
    },
    /// The coordinator's abort is awaited.
    Abort {
        prepared: Left,
        why: Outcome,
    },
    Undoing {
        prepared: Left,
        from: u8,
        left: Left,
        why: Outcome,
    },
    /// The node's rollback is awaited.
    Undo {
        prepared: Left,
        node: NodeName,
        left: Left,
        why: Outcome,
    },
    Ended(Outcome, Left),
}
