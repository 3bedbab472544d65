// What the manager answers, and what it keeps of a wait.
use hb_types::{Edge, NodeName, Tx};
use sqlite_items::Items;

/// A transaction's wait at a node: its edges to the holders that were live.
#[derive(Debug, Drop)]
pub struct Wait {
    pub node: NodeName,
    pub edges: Items<Edge>,
}

/// What a wait is answered.
#[derive(Debug, Drop)]
pub enum Waits {
    /// The edges that are kept.
    Waiting(Items<Edge>),
    /// The cycle that it would close; nothing is kept.
    Cycle(Items<Edge>),
    /// All holders have ended.
    Gone,
}

/// Whether a transaction may go on.
#[derive(Clone, Copy, Debug, PartialEq, Eq)]
pub enum Ready {
    Ready,
    NotYet { target: Tx },
}
