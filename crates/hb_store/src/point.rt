// A synchronization point as a store begins it, and how far it got.
use hb_types::Number;

/// Where redo from a point begins: a place of the log, and the floor there.
#[derive(Clone, Copy, Debug, PartialEq, Eq)]
pub struct Point {
    pub from: u64,
    pub floor: Number,
}

/// Whether a further flush is due.
#[derive(Clone, Copy, Debug, PartialEq, Eq)]
pub enum Flushed {
    More,
    Last,
}
