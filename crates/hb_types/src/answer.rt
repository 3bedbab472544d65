// What a node answers.
ghost use Rattle.std.specs.Prelude.{◌≡◌, IfOk};

use crate::change::Stored;
use crate::copying::{copied_items, copied_option};
use crate::lock::{Holder, Mode};
use crate::memory::NoMemory;
use crate::names::{NodeName, Number, Owner, Tx};
use crate::places::Path;
use crate::text::Bytes;
use sqlite_items::Items;
use std::alloc::Global;

/// One transaction that waits for another.
#[derive(Clone, Copy, Debug, PartialEq, Eq)]
pub struct Edge {
    pub waiter: Tx,
    pub waiter_owner: Owner,
    pub node: NodeName,
    pub path: Path,
    pub wanted: Mode,
    pub holder: Tx,
    pub holder_owner: Owner,
    pub held: Mode,
}

/// What a node answers.
#[derive(Drop)]
pub enum Answer {
    Begun(Tx),
    Decided(Number),
    Active,
    Aborted,
    Done,
    Blocked {
        path: Path,
        wanted: Mode,
        holders: Items<Holder>,
    },
    Row(Option<Bytes>),
    Rows(Items<Stored>),
    Keys(Items<i64>),
    Vote {
        floor: Number,
    },
    Low {
        floor: Number,
    },
    More,
    Started {
        doubts: Items<Tx>,
    },
    Waiting(Items<Edge>),
    Cycle(Items<Edge>),
    Gone,
    Ready,
    NotYet {
        target: Tx,
    },
    Down,
    NotMine,
    NoBranch,
    NotLocked,
    NotPrepared,
    NotBegun,
    NotActive,
    AlreadyUp,
    NumbersSpent,
    Fault {
        area: bool,
    },
    Damaged {
        area: bool,
        place: u64,
    },
    NoMemory,
}

impl Answer {
    pub fn copy(&self, alloc: Global) -> Result<Answer, NoMemory>
        ensures { IfOk result (λ c. c ≡ self.now) }
    {
        match self {
            Answer::Begun(x) => Ok(Answer::Begun(*x)),
            Answer::Decided(x) => Ok(Answer::Decided(*x)),
            Answer::Active => Ok(Answer::Active),
            Answer::Aborted => Ok(Answer::Aborted),
            Answer::Done => Ok(Answer::Done),
            Answer::Blocked {
                path,
                wanted,
                holders,
            } => {
                let holders = Items::from_slice(alloc, holders.as_slice())?;
                Ok(Answer::Blocked {
                    path: *path,
                    wanted: *wanted,
                    holders,
                })
            }
            Answer::Row(x) => Ok(Answer::Row(copied_option(alloc, x)?)),
            Answer::Rows(x) => Ok(Answer::Rows(copied_items(alloc, x)?)),
            Answer::Keys(x) => Ok(Answer::Keys(Items::from_slice(alloc, x.as_slice())?)),
            Answer::Vote { floor } => Ok(Answer::Vote { floor: *floor }),
            Answer::Low { floor } => Ok(Answer::Low { floor: *floor }),
            Answer::More => Ok(Answer::More),
            Answer::Started { doubts } => {
                let doubts = Items::from_slice(alloc, doubts.as_slice())?;
                Ok(Answer::Started { doubts })
            }
            Answer::Waiting(x) => Ok(Answer::Waiting(Items::from_slice(alloc, x.as_slice())?)),
            Answer::Cycle(x) => Ok(Answer::Cycle(Items::from_slice(alloc, x.as_slice())?)),
            Answer::Gone => Ok(Answer::Gone),
            Answer::Ready => Ok(Answer::Ready),
            Answer::NotYet { target } => Ok(Answer::NotYet { target: *target }),
            Answer::Down => Ok(Answer::Down),
            Answer::NotMine => Ok(Answer::NotMine),
            Answer::NoBranch => Ok(Answer::NoBranch),
            Answer::NotLocked => Ok(Answer::NotLocked),
            Answer::NotPrepared => Ok(Answer::NotPrepared),
            Answer::NotBegun => Ok(Answer::NotBegun),
            Answer::NotActive => Ok(Answer::NotActive),
            Answer::AlreadyUp => Ok(Answer::AlreadyUp),
            Answer::NumbersSpent => Ok(Answer::NumbersSpent),
            Answer::Fault { area } => Ok(Answer::Fault { area: *area }),
            Answer::Damaged { area, place } => Ok(Answer::Damaged {
                area: *area,
                place: *place,
            }),
            Answer::NoMemory => Ok(Answer::NoMemory),
        }
    }
}
