// Changes of rows, and the records of a log.
ghost use Rattle.std.specs.Prelude.{◌≡◌, IfOk};

use crate::copying::{Copied, copied_items, copied_option};
use crate::lock::Held;
use crate::memory::NoMemory;
use crate::names::{NodeName, Number, Tx};
use crate::places::Place;
use crate::text::Bytes;
use sqlite_items::Items;
use std::alloc::Global;

/// A row that is put at a place, or none that is left there.
#[derive(Debug, Drop)]
pub struct Change {
    pub place: Place,
    pub row: Option<Bytes>,
}

/// A row with its place.
#[derive(Debug, Drop)]
pub struct Stored {
    pub place: Place,
    pub row: Bytes,
}

/// A record of a log, with its place.
#[derive(Debug, Drop)]
pub struct Placed {
    pub place: u64,
    pub item: LogItem,
}

/// A record of a log.
#[derive(Debug, Drop)]
pub enum LogItem {
    Prepare {
        tx: Tx,
        floor: Number,
        locks: Items<Held>,
        changes: Items<Change>,
    },
    Commit {
        tx: Tx,
        number: Number,
    },
    Abort {
        tx: Tx,
    },
    Decision {
        tx: Tx,
        number: Number,
        nodes: Items<NodeName>,
    },
    Ids {
        upto: u64,
    },
}

impl Change {
    pub fn copy(&self, alloc: Global) -> Result<Change, NoMemory>
        ensures { IfOk result (λ c. c ≡ self.now) }
    {
        let row = copied_option(alloc, &self.row)?;
        Ok(Change {
            place: self.place,
            row,
        })
    }
}

impl Copied for Change {
    fn copied(&self, alloc: Global) -> Result<Change, NoMemory> {
        self.copy(alloc)
    }
}

impl LogItem {
    pub fn copy(&self, alloc: Global) -> Result<LogItem, NoMemory>
        ensures { IfOk result (λ c. c ≡ self.now) }
    {
        match self {
            LogItem::Prepare {
                tx,
                floor,
                locks,
                changes,
            } => {
                let locks = Items::from_slice(alloc, locks.as_slice())?;
                let changes = copied_items(alloc, changes)?;
                Ok(LogItem::Prepare {
                    tx: *tx,
                    floor: *floor,
                    locks,
                    changes,
                })
            }
            LogItem::Commit { tx, number } => Ok(LogItem::Commit {
                tx: *tx,
                number: *number,
            }),
            LogItem::Abort { tx } => Ok(LogItem::Abort { tx: *tx }),
            LogItem::Decision { tx, number, nodes } => {
                let nodes = Items::from_slice(alloc, nodes.as_slice())?;
                Ok(LogItem::Decision {
                    tx: *tx,
                    number: *number,
                    nodes,
                })
            }
            LogItem::Ids { upto } => Ok(LogItem::Ids { upto: *upto }),
        }
    }
}

impl Stored {
    pub fn copy(&self, alloc: Global) -> Result<Stored, NoMemory>
        ensures { IfOk result (λ c. c ≡ self.now) }
    {
        let row = self.row.copy(alloc)?;
        Ok(Stored {
            place: self.place,
            row,
        })
    }
}

impl Copied for Stored {
    fn copied(&self, alloc: Global) -> Result<Stored, NoMemory> {
        self.copy(alloc)
    }
}
