// What a node is asked.

use crate::change::Change;
use crate::lock::{Holder, Mode};
use crate::names::{Left, NodeName, Number, Owner, Tx};
use crate::places::{Path, Place, Space};
use sqlite_items::Items;

/// A branch's vote to commit.
#[derive(Clone, Copy, Debug, PartialEq, Eq)]
pub struct Vote {
    pub node: NodeName,
    pub floor: Number,
}

/// What a node is asked.
#[derive(Drop)]
pub enum Request {
    Begin {
        owner: Owner,
    },
    Decide {
        tx: Tx,
        votes: Items<Vote>,
    },
    Abort {
        tx: Tx,
    },
    Outcome {
        tx: Tx,
    },
    Enlist {
        tx: Tx,
    },
    Lock {
        tx: Tx,
        path: Path,
        mode: Mode,
    },
    Read {
        tx: Tx,
        place: Place,
    },
    Scan {
        tx: Tx,
        space: Space,
    },
    ScanGroup {
        tx: Tx,
        space: Space,
        group: u16,
    },
    GroupKeys {
        space: Space,
        group: u16,
        most: u32,
    },
    Write {
        tx: Tx,
        change: Change,
    },
    Prepare {
        tx: Tx,
    },
    Commit {
        tx: Tx,
        number: Number,
    },
    Rollback {
        tx: Tx,
    },
    SyncBegin,
    SyncFlush,
    SyncFinish,
    Start,
    Stop,
    Enter {
        tx: Tx,
        owner: Owner,
    },
    Wait {
        tx: Tx,
        node: NodeName,
        path: Path,
        wanted: Mode,
        holders: Items<Holder>,
    },
    Ready {
        tx: Tx,
    },
    End {
        tx: Tx,
        left: Left,
    },
    Settled {
        tx: Tx,
        node: NodeName,
    },
    Halted {
        node: NodeName,
    },
}
