// What the coordinator has in memory.
ghost use Rattle.std.specs.Prelude.{◌≤◌};
ghost use Rattle.hb_coord.specs.Numbers.{HasNumbers};

use std::collections::{BTreeMap, BTreeSet};

/// What the log says: up to which number transactions are reserved, the greatest commit number, and the number of each
/// transaction that is decided.
#[derive(Drop)]
pub struct Recorded {
    pub reserved: u64,
    pub number: u64,
    pub decided: BTreeMap<u64, u64>,
    ghost numbers: { HasNumbers decided },
}

/// What the log says, the next transaction, and those that are active.
#[derive(Drop)]
pub struct Ledger {
    pub recorded: Recorded,
    pub next: u64,
    pub active: BTreeSet<u64>,
    ghost from_one: { 1 ≤ next },
}
