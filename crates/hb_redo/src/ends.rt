// How many ends of each transaction's branches are to come.
ghost use Rattle.std.specs.Prelude.{◌≡◌, ◌<◌, ◌+◌, ◌-◌, ◌^◌, ◌==◌, ℕ, if◌then◌else◌, [], IfOk, OnOk};
ghost use Rattle.hb_redo.specs.Damage.{items_of};
ghost use Rattle.hb_redo.specs.Stages.{CountsEnds, EndIs, count_of};

use hb_types::{LogItem, NoMemory, Placed, Tx};
use std::alloc::Global;
use std::collections::BTreeMap;

pub(crate) type EndsLeft = BTreeMap<u64, u64>;

/// How many records end a branch of each transaction.
pub(crate) fn count(alloc: Global, records: &[Placed]) -> Result<EndsLeft, NoMemory>
    ensures { IfOk result (λ counts. CountsEnds counts (items_of records.now)) }
{
    let mut ends = BTreeMap::new(alloc);
    for record in records {
        match ended_by(&record.item) {
            Some(tx) => add(&mut ends, tx)?,
            None => {}
        }
    }
    Ok(ends)
}

/// Whose branch a record ends.
fn ended_by(item: &LogItem) -> Option<Tx>
    ensures { EndIs item.now result }
{
    match item {
        LogItem::Commit { tx, .. } => Some(*tx),
        LogItem::Abort { tx } => Some(*tx),
        LogItem::Prepare { .. } | LogItem::Decision { .. } | LogItem::Ids { .. } => None,
    }
}

/// How many ends of a transaction's branches are to come.
pub(crate) fn left(ends: &EndsLeft, tx: Tx) -> u64
    ensures { result ≡ count_of ends.now tx.0 }
{
    ends.get(&tx.0).copied().unwrap_or(0)
}

fn add(ends: &mut EndsLeft, tx: Tx) -> Result<(), NoMemory>
    requires { count_of ends.old tx.0 + 1 < 2 ^ 64 }
    ensures { OnOk result ((t : ℕ) → count_of ends.new t ≡ (if tx.0 == t then count_of ends.old t + 1 else count_of ends.old t)) }
{
    let more = left(ends, tx) + 1;
    ends.insert(tx.0, more)?;
    Ok(())
}

/// One of the ends has come.
pub(crate) fn pass(ends: &mut EndsLeft, tx: Tx)
    ensures { (t : ℕ) → count_of ends.new t ≡ (if tx.0 == t then count_of ends.old t - 1 else count_of ends.old t) }
{
    if let Some(count) = ends.get_mut(&tx.0) {
        *count = count.saturating_sub(1);
    }
}
