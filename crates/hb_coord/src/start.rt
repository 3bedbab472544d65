// A start: the disk is restarted, and its log is read.
ghost use Rattle.std.specs.Prelude.{◌≡◌, ◌+◌, ◌≤◌, ◌<◌, ◌^◌, ℕ, true, false, is_some, All, IfOk, IfErr, IfSome, List, ◌++◌, ◌∷◌, []};
ghost use Rattle.std.specs.BTreeSet.{btree_set_len};
ghost use Rattle.hb_edge.specs.Causes.{Rose};
ghost use Rattle.hb_edge.specs.Stops.{Leaves};
ghost use Rattle.hb_types.specs.declared.change.LogItem.{LogItem};
ghost use Rattle.hb_types.specs.declared.change.Placed.{Placed};
ghost use Rattle.hb_types.specs.Lists.{Each};
ghost use Rattle.hb_types.specs.Records.{HasRecord};
ghost use Rattle.hb_disks.specs.StandsFor.{IsCoordinators, greatest_upto};
ghost use Rattle.hb_runs.specs.Coordinator.{happens, came_up, stopped_at};
ghost use Rattle.hb_coord.specs.Memory.{Knows, Reflects};
ghost use Rattle.hb_coord.specs.Standing.{items_of};
ghost use Rattle.hb_coord.specs.Starts.{IsBadAt, IsStrange, Starts, WasLeft, Takes};

use crate::kept::{Ledger, Recorded};
use crate::running::Running;
use hb_codec::records_have_one_form;
use hb_edge::{Clock, Disk, Failed};
use hb_log::{Log, LogFault};
use hb_types::{LogItem, NoMemory, Placed};
use std::alloc::Global;
use std::collections::BTreeSet;

/// Takes a record, and tells whether it is a coordinator's.
fn take(recorded: &mut Recorded, item: &LogItem) -> Result<bool, NoMemory>
    requires { HasRecord item.now }
    ensures { IfOk result (λ own. (log : List LogItem) → Knows log recorded.old → Takes log item.now recorded.new own) }
{
    match item {
        LogItem::Decision { tx, number, .. } => {
            recorded.decide(*tx, *number)?;
            Ok(true)
        }
        LogItem::Ids { upto } => {
            recorded.reserve(*upto);
            Ok(true)
        }
        LogItem::Prepare { .. } | LogItem::Commit { .. } | LogItem::Abort { .. } => Ok(false),
    }
}

/// What the records of a log say.
fn read_all(alloc: Global, records: &[Placed]) -> Result<Recorded, LogFault>
    requires { All (λ p. HasRecord p.item) records.now }
    ensures knows { IfOk result (Knows (items_of records.now)) }
    ensures own { IfOk result (λ _. Each IsCoordinators (items_of records.now)) }
    ensures strange { IfErr result (λ fault. (place : ℕ) → fault ≡ LogFault.Damaged place → IsStrange records.now place) }
    ensures only { IfErr result (λ fault. (fault ≡ LogFault.Fault → ⊥) × (fault ≡ LogFault.Closed → ⊥)) }
{
    let mut recorded = Recorded::new(alloc);
    'records: for record in records {
        match take(&mut recorded, &record.item) {
            Ok(true) => {}
            Ok(false) => {
                return Err(LogFault::Damaged {
                    place: record.place,
                });
            }
            Err(NoMemory) => return Err(LogFault::NoMemory),
        }
    }
    Ok(recorded)
}

/// What a coordinator that comes up knows.
fn come_up(alloc: Global, recorded: Recorded) -> Ledger
    ensures reflects { (log : List LogItem) → Knows log recorded → greatest_upto log ≤ 2 ^ 62 → Reflects (happens (stopped_at log) came_up) result }
    ensures count { btree_set_len result.active ≡ 0 }
{
    let next = recorded.reserved.saturating_add(1);
    Ledger {
        recorded,
        next,
        active: BTreeSet::new(alloc),
    }
}

/// Restarts the disk, and reads its log.
pub(crate) fn start<D: Disk>(
    alloc: Global,
    disk: D,
    clock: &mut Clock,
) -> Result<Running<D>, (LogFault, D)>
    ensures starts { IfOk result (λ r. is_some (D.content disk) ≡ true → D.last disk ≤ clock.old → Starts D.content D.left D.last disk r clock.new) }
    ensures stop { IfOk result (λ r. is_some (D.content disk) ≡ true → D.last disk ≤ clock.old → Leaves clock.old (D.left disk) (D.left r.log.disk) (λ m image. WasLeft D.left D.last disk image)) }
    ensures stop_err { IfErr result (λ e. is_some (D.content disk) ≡ true → D.last disk ≤ clock.old → Leaves clock.old (D.left disk) (D.left e.1) (λ m image. WasLeft D.left D.last disk image)) }

    // Where a record is bad, the place of the first.
    ensures damaged { IfErr result (λ e. (place : ℕ) → e.0 ≡ LogFault.Damaged place → is_some (D.content disk) ≡ true → IfSome (D.content e.1) (λ read. IsBadAt read place)) }
    ensures fault { IfErr result (λ e. e.0 ≡ LogFault.Fault → Rose (D.faults disk) (D.faults e.1)) }
    ensures not_closed { IfErr result (λ e. e.0 ≡ LogFault.Closed → ⊥) }
    ensures is_open { IfOk result (λ r. r.log.closed ≡ false) }
    ensures active { IfOk result (λ r. btree_set_len r.ledger.active ≡ 0) }
    ensures told { IfOk result (λ r. is_some (D.content r.log.disk) ≡ is_some (D.content disk)) }
    ensures told_err { IfErr result (λ e. is_some (D.content e.1) ≡ is_some (D.content disk)) }
    ensures count { IfOk result (λ r. D.faults disk ≤ D.faults r.log.disk) }
    ensures count_err { IfErr result (λ e. D.faults disk ≤ D.faults e.1) }
    ensures clock { (clock.old ≤ clock.new) × (clock.new ≤ clock.old + 5) }
    ensures in_time { IfOk result (λ r. D.last disk ≤ clock.old → D.last r.log.disk ≤ clock.new) }
    ensures in_time_err { IfErr result (λ e. D.last disk ≤ clock.old → D.last e.1 ≤ clock.new) }
{
    records_have_one_form();
    let mut disk = disk;
    match disk.restart(clock) {
        Ok(()) => {}
        Err(Failed) => return Err((LogFault::Fault, disk)),
    }
    let log = match Log::start(alloc, disk, clock, 0) {
        Ok(log) => log,
        Err((fault, disk)) => return Err((fault, disk)),
    };
    match read_all(alloc, log.items()) {
        Ok(recorded) => Ok(Running {
            log,
            ledger: come_up(alloc, recorded),
        }),
        Err(fault) => Err((fault, log.into_disk())),
    }
}
