// The disks of a system before its nodes are started.
ghost use Rattle.std.specs.Prelude.{◌≡◌, ◌<◌, All, HoldsAt, length, IfOk, MatchOption, OnOk, OnErr};
ghost use Rattle.std.specs.List.{AllWithin};
ghost use Rattle.hb_system.specs.Disks.{AreKept, IsSettled, IsEmpty, IsWritten, HasFault};

use hb_edge::{Clock, Disk, Failed};

/// Syncs the disks in their order.
pub(crate) fn sync_all<D: Disk>(disks: &mut [D], clock: &mut Clock) -> Result<(), Failed>
    ensures kept { AreKept D.content D.last D.faults clock.old clock.new disks.old disks.new }
    ensures settled { OnOk result (All (IsSettled D.content D.left D.last) disks.new) }
    ensures failed { OnErr result (HasFault D.faults disks.old disks.new) }
{
    for i in 0..disks.len() {
        disks[i].sync(clock)?;
    }
    Ok(())
}

/// The place of the first disk that isn't empty.
pub(crate) fn first_written<D: Disk>(
    disks: &mut [D],
    clock: &mut Clock,
) -> Result<Option<usize>, Failed>
    ensures kept { AreKept D.content D.last D.faults clock.old clock.new disks.old disks.new }
    ensures settled { All (IsSettled D.content D.left D.last) disks.old → All (IsSettled D.content D.left D.last) disks.new }
    ensures found { IfOk result (λ found. MatchOption found (All (IsEmpty D.content) disks.new)
        (λ k. (k < length disks.new) × HoldsAt (IsWritten D.content) disks.new k × AllWithin (IsEmpty D.content) disks.new 0 k)) }
    ensures failed { OnErr result (HasFault D.faults disks.old disks.new) }
{
    for i in 0..disks.len() {
        if disks[i].length(clock)? > 0 {
            return Ok(Some(i));
        }
    }
    Ok(None)
}
