// A record on its way to a server's log.
ghost use Rattle.std.specs.Prelude.{◌≡◌, ◌⊎◌, ◌+◌, ◌++◌, ◌∷◌, [], ◌≤◌, ◌^◌, ℕ, List, false, length, is_some, OnOk};
ghost use Rattle.hb_edge.specs.Causes.{HasCause};
ghost use Rattle.hb_edge.specs.Stops.{Leaves};
ghost use Rattle.hb_types.specs.declared.change.LogItem.{LogItem};
ghost use Rattle.hb_types.specs.Records.{HasRecord, framed as spelled};
ghost use Rattle.hb_force.specs.Standing.{HasFrom, HasRecords};

use hb_edge::{Clock, Disk, Failed};
use hb_log::Log;

/// Appends a record.
pub(crate) fn append<D: Disk>(
    log: &mut Log<D>,
    clock: &mut Clock,
    bytes: &[u8],
) -> Result<(), Failed>
    requires is_open { log.old.closed ≡ false }
    requires fits { log.old.end + 1 + length bytes.now ≤ 2 ^ 62 }
    ensures done { OnOk result ((from : ℕ) (items : List LogItem) (item : LogItem) → HasRecords D.content D.left D.last from items log.old clock.old → HasRecord item → bytes.now ≡ spelled item ++ 0 ∷ []
        → HasRecords D.content D.left D.last from (items ++ item ∷ []) log.new clock.new) }
    ensures leaves { (from : ℕ) (items : List LogItem) (item : LogItem) (has : HasRecords D.content D.left D.last from items log.old clock.old) → HasRecord item → bytes.now ≡ spelled item ++ 0 ∷ []
        → Leaves clock.old (D.left log.old.disk) (D.left log.new.disk) (λ m image. (HasFrom from image items ⊎ HasFrom from image (items ++ item ∷ [])) × (length has.settled.image ≤ length image)) }
    ensures end { OnOk result (log.new.end ≡ log.old.end + length bytes.now) }
    ensures is_open { OnOk result (log.new.closed ≡ false) }
    ensures told { is_some (D.content log.new.disk) ≡ is_some (D.content log.old.disk) }
    ensures clock { (clock.old ≤ clock.new) × (clock.new ≤ clock.old + 4) }
    ensures in_time { D.last log.old.disk ≤ clock.old → D.last log.new.disk ≤ clock.new }
    ensures cause { HasCause (D.faults log.old.disk) (D.faults log.new.disk) result }
{
    match log.append_bytes(clock, bytes) {
        Ok(_) => Ok(()),
        Err(_) => Err(Failed),
    }
}
