// The four device calls of an append.
ghost use Rattle.std.specs.Prelude.{◌≡◌, ◌+◌, ◌<◌, ◌≤◌, ◌^◌, [], ◌∷◌, List, ℕ, Some, length, max, is_some, OnOk, OnErr};
ghost use Rattle.hb_edge.specs.Causes.{HasCause};
ghost use Rattle.hb_edge.specs.Images.{written};
ghost use Rattle.hb_edge.specs.Stops.{Leaves, Only};
ghost use Rattle.hb_log.specs.Forced.{Forced};

use hb_edge::{Clock, Disk, Failed};

/// Writes behind the closed gate, and opens it once that is on the disk.
pub fn force<D: Disk>(
    disk: &mut D,
    clock: &mut Clock,
    gate: u64,
    bytes: &[u8],
) -> Result<(), Failed>
    requires { gate + 1 + length bytes.now ≤ 2 ^ 62 }
    ensures stop { (s : List ℕ) → D.content disk.old ≡ Some s → gate < length s → ((c : List ℕ) → D.left disk.old (D.last disk.old) c → c ≡ s) → D.last disk.old ≤ clock.old
        → Leaves clock.old (D.left disk.old) (D.left disk.new) (λ m c. Forced gate bytes.now s c) }
    ensures content { OnOk result ((s : List ℕ) → D.content disk.old ≡ Some s
        → D.content disk.new ≡ Some (written gate (1 ∷ []) (written (gate + 1) bytes.now s))) }
    ensures kept { OnOk result ((s : List ℕ) → D.content disk.old ≡ Some s → D.last disk.old ≤ clock.old
        → Only (D.left disk.new) clock.new (written gate (1 ∷ []) (written (gate + 1) bytes.now s))) }
    ensures told { is_some (D.content disk.new) ≡ is_some (D.content disk.old) }
    ensures clock { (clock.old ≤ clock.new) × (clock.new ≤ clock.old + 4) }
    ensures last { D.last disk.new ≡ max (D.last disk.old) clock.new }
    ensures cause { HasCause (D.faults disk.old) (D.faults disk.new) result }
{
    disk.write_at(clock, gate + 1, bytes)?;
    disk.sync(clock)?;
    disk.write_at(clock, gate, &[1])?;
    disk.sync(clock)
}
