// Opens a log.
ghost use Rattle.std.specs.Prelude.{◌≡◌, ◌⊎◌, ◌+◌, ◌-◌, ◌<◌, ◌≤◌, ◌^◌, [], ◌∷◌, List, ℕ, Some, length, take, drop, max, is_some, IfOk, IfErr, IfSome, OnOk, OnErr, IsErrOf};
ghost use Rattle.std.specs.Option.{option_map};
ghost use Rattle.hb_edge.specs.Causes.{HasCause, Rose};
ghost use Rattle.hb_edge.specs.Stops.{Leaves, Only};

use crate::fault::LogFault;
use hb_edge::{Clock, Disk, Failed};
use std::alloc::Global;

/// Makes a log of fewer than 7 bytes anew: one closed gate.
pub fn make_anew<D: Disk>(disk: &mut D, clock: &mut Clock) -> Result<(), Failed>
    ensures stop { ((c : List ℕ) → D.left disk.old (D.last disk.old) c → length c < 7) → D.last disk.old ≤ clock.old
        → Leaves clock.old (D.left disk.old) (D.left disk.new) (λ m c. length c < 7) }
    ensures content { OnOk result ((s : List ℕ) → D.content disk.old ≡ Some s → D.content disk.new ≡ Some (0 ∷ [])) }
    ensures kept { OnOk result ((s : List ℕ) → D.content disk.old ≡ Some s → D.last disk.old ≤ clock.old → Only (D.left disk.new) clock.new (0 ∷ [])) }
    ensures told { is_some (D.content disk.new) ≡ is_some (D.content disk.old) }
    ensures clock { (clock.old ≤ clock.new) × (clock.new ≤ clock.old + 3) }
    ensures last { D.last disk.new ≡ max (D.last disk.old) clock.new }
    ensures cause { HasCause (D.faults disk.old) (D.faults disk.new) result }
{
    disk.cut(clock, 0)?;
    disk.write_at(clock, 0, &[0])?;
    disk.sync(clock)
}

/// The bytes from a place on.
pub fn read_from<D: Disk>(
    alloc: Global,
    disk: &mut D,
    clock: &mut Clock,
    from: u64,
    size: u64,
) -> Result<Vec<u8>, LogFault>
    ensures bytes { IfOk result (λ b. (s : List ℕ) → D.content disk.old ≡ Some s → size ≡ length s → b.items ≡ drop from s) }
    ensures short { IfOk result (λ b. from + length b.items ≤ 2 ^ 62) }
    ensures content { D.content disk.new ≡ D.content disk.old }
    ensures stop { D.last disk.old ≤ clock.old → (c : List ℕ) (m : ℕ) → clock.old ≤ m → D.left disk.new m c → D.left disk.old (D.last disk.old) c }
    ensures before { (c : List ℕ) (m : ℕ) → m < clock.old → (D.left disk.new m c → D.left disk.old m c) × (D.left disk.old m c → D.left disk.new m c) }
    ensures clock { (clock.old ≤ clock.new) × (clock.new ≤ clock.old + 1) }
    ensures last { D.last disk.new ≤ max (D.last disk.old) clock.new }
    ensures fault { IsErrOf result LogFault.Fault → Rose (D.faults disk.old) (D.faults disk.new) }
    ensures count { D.faults disk.old ≤ D.faults disk.new }
    ensures no_other { (IsErrOf result LogFault.Closed → ⊥) × ((place : ℕ) → IsErrOf result (LogFault.Damaged place) → ⊥) }
{
    if size > 1 << 62 || from > 1 << 62 {
        return Err(LogFault::NoMemory);
    }
    if from >= size {
        return Ok(Vec::new(alloc));
    }
    let mut bytes = Vec::new(alloc);
    if bytes.resize((size - from) as usize, 0).is_err() {
        return Err(LogFault::NoMemory);
    }
    match disk.read(clock, from, &mut bytes) {
        Ok(()) => Ok(bytes),
        Err(_) => Err(LogFault::Fault),
    }
}
