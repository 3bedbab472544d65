// Why a system isn't opened.
ghost use Rattle.std.specs.Prelude.{◌≡◌, ◌≤◌, ◌-◌, ◌/◌, ℕ, true, false, length, vec_len, Err, IfErr, MatchResult};
ghost use Rattle.hb_system.specs.Disks.{AreKept};
ghost use Rattle.hb_system.specs.Opening.{AreReady, IsCause, damage_at, is_early, line_of, status_of};
ghost use Rattle.hb_system.specs.Starting.{IsDisksOf};

use crate::disks::{first_written, sync_all};
use hb_edge::{Clock, Disk, Failed};
use hb_model::{Line, Reply};
use hb_types::NodeName;

/// Why a system isn't opened.
#[derive(Clone, Copy, Debug, PartialEq, Eq)]
pub enum Refusal {
    /// These aren't the disks of a system.
    Usage,
    /// A disk failed when it was synced or measured.
    Disk,
    /// The disk at this place isn't empty, and those before it are.
    Damaged(usize),
    /// A disk failed when its node was started.
    Start,
    Memory,
}

/// The line that tells of a damage.
fn damage_at(at: usize) -> Line
    requires { at ≤ 100 }
    ensures { result ≡ damage_at at }
{
    let node = NodeName(((at + 1) / 2) as u8);
    let reply = if at > 0 && at % 2 == 0 {
        Reply::DamagedArea(node, 0)
    } else {
        Reply::DamagedLog(node, 0)
    };
    Line {
        session: None,
        work: None,
        reply,
    }
}

impl Refusal {
    /// The exit status.
    pub(crate) fn status(self) -> u8
        ensures { result ≡ status_of self }
    {
        match self {
            Refusal::Usage => 1,
            Refusal::Disk => 5,
            Refusal::Start => 5,
            Refusal::Damaged(_) => 6,
            Refusal::Memory => 7,
        }
    }

    /// The line that is told of it.
    pub(crate) fn told(self) -> Option<Line>
        requires { (at : ℕ) → self ≡ Refusal.Damaged at → at ≤ 100 }
        ensures { result ≡ line_of self }
    {
        match self {
            Refusal::Damaged(at) => Some(damage_at(at)),
            Refusal::Usage => None,
            Refusal::Disk => None,
            Refusal::Start => None,
            Refusal::Memory => None,
        }
    }
}

/// Whether so many disks are those of a system.
fn are_disks(count: usize) -> bool
    ensures yes { result ≡ true → IsDisksOf ((count - 3) / 2) count }
    ensures no { result ≡ false → (n : ℕ) → IsDisksOf n count → ⊥ }
{
    count >= 5 && count <= 19 && count % 2 == 1
}

/// Syncs the disks, and finds whether they are empty.
pub(crate) fn inspect<D: Disk>(disks: &mut [D], clock: &mut Clock) -> Result<(), Refusal>
    ensures kept { AreKept D.content D.last D.faults clock.old clock.new disks.old disks.new }
    ensures found { MatchResult result (λ _. AreReady D.content D.left D.last disks.new) (λ e. IsCause D.content D.faults disks.old disks.new e) }
    ensures untouched { result ≡ Err Refusal.Usage → (disks.new ≡ disks.old) × (clock.new ≡ clock.old) }
    ensures early { IfErr result (λ e. is_early e ≡ true) }
{
    if !are_disks(disks.len()) {
        return Err(Refusal::Usage);
    }
    match sync_all(disks, clock) {
        Ok(()) => {}
        Err(Failed) => return Err(Refusal::Disk),
    }
    match first_written(disks, clock) {
        Ok(None) => Ok(()),
        Ok(Some(at)) => Err(Refusal::Damaged(at)),
        Err(Failed) => Err(Refusal::Disk),
    }
}

/// Inspects the disks of a list.
pub(crate) fn inspect_all<D: Disk>(disks: &mut Vec<D>, clock: &mut Clock) -> Result<(), Refusal>
    ensures kept { AreKept D.content D.last D.faults clock.old clock.new disks.old.items disks.new.items }
    ensures found { MatchResult result (λ _. AreReady D.content D.left D.last disks.new.items) (λ e. IsCause D.content D.faults disks.old.items disks.new.items e) }
    ensures untouched { result ≡ Err Refusal.Usage → (disks.new.items ≡ disks.old.items) × (clock.new ≡ clock.old) }
    ensures early { IfErr result (λ e. is_early e ≡ true) }
    ensures len { vec_len disks.new ≡ vec_len disks.old }
{
    inspect(disks, clock)
}
