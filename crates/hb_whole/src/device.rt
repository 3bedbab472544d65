// The device calls of a point.
ghost use Rattle.std.specs.Prelude.{◌≡◌, ◌⊎◌, ◌+◌, ◌≤◌, ◌^◌, ◌∷◌, [], ◌++◌, true, false, drop, max, length, List, ℕ, Option, Some, None, is_some, IfSome, OnOk};
ghost use Rattle.std.specs.Option.{option_map};
ghost use Rattle.hb_edge.specs.Causes.{HasCause};
ghost use Rattle.hb_edge.specs.Images.{written};
ghost use Rattle.hb_edge.specs.Stops.{Leaves};
ghost use Rattle.hb_types.specs.Lists.{IsAt};
ghost use Rattle.hb_disks.specs.Points.{Point};
ghost use Rattle.hb_disks.specs.WholeImage.{PointIs, header_bytes};
ghost use Rattle.hb_whole.specs.declared.valid.Valid.{Valid as ValidAt};
ghost use Rattle.hb_whole.specs.Kept.{AreKept, Avoids, Fits, IsReady, spare_at};

use crate::valid::Valid;
use hb_edge::{Clock, Disk, Failed};

/// The place of the header on which the next point is made.
pub(crate) fn spare(valid: Option<Valid>) -> u64
    ensures { result ≡ spare_at valid }
{
    match valid {
        Some(valid) if !valid.second => 64,
        _ => 0,
    }
}

/// Closes the gate of the header on which the next point is made.
pub(crate) fn close_gate<D: Disk>(
    disk: &mut D,
    clock: &mut Clock,
    valid: Valid,
) -> Result<(), Failed>
    ensures stop { (p : Option Point) → AreKept (D.left disk.old (D.last disk.old)) (Some valid) true p → D.last disk.old ≤ clock.old
        → Leaves clock.old (D.left disk.old) (D.left disk.new) (λ m image. PointIs image p) }
    ensures kept { OnOk result ((p : Option Point) (read : List ℕ) → D.content disk.old ≡ Some read → AreKept (D.left disk.old (D.last disk.old)) (Some valid) true p
        → AreKept (D.left disk.new (D.last disk.new)) (Some valid) false p) }
    ensures content { OnOk result (D.content disk.new ≡ option_map (written (spare_at (Some valid)) (0 ∷ [])) (D.content disk.old)) }
    ensures told { is_some (D.content disk.new) ≡ is_some (D.content disk.old) }
    ensures clock { (clock.old ≤ clock.new) × (clock.new ≤ clock.old + 2) }
    ensures last { D.last disk.new ≡ max (D.last disk.old) clock.new }
    ensures cause { HasCause (D.faults disk.old) (D.faults disk.new) result }
{
    disk.write_at(clock, spare(Some(valid)), &[0])?;
    disk.sync(clock)
}

/// Writes the bytes behind a header's closed gate, and opens it once they are on the disk.
pub(crate) fn seal<D: Disk>(
    disk: &mut D,
    clock: &mut Clock,
    valid: Option<Valid>,
    bytes: &[u8],
) -> Result<(), Failed>
    requires { length bytes.now ≡ 63 }
    ensures stop { (p : Option Point) (q : Point) (next : ValidAt) (read : List ℕ) → D.content disk.old ≡ Some read → AreKept (D.left disk.old (D.last disk.old)) valid false p
        → IsReady valid read q next → Fits q next → bytes.now ≡ drop 1 (header_bytes q next.place) → D.last disk.old ≤ clock.old
        → Leaves clock.old (D.left disk.old) (D.left disk.new) (λ m image. PointIs image p ⊎ PointIs image (Some q)) }
    ensures kept { OnOk result ((p : Option Point) (q : Point) (next : ValidAt) (read : List ℕ) → D.content disk.old ≡ Some read → AreKept (D.left disk.old (D.last disk.old)) valid false p
        → IsReady valid read q next → Fits q next → bytes.now ≡ drop 1 (header_bytes q next.place)
        → AreKept (D.left disk.new (D.last disk.new)) (Some next) (is_some valid) (Some q)) }
    ensures content { OnOk result (D.content disk.new ≡ option_map (λ s. written (spare_at valid) (1 ∷ []) (written (spare_at valid + 1) bytes.now s)) (D.content disk.old)) }
    ensures told { is_some (D.content disk.new) ≡ is_some (D.content disk.old) }
    ensures clock { (clock.old ≤ clock.new) × (clock.new ≤ clock.old + 4) }
    ensures last { D.last disk.new ≡ max (D.last disk.old) clock.new }
    ensures cause { HasCause (D.faults disk.old) (D.faults disk.new) result }
{
    let gate = spare(valid);
    disk.write_at(clock, gate + 1, bytes)?;
    disk.sync(clock)?;
    disk.write_at(clock, gate, &[1])?;
    disk.sync(clock)
}

/// Makes the file of a store without a valid point.
pub(crate) fn make_anew<D: Disk>(disk: &mut D, clock: &mut Clock) -> Result<(), Failed>
    ensures stop { (read : List ℕ) → D.content disk.old ≡ Some read → length read ≤ 128 → ((image : List ℕ) → D.left disk.old (D.last disk.old) image → image ≡ read) → D.last disk.old ≤ clock.old
        → Leaves clock.old (D.left disk.old) (D.left disk.new) (λ m image. length image ≤ 128) }
    ensures kept { OnOk result ((read : List ℕ) → D.content disk.old ≡ Some read → length read ≤ 128 → AreKept (D.left disk.new (D.last disk.new)) None false None) }
    ensures told { is_some (D.content disk.new) ≡ is_some (D.content disk.old) }
    ensures clock { (clock.old ≤ clock.new) × (clock.new ≤ clock.old + 2) }
    ensures last { D.last disk.new ≡ max (D.last disk.old) clock.new }
    ensures cause { HasCause (D.faults disk.old) (D.faults disk.new) result }
{
    disk.write_at(clock, 0, &[0; 128])?;
    disk.sync(clock)
}

/// Writes an image behind the headers, where it touches nothing of the valid point.
pub(crate) fn write_image<D: Disk>(
    disk: &mut D,
    clock: &mut Clock,
    _valid: Option<Valid>,
    place: u64,
    bytes: &[u8],
) -> Result<(), Failed>
    requires { place + length bytes.now ≤ 2 ^ 62 }
    ensures stop { (p : Option Point) → AreKept (D.left disk.old (D.last disk.old)) _valid false p → 128 ≤ place → Avoids _valid place (length bytes.now) → D.last disk.old ≤ clock.old
        → Leaves clock.old (D.left disk.old) (D.left disk.new) (λ m image. PointIs image p) }
    ensures kept { (p : Option Point) → AreKept (D.left disk.old (D.last disk.old)) _valid false p → 128 ≤ place → Avoids _valid place (length bytes.now)
        → AreKept (D.left disk.new (D.last disk.new)) _valid false p }
    ensures content { OnOk result (IfSome (D.content disk.new) (λ s. IsAt s place bytes.now)) }
    ensures told { is_some (D.content disk.new) ≡ is_some (D.content disk.old) }
    ensures clock { (clock.old ≤ clock.new) × (clock.new ≤ clock.old + 1) }
    ensures last { D.last disk.new ≡ max (D.last disk.old) clock.new }
    ensures cause { HasCause (D.faults disk.old) (D.faults disk.new) result }
{
    disk.write_at(clock, place, bytes)
}

// Closes the other header where it is opened.
fn shut_spare<D: Disk>(
    disk: &mut D,
    clock: &mut Clock,
    valid: Option<Valid>,
    spare_open: bool,
) -> Result<(), Failed>
    ensures stop { (p : Option Point) → AreKept (D.left disk.old (D.last disk.old)) valid spare_open p → D.last disk.old ≤ clock.old
        → Leaves clock.old (D.left disk.old) (D.left disk.new) (λ m image. PointIs image p) }
    ensures kept { OnOk result ((p : Option Point) (read : List ℕ) → D.content disk.old ≡ Some read → AreKept (D.left disk.old (D.last disk.old)) valid spare_open p
        → AreKept (D.left disk.new (D.last disk.new)) valid false p) }
    ensures told { is_some (D.content disk.new) ≡ is_some (D.content disk.old) }
    ensures clock { (clock.old ≤ clock.new) × (clock.new ≤ clock.old + 2) }
    ensures in_time { D.last disk.old ≤ clock.old → D.last disk.new ≤ clock.new }
    ensures cause { HasCause (D.faults disk.old) (D.faults disk.new) result }
{
    match (valid, spare_open) {
        (Some(valid), true) => close_gate(disk, clock, valid),
        _ => Ok(()),
    }
}

/// Closes the other header where it is opened, and writes an image where it touches nothing of the valid point.
pub(crate) fn put_image<D: Disk>(
    disk: &mut D,
    clock: &mut Clock,
    valid: Option<Valid>,
    spare_open: bool,
    place: u64,
    bytes: &[u8],
) -> Result<(), Failed>
    requires { place + length bytes.now ≤ 2 ^ 62 }
    ensures stop { (p : Option Point) (read : List ℕ) → D.content disk.old ≡ Some read → AreKept (D.left disk.old (D.last disk.old)) valid spare_open p → 128 ≤ place
        → Avoids valid place (length bytes.now) → D.last disk.old ≤ clock.old
        → Leaves clock.old (D.left disk.old) (D.left disk.new) (λ m image. PointIs image p) }
    ensures kept { OnOk result ((p : Option Point) (read : List ℕ) → D.content disk.old ≡ Some read → AreKept (D.left disk.old (D.last disk.old)) valid spare_open p → 128 ≤ place
        → Avoids valid place (length bytes.now) → AreKept (D.left disk.new (D.last disk.new)) valid false p) }
    ensures content { OnOk result (IfSome (D.content disk.new) (λ s. IsAt s place bytes.now)) }
    ensures told { is_some (D.content disk.new) ≡ is_some (D.content disk.old) }
    ensures clock { (clock.old ≤ clock.new) × (clock.new ≤ clock.old + 3) }
    ensures in_time { D.last disk.old ≤ clock.old → D.last disk.new ≤ clock.new }
    ensures cause { HasCause (D.faults disk.old) (D.faults disk.new) result }
{
    shut_spare(disk, clock, valid, spare_open)?;
    write_image(disk, clock, valid, place, bytes)
}
