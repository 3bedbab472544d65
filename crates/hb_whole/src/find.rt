// Finds the valid point of a disk.
ghost use Rattle.std.specs.Prelude.{◌≡◌, ◌+◌, ◌≤◌, ℕ, List, [], length, take, drop, Option, Some, None, is_some, IfSome, IfOk, IsErrOf, MatchOption, unwrap_or, false, not};
ghost use Rattle.hb_edge.specs.Causes.{Rose};
ghost use Rattle.hb_edge.specs.Images.{window};
ghost use Rattle.hb_edge.specs.Stops.{Leaves};
ghost use Rattle.hb_types.specs.declared.change.Stored.{Stored as Row};
ghost use Rattle.hb_store.specs.Meanings.{mark_of, HoldsSame};
ghost use Rattle.hb_disks.specs.Points.{Point as PointAt, no_point};
ghost use Rattle.hb_disks.specs.WholeImage.{PointIs, is_open};
ghost use Rattle.hb_whole.specs.Headers.{chosen};
ghost use Rattle.hb_whole.specs.Kept.{AreKept, header_at};
ghost use Rattle.hb_whole.specs.Points.{AreRows, IsDamaged, IsFound, IsMark, IsQuiet};
ghost use Rattle.hb_whole.specs.Read.{IsImage};

use crate::decode::rows_of_image;
use crate::device::make_anew;
use crate::header::{Header, choose};
use crate::opened::{header_place, opened_header};
use crate::valid::Valid;
use hb_codec::changes_have_one_form;
use hb_edge::{Clock, Disk};
use hb_store::{Point, StoreFault};
use hb_types::{NoMemory, Number, Stored};
use sqlite_items::Items;
use std::alloc::Global;

/// The valid point of a disk, as the store is to know it; or that there is none.
#[derive(Drop)]
pub(crate) struct Found {
    pub valid: Option<Valid>,
    /// Whether the gate of the other header reads 1.
    pub spare_open: bool,
    pub point: Point,
    pub rows: Items<Stored>,
}

fn nothing(alloc: Global) -> Found
    ensures valid { result.valid ≡ None }
    ensures spare_open { result.spare_open ≡ false }
    ensures point { result.point ≡ mark_of no_point }
    ensures mark { IsMark result.point }
    ensures rows { result.rows ≡ [] }
{
    Found {
        valid: None,
        spare_open: false,
        point: Point {
            from: 0,
            floor: Number(0),
        },
        rows: Items::new(alloc),
    }
}

// So many bytes from a place on.
fn read_bytes<D: Disk>(
    alloc: Global,
    disk: &mut D,
    clock: &mut Clock,
    place: u64,
    count: u64,
) -> Result<Vec<u8>, StoreFault>
    ensures bytes { IfOk result (λ bytes. (read : List ℕ) → D.content disk.old ≡ Some read → bytes.items ≡ window read place count) }
    ensures length { IfOk result (λ bytes. length bytes.items ≡ count) }
    ensures content { D.content disk.new ≡ D.content disk.old }
    ensures quiet { IsQuiet clock.old clock.new (D.left disk.old) (D.left disk.new) (D.last disk.old) (D.last disk.new) }
    ensures no_other { (IsErrOf result StoreFault.Spent → ⊥) × ((at : ℕ) → IsErrOf result (StoreFault.Damaged at) → ⊥) }
    ensures fault { IsErrOf result StoreFault.Fault → Rose (D.faults disk.old) (D.faults disk.new) }
    ensures faults { D.faults disk.old ≤ D.faults disk.new }
{
    let mut bytes = Vec::new(alloc);
    if bytes.resize(count as usize, 0).is_err() {
        return Err(StoreFault::NoMemory);
    }
    match disk.read(clock, place, &mut bytes) {
        Ok(()) => Ok(bytes),
        Err(_) => Err(StoreFault::Fault),
    }
}

// The rows of the image at a place, or none where the bytes there aren't one.
fn read_rows<D: Disk>(
    alloc: Global,
    disk: &mut D,
    clock: &mut Clock,
    place: u64,
    count: u64,
) -> Result<Option<Items<Stored>>, StoreFault>
    ensures found { IfOk result (λ found. (read : List ℕ) → D.content disk.old ≡ Some read → place + count ≤ length read
        → MatchOption found ((rows : List Row) → IsImage (take count (drop place read)) rows → ⊥) (λ rows. IsImage (take count (drop place read)) rows)) }
    ensures rows { IfOk result (λ found. IfSome found AreRows) }
    ensures content { D.content disk.new ≡ D.content disk.old }
    ensures quiet { IsQuiet clock.old clock.new (D.left disk.old) (D.left disk.new) (D.last disk.old) (D.last disk.new) }
    ensures no_other { (IsErrOf result StoreFault.Spent → ⊥) × ((at : ℕ) → IsErrOf result (StoreFault.Damaged at) → ⊥) }
    ensures fault { IsErrOf result StoreFault.Fault → Rose (D.faults disk.old) (D.faults disk.new) }
    ensures faults { D.faults disk.old ≤ D.faults disk.new }
{
    let bytes = match read_bytes(alloc, disk, clock, place, count) {
        Ok(bytes) => bytes,
        Err(fault) => return Err(fault),
    };
    match rows_of_image(alloc, &bytes) {
        Ok(found) => Ok(found),
        Err(NoMemory) => Err(StoreFault::NoMemory),
    }
}

// The point whose header is this one.
fn point_of(headers: &[u8], second: bool, header: Header, rows: Items<Stored>) -> Found
    requires { length headers.now ≡ 128 }
    ensures valid { result.valid ≡ Some (record { second = second; sequence = header.sequence; place = header.place; length = header.length }) }
    ensures spare_open { result.spare_open ≡ is_open headers.now (header_at (not second)) }
    ensures point { result.point ≡ record { from = header.from; floor = record { 0 = header.floor } } }
    ensures rows { result.rows ≡ rows }
{
    let other = if second { 0 } else { 64 };
    Found {
        valid: Some(Valid {
            second,
            sequence: header.sequence,
            place: header.place,
            length: header.length,
        }),
        spare_open: headers[other] == 1,
        point: Point {
            from: header.from,
            floor: Number(header.floor),
        },
        rows,
    }
}

// Reads the point under the valid header.
fn read_point<D: Disk>(
    alloc: Global,
    disk: &mut D,
    clock: &mut Clock,
    size: u64,
    headers: &[u8],
    second: bool,
) -> Result<Found, StoreFault>
    requires { length headers.now ≡ 128 }
    ensures found { IfOk result (λ found. (read : List ℕ) → D.content disk.old ≡ Some read → size ≡ length read → 129 ≤ size → headers.now ≡ take 128 read → chosen headers.now ≡ Some second
        → IsFound read found.valid found.spare_open found.point found.rows) }
    ensures rows { IfOk result (λ found. AreRows found.rows) }
    ensures mark { IfOk result (λ found. IsMark found.point) }
    ensures damaged { (place : ℕ) → IsErrOf result (StoreFault.Damaged place) → (read : List ℕ) → D.content disk.old ≡ Some read → size ≡ length read → 129 ≤ size → headers.now ≡ take 128 read
        → chosen headers.now ≡ Some second → IsDamaged read place }
    ensures content { D.content disk.new ≡ D.content disk.old }
    ensures quiet { IsQuiet clock.old clock.new (D.left disk.old) (D.left disk.new) (D.last disk.old) (D.last disk.new) }
    ensures not_spent { IsErrOf result StoreFault.Spent → ⊥ }
    ensures fault { IsErrOf result StoreFault.Fault → Rose (D.faults disk.old) (D.faults disk.new) }
    ensures faults { D.faults disk.old ≤ D.faults disk.new }
{
    let header = match opened_header(alloc, headers, second, size) {
        Ok(Some(header)) => header,
        Ok(None) => {
            return Err(StoreFault::Damaged {
                place: header_place(second),
            });
        }
        Err(NoMemory) => return Err(StoreFault::NoMemory),
    };
    match read_rows(alloc, disk, clock, header.place, header.length) {
        Ok(Some(rows)) => Ok(point_of(headers, second, header, rows)),
        Ok(None) => Err(StoreFault::Damaged {
            place: header_place(second),
        }),
        Err(fault) => Err(fault),
    }
}

// Reads the valid point of a file that has headers.
fn read_valid<D: Disk>(
    alloc: Global,
    disk: &mut D,
    clock: &mut Clock,
    size: u64,
) -> Result<Found, StoreFault>
    ensures found { IfOk result (λ found. (read : List ℕ) → D.content disk.old ≡ Some read → size ≡ length read → 129 ≤ size
        → IsFound read found.valid found.spare_open found.point found.rows) }
    ensures rows { IfOk result (λ found. AreRows found.rows) }
    ensures mark { IfOk result (λ found. IsMark found.point) }
    ensures damaged { (place : ℕ) → IsErrOf result (StoreFault.Damaged place) → (read : List ℕ) → D.content disk.old ≡ Some read → size ≡ length read → 129 ≤ size → IsDamaged read place }
    ensures content { D.content disk.new ≡ D.content disk.old }
    ensures quiet { IsQuiet clock.old clock.new (D.left disk.old) (D.left disk.new) (D.last disk.old) (D.last disk.new) }
    ensures not_spent { IsErrOf result StoreFault.Spent → ⊥ }
    ensures fault { IsErrOf result StoreFault.Fault → Rose (D.faults disk.old) (D.faults disk.new) }
    ensures faults { D.faults disk.old ≤ D.faults disk.new }
{
    let headers = match read_bytes(alloc, disk, clock, 0, 128) {
        Ok(headers) => headers,
        Err(fault) => return Err(fault),
    };
    match choose(&headers) {
        None => Ok(nothing(alloc)),
        Some(second) => read_point(alloc, disk, clock, size, &headers, second),
    }
}

/// Finds the valid point of a disk on which nothing is pending. A file without headers gets them.
pub(crate) fn find<D: Disk>(
    alloc: Global,
    disk: &mut D,
    clock: &mut Clock,
) -> Result<Found, StoreFault>
    requires { IfSome (D.content disk.old) (λ read. (image : List ℕ) → D.left disk.old (D.last disk.old) image → image ≡ read) }
    ensures found { IfOk result (λ found. (read : List ℕ) → D.content disk.old ≡ Some read → (p : Option PointAt) × PointIs read p × (found.point ≡ mark_of (unwrap_or p no_point))
        × (found.rows ≡ (unwrap_or p no_point).rows) × AreKept (D.left disk.new (D.last disk.new)) found.valid found.spare_open p) }
    ensures rows { IfOk result (λ found. AreRows found.rows) }
    ensures mark { IfOk result (λ found. IsMark found.point) }
    ensures damaged { (place : ℕ) → IsErrOf result (StoreFault.Damaged place) → (read : List ℕ) → D.content disk.old ≡ Some read → IsDamaged read place }
    ensures stop { (read : List ℕ) → D.content disk.old ≡ Some read → D.last disk.old ≤ clock.old
        → Leaves clock.old (D.left disk.old) (D.left disk.new) (λ m image. HoldsSame PointIs read image) }
    ensures not_spent { IsErrOf result StoreFault.Spent → ⊥ }
    ensures fault { IsErrOf result StoreFault.Fault → Rose (D.faults disk.old) (D.faults disk.new) }
    ensures faults { D.faults disk.old ≤ D.faults disk.new }
    ensures told { is_some (D.content disk.new) ≡ is_some (D.content disk.old) }
    ensures clock { clock.old ≤ clock.new }
    ensures in_time { D.last disk.old ≤ clock.old → D.last disk.new ≤ clock.new }
{
    let size = match disk.length(clock) {
        Ok(size) => size,
        Err(_) => return Err(StoreFault::Fault),
    };
    if size > 128 {
        return read_valid(alloc, disk, clock, size);
    }
    match make_anew(disk, clock) {
        Ok(()) => Ok(nothing(alloc)),
        Err(_) => Err(StoreFault::Fault),
    }
}
