// A log over a disk.
ghost use Rattle.std.specs.Prelude.{◌≡◌, ◌⊎◌, ◌↔◌, ◌+◌, ◌<◌, ◌≤◌, ◌^◌, [], ◌∷◌, ◌++◌, List, ℕ, Some, IsTrue, false, is_some, length, All, IfOk, IfErr, IfSome, OnOk, IsErrOf};
ghost use Rattle.hb_edge.specs.Causes.{Rose};
ghost use Rattle.hb_edge.specs.Stops.{Leaves};
ghost use Rattle.hb_types.specs.declared.change.LogItem.{LogItem};
ghost use Rattle.hb_types.specs.declared.change.Placed.{Placed};
ghost use Rattle.hb_types.specs.Logs.{Records};
ghost use Rattle.hb_types.specs.Records.{HasRecord, framed as spelled};
ghost use Rattle.hb_log.specs.Log.{IsSettled, IsBeforeOrAfter, IsSameOrShort};
ghost use Rattle.hb_log.specs.Standing.{Breaks};

use crate::fault::LogFault;
use crate::force::force;
use crate::start::{make_anew, read_from};
use crate::walk::{WalkFault, walk};
use hb_codec::Framed;
use hb_edge::{Clock, Disk};
use hb_types::Placed;
use std::alloc::Global;

/// A log: records one behind another, each of which counts once its gate is opened, and a closed gate.
#[derive(Drop)]
pub struct Log<D: Disk> {
    pub(crate) disk: D,
    /// The place of the closed gate.
    end: u64,
    items: Vec<Placed>,
    closed: bool,
}

impl<D: Disk> Log<D> {
    /// Reads the opened records from a place on, in one piece. A log of fewer than 7 bytes is made anew.
    pub fn start(
        alloc: Global,
        disk: D,
        clock: &mut Clock,
        from: u64,
    ) -> Result<Log<D>, (LogFault, D)>
        requires { IfSome (D.content disk) (λ read. (image : List ℕ) → D.left disk (D.last disk) image → image ≡ read) }

        // Its items are the records of the disk as it reads.
        ensures items { IfOk result (λ log. (read : List ℕ) → D.content disk ≡ Some read → Records read from log.items.items) }
        ensures settled { IfOk result (λ log. (read : List ℕ) → D.content disk ≡ Some read → D.last disk ≤ clock.old → (from ≡ 0) ⊎ ((from < length read) × (7 ≤ length read))
            → IsSettled D.content D.left D.last from log.items.items log) }

        // Each is in the grammar, also where the disk tells nothing.
        ensures recorded { IfOk result (λ log. All (λ p. HasRecord p.item) log.items.items) }

        // At every moment, and after an Err, each image left is the disk as it read, or both have fewer than 7 bytes.
        ensures stop { IfOk result (λ log. (read : List ℕ) → D.content disk ≡ Some read → D.last disk ≤ clock.old → Leaves clock.old (D.left disk) (D.left log.disk) (λ m image. IsSameOrShort read image)) }
        ensures stop_err { IfErr result (λ e. (read : List ℕ) → D.content disk ≡ Some read → D.last disk ≤ clock.old → Leaves clock.old (D.left disk) (D.left e.1) (λ m image. IsSameOrShort read image)) }

        // A log of 7 bytes or more reads as before, and so does each after an Err that is no fault.
        ensures content { IfOk result (λ log. (read : List ℕ) → D.content disk ≡ Some read → 7 ≤ length read → D.content log.disk ≡ Some read) }
        ensures content_err { IfErr result (λ e. (e.0 ≡ LogFault.Fault → ⊥) → D.content e.1 ≡ D.content disk) }
        ensures told { IfOk result (λ log. is_some (D.content log.disk) ≡ is_some (D.content disk)) }
        ensures told_err { IfErr result (λ e. is_some (D.content e.1) ≡ is_some (D.content disk)) }

        // One of fewer bytes is made anew, unless the disk fails.
        ensures short { IfErr result (λ e. (read : List ℕ) → D.content disk ≡ Some read → length read < 7 → e.0 ≡ LogFault.Fault) }

        // Where an opened record isn't in the grammar, its place.
        ensures damaged { IfErr result (λ e. (place : ℕ) → e.0 ≡ LogFault.Damaged place → (read : List ℕ) → D.content disk ≡ Some read → (7 ≤ length read) × Breaks read from place) }
        ensures fault { IfErr result (λ e. e.0 ≡ LogFault.Fault → Rose (D.faults disk) (D.faults e.1)) }
        ensures not_closed { IfErr result (λ e. e.0 ≡ LogFault.Closed → ⊥) }
        ensures fresh { IfOk result (λ log. log.closed ≡ false) }
        ensures count { IfOk result (λ log. D.faults disk ≤ D.faults log.disk) }
        ensures count_err { IfErr result (λ e. D.faults disk ≤ D.faults e.1) }

        // It makes at most four device calls: the bytes are read by one, or the log is made anew by three.
        ensures clock { (clock.old ≤ clock.new) × (clock.new ≤ clock.old + 4) }
        ensures in_time { IfOk result (λ log. D.last disk ≤ clock.old → D.last log.disk ≤ clock.new) }
        ensures in_time_err { IfErr result (λ e. D.last disk ≤ clock.old → D.last e.1 ≤ clock.new) }
    {
        let mut disk = disk;
        let size = match disk.length(clock) {
            Ok(size) => size,
            Err(_) => return Err((LogFault::Fault, disk)),
        };
        if size < 7 {
            return match make_anew(&mut disk, clock) {
                Ok(()) => Ok(Log {
                    disk,
                    end: 0,
                    items: Vec::new(alloc),
                    closed: false,
                }),
                Err(_) => Err((LogFault::Fault, disk)),
            };
        }
        let bytes = match read_from(alloc, &mut disk, clock, from, size) {
            Ok(bytes) => bytes,
            Err(fault) => return Err((fault, disk)),
        };
        match walk(alloc, &bytes, from) {
            Ok((items, end)) => Ok(Log {
                disk,
                end,
                items,
                closed: false,
            }),
            Err(WalkFault::Damaged(place)) => Err((LogFault::Damaged { place }, disk)),
            Err(WalkFault::NoMemory) => Err((LogFault::NoMemory, disk)),
        }
    }

    /// Adds a record by four device calls, and answers its place.
    pub fn append(&mut self, clock: &mut Clock, framed: &Framed) -> Result<u64, LogFault>
        requires { self.old.end + 1 + length framed.now ≤ 2 ^ 62 }

        ensures place { IfOk result (λ place. place ≡ self.old.end) }
        ensures end { OnOk result (self.new.end ≡ self.old.end + length framed.now) }

        // A stop at any moment since the start of the call leaves the records from before, or these and the new one.
        ensures stop { (from : ℕ) (placed : List Placed) (item : LogItem) → IsSettled D.content D.left D.last from placed self.old → D.last self.old.disk ≤ clock.old
            → HasRecord item → framed.now ≡ spelled item ++ 0 ∷ []
            → Leaves clock.old (D.left self.old.disk) (D.left self.new.disk) (λ m image. IsBeforeOrAfter from placed (record { place = self.old.end; item = item }) image) }
        // After Ok only the latter.
        ensures acknowledged { OnOk result ((from : ℕ) (placed : List Placed) (item : LogItem) → IsSettled D.content D.left D.last from placed self.old → D.last self.old.disk ≤ clock.old
            → HasRecord item → framed.now ≡ spelled item ++ 0 ∷ []
            → IsSettled D.content D.left D.last from (placed ++ record { place = self.old.end; item = item } ∷ []) self.new) }

        ensures closed { IsErrOf result LogFault.Closed ↔ IsTrue self.old.closed }
        ensures fault { IsErrOf result LogFault.Fault → Rose (D.faults self.old.disk) (D.faults self.new.disk) × IsTrue self.new.closed }
        ensures no_other { (IsErrOf result LogFault.NoMemory → ⊥) × ((place : ℕ) → IsErrOf result (LogFault.Damaged place) → ⊥) }
        ensures still_closed { IsTrue self.old.closed → (self.new ≡ self.old) × (clock.new ≡ clock.old) }
        ensures still_open { OnOk result (self.new.closed ≡ false) }
        ensures items { self.new.items ≡ self.old.items }
        ensures told { is_some (D.content self.new.disk) ≡ is_some (D.content self.old.disk) }
        ensures count { D.faults self.old.disk ≤ D.faults self.new.disk }
        ensures clock { (clock.old ≤ clock.new) × (clock.new ≤ clock.old + 4) }
        ensures in_time { D.last self.old.disk ≤ clock.old → D.last self.new.disk ≤ clock.new }
    {
        self.append_bytes(clock, framed.as_slice())
    }

    /// Adds a record by four device calls, its bytes with the closed gate behind it, and answers its place.
    pub fn append_bytes(&mut self, clock: &mut Clock, framed: &[u8]) -> Result<u64, LogFault>
        requires { self.old.end + 1 + length framed.now ≤ 2 ^ 62 }

        ensures place { IfOk result (λ place. place ≡ self.old.end) }
        ensures end { OnOk result (self.new.end ≡ self.old.end + length framed.now) }

        // A stop at any moment since the start of the call leaves the records from before, or these and the new one.
        ensures stop { (from : ℕ) (placed : List Placed) (item : LogItem) → IsSettled D.content D.left D.last from placed self.old → D.last self.old.disk ≤ clock.old
            → HasRecord item → framed.now ≡ spelled item ++ 0 ∷ []
            → Leaves clock.old (D.left self.old.disk) (D.left self.new.disk) (λ m image. IsBeforeOrAfter from placed (record { place = self.old.end; item = item }) image) }
        // They are no shorter than the disk as it read.
        ensures longer { (from : ℕ) (placed : List Placed) (settled : IsSettled D.content D.left D.last from placed self.old) → D.last self.old.disk ≤ clock.old
            → Leaves clock.old (D.left self.old.disk) (D.left self.new.disk) (λ m image. length settled.image ≤ length image) }
        // After Ok only the latter.
        ensures acknowledged { OnOk result ((from : ℕ) (placed : List Placed) (item : LogItem) → IsSettled D.content D.left D.last from placed self.old → D.last self.old.disk ≤ clock.old
            → HasRecord item → framed.now ≡ spelled item ++ 0 ∷ []
            → IsSettled D.content D.left D.last from (placed ++ record { place = self.old.end; item = item } ∷ []) self.new) }

        ensures closed { IsErrOf result LogFault.Closed ↔ IsTrue self.old.closed }
        ensures fault { IsErrOf result LogFault.Fault → Rose (D.faults self.old.disk) (D.faults self.new.disk) × IsTrue self.new.closed }
        ensures no_other { (IsErrOf result LogFault.NoMemory → ⊥) × ((place : ℕ) → IsErrOf result (LogFault.Damaged place) → ⊥) }
        ensures still_closed { IsTrue self.old.closed → (self.new ≡ self.old) × (clock.new ≡ clock.old) }
        ensures still_open { OnOk result (self.new.closed ≡ false) }
        ensures items { self.new.items ≡ self.old.items }
        ensures told { is_some (D.content self.new.disk) ≡ is_some (D.content self.old.disk) }
        ensures count { D.faults self.old.disk ≤ D.faults self.new.disk }
        ensures clock { (clock.old ≤ clock.new) × (clock.new ≤ clock.old + 4) }
        ensures in_time { D.last self.old.disk ≤ clock.old → D.last self.new.disk ≤ clock.new }
    {
        if self.closed {
            return Err(LogFault::Closed);
        }
        let place = self.end;
        match force(&mut self.disk, clock, place, framed) {
            Ok(()) => {
                self.end = place + framed.len() as u64;
                Ok(place)
            }
            Err(_) => {
                self.closed = true;
                Err(LogFault::Fault)
            }
        }
    }

    /// The records that were read at the start.
    pub fn items(&self) -> &[Placed]
        ensures { result.now ≡ self.now.items.items }
    {
        &self.items
    }

    /// The place of the closed gate, where the next record goes.
    pub fn end(&self) -> u64
        ensures { result ≡ self.now.end }
    {
        self.end
    }

    pub fn into_disk(self) -> D
        ensures { result ≡ self.disk }
    {
        let Log {
            disk,
            end: _,
            items: _,
            closed: _,
        } = self;
        disk
    }
}
