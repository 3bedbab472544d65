// Makes the begun point the valid one.
ghost use Rattle.std.specs.Prelude.{◌≡◌, ◌⊎◌, ◌+◌, ◌≤◌, ℕ, Option, Some, None, is_some, OnOk, OnErr, IsErrOf};
ghost use Rattle.hb_edge.specs.Causes.{Rose};
ghost use Rattle.hb_edge.specs.Stops.{Leaves};
ghost use Rattle.hb_store.specs.declared.point.Point.{Point as Mark};
ghost use Rattle.hb_store.specs.Meanings.{next_point, IsOn};
ghost use Rattle.hb_disks.specs.Points.{Point as PointAt};
ghost use Rattle.hb_disks.specs.WholeImage.{PointIs};
ghost use Rattle.hb_whole.specs.Store.{rows_in, keeps_in, staged_in};

use crate::device::seal;
use crate::encode::header;
use crate::valid::Valid;
use crate::whole::Whole;
use hb_edge::{Clock, Disk};
use hb_store::{Point, StoreFault};
use hb_types::NoMemory;

impl Whole {
    /// Makes the begun point, whose image is written, the valid one.
    pub(crate) fn make_valid<D: Disk>(
        &mut self,
        disk: &mut D,
        clock: &mut Clock,
        point: Point,
        next: Valid,
    ) -> Result<(), StoreFault>
        requires begun { self.old.begun ≡ Some point }
        requires written { self.old.written ≡ Some next }
        ensures made { OnOk result (self.new ≡ record self.old { valid = Some next; spare_open = is_some self.old.valid; begun = None; written = None }) }
        ensures refused { OnErr result (self.new ≡ self.old) }
        ensures stop { (p : Option PointAt) (mark : Mark) → IsOn keeps_in staged_in (D.content disk.old) (D.left disk.old (D.last disk.old)) self.old p → self.old.begun ≡ Some mark
            → D.last disk.old ≤ clock.old
            → Leaves clock.old (D.left disk.old) (D.left disk.new) (λ m image. PointIs image p ⊎ PointIs image (Some (next_point p mark (rows_in self.old)))) }
        ensures goes_on { OnOk result ((p : Option PointAt) → IsOn keeps_in staged_in (D.content disk.old) (D.left disk.old (D.last disk.old)) self.old p
            → IsOn keeps_in staged_in (D.content disk.new) (D.left disk.new (D.last disk.new)) self.new (Some (next_point p point (rows_in self.old)))) }
        ensures no_memory { IsErrOf result StoreFault.NoMemory → (disk.new ≡ disk.old) }
        ensures no_other { (IsErrOf result StoreFault.Spent → ⊥) × ((place : ℕ) → IsErrOf result (StoreFault.Damaged place) → ⊥) }
        ensures fault { IsErrOf result StoreFault.Fault → Rose (D.faults disk.old) (D.faults disk.new) }
        ensures faults { D.faults disk.old ≤ D.faults disk.new }
        ensures told { is_some (D.content disk.new) ≡ is_some (D.content disk.old) }
        ensures clock { (clock.old ≤ clock.new) × (clock.new ≤ clock.old + 4) }
        ensures in_time { D.last disk.old ≤ clock.old → D.last disk.new ≤ clock.new }
    {
        let bytes = match header(self.alloc, next.sequence, point, next.place, next.length) {
            Ok(bytes) => bytes,
            Err(NoMemory) => return Err(StoreFault::NoMemory),
        };
        match seal(disk, clock, self.valid, &bytes) {
            Ok(()) => {
                self.spare_open = self.valid.is_some();
                self.valid = Some(next);
                self.begun = None;
                self.written = None;
                Ok(())
            }
            Err(_) => Err(StoreFault::Fault),
        }
    }
}
