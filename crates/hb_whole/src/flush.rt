// Writes the image of the begun point.
ghost use Rattle.std.specs.Prelude.{◌≡◌, ◌+◌, ◌≤◌, false, Option, Some, is_some, OnOk, OnErr};
ghost use Rattle.hb_edge.specs.Causes.{HasCause};
ghost use Rattle.hb_edge.specs.Stops.{Leaves};
ghost use Rattle.hb_store.specs.Meanings.{IsOn};
ghost use Rattle.hb_disks.specs.Points.{Point as PointAt};
ghost use Rattle.hb_disks.specs.WholeImage.{PointIs};
ghost use Rattle.hb_whole.specs.Points.{IsMade};
ghost use Rattle.hb_whole.specs.Store.{rows_in, keeps_in, staged_in};

use crate::device::put_image;
use crate::place::next_place_is_free;
use crate::valid::Valid;
use crate::whole::Whole;
use hb_edge::{Clock, Disk, Failed};

impl Whole {
    /// Writes the image of the begun point.
    pub(crate) fn write<D: Disk>(
        &mut self,
        disk: &mut D,
        clock: &mut Clock,
        next: Valid,
        image: &[u8],
    ) -> Result<(), Failed>
        requires { IsMade self.old.valid (rows_in self.old) next image.now }
        ensures written { OnOk result (self.new ≡ record self.old { spare_open = false; written = Some next }) }
        ensures refused { OnErr result (self.new ≡ self.old) }
        ensures stop { (p : Option PointAt) → IsOn keeps_in staged_in (D.content disk.old) (D.left disk.old (D.last disk.old)) self.old p → D.last disk.old ≤ clock.old
            → Leaves clock.old (D.left disk.old) (D.left disk.new) (λ m image. PointIs image p) }
        ensures goes_on { OnOk result ((p : Option PointAt) → IsOn keeps_in staged_in (D.content disk.old) (D.left disk.old (D.last disk.old)) self.old p
            → IsOn keeps_in staged_in (D.content disk.new) (D.left disk.new (D.last disk.new)) self.new p) }
        ensures cause { HasCause (D.faults disk.old) (D.faults disk.new) result }
        ensures told { is_some (D.content disk.new) ≡ is_some (D.content disk.old) }
        ensures clock { (clock.old ≤ clock.new) × (clock.new ≤ clock.old + 3) }
        ensures in_time { D.last disk.old ≤ clock.old → D.last disk.new ≤ clock.new }
    {
        next_place_is_free(self.valid, next.length);
        put_image(disk, clock, self.valid, self.spare_open, next.place, image)?;
        self.spare_open = false;
        self.written = Some(next);
        Ok(())
    }
}
