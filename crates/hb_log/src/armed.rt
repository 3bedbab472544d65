// A log over a disk with a fuse.
ghost use Rattle.std.specs.Prelude.{◌≡◌, ◌-◌, Some};

use crate::log::Log;
use hb_edge::{Disk, Fused};

impl<D: Disk> Log<Fused<D>> {
    /// Arms the fuse of its disk: the k-th call from now fails, and so do all after it. 0 counts as 1.
    pub fn arm(&mut self, k: u64)
        ensures fuse { self.new.disk.calls_left ≡ Some (k - 1) }
        ensures inner { self.new.disk.inner ≡ self.old.disk.inner }
        ensures failures { self.new.disk.failures ≡ self.old.disk.failures }
        ensures failed_at { self.new.disk.failed_at ≡ self.old.disk.failed_at }
        ensures end { self.new.end ≡ self.old.end }
        ensures items { self.new.items ≡ self.old.items }
        ensures closed { self.new.closed ≡ self.old.closed }
    {
        self.disk.arm(k);
    }
}
