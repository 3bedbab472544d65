// The front end and the servers as a system has them.
ghost use Rattle.std.specs.Prelude.{refl};

use crate::made::{OfDisks, OfLog};
use hb_edge::Disk;
use hb_front::Front;
use hb_server::Server;
use hb_types::NodeName;
use hb_whole::Whole;
use std::alloc::Global;

impl<D: Disk> OfLog<D> for Front<D> {
    fn of_log(alloc: Global, log: D) -> Self {
        Front::new(alloc, log)
    }

    fn into_log(self) -> D {
        self.into_disk()
    }

    ghost is_first = { λ front. refl };
}

impl<D: Disk> OfDisks<D> for Server<D, Whole> {
    fn of_disks(alloc: Global, name: NodeName, log: D, area: D) -> Self {
        Server::new(alloc, name, log, area, Whole::new(alloc))
    }

    fn into_disks(self) -> (D, D) {
        self.into_disks()
    }

    ghost is_later = { λ server. server.numbered };
}
