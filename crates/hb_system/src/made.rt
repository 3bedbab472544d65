// Nodes that are made of their disks.
ghost use Rattle.std.specs.Prelude.{◌≡◌, ◌+◌, ◌≤◌, [], ℕ, List, max};
ghost use Rattle.hb_node.specs.Laws.{State, serving, deciding, asked_of};
ghost use Rattle.hb_system.specs.Giving.{IsLogOf, AreDisksOf};
ghost use Rattle.hb_system.specs.Making.{IsFresh, front_origin, server_origin};

use hb_edge::Disk;
use hb_node::Node;
use hb_types::NodeName;
use std::alloc::Global;

/// A front end that is made of its log disk.
pub trait OfLog<D: Disk>: Node {
    /// A stopped one.
    fn of_log(alloc: Global, log: D) -> Self
        ensures trail { Self.trail result ≡ [] }
        ensures explained { IsFresh D.content D.left D.last log → Self.explains result front_origin [] }
        ensures last { Self.last result ≤ D.last log }
        ensures faults { Self.faults result ≡ D.faults log };

    /// Its log disk, whatever became of it.
    fn into_log(self) -> D
        ensures { IsLogOf D.left Self.leaves self result };

    /// It is number 0.
    ghost is_first: { (node : Self) → Self.named node ≡ 0 };
}

/// A dictionary server or a back end that is made of its log disk and its area disk.
pub trait OfDisks<D: Disk>: Node {
    /// A stopped one.
    fn of_disks(alloc: Global, name: NodeName, log: D, area: D) -> Self
        requires { (1 ≤ name.0) × (name.0 ≤ 9) }
        ensures name { Self.named result ≡ name.0 }
        ensures trail { Self.trail result ≡ [] }
        ensures explained { IsFresh D.content D.left D.last log → IsFresh D.content D.left D.last area → Self.explains result server_origin [] }
        ensures last { Self.last result ≤ max (D.last log) (D.last area) }
        ensures faults { Self.faults result ≡ D.faults log + D.faults area };

    /// Its log disk and its area disk, whatever became of it.
    fn into_disks(self) -> (D, D)
        ensures { AreDisksOf D.left Self.leaves self result.0 result.1 };

    /// It isn't number 0.
    ghost is_later: { (node : Self) → 1 ≤ Self.named node };
}
