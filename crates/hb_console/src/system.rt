// A run over the disks of a system, whatever its nodes are made of.
ghost use Rattle.std.specs.Prelude.{◌≡◌, ◌≤◌, ◌+◌, ◌*◌, Result, [], length, vec_len, vec_capacity};
ghost use Rattle.hb_stepper.specs.Running.{Running};
ghost use Rattle.hb_acts.specs.declared.stop.Stop.{Stop as AnyStop};
ghost use Rattle.hb_acts.specs.Outside.{seen};
ghost use Rattle.hb_acts.specs.Runs.{Runs};
ghost use Rattle.hb_acts.specs.Stops.{status_of};
ghost use Rattle.hb_reach.specs.Names.{AreNumbered};
ghost use Rattle.hb_reach.specs.Told.{meanings};
ghost use Rattle.hb_system.specs.Opening.{HasFailed};
ghost use Rattle.hb_system.specs.Variants.{of_kind};
ghost use Rattle.hb_console.specs.Ends.{AreStarted, Ends, IsOrigin};
ghost use Rattle.hb_console.specs.Leaving.{AreLawful, SystemLeft};
ghost use Rattle.hb_console.specs.Telling.{Tells};

use crate::telling::tell;
use hb_acts::{run_nodes, status};
use hb_edge::{Clock, Disk, Sink, Source};
use hb_node::Node;
use hb_stepper::BackEnds;
use hb_system::{OfDisks, OfLog, Refused, System, close, open};
use std::alloc::Global;

/// How a command ended, and all disks, in their order.
pub struct Ended<D: Disk> {
    pub status: u8,
    pub disks: Vec<D>,
}

/// A system that wasn't opened.
fn refuse<O: Sink, D: Disk>(
    alloc: Global,
    sink: &mut O,
    clock: &mut Clock,
    refused: Refused<D>,
) -> Ended<D>
    ensures told { Tells refused.told (O.held sink.old) (O.held sink.new) (O.faults sink.old) (O.faults sink.new) refused.status result.status }
    ensures count { O.faults sink.old ≤ O.faults sink.new }
    ensures clock { clock.old ≤ clock.new }
    ensures disks { result.disks ≡ refused.disks }
{
    let Refused {
        status,
        told,
        disks,
    } = refused;
    Ended {
        status: tell(alloc, sink, clock, &told, status),
        disks,
    }
}

/// Runs the script over an open system of so many back ends, and closes it.
fn run_system<S: Source, O: Sink, D: Disk, F: OfLog<D>, N: OfDisks<D>, M: Node + Drop>(
    alloc: Global,
    count: u8,
    system: System<D, F, N>,
    manager: M,
    source: &mut S,
    sink: &mut O,
    clock: &mut Clock,
) -> Ended<D>
    requires count { (1 ≤ count) × (count ≤ 8) }
    requires nodes { length system.nodes.items ≡ count + 2 }
    requires numbered { AreNumbered (of_kind F.named N.named) system.nodes.items }
    requires slots { (vec_len system.slots ≡ 0) × (2 * vec_len system.nodes ≤ vec_capacity system.slots) }
    requires started { AreStarted (of_kind F.trail N.trail) system.nodes.items }
    requires manager { M.trail manager ≡ [] }
    ensures runs { (origin : Running) × IsOrigin count origin × (end : Running)
        × (AreLawful (meanings (of_kind F.named N.named) (of_kind F.trail N.trail) (of_kind F.explains N.explains) (of_kind F.leaves N.leaves) (of_kind F.last N.last)) clock.old system.nodes.items
        → SystemLeft D.left clock.new end.lists result.disks.items)
        × (ended : Result (Unit {0}) AnyStop) × (result.status ≡ status_of ended) × Runs origin end
        (seen S.left S.faults O.held O.faults source.old sink.old)
        (seen S.left S.faults O.held O.faults source.new sink.new)
        ended }
    ensures clock { clock.old ≤ clock.new }
    ensures disks { length result.disks.items ≡ 3 + 2 * count }
{
    let System { nodes, slots } = system;
    let back_ends = BackEnds::new(count);
    let (ended, nodes) = run_nodes(alloc, back_ends, nodes, manager, source, sink, clock);
    Ended {
        status: status(ended),
        disks: close::<D, F, N>(nodes, slots),
    }
}

/// Opens the system of these disks, runs the script over it, and closes it.
pub(crate) fn run_over<S: Source, O: Sink, D: Disk, F: OfLog<D>, N: OfDisks<D>, M: Node + Drop>(
    alloc: Global,
    count: u8,
    manager: M,
    source: &mut S,
    sink: &mut O,
    disks: Vec<D>,
    clock: &mut Clock,
) -> Ended<D>
    requires count { (1 ≤ count) × (count ≤ 8) }
    requires disks { length disks.items ≡ 3 + 2 * count }
    requires manager { M.trail manager ≡ [] }
    ensures disks { length result.disks.items ≡ length disks.items }
    ensures clock { clock.old ≤ clock.new }
    ensures ends { Ends D.content D.left D.last D.faults
        (HasFailed D.left D.faults F.leaves N.leaves F.faults N.faults) clock.old clock.new count result.status
        (seen S.left S.faults O.held O.faults source.old sink.old)
        (seen S.left S.faults O.held O.faults source.new sink.new)
        disks.items result.disks.items }
{
    match open::<D, F, N>(alloc, disks, clock) {
        Err(refused) => refuse(alloc, sink, clock, refused),
        Ok(system) => run_system(alloc, count, system, manager, source, sink, clock),
    }
}
