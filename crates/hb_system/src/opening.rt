// The opening of a system.
ghost use Rattle.std.specs.Prelude.{◌≡◌, ◌+◌, ◌*◌, ◌≤◌, ℕ, vec_len, vec_capacity, IfOk, IfErr};
ghost use Rattle.hb_reach.specs.Names.{AreNumbered};
ghost use Rattle.hb_reach.specs.Told.{meanings};
ghost use Rattle.hb_system.specs.Opening.{HasFailed, IsRefused, IsOpened, line_of, status_of};
ghost use Rattle.hb_system.specs.Variants.{of_kind};

use crate::made::{OfDisks, OfLog};
use crate::node::SystemNode;
use crate::refusal::{Refusal, inspect_all};
use crate::seating::{into_disks, seat};
use crate::starting::{NotStarted, start_nodes};
use hb_edge::{Clock, Disk};
use hb_model::Line;
use hb_node::Node;
use hb_types::NoMemory;
use std::alloc::Global;

/// The nodes of a system by their numbers, and room for their disks when they are given back.
#[derive(Drop)]
pub struct System<D: Disk, F: Node, S: Node> {
    pub nodes: Vec<SystemNode<F, S>>,
    pub slots: Vec<D>,
}

/// A system that isn't opened: the exit status, what is told of it, and all disks in their order.
#[derive(Drop)]
pub struct Refused<D: Disk> {
    pub status: u8,
    pub told: Option<Line>,
    pub disks: Vec<D>,
}

fn refuse<D: Disk>(refusal: Refusal, disks: Vec<D>) -> Refused<D>
    requires { (at : ℕ) → refusal ≡ Refusal.Damaged at → at ≤ 100 }
    ensures { result ≡ record { status = status_of refusal; told = line_of refusal; disks = disks } }
{
    Refused {
        status: refusal.status(),
        told: refusal.told(),
        disks,
    }
}

/// Room for the nodes, and for one disk more.
fn room<D: Disk, N>(alloc: Global, disks: &mut Vec<D>) -> Result<Vec<N>, NoMemory>
    requires { 1 ≤ vec_len disks.old }
    ensures nodes { IfOk result (λ nodes. (vec_len nodes ≡ 0) × (vec_len disks.old + 1 ≤ 2 * vec_capacity nodes)) }
    ensures disks { disks.new.items ≡ disks.old.items }
    ensures slots { IfOk result (λ _. vec_len disks.old + 1 ≤ vec_capacity disks.new) }
{
    disks.reserve(1)?;
    Ok(Vec::with_capacity(alloc, disks.len())?)
}

/// Opens a system: its disks are synced and found to be empty, and its nodes are made and started.
pub fn open<D: Disk, F: OfLog<D>, S: OfDisks<D>>(
    alloc: Global,
    disks: Vec<D>,
    clock: &mut Clock,
) -> Result<System<D, F, S>, Refused<D>>
    ensures refused { IfErr result (λ r. IsRefused D.content D.last D.faults (HasFailed D.left D.faults F.leaves S.leaves F.faults S.faults) clock.old clock.new disks.items r.status r.told r.disks.items) }
    ensures opened { IfOk result (λ s. IsOpened D.content D.last (meanings (of_kind F.named S.named) (of_kind F.trail S.trail) (of_kind F.explains S.explains) (of_kind F.leaves S.leaves) (of_kind F.last S.last)) clock.old clock.new disks.items s.nodes.items) }
    ensures numbered { IfOk result (λ s. AreNumbered (of_kind F.named S.named) s.nodes.items) }
    ensures slots { IfOk result (λ s. (vec_len s.slots ≡ 0) × (2 * vec_len s.nodes ≤ vec_capacity s.slots)) }
    ensures clock { clock.old ≤ clock.new }
{
    let mut disks = disks;
    match inspect_all(&mut disks, clock) {
        Ok(()) => {}
        Err(refusal) => return Err(refuse(refusal, disks)),
    }
    let mut nodes = match room(alloc, &mut disks) {
        Ok(nodes) => nodes,
        Err(NoMemory) => return Err(refuse(Refusal::Memory, disks)),
    };
    seat(alloc, &mut disks, &mut nodes);
    match start_nodes(&mut nodes, clock) {
        Ok(()) => Ok(System {
            nodes,
            slots: disks,
        }),
        Err(NotStarted::Fault) => Err(refuse(Refusal::Start, into_disks(nodes, disks))),
        Err(NotStarted::Memory) => Err(refuse(Refusal::Memory, into_disks(nodes, disks))),
    }
}
