// The nodes of a system and its disks.
ghost use Rattle.std.specs.Prelude.{◌≡◌, ◌+◌, ◌*◌, ◌≤◌, [], ◌∷◌, ◌++◌, ℕ, List, All, length, vec_len, vec_capacity};
ghost use Rattle.hb_reach.specs.Names.{AreNumbered};
ghost use Rattle.hb_reach.specs.Told.{meanings};
ghost use Rattle.hb_system.specs.Giving.{Counts, Gives};
ghost use Rattle.hb_system.specs.Making.{IsReadyAt, AreMade};
ghost use Rattle.hb_system.specs.Variants.{of_kind};

use crate::made::{OfDisks, OfLog};
use crate::node::SystemNode;
use hb_edge::Disk;
use hb_types::NodeName;
use std::alloc::Global;

/// Makes the nodes of their disks, which all are taken.
pub(crate) fn seat<D: Disk, F: OfLog<D>, S: OfDisks<D>>(
    alloc: Global,
    disks: &mut Vec<D>,
    nodes: &mut Vec<SystemNode<F, S>>,
)
    requires some { 1 ≤ vec_len disks.old }
    requires few { vec_len disks.old ≤ 19 }
    requires none { vec_len nodes.old ≡ 0 }
    requires room { vec_len disks.old + 1 ≤ 2 * vec_capacity nodes.old }
    ensures made { (moment : ℕ) → AreMade (All (IsReadyAt D.content D.left D.last moment) disks.old.items)
        (meanings (of_kind F.named S.named) (of_kind F.trail S.trail) (of_kind F.explains S.explains) (of_kind F.leaves S.leaves) (of_kind F.last S.last)) moment nodes.new.items }
    ensures counts { (taken : List D) × (disks.old.items ≡ taken ++ disks.new.items) × Counts D.faults F.faults S.faults nodes.new.items taken }
    ensures count { 2 * vec_len nodes.new + vec_len disks.new ≡ vec_len disks.old + 1 }
    ensures few { vec_len disks.new ≤ 1 }
    ensures capacity { vec_capacity disks.new ≡ vec_capacity disks.old }
{
    let log = disks.remove(0);
    nodes.push_reserved(SystemNode::Front(F::of_log(alloc, log)));
    while disks.len() > 1 {
        let log = disks.remove(0);
        let area = disks.remove(0);
        let name = NodeName(nodes.len() as u8);
        nodes.push_reserved(SystemNode::Server(S::of_disks(alloc, name, log, area)));
    }
}

/// A node gives its disks back.
fn unseat<D: Disk, F: OfLog<D>, S: OfDisks<D>>(node: SystemNode<F, S>, slots: &mut Vec<D>)
    requires { vec_len slots.old + 2 ≤ vec_capacity slots.old }
    ensures given { (own : List D) × (slots.new.items ≡ slots.old.items ++ own) × Gives D.left F.leaves S.leaves (node ∷ []) own }
    ensures few { vec_len slots.new ≤ vec_len slots.old + 2 }
    ensures capacity { vec_capacity slots.new ≡ vec_capacity slots.old }
{
    match node {
        SystemNode::Front(front) => slots.push_reserved(front.into_log()),
        SystemNode::Server(server) => {
            let (log, area) = server.into_disks();
            slots.push_reserved(log);
            slots.push_reserved(area);
        }
    }
}

/// The disks of the nodes in their order, put into these slots.
pub(crate) fn into_disks<D: Disk, F: OfLog<D>, S: OfDisks<D>>(
    nodes: Vec<SystemNode<F, S>>,
    slots: Vec<D>,
) -> Vec<D>
    requires none { vec_len slots ≡ 0 }
    requires room { 2 * vec_len nodes ≤ vec_capacity slots }
    ensures { Gives D.left F.leaves S.leaves nodes.items result.items }
{
    let mut nodes = nodes;
    let mut slots = slots;
    while nodes.len() > 0 {
        let node = nodes.remove(0);
        unseat(node, &mut slots);
    }
    nodes.destroy_empty();
    slots
}

/// Closes a system: the disks of its nodes in their order.
pub fn close<D: Disk, F: OfLog<D>, S: OfDisks<D>>(
    nodes: Vec<SystemNode<F, S>>,
    slots: Vec<D>,
) -> Vec<D>
    requires none { vec_len slots ≡ 0 }
    requires room { 2 * vec_len nodes ≤ vec_capacity slots }
    requires some { 1 ≤ vec_len nodes }
    requires numbered { AreNumbered (of_kind F.named S.named) nodes.items }
    ensures given { Gives D.left F.leaves S.leaves nodes.items result.items }
    ensures count { vec_len result + 1 ≡ 2 * vec_len nodes }
{
    into_disks(nodes, slots)
}
